//! The array of the bytes that are read ahead.
ghost use Rattle.std.specs.Prelude.{◌≡◌, ◌<◌, length};
ghost use Rattle.std.specs.Io.{ReadsAtMost};
ghost use Rattle.std.specs.Io.KnownBytes.{ReadConsumes};
ghost use Rattle.http_text.specs.Arrays.{bytes_of};

use std::alloc::Global;
use std::io;
use std::io::Read;

/// The most bytes that the first read takes, which most messages don't have.
const FIRST_READ: usize = 1_536;

/// The most bytes that a later read takes.
const LATER_READ: usize = 8_192;

/// An array for the bytes that are read ahead. It is cleared before it is used, so the long one is taken only once a
/// read has filled the short one. It is on the heap, because an enum is cleared whole.
#[derive(Drop)]
pub(crate) enum AheadArray {
    Short([u8; FIRST_READ]),
    Long(Box<[u8; LATER_READ]>),
}

impl AheadArray {
    pub(crate) fn new() -> AheadArray {
        AheadArray::Short([0; FIRST_READ])
    }

    pub(crate) fn as_slice(&self) -> &[u8]
        ensures { result.now ≡ bytes_of self.now }
    {
        match self {
            AheadArray::Short(bytes) => bytes.as_slice(),
            AheadArray::Long(bytes) => bytes.as_slice(),
        }
    }

    /// Takes the long array, if the last read filled the short one and there is memory for it.
    pub(crate) fn grow(&mut self, alloc: Global, last: usize) {
        if let AheadArray::Short(bytes) = self
            && bytes.len() == last
            && let Ok(long) = Box::new(alloc, [0; LATER_READ])
        {
            *self = AheadArray::Long(long);
        }
    }

    /// One read, over the bytes of the one before.
    pub(crate) fn fill<R: Read>(&mut self, reader: &mut R) -> io::Result<usize>
        ensures bound { ReadsAtMost result (bytes_of self.new) }
        ensures bytes { ReadConsumes (R.remaining reader.old) (R.remaining reader.new) result
            (bytes_of self.new) }
        ensures room { 0 < length (bytes_of self.new) }
    {
        match self {
            AheadArray::Short(bytes) => reader.read(bytes),
            AheadArray::Long(bytes) => reader.read(&mut **bytes),
        }
    }
}

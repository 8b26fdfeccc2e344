//! A reader of which some bytes were read before.
ghost use Rattle.std.specs.Prelude.{◌≡◌};
ghost use Rattle.std.specs.Io.{ReadsAtMost};
ghost use Rattle.std.specs.Io.KnownBytes.{ReadConsumes, prepend_known};
ghost use Rattle.connection.specs.Streams.{after_ahead};

use std::io;
use std::io::Read;

/// A reader of which some bytes were read before: these come first.
#[derive(Drop)]
pub struct AheadReader<R: Drop> {
    /// The number of the connection that is read.
    pub(crate) number: usize,
    ahead: Vec<u8>,
    /// How many of these bytes were given.
    given: usize,
    reader: R,
}

impl<R: Read + Drop> AheadReader<R> {
    pub(crate) fn new(number: usize, ahead: Vec<u8>, reader: R) -> Self
        ensures number { result.number ≡ number }
        ensures bytes { after_ahead result.ahead.items result.given (R.remaining result.reader)
            ≡ prepend_known ahead.items (R.remaining reader) }
        ensures ahead { result.ahead ≡ ahead }
        ensures given { result.given ≡ 0 }
    {
        AheadReader {
            number,
            ahead,
            given: 0,
            reader,
        }
    }
}

impl<R: Read + Drop> Read for AheadReader<R> {
    ghost use Rattle.connection.specs.Streams.{after_ahead};

    ghost remaining = { λ s. after_ahead s.ahead.items s.given (R.remaining s.reader) };

    fn read(&mut self, buffer: &mut [u8]) -> io::Result<usize>
        ensures bound { ReadsAtMost result buffer.new }
        ensures bytes { ReadConsumes
            (after_ahead self.old.ahead.items self.old.given (R.remaining self.old.reader))
            (after_ahead self.new.ahead.items self.new.given (R.remaining self.new.reader))
            result buffer.new }
    {
        if self.given >= self.ahead.len() {
            return self.reader.read(buffer);
        }
        let mut rest = &self.ahead[self.given..];
        let count = rest.read(buffer)?;
        self.given += count;
        Ok(count)
    }
}

//! A writer that may be behind.
ghost use Rattle.std.specs.Prelude.{◌≡◌, [], ◌≤◌};
ghost use Rattle.std.specs.Io.{WritesAtMost};
ghost use Rattle.std.specs.Io.KnownBytes.{WriteAppends, append_known};

use std::alloc::Global;
use std::io;
use std::io::{ErrorKind, Write};
use std::os::fd::RawFd;
use std::time::Instant;

/// A writer that keeps what the writer below doesn't take at once.
#[derive(Drop)]
pub struct LateWriter<W: Drop> {
    /// The number of the connection, that of its descriptor, whether the system was asked about it before, and when its
    /// time is over.
    pub(crate) number: usize,
    pub(crate) descriptor: RawFd,
    pub(crate) is_known: bool,
    pub(crate) end: Instant,
    pub(crate) writer: W,
    /// What the writer below doesn't have yet.
    pub(crate) unsent: Vec<u8>,
}

impl<W: Write + Drop> LateWriter<W> {
    pub(crate) fn new(
        alloc: Global,
        number: usize,
        descriptor: RawFd,
        is_known: bool,
        end: Instant,
        writer: W,
    ) -> Self
        ensures number { result.number ≡ number }
        ensures end { result.end ≡ end }
        ensures writer { result.writer ≡ writer }
        ensures unsent { result.unsent.items ≡ [] }
    {
        LateWriter {
            number,
            descriptor,
            is_known,
            end,
            writer,
            unsent: Vec::new(alloc),
        }
    }

    /// Keeps bytes for later.
    fn keep(&mut self, bytes: &[u8]) -> io::Result<usize>
        ensures bound { WritesAtMost result bytes.now }
        ensures bytes { WriteAppends
            (append_known (W.contents self.old.writer) self.old.unsent.items)
            (append_known (W.contents self.new.writer) self.new.unsent.items) result bytes.now }
    {
        match self.unsent.extend_from_slice(bytes) {
            Ok(()) => Ok(bytes.len()),
            Err(_) => Err(io::Error::from(ErrorKind::OutOfMemory)),
        }
    }
}

impl<W: Write + Drop> Write for LateWriter<W> {
    ghost use Rattle.std.specs.Io.KnownBytes.{append_known};

    ghost contents = { λ w. append_known (W.contents w.writer) w.unsent.items };

    fn write(&mut self, bytes: &[u8]) -> io::Result<usize>
        ensures bound { WritesAtMost result bytes.now }
        ensures bytes { WriteAppends
            (append_known (W.contents self.old.writer) self.old.unsent.items)
            (append_known (W.contents self.new.writer) self.new.unsent.items) result bytes.now }
    {
        if !self.unsent.is_empty() {
            return self.keep(bytes);
        }
        match self.writer.write(bytes) {
            Err(error) if error.kind() == ErrorKind::WouldBlock => self.keep(bytes),
            outcome => outcome,
        }
    }

    fn flush(&mut self) -> io::Result<()> {
        self.writer.flush()
    }
}

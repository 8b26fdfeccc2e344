//! A reader that keeps the first bytes that came.
ghost use Rattle.std.specs.Prelude.{◌≡◌};
ghost use Rattle.std.specs.Io.{ReadsAtMost};
ghost use Rattle.std.specs.Io.KnownBytes.{ReadConsumes};

use std::io;
use std::io::{ErrorKind, Read};

/// How many bytes of an answer are kept to explain its faults. Most heads are shorter.
pub(crate) const KEPT_LIMIT: usize = 4096;

/// What came on a stream: the first bytes, how many there were, and the last error.
#[derive(Clone, Copy)]
pub struct Heard {
    first: [u8; KEPT_LIMIT],
    count: usize,
    error: Option<ErrorKind>,
}

impl Heard {
    /// Nothing came yet.
    pub(crate) fn nothing() -> Heard {
        Heard {
            first: [0; KEPT_LIMIT],
            count: 0,
            error: None,
        }
    }

    /// The first bytes.
    pub(crate) fn first(&self) -> &[u8] {
        &self.first[..self.count.min(KEPT_LIMIT)]
    }

    /// How many bytes came, up to the greatest `usize`.
    pub(crate) fn count(&self) -> usize {
        self.count
    }

    /// The last error of a read, if one failed. An interrupted read is made again, and isn't counted here.
    pub(crate) fn error(&self) -> Option<ErrorKind> {
        self.error
    }

    /// Keeps bytes that came, as far as there is room.
    fn keep(&mut self, bytes: &[u8]) {
        let room = &mut self.first[self.count.min(KEPT_LIMIT)..];
        let kept = bytes.len().min(room.len());
        room[..kept].copy_from_slice(&bytes[..kept]);
        self.count = self.count.saturating_add(bytes.len());
    }

    /// Notes that a read failed.
    fn fail(&mut self, kind: ErrorKind) {
        if !matches!(kind, ErrorKind::Interrupted) {
            self.error = Some(kind);
        }
    }
}

/// A reader that notes what came.
#[derive(Drop)]
pub struct Recording<R: Drop> {
    pub reader: R,
    pub heard: Heard,
}

impl<R: Read + Drop> Recording<R> {
    pub(crate) fn new(reader: R) -> Recording<R>
        ensures { result.reader ≡ reader }
    {
        Recording {
            reader,
            heard: Heard::nothing(),
        }
    }
}

impl<R: Read + Drop> Read for Recording<R> {
    ghost remaining = { λ recording. R.remaining recording.reader };

    fn read(&mut self, buffer: &mut [u8]) -> io::Result<usize>
        ensures bound { ReadsAtMost result buffer.new }
        ensures bytes { ReadConsumes (R.remaining self.old.reader) (R.remaining self.new.reader)
            result buffer.new }
    {
        let came = self.reader.read(buffer);
        match came {
            Ok(count) => self.heard.keep(&buffer[..count]),
            Err(error) => self.heard.fail(error.kind()),
        }
        came
    }
}

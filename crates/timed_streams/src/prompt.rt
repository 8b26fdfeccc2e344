//! A stream that nobody waits for.
ghost use Rattle.std.specs.Prelude.{◌≡◌, OnOk, min};
ghost use Rattle.std.specs.Io.{ReadsAtMost, WritesAtMost};
ghost use Rattle.std.specs.Io.KnownBytes.{ReadConsumes, WriteAppends};
ghost use Rattle.std.specs.Time.{instant_nanos};
ghost use Rattle.timed_streams.specs.Deadlines.{HadTime};

use crate::deadline::Deadline;
use std::io;
use std::io::{Read, Write};
use std::net::{OpenStream, Shutdown};
use std::time::{Clock, Instant};

/// A stream that was set not to block: a read or a write that would wait fails. Each call fails from the
/// deadline on.
#[derive(Drop)]
pub struct PromptStream<'a, S: Drop, C> {
    stream: S,
    clock: &'a C,
    deadline: Deadline,
}

impl<'a, S: Drop, C> PromptStream<'a, S, C> {
    pub fn new(stream: S, clock: &'a C, deadline: Deadline) -> Self
        ensures stream { result.stream ≡ stream }
        ensures deadline { result.deadline ≡ deadline }
    {
        PromptStream {
            stream,
            clock,
            deadline,
        }
    }

    /// Moves the deadline to this moment, if that is earlier.
    pub fn end_by(&mut self, end: Instant)
        ensures stream { self.new.stream ≡ self.old.stream }
        ensures deadline { instant_nanos self.new.deadline.end
            ≡ min (instant_nanos self.old.deadline.end) (instant_nanos end) }
    {
        self.deadline.end = self.deadline.end.min(end);
    }
}

impl<'a, S: OpenStream + Drop, C> PromptStream<'a, S, C> {
    /// Shuts down writing, so that the peer sees the end.
    pub fn shut_down(&self) {
        let _ = self.stream.shutdown(Shutdown::Write);
    }
}

impl<'a, S: Read + Drop, C: Clock> Read for PromptStream<'a, S, C> {
    ghost remaining = { λ t. S.remaining t.stream };

    fn read(&mut self, buffer: &mut [u8]) -> io::Result<usize>
        ensures bound { ReadsAtMost result buffer.new }
        ensures bytes { ReadConsumes (S.remaining self.old.stream) (S.remaining self.new.stream)
            result buffer.new }
        ensures deadline { self.new.deadline ≡ self.old.deadline }
        ensures time { OnOk result (HadTime self.old.deadline) }
    {
        self.deadline.left(self.clock)?;
        self.stream.read(buffer)
    }
}

impl<'a, S: Write + Drop, C: Clock> Write for PromptStream<'a, S, C> {
    ghost contents = { λ t. S.contents t.stream };

    fn write(&mut self, bytes: &[u8]) -> io::Result<usize>
        ensures bound { WritesAtMost result bytes.now }
        ensures bytes { WriteAppends (S.contents self.old.stream) (S.contents self.new.stream)
            result bytes.now }
        ensures deadline { self.new.deadline ≡ self.old.deadline }
        ensures time { OnOk result (HadTime self.old.deadline) }
    {
        self.deadline.left(self.clock)?;
        self.stream.write(bytes)
    }

    fn flush(&mut self) -> io::Result<()> {
        self.stream.flush()
    }
}

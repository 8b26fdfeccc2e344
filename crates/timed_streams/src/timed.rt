//! A stream with a deadline.
ghost use Rattle.std.specs.Prelude.{◌≡◌, ◌≤◌, None, IfSome, OnOk};
ghost use Rattle.std.specs.Duration.{as_nanos};
ghost use Rattle.std.specs.Io.{ReadsAtMost, WritesAtMost};
ghost use Rattle.std.specs.Io.KnownBytes.{ReadConsumes, WriteAppends};
ghost use Rattle.timed_streams.specs.Deadlines.{HadTime};
ghost use Rattle.timed_streams.specs.Limits.{longest_wait};

use crate::deadline::Deadline;
use std::io;
use std::io::{ErrorKind, Read, Write};
use std::net::{OpenStream, Shutdown};
use std::time::{Clock, Duration};

/// A stream that fails from its deadline on. No call waits longer than the remaining time, and neither do
/// many short calls together. A read that waited for a second is interrupted: the caller makes it again.
#[derive(Drop)]
pub struct TimedStream<'a, S: Drop, C> {
    stream: S,
    clock: &'a C,
    deadline: Deadline,
    /// How long a read of the stream waits, if that was set.
    read_limit: Option<Duration>,
}

impl<'a, S: Drop, C> TimedStream<'a, S, C> {
    /// A stream whose reads have no limit of their own yet.
    pub fn new(stream: S, clock: &'a C, deadline: Deadline) -> Self
        ensures stream { result.stream ≡ stream }
        ensures deadline { result.deadline ≡ deadline }
        ensures limit { result.read_limit ≡ None }
    {
        TimedStream {
            stream,
            clock,
            deadline,
            read_limit: None,
        }
    }
}

impl<'a, S: OpenStream + Drop, C: Clock> TimedStream<'a, S, C> {
    /// Lets no read wait longer than this. A limit that isn't longer stays, so one setting serves many
    /// reads.
    fn limit_reads(&mut self, left: Duration) -> io::Result<()>
        ensures limit { OnOk result
            (IfSome self.new.read_limit (λ limit. as_nanos limit ≤ as_nanos left)) }
        ensures stream { self.new.stream ≡ self.old.stream }
        ensures deadline { self.new.deadline ≡ self.old.deadline }
    {
        if self.read_limit.is_some_and(|limit| limit <= left) {
            return Ok(());
        }
        let limit = left.min(longest_wait());
        self.stream.set_read_timeout(Some(limit))?;
        self.read_limit = Some(limit);
        Ok(())
    }

    /// Shuts down writing, so that the peer sees the end.
    pub fn shut_down(&self) {
        let _ = self.stream.shutdown(Shutdown::Write);
    }
}

/// The longest time that one read of a `TimedStream` waits.
fn longest_wait() -> Duration
    ensures { as_nanos result ≡ longest_wait }
{
    Duration::from_secs(1)
}

/// The fault of a read; a wait that ended is an interruption.
fn interruption(error: io::Error) -> io::Error {
    match error.kind() {
        ErrorKind::WouldBlock => io::Error::from(ErrorKind::Interrupted),
        _ => error,
    }
}

impl<'a, S: Read + OpenStream + Drop, C: Clock> Read for TimedStream<'a, S, C> {
    ghost remaining = { λ t. S.remaining t.stream };

    fn read(&mut self, buffer: &mut [u8]) -> io::Result<usize>
        ensures bound { ReadsAtMost result buffer.new }
        ensures bytes { ReadConsumes (S.remaining self.old.stream) (S.remaining self.new.stream)
            result buffer.new }
        ensures deadline { self.new.deadline ≡ self.old.deadline }
        ensures time { OnOk result (HadTime self.old.deadline) }
    {
        let left = self.deadline.left(self.clock)?;
        self.limit_reads(left)?;
        self.stream.read(buffer).map_err(interruption)
    }
}

impl<'a, S: Write + OpenStream + Drop, C: Clock> Write for TimedStream<'a, S, C> {
    ghost contents = { λ t. S.contents t.stream };

    fn write(&mut self, bytes: &[u8]) -> io::Result<usize>
        ensures bound { WritesAtMost result bytes.now }
        ensures bytes { WriteAppends (S.contents self.old.stream) (S.contents self.new.stream)
            result bytes.now }
        ensures deadline { self.new.deadline ≡ self.old.deadline }
        ensures time { OnOk result (HadTime self.old.deadline) }
    {
        let limit = self.deadline.left(self.clock)?;
        self.stream.set_write_timeout(Some(limit))?;
        self.stream.write(bytes)
    }

    fn flush(&mut self) -> io::Result<()> {
        self.stream.flush()
    }
}

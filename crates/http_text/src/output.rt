//! A writer that counts its writes and flushes.
ghost use Rattle.std.specs.Prelude.{◌≡◌, ◌<◌, is_ok, length};
ghost use Rattle.std.specs.Io.KnownBytes.{Keeps};
ghost use Rattle.http_text.specs.Counts.{count_up};
ghost use Rattle.http_text.specs.Streams.{Writes, write_turn, write_failures, flush_failures};

use crate::counts::count;
use std::io::{ErrorKind, Write};
use std::marker::Model;

/// A writer that counts its writes and flushes and the failed ones, each up to the greatest `u64`. An
/// interrupted write isn't a failure; an interrupted flush is, and so is a write that takes no byte.
#[derive(Drop)]
pub struct Output<W: Write> {
    writer: W,
    calls: u64,
    failures: u64,
    flushes: u64,
}

/// The result of one write.
#[derive(Clone, Copy)]
pub(crate) enum WriteTurn {
    Taken(usize),
    Interrupted,
    Failed,
}

impl<W: Write> Model for Output<W> {
    ghost use Rattle.http_text.specs.Counts.{Writing};

    ghost Value = { Writing };

    ghost view = { λ s. record {
      contents = W.contents s.writer;
      calls = s.calls;
      failures = s.failures;
      flushes = s.flushes;
    } };
}

impl<W: Write> Output<W> {
    /// A writer that has counted nothing yet. Pass it `&mut writer` to get the writer back.
    pub fn new(writer: W) -> Output<W>
        ensures { result ≡ record {
          contents = W.contents writer;
          calls = 0;
          failures = 0;
          flushes = 0;
        } }
    {
        Output {
            writer,
            calls: 0,
            failures: 0,
            flushes: 0,
        }
    }

    /// The writer itself.
    pub fn into_inner(self) -> W
        ensures { W.contents result ≡ self.contents }
    {
        self.writer
    }

    pub(crate) fn write(&mut self, bytes: &[u8]) -> WriteTurn
        requires { 0 < length bytes.now }
        ensures bytes { Writes self.old.contents self.new.contents bytes.now result }
        ensures calls { self.new.calls ≡ count_up self.old.calls 1 }
        ensures failures { self.new.failures ≡ count_up self.old.failures (write_failures result) }
        ensures flushes { self.new.flushes ≡ self.old.flushes }
    {
        count(&mut self.calls);
        let outcome = self.writer.write(bytes);
        let turn = turn_of(outcome.map_err(|error| error.kind()));
        if matches!(turn, WriteTurn::Failed) {
            count(&mut self.failures);
        }
        turn
    }

    /// Whether the flush succeeded.
    pub(crate) fn flush(&mut self) -> bool
        ensures bytes { Keeps self.old.contents self.new.contents }
        ensures calls { self.new.calls ≡ count_up self.old.calls 1 }
        ensures failures { self.new.failures ≡ count_up self.old.failures (flush_failures result) }
        ensures flushes { self.new.flushes ≡ count_up self.old.flushes 1 }
    {
        count(&mut self.calls);
        count(&mut self.flushes);
        let is_flushed = is_flushed(self.writer.flush().map_err(|error| error.kind()));
        if !is_flushed {
            count(&mut self.failures);
        }
        is_flushed
    }
}

/// What a write means: taking no byte is a failure, and an interrupted write is made again.
fn turn_of(outcome: Result<usize, ErrorKind>) -> WriteTurn
    ensures { result ≡ write_turn outcome }
{
    match outcome {
        Ok(0) => WriteTurn::Failed,
        Ok(count) => WriteTurn::Taken(count),
        Err(ErrorKind::Interrupted) => WriteTurn::Interrupted,
        Err(_) => WriteTurn::Failed,
    }
}

/// Whether a flush succeeded. An interrupted flush didn't.
fn is_flushed(outcome: Result<(), ErrorKind>) -> bool
    ensures { result ≡ is_ok outcome }
{
    outcome.is_ok()
}

//! A reader that counts its reads and reads ahead.
ghost use Rattle.std.specs.Prelude.{◌≡◌, ◌≤◌, [], length, take, drop, Result};
ghost use Rattle.std.specs.Io.KnownBytes.{Keeps, Consumes, prepend_known};
ghost use Rattle.http_text.specs.Counts.{count_up};
ghost use Rattle.http_text.specs.Streams.{Looks, read_turn, read_failures};

use crate::arrays::AheadArray;
use crate::counts::count;
use std::alloc::Global;
use std::io::{ErrorKind, Read};
use std::marker::Model;

/// A reader that counts its reads and its failed reads, each up to the greatest `u64`. An interrupted read
/// isn't a failure. It reads ahead into its own array, so that taking a byte needs no call of the reader.
/// Bytes that were read ahead and not taken still count as remaining.
#[derive(Drop)]
pub struct Input<R: Read> {
    reader: R,
    array: AheadArray,
    start: usize,
    end: usize,
    reads: u64,
    failed_reads: u64,
}

/// The result of one read.
#[derive(Clone, Copy)]
pub(crate) enum ReadTurn {
    Bytes(usize),
    End,
    Interrupted,
    Failed,
}

impl<R: Read> Model for Input<R> {
    ghost use Rattle.std.specs.Prelude.{◌≤◌, length, slice_range};
    ghost use Rattle.std.specs.Io.KnownBytes.{prepend_known};
    ghost use Rattle.http_text.specs.Arrays.{bytes_of};
    ghost use Rattle.http_text.specs.Counts.{Reading};

    ghost Value = { Reading };

    ghost view = { λ s. record {
      remaining = prepend_known (slice_range (bytes_of s.array) s.start s.end) (R.remaining s.reader);
      ahead = slice_range (bytes_of s.array) s.start s.end;
      calls = s.reads;
      failures = s.failed_reads;
    } };

    ghost invariant = { λ s. (s.start ≤ s.end) × (s.end ≤ length (bytes_of s.array)) };
}

impl<R: Read> Input<R> {
    /// A reader that has counted nothing yet. Pass it `&mut reader` to get the reader back.
    pub fn new(reader: R) -> Input<R>
        ensures { result
            ≡ record { remaining = R.remaining reader; ahead = []; calls = 0; failures = 0 } }
    {
        Input {
            reader,
            array: AheadArray::new(),
            start: 0,
            end: 0,
            reads: 0,
            failed_reads: 0,
        }
    }

    /// The reader itself. Bytes that were read ahead are lost with this call: take them from `ahead` first.
    pub fn into_inner(self) -> R
        ensures { self.remaining ≡ prepend_known self.ahead (R.remaining result) }
    {
        self.reader
    }

    /// The bytes that were read ahead and not taken yet; they come first among the remaining bytes.
    pub fn ahead(&self) -> &[u8]
        ensures { result.now ≡ self.now.ahead }
    {
        &self.array.as_slice()[self.start..self.end]
    }

    /// How many reads were made.
    pub fn calls(&self) -> u64
        ensures { result ≡ self.now.calls }
    {
        self.reads
    }

    /// Takes `count` of the bytes that were read ahead.
    pub(crate) fn take(&mut self, count: usize)
        requires { count ≤ length self.old.ahead }
        ensures bytes { Consumes self.old.remaining self.new.remaining (take count self.old.ahead) }
        ensures ahead { self.new.ahead ≡ drop count self.old.ahead }
        ensures calls { self.new.calls ≡ self.old.calls }
        ensures failures { self.new.failures ≡ self.old.failures }
    {
        self.start += count;
    }

    /// Reads ahead, if no bytes are there from an earlier read.
    pub(crate) fn look(&mut self, alloc: Global) -> ReadTurn
        requires { self.old.ahead ≡ [] }
        ensures kept { Keeps self.old.remaining self.new.remaining }
        ensures found { Looks self.new result }
        ensures calls { self.new.calls ≡ count_up self.old.calls 1 }
        ensures failures { self.new.failures ≡ count_up self.old.failures (read_failures result) }
    {
        count(&mut self.reads);
        self.array.grow(alloc, self.end);
        self.start = 0;
        self.end = 0;
        let outcome = self.array.fill(&mut self.reader);
        let turn = turn_of(outcome.map_err(|error| error.kind()));
        match turn {
            ReadTurn::Bytes(length) => self.end = length,
            ReadTurn::Failed => count(&mut self.failed_reads),
            ReadTurn::End | ReadTurn::Interrupted => {}
        }
        turn
    }
}

/// What a read means: no bytes are the end, and an interrupted read is made again.
fn turn_of(outcome: Result<usize, ErrorKind>) -> ReadTurn
    ensures { result ≡ read_turn outcome }
{
    match outcome {
        Ok(0) => ReadTurn::End,
        Ok(length) => ReadTurn::Bytes(length),
        Err(ErrorKind::Interrupted) => ReadTurn::Interrupted,
        Err(_) => ReadTurn::Failed,
    }
}

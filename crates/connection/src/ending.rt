//! A connection that was served, up to its end.
ghost use Rattle.std.specs.Prelude.{◌≡◌, ◌<◌, [], false, true, vec_capacity, OnOk};
ghost use Rattle.std.specs.Io.KnownBytes.{Keeps};
ghost use Rattle.connection.specs.Endings.{BeginsWith, IsStill, MovesOn, is_sent, rate};
ghost use Rattle.connection.specs.Streams.{with_unsent};

use crate::late::LateWriter;
use crate::limits::{drain_pause, drain_time, granted};
use crate::watch::Watch;
use std::io;
use std::io::{ErrorKind, Read, Write};
use std::net::OpenStream;
use std::os::fd::RawFd;
use std::time::{Clock, Instant};
use timed_streams::PromptStream;

/// The most bytes that one look discards.
const DRAIN_READ: usize = 16_384;

/// A connection that was served. The rest of its answer is sent as its peer takes it. Then what the peer
/// still sends is discarded for a while: closing a stream while its peer sends resets it, and the peer may
/// lose its answer.
#[derive(Drop)]
pub(crate) struct Ending<'a, S: Drop, C> {
    /// The number of the connection, and that of its descriptor.
    number: usize,
    descriptor: RawFd,
    /// Whether the system was asked about its stream before.
    is_known: bool,
    stream: PromptStream<'a, S, C>,
    unsent: Vec<u8>,
    /// How many of the unsent bytes were sent since.
    sent: usize,
    /// When it was kept.
    began: Instant,
    /// When its time is over.
    end: Instant,
    /// When to look again: once something may have come or be taken, or its time is over.
    next: Instant,
}

/// What a look at an ending found.
#[derive(Clone, Copy)]
pub(crate) enum Step {
    /// Nothing moves now.
    Waits,
    /// The call was interrupted, and is made again.
    Interrupted,
    /// Something moved, and more may come.
    Moves,
    /// The connection can be closed.
    Over,
}

impl<'a, S: Read + Write + OpenStream + Drop, C: Clock> Ending<'a, S, C> {
    /// The ending of a connection whose answer was written.
    pub(crate) fn new(writer: LateWriter<PromptStream<'a, S, C>>, now: Instant) -> Self
        ensures { BeginsWith writer.entry.unsent.items result }
    {
        let LateWriter {
            number,
            descriptor,
            is_known,
            end,
            writer,
            unsent,
        } = writer;
        let mut ending = Ending {
            number,
            descriptor,
            is_known,
            stream: writer,
            unsent,
            sent: 0,
            began: now,
            end,
            next: now,
        };
        if ending.is_sent() {
            ending.shut_down(now);
        }
        ending
    }

    /// Whether the whole answer was sent.
    pub(crate) fn is_sent(&self) -> bool
        ensures { result ≡ is_sent self.now }
    {
        self.sent >= self.unsent.len()
    }

    /// When its time is over.
    pub(crate) fn end(&self) -> Instant {
        self.end
    }

    /// How many bytes a second its peer has taken of the answer since it was kept. Whose answer was sent, and whose was
    /// kept a moment ago, counts as the quickest.
    pub(crate) fn rate(&self, now: Instant) -> u128
        ensures { result ≡ rate now self.now }
    {
        let age = now.duration_since(self.began);
        if self.is_sent() || age < granted() {
            return u128::MAX;
        }
        self.sent as u128 * 1_000 / age.as_millis()
    }

    /// How many bytes of memory are taken for the peer: none once its answer is sent.
    pub(crate) fn size(&self) -> usize
        ensures { result ≡ vec_capacity self.now.unsent }
    {
        self.unsent.capacity()
    }

    /// The number of the connection.
    pub(crate) fn number(&self) -> usize {
        self.number
    }

    /// When to look at it, if nothing comes before.
    pub(crate) fn next(&self) -> Instant {
        self.next
    }

    /// Notes that something may have come, or that the peer takes more.
    pub(crate) fn note(&mut self, now: Instant) {
        self.next = now;
    }

    /// Looks once, and doesn't wait: sends or discards what is there. If something moved, more may move at once.
    pub(crate) fn go_on(&mut self, watch: &Watch, now: Instant) -> Step
        ensures { MovesOn self.old self.new result }
    {
        let step = self.send_or_drain(now);
        if let Step::Waits = step {
            self.rest(watch);
        }
        step
    }

    /// Puts the next look off until something comes, or the peer takes more, or the time is over.
    fn rest(&mut self, watch: &Watch)
        ensures sent { self.new.sent ≡ self.old.sent }
        ensures unsent { self.new.unsent ≡ self.old.unsent }
    {
        if self.ask(watch).is_ok() {
            self.is_known = true;
            self.next = self.end;
        }
    }

    /// Asks the system to tell when something comes, or the peer takes more.
    fn ask(&self, watch: &Watch) -> io::Result<()> {
        if self.is_sent() {
            watch.ask_for_bytes(self.descriptor, self.number, self.is_known)
        } else {
            watch.ask_for_room(self.descriptor, self.number, self.is_known)
        }
    }

    fn send_or_drain(&mut self, now: Instant) -> Step
        ensures { MovesOn self.old self.new result }
    {
        if self.is_sent() {
            return self.drain();
        }
        match self.send() {
            Ok(()) => {
                if self.is_sent() {
                    self.shut_down(now);
                }
                Step::Moves
            }
            Err(error) => step_after(&error),
        }
    }

    /// Sends what the peer takes now of the answer.
    fn send(&mut self) -> io::Result<()>
        requires { is_sent self.old ≡ false }
        ensures sent { OnOk result (self.old.sent < self.new.sent) }
        ensures bytes { Keeps
            (with_unsent (S.contents self.old.stream.stream) self.old.unsent.items self.old.sent)
            (with_unsent (S.contents self.new.stream.stream) self.new.unsent.items self.new.sent) }
    {
        match self.stream.write(&self.unsent[self.sent..])? {
            0 => Err(io::Error::from(ErrorKind::WriteZero)),
            count => {
                self.sent += count;
                Ok(())
            }
        }
    }

    /// Frees the answer, which is sent, and lets the peer see its end. The peer has a while to send what it still
    /// sends.
    fn shut_down(&mut self, now: Instant)
        requires { is_sent self.old ≡ true }
        ensures items { self.new.unsent.items ≡ [] }
        ensures sent { self.new.sent ≡ 0 }
        ensures freed { vec_capacity self.new.unsent ≡ 0 }
    {
        self.unsent.clear();
        self.unsent.shrink_to_fit();
        self.sent = 0;
        self.stream.shut_down();
        if let Some(end) = now.checked_add(drain_time()) {
            self.end = self.end.min(end);
            self.stream.end_by(end);
        }
        if let Some(next) = now.checked_add(drain_pause()) {
            self.next = next;
        }
    }

    /// Discards what has come.
    fn drain(&mut self) -> Step {
        let mut buffer = [0; DRAIN_READ];
        match self.stream.read(&mut buffer) {
            Ok(0) => Step::Over,
            Ok(_) => Step::Moves,
            Err(error) => step_after(&error),
        }
    }
}

/// What a failed read or write means: nothing moves now, or no more can.
fn step_after(error: &io::Error) -> Step
    ensures { IsStill result }
{
    match error.kind() {
        ErrorKind::WouldBlock => Step::Waits,
        ErrorKind::Interrupted => Step::Interrupted,
        _ => Step::Over,
    }
}

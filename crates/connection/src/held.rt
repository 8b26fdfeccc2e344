//! Connections whose requests aren't whole yet.
ghost use Rattle.std.specs.Prelude.{◌≡◌};

use crate::ahead::AheadReader;
use crate::late::LateWriter;
use crate::received::Received;
use crate::searches::is_search;
use crate::watch::Watch;
use http_text::{BODY_LIMIT, HEAD_LIMIT};
use std::alloc::Global;
use std::io;
use std::io::{ErrorKind, Read, Write};
use std::net::{IpAddr, OpenStream};
use std::os::fd::AsRawFd;
use std::time::{Clock, Instant};
use timed_streams::{Deadline, PromptStream, SharedStream};

/// The most bytes that a request has.
const MOST_BYTES: usize = HEAD_LIMIT + BODY_LIMIT as usize;

/// The most bytes that the first read of a connection takes, and a later one.
pub(crate) const SHORT_READ: usize = 2_048;

const LONG_READ: usize = 16_384;

/// The most reads of one look, which are enough for a whole request.
pub(crate) const MOST_READS: u32 = 4;

/// A connection, and what its peer has sent so far.
#[derive(Drop)]
pub(crate) struct Held<S: Drop> {
    /// Its place among all that were ever accepted.
    number: usize,
    /// The address of its client.
    peer: IpAddr,
    stream: S,
    deadline: Deadline,
    /// When it was accepted.
    accepted: Instant,
    /// When to look at it again: once something may have come on it, or its time is over.
    next: Instant,
    /// Whether the system was asked about its stream before.
    is_known: bool,
    /// What came on its stream. Nothing outside of this file takes it away, or adds to it.
    received: Received,
    /// Whether no request comes any more: its time is over, or its stream failed, or ended before anything came.
    is_gone: bool,
    ghost own: { received.number ≡ number },
}

/// What a look at a connection found.
#[derive(Clone, Copy)]
pub(crate) enum Arrival {
    /// Some bytes, which don't decide yet what is answered.
    Bytes,
    Nothing,
    /// The request is whole or refused, or no more comes: the stream has ended or failed, there is no room, or out
    /// of memory.
    Last,
}

impl<S: Read + AsRawFd + Drop> Held<S> {
    ghost use Rattle.std.specs.Prelude.{◌≤◌, []};
    ghost use Rattle.std.specs.Io.KnownBytes.{Keeps, prepend_known};
    ghost use Rattle.connection.specs.Holding.{HasCome, IsLookedAtBy, IsSame, Looks, is_time};
    ghost use Rattle.connection.specs.Memory.{size_of};

    /// A connection that was accepted now.
    pub(crate) fn new(
        alloc: Global,
        number: usize,
        peer: IpAddr,
        stream: S,
        deadline: Deadline,
        now: Instant,
    ) -> Self
        ensures number { result.number ≡ number }
        ensures stream { result.stream ≡ stream }
        ensures deadline { result.deadline ≡ deadline }
        ensures accepted { result.accepted ≡ now }
        ensures next { result.next ≡ now }
        ensures received { result.received.bytes.items ≡ [] }
    {
        Held {
            number,
            peer,
            stream,
            deadline,
            accepted: now,
            next: now,
            is_known: false,
            received: Received::new(alloc, number),
            is_gone: false,
        }
    }

    pub(crate) fn number(&self) -> usize
        ensures { result ≡ self.now.number }
    {
        self.number
    }

    /// The address of its client.
    pub(crate) fn peer(&self) -> IpAddr
        ensures { result ≡ self.now.peer }
    {
        self.peer
    }

    /// Whether all rows are read for its request.
    pub(crate) fn is_search(&self, alloc: Global) -> bool {
        is_search(alloc, &self.received.bytes)
    }

    /// Whether its time is over.
    pub(crate) fn is_over(&self, now: Instant) -> bool {
        self.deadline.left_at(now).is_none()
    }

    pub(crate) fn accepted(&self) -> Instant
        ensures { result ≡ self.now.accepted }
    {
        self.accepted
    }

    pub(crate) fn next(&self) -> Instant
        ensures { result ≡ self.now.next }
    {
        self.next
    }

    /// Whether no request comes any more.
    pub(crate) fn is_gone(&self) -> bool
        ensures { result ≡ self.now.is_gone }
    {
        self.is_gone
    }

    /// Whether less has come on it than a first read takes.
    pub(crate) fn has_little(&self) -> bool {
        self.received.bytes.len() < SHORT_READ
    }

    /// How many bytes of memory its request takes.
    pub(crate) fn size(&self) -> usize
        ensures { result ≡ size_of self.now }
    {
        self.received.size()
    }

    /// Frees the memory that its request doesn't need.
    pub(crate) fn shrink(&mut self)
        ensures number { self.new.number ≡ self.old.number }
        ensures peer { self.new.peer ≡ self.old.peer }
        ensures bytes { self.new.received.bytes.items ≡ self.old.received.bytes.items }
    {
        self.received.shrink();
    }

    /// Notes that something may have come on it, so that it is time to look at it.
    pub(crate) fn note(&mut self, now: Instant)
        ensures { self.new ≡ record self.old { next = now } }
    {
        self.next = now;
    }

    /// Whether it is time to look at the connection.
    pub(crate) fn is_due(&self, now: Instant) -> bool
        ensures { result ≡ is_time now self.now }
    {
        now.checked_duration_since(self.next).is_some()
    }

    /// Whether the connection can be served: its request is whole or refused, no more comes, or its time is
    /// over. It looks now, by so many reads at most, and doesn't wait.
    pub(crate) fn is_ready(
        &mut self,
        watch: &Watch,
        alloc: Global,
        most_reads: u32,
        now: Instant,
    ) -> bool
        ensures { Looks S.remaining self.old self.new result }
    {
        if self.deadline.left_at(now).is_none() {
            self.is_gone = true;
            return true;
        }
        if let Arrival::Last = self.receive(watch, alloc, most_reads, now) {
            return true;
        }
        self.received.shrink();
        false
    }

    /// Takes what has come, up to a whole request.
    fn receive(&mut self, watch: &Watch, alloc: Global, most_reads: u32, now: Instant) -> Arrival
        ensures bytes { Keeps (prepend_known self.old.received.bytes.items (S.remaining self.old.stream))
            (prepend_known self.new.received.bytes.items (S.remaining self.new.stream)) }
        ensures same { IsSame self.old self.new }
        ensures next { IsLookedAtBy self.old self.new }
        ensures come { HasCome self.old.received self.new.received result }
    {
        let mut arrival = Arrival::Nothing;
        for _ in 0..most_reads {
            match self.read_once(watch, alloc) {
                Arrival::Bytes => arrival = Arrival::Bytes,
                Arrival::Nothing => return arrival,
                Arrival::Last => return Arrival::Last,
            }
            if !self.is_due(now) {
                return arrival;
            }
        }
        arrival
    }

    /// How many bytes the next read takes at most.
    fn room(&self) -> usize
        ensures { result ≤ LONG_READ }
    {
        let read = self.received.bytes.len();
        let most = if read == 0 { SHORT_READ } else { LONG_READ };
        MOST_BYTES.saturating_sub(read).min(most)
    }

    /// Takes what one read gives.
    fn read_once(&mut self, watch: &Watch, alloc: Global) -> Arrival
        ensures bytes { Keeps (prepend_known self.old.received.bytes.items (S.remaining self.old.stream))
            (prepend_known self.new.received.bytes.items (S.remaining self.new.stream)) }
        ensures same { IsSame self.old self.new }
        ensures next { IsLookedAtBy self.old self.new }
        ensures come { HasCome self.old.received self.new.received result }
    {
        let mut buffer = [0; LONG_READ];
        let room = self.room();
        if self.received.reserve(room).is_err() {
            return Arrival::Last;
        }
        match self.stream.read(&mut buffer[..room]) {
            Ok(0) => {
                self.is_gone = self.received.bytes.is_empty();
                Arrival::Last
            }
            Ok(count) => {
                let kept = self.received.add(&buffer[..count]);
                prove!(kept.is_ok());
                if self.received.is_ready(alloc) {
                    return Arrival::Last;
                }
                if count < room && !self.is_known {
                    self.rest(watch);
                }
                Arrival::Bytes
            }
            Err(error) => match error.kind() {
                ErrorKind::WouldBlock => {
                    self.rest(watch);
                    Arrival::Nothing
                }
                ErrorKind::Interrupted => Arrival::Nothing,
                _ => {
                    self.is_gone = true;
                    Arrival::Last
                }
            },
        }
    }

    /// Puts the next look off until something comes, or the time is over.
    fn rest(&mut self, watch: &Watch)
        ensures same { IsSame self.old self.new }
        ensures next { IsLookedAtBy self.old self.new }
        ensures stream { self.new.stream ≡ self.old.stream }
        ensures received { self.new.received ≡ self.old.received }
    {
        let is_asked = watch.ask_for_bytes(self.stream.as_raw_fd(), self.number, self.is_known);
        if is_asked.is_ok() {
            self.is_known = true;
            self.next = self.deadline.end;
        }
    }
}

/// The reader of a connection: what was read before, and then the stream. From the connection's deadline on it gives
/// neither, so no request is carried out whose time is over.
pub(crate) type Asked<'a, S, C> = PromptStream<'a, AheadReader<SharedStream<S>>, C>;

/// The writer of a connection.
pub(crate) type Answering<'a, S, C> = LateWriter<PromptStream<'a, SharedStream<S>, C>>;

impl<S: Read + Write + OpenStream + AsRawFd + Drop> Held<S> {
    ghost use Rattle.std.specs.Prelude.{[], IfOk};

    /// Its reader, which begins with what was received, and its writer.
    pub(crate) fn open<'a, C: Clock>(
        self,
        alloc: Global,
        clock: &'a C,
    ) -> io::Result<(Asked<'a, S, C>, Answering<'a, S, C>)>
        ensures { IfOk result (λ handles. (handles.0.stream.number ≡ self.number)
            × (handles.0.stream.ahead ≡ self.received.bytes)
            × (handles.0.stream.given ≡ 0) × (handles.0.deadline ≡ self.deadline)
            × (handles.1.number ≡ self.number) × (handles.1.end ≡ self.deadline.end)
            × (handles.1.unsent.items ≡ [])) }
    {
        let Held {
            number,
            peer: _,
            stream,
            deadline,
            accepted: _,
            next: _,
            is_known,
            received,
            is_gone: _,
        } = self;
        let descriptor = stream.as_raw_fd();
        let stream = SharedStream::new(alloc, stream)?;
        let came_on = received.number();
        let reader = AheadReader::new(came_on, received.into_bytes(), stream.try_clone()?);
        let writer = PromptStream::new(stream, clock, deadline);
        Ok((
            PromptStream::new(reader, clock, deadline),
            LateWriter::new(alloc, number, descriptor, is_known, deadline.end, writer),
        ))
    }
}

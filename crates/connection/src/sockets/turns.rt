//! What is done in a turn with the connections of a listening socket.
ghost use Rattle.std.specs.Prelude.{◌≡◌, IfOk, IfSome, IsNone, IsTrue, None, vec_len};
ghost use Rattle.std.specs.Bool.{OnTrue};
ghost use Rattle.std.specs.VecDeque.{deque_len};
ghost use Rattle.connection.specs.Descriptors.{HasReserve, open_count};
ghost use Rattle.connection.specs.Holding.{HasRoom};
ghost use Rattle.connection.specs.Leaving.{HasMemory, IsNextAfter, MakesRoom};

use crate::accepting::{EMFILE, makes_room};
use crate::held::Held;
use crate::leaving::Leaver;
use crate::limits::{MOST_HELD, MOST_IN_A_ROW, RESERVE, longest_looks};
use crate::sockets::Sockets;
use crate::waiting::MOST_BEFORE;
use std::io;
use std::io::{Eprint, Read, Write};
use std::net::{IpAddr, OpenListener, OpenStream};
use std::os::fd::AsRawFd;
use std::time::{Clock, Instant};
use timed_streams::Deadline;

/// A sort of connections that may be served.
#[derive(Clone, Copy)]
pub(super) enum Sort {
    /// Those that the system has accepted.
    New,
    /// Those of which the system told something, and on which little has come so far.
    Told,
    /// All that wait for their requests, in rounds.
    Waiting,
}

impl Sort {
    /// Whose turn is next.
    fn next(self) -> Sort {
        match self {
            Sort::New => Sort::Told,
            Sort::Told => Sort::Waiting,
            Sort::Waiting => Sort::New,
        }
    }
}

impl<'a, L: OpenListener + AsRawFd + Drop, C: Clock + Eprint> Sockets<'a, L, C>
where
    L::Stream: Read + Write + OpenStream + AsRawFd,
{
    /// A turn of all: those that were served go on, and then each sort of the others has its turn, up to the first
    /// connection that can be served. The sort that comes after that one's is the first in the next turn.
    pub(super) fn turn(&mut self, now: Instant) -> Option<Held<L::Stream>> {
        self.endings.go_on(&self.watch, now);
        let first = self.first;
        let second = first.next();
        for sort in [first, second, second.next()] {
            let found = match sort {
                Sort::New => self.accept_some(1, now),
                Sort::Told => self.take_told(now),
                Sort::Waiting => self.look_around(now),
            };
            if found.is_some() {
                self.first = sort.next();
                return found;
            }
            if self.found.is_some() {
                return self.found.take();
            }
        }
        None
    }

    /// Looks at some of which the system told something, and on which little has come so far, up to the first that can
    /// be served.
    fn take_told(&mut self, now: Instant) -> Option<Held<L::Stream>> {
        for _ in 0..MOST_IN_A_ROW {
            let number = self.told.pop_front()?;
            let found = self.waiting.take_new(number, &self.watch, self.alloc, now);
            if found.is_some() {
                return found;
            }
        }
        None
    }

    /// Looks at those that wait, up to the first that can be served, the end of their round, or some time. First, and
    /// again after each call, the largest make room for what comes.
    fn look_around(&mut self, now: Instant) -> Option<Held<L::Stream>> {
        if self.waiting.len() == 0 {
            return None;
        }
        let began = Instant::now(self.clock).ok()?;
        for _ in 0..self.waiting.len() {
            if !self.free_memory(now) {
                return self.found.take();
            }
            let found = self.waiting.take_ready(&self.watch, self.alloc, now);
            if found.is_some() || self.waiting.is_round_over() {
                return found;
            }
            if Instant::now(self.clock).ok()?.duration_since(began) >= longest_looks() {
                return None;
            }
        }
        None
    }

    /// The largest requests make room until the others leave some for what comes before the next call. It returns whether
    /// they do. If one of those that leave can be served, that comes first.
    fn free_memory(&mut self, now: Instant) -> bool
        ensures { OnTrue result (HasMemory MOST_BEFORE self.new.waiting) }
    {
        let others = self.searches.size();
        for _ in 0..self.waiting.len() {
            if self.found.is_some() {
                return false;
            }
            let leaver = self
                .waiting
                .free_memory(others, &self.watch, self.alloc, now);
            if let Leaver::Nobody = leaver {
                return true;
            }
            self.note(leaver);
        }
        false
    }

    /// Notes who left to make room: who can be served is the next, and the others are faults.
    fn note(&mut self, leaver: Leaver<L::Stream>)
        requires { self.old.found ≡ None }
        ensures { IsNextAfter self.old.found self.new.found leaver }
    {
        match leaver {
            Leaver::Nobody => {}
            Leaver::Ready(held) => self.found = Some(held),
            Leaver::Closed => self.fail(),
        }
    }

    /// Accepts some new connections, and reads each by so many reads, up to the first that can be served. The others are
    /// held. It goes on if one fails, or another one has to make room.
    pub(super) fn accept_some(&mut self, most_reads: u32, now: Instant) -> Option<Held<L::Stream>> {
        for _ in 0..MOST_IN_A_ROW {
            match self.next_held(now) {
                Ok(Some(mut held)) => {
                    let is_ready = held.is_ready(&self.watch, self.alloc, most_reads, now);
                    if is_ready && !held.is_gone() {
                        return Some(held);
                    }
                    if is_ready {
                        self.fail();
                    } else {
                        self.hold(held, now);
                    }
                }
                Ok(None) => return None,
                Err(_) => self.fail(),
            }
        }
        None
    }

    /// Holds a new connection. If it takes the place of the oldest, that is looked at once more.
    fn hold(&mut self, held: Held<L::Stream>, now: Instant)
        requires { self.old.found ≡ None }
    {
        let leaver = self.waiting.hold(held, &self.watch, self.alloc, now);
        self.note(leaver);
    }

    /// Whether there may be a new connection, and there is a place for it, and nobody who had to make room is to be
    /// served before.
    pub(super) fn may_accept(&self, now: Instant) -> bool
        ensures room { IsTrue result → HasRoom MOST_HELD self.now.waiting.connections.items now }
        ensures none { IsTrue result → self.now.found ≡ None }
    {
        self.found.is_none() && self.backlog.is_due(now) && self.waiting.has_room(now)
    }

    /// The next new connection, unread, if there is one, and a place and a descriptor for it.
    fn next_held(&mut self, now: Instant) -> io::Result<Option<Held<L::Stream>>>
        ensures room { IfOk result (λ found. IfSome found (λ _.
            HasRoom MOST_HELD self.old.waiting.connections.items now)) }
        ensures none { IfOk result (λ found. IfSome found (λ _. self.new.found ≡ None)) }
        ensures others { MakesRoom L.Stream.remaining now self.old.waiting self.new.waiting
            self.old.found self.new.found }
        ensures reserve { IfOk result (λ found. IfSome found (λ _. HasReserve RESERVE
            (open_count (deque_len self.old.waiting.connections)
            (deque_len self.old.searches.waiting) (vec_len self.old.endings.endings))
            self.old.descriptors self.new.descriptors)) }
    {
        if !self.may_accept(now) {
            return Ok(None);
        }
        if !self.has_descriptors() {
            return self.unaccepted(io::Error::from_raw_os_error(EMFILE), now);
        }
        match self.backlog.next() {
            Ok(Some((stream, peer))) => self.held(stream, peer).map(Some),
            Ok(None) => Ok(None),
            Err(error) => self.unaccepted(error, now),
        }
    }

    /// Whether the system has a descriptor for another connection, and some that it leaves to others.
    fn has_descriptors(&mut self) -> bool
        ensures waiting { self.new.waiting ≡ self.old.waiting }
        ensures found { self.new.found ≡ self.old.found }
        ensures reserve { OnTrue result (HasReserve RESERVE
            (open_count (deque_len self.old.waiting.connections)
            (deque_len self.old.searches.waiting) (vec_len self.old.endings.endings))
            self.old.descriptors self.new.descriptors) }
    {
        let open = self
            .waiting
            .len()
            .saturating_add(self.searches.len())
            .saturating_add(self.endings.len());
        self.descriptors.has_another(&self.watch, self.alloc, open)
    }

    /// The system gives no connection. If it has no descriptor or no memory left, the oldest connection makes room. If
    /// none can, or another error came, it is tried again after a pause; the fault is reported once a second at most.
    fn unaccepted(&mut self, error: io::Error, now: Instant) -> io::Result<Option<Held<L::Stream>>>
        requires { self.old.found ≡ None }
        ensures none { IfOk result (λ found. IsNone found) }
        ensures others { MakesRoom L.Stream.remaining now self.old.waiting self.new.waiting
            self.old.found self.new.found }
    {
        if makes_room(error.raw_os_error()) {
            match self.waiting.release_oldest(&self.watch, self.alloc, now) {
                Leaver::Nobody => {}
                Leaver::Ready(held) => {
                    self.found = Some(held);
                    return Ok(None);
                }
                Leaver::Closed => return Err(error),
            }
        }
        if self.backlog.put_off(now) {
            return Err(error);
        }
        Ok(None)
    }

    /// A new connection, of which nothing was read yet.
    fn held(&mut self, stream: L::Stream, peer: IpAddr) -> io::Result<Held<L::Stream>>
        ensures descriptors { self.new.descriptors ≡ self.old.descriptors }
        ensures waiting { self.new.waiting ≡ self.old.waiting }
        ensures found { self.new.found ≡ self.old.found }
    {
        stream.set_nonblocking(true)?;
        let number = self.accepted;
        self.accepted = number.wrapping_add(1);
        let deadline = Deadline::after(self.clock, self.limit)?;
        let now = Instant::now(self.clock)?;
        Ok(Held::new(self.alloc, number, peer, stream, deadline, now))
    }
}

//! All connections whose requests aren't whole yet.
ghost use Rattle.std.specs.Prelude.{◌≡◌};
ghost use Rattle.connection.specs.Memory.{AreWithin, memory_of};

use crate::held::{Held, MOST_READS};
use crate::leaving::{Leaver, last_look};
use crate::limits::{MOST_GROWTH, MOST_HELD, MOST_LOOKS, MOST_MEMORY, granted};
use crate::watch::Watch;
use std::alloc::Global;
use std::collections::VecDeque;
use std::io::Read;
use std::os::fd::AsRawFd;
use std::time::Instant;

/// How much memory the requests of all may take before a call that reads more of them, so that they don't exceed the
/// bound until the next one.
pub(crate) const MOST_BEFORE: usize = MOST_MEMORY - MOST_GROWTH;

/// Connections whose requests aren't whole yet, in the order in which they were accepted. They are passed in rounds.
/// A round has the connections that are held when it begins.
#[derive(Drop)]
pub(crate) struct Waiting<S: Drop> {
    connections: VecDeque<Held<S>>,
    /// How many bytes of memory their requests take.
    size: u128,
    /// None of these takes more.
    most: usize,
    /// The place of the connection that is passed next.
    next: usize,
    /// The place where the round ends: those behind it joined since it began.
    end: usize,
    ghost counted: { size ≡ memory_of connections.items },
    ghost bounded: { AreWithin most connections.items },
}

impl<S: Read + AsRawFd + Drop> Waiting<S> {
    ghost use Rattle.std.specs.Prelude.{◌≤◌, ◌<◌, ◌+◌, ◌↔◌, ◌⊎◌, [], IsSome, IsTrue, true};
    ghost use Rattle.std.specs.Bool.{OnFalse, OnTrue};
    ghost use Rattle.std.specs.List.{remove, slice_index_or};
    ghost use Rattle.std.specs.VecDeque.{deque_capacity, deque_len};
    ghost use Rattle.connection.specs.Holding.{HasRoom, Holds, IsDue, IsLargest, Leaves, LooksAt, Notes, NotesAt, StaysThere, Takes, TakesFirst, count_of, end_of, first_of, is_time, round_end};
    ghost use Rattle.connection.specs.Leaving.{FreesMemory, HasMemory, LooksApart, LooksApartAt, Places, Releases};
    ghost use Rattle.connection.specs.Memory.{size_of};

    pub(crate) fn new(alloc: Global) -> Self
        ensures { result.connections.items ≡ [] }
    {
        Waiting {
            connections: VecDeque::new(alloc),
            size: 0,
            most: 0,
            next: 0,
            end: 0,
        }
    }

    /// Whether all connections of the round were passed, or have left: the next call begins another.
    pub(crate) fn is_round_over(&self) -> bool
        ensures { IsTrue result ↔ (round_end self.now ≤ self.now.next) }
    {
        self.next >= self.round_end()
    }

    /// Where the round ends.
    fn round_end(&self) -> usize
        ensures { result ≡ round_end self.now }
    {
        self.end.min(self.connections.len())
    }

    /// How many there are.
    pub(crate) fn len(&self) -> usize
        ensures { result ≡ deque_len self.now.connections }
    {
        self.connections.len()
    }

    /// Whether there is no place for one more.
    fn is_full(&self) -> bool
        ensures { IsTrue result ↔ (MOST_HELD ≤ deque_len self.now.connections) }
    {
        self.connections.len() >= MOST_HELD
    }

    /// Whether one more can be held: there is a place, or the oldest makes room.
    pub(crate) fn has_room(&self, now: Instant) -> bool
        ensures { IsTrue result ↔ HasRoom MOST_HELD self.now.connections.items now }
    {
        !self.is_full() || self.is_oldest_due(now)
    }

    /// Whether the oldest connection has had its time, and makes room if somebody else needs it. How much it sends, and
    /// when, doesn't matter: else a client that sends a byte now and then would keep its place.
    fn is_oldest_due(&self, now: Instant) -> bool
        ensures { IsTrue result ↔ IsDue self.now.connections.items now }
    {
        match self.connections.front() {
            Some(held) => now.duration_since(held.accepted()) >= granted(),
            None => false,
        }
    }

    /// The oldest connection leaves if it has had its time. It is looked at once more before, so that no request is
    /// closed that has come whole.
    pub(crate) fn release_oldest(&mut self, watch: &Watch, alloc: Global, now: Instant) -> Leaver<S>
        ensures leaves { Releases S.remaining now self.old self.new result }
        ensures room { IsDue self.old.connections.items now →
            deque_len self.new.connections < deque_capacity self.new.connections }
    {
        if !self.is_oldest_due(now) {
            return Leaver::Nobody;
        }
        let Some(oldest) = self.connections.pop_front() else {
            return Leaver::Nobody;
        };
        self.size -= oldest.size() as u128;
        self.next = self.next.saturating_sub(1);
        self.end = self.end.saturating_sub(1);
        last_look(oldest, watch, alloc, now)
    }

    /// Holds a connection, from the next round on. If there is no place for it, the oldest one leaves. All others still
    /// are held.
    pub(crate) fn hold(
        &mut self,
        held: Held<S>,
        watch: &Watch,
        alloc: Global,
        now: Instant,
    ) -> Leaver<S>
        ensures places { Places S.remaining MOST_HELD held now self.old self.new
            (deque_capacity self.old.connections ≤ deque_len self.old.connections) result }
        ensures bound { deque_len self.old.connections ≤ MOST_HELD →
            deque_len self.new.connections ≤ MOST_HELD }
    {
        if !self.is_full() {
            return if self.push(held) {
                Leaver::Nobody
            } else {
                Leaver::Closed
            };
        }
        if !self.is_oldest_due(now) {
            return Leaver::Closed;
        }
        let leaver = self.release_oldest(watch, alloc, now);
        let is_held = self.push(held);
        prove!(is_held);
        leaver
    }

    /// Holds a connection behind the others, if there is memory for it. It returns whether there is.
    fn push(&mut self, held: Held<S>) -> bool
        ensures kept { OnTrue result (Holds held self.old self.new) }
        ensures refused { OnFalse result
            ((self.new.connections.items ≡ self.old.connections.items)
            × StaysThere self.old self.new
            × (deque_capacity self.old.connections ≤ deque_len self.old.connections)) }
        ensures bound { deque_len self.new.connections ≤ deque_len self.old.connections + 1 }
    {
        let size = held.size();
        let is_held = self.connections.push_back(held).is_ok();
        if is_held {
            self.size += size as u128;
            self.most = self.most.max(size);
        }
        is_held
    }

    /// Takes out the next connection that can be served. It goes on with the round, or begins another if that is over.
    /// Only connections that it is time to look at count among the `MOST_LOOKS` that it looks at.
    pub(crate) fn take_ready(
        &mut self,
        watch: &Watch,
        alloc: Global,
        now: Instant,
    ) -> Option<Held<S>>
        requires { HasMemory MOST_BEFORE self.old }
        ensures { Takes S.remaining now MOST_LOOKS self.old self.new result }
    {
        self.go_on();
        self.take_from_round(watch, alloc, now)
    }

    /// Goes on with the round, or begins another if it is over: that has all connections that are held now.
    fn go_on(&mut self)
        ensures next { self.new.next ≡ first_of self.old }
        ensures end { self.new.end ≡ end_of self.old }
        ensures connections { self.new.connections ≡ self.old.connections }
    {
        if self.is_round_over() {
            self.next = 0;
            self.end = self.connections.len();
        } else {
            self.end = self.round_end();
        }
    }

    /// Takes out the next connection of the round that can be served.
    fn take_from_round(&mut self, watch: &Watch, alloc: Global, now: Instant) -> Option<Held<S>>
        requires begun { self.old.next ≤ self.old.end }
        requires end { self.old.end ≤ deque_len self.old.connections }
        ensures takes { TakesFirst S.remaining now MOST_LOOKS
            self.old.next self.old.end self.new.next
            self.old.connections.items self.new.connections.items result }
        ensures end { self.new.end + count_of result ≡ self.old.end }
    {
        let first = self.next;
        let end = self.end;
        let mut looks = 0;
        for place in first..end {
            self.next = place;
            if self.is_time_at(place, now) {
                if looks == MOST_LOOKS {
                    return None;
                }
                looks += 1;
                if self.is_ready_at(place, watch, alloc, MOST_READS, now) {
                    self.end = end - 1;
                    return self.take_out(place);
                }
            }
        }
        self.next = end;
        None
    }

    /// Whether it is time to look at the connection at a place.
    fn is_time_at(&self, place: usize, now: Instant) -> bool
        requires { place < deque_len self.now.connections }
        ensures { (d : _) → result
            ≡ is_time now (slice_index_or self.now.connections.items place d) }
    {
        self.connections[place].is_due(now)
    }

    /// Notes that something may have come on the connection with this number, so that it is time to look at it. It
    /// returns whether it is held.
    pub(crate) fn note(&mut self, number: usize, now: Instant) -> bool
        ensures { Notes number now self.old self.new }
    {
        let place = self.place_of(number);
        if place >= self.connections.len() || self.number_at(place) != number {
            return false;
        }
        self.note_at(place, now);
        true
    }

    /// The place of the connection with this number, or where it would be.
    fn place_of(&self, number: usize) -> usize {
        self.connections
            .partition_point(|held| held.number() < number)
    }

    /// Whether little has come on the connection at a place.
    fn has_little_at(&self, place: usize) -> bool
        requires { place < deque_len self.now.connections }
    {
        self.connections[place].has_little()
    }

    /// Looks at the connection with this number outside of the rounds, if it is time to, and little has come on it so
    /// far. It is taken out if it can be served.
    pub(crate) fn take_new(
        &mut self,
        number: usize,
        watch: &Watch,
        alloc: Global,
        now: Instant,
    ) -> Option<Held<S>>
        ensures { LooksApart S.remaining now self.old self.new result }
    {
        let place = self.place_of(number);
        if place >= self.connections.len()
            || self.number_at(place) != number
            || !self.has_little_at(place)
            || !self.is_time_at(place, now)
        {
            return None;
        }
        self.take_at(place, watch, alloc, now)
    }

    /// Looks at the connection at a place outside of the rounds, and takes it out if it can be served.
    fn take_at(
        &mut self,
        place: usize,
        watch: &Watch,
        alloc: Global,
        now: Instant,
    ) -> Option<Held<S>>
        requires there { place < deque_len self.old.connections }
        requires time { (d : _) → is_time now (slice_index_or self.old.connections.items place d) ≡ true }
        ensures { LooksApartAt S.remaining now place self.old self.new result }
    {
        if !self.is_ready_at(place, watch, alloc, 1, now) {
            return None;
        }
        self.leave(place)
    }

    /// The number of the connection at a place.
    fn number_at(&self, place: usize) -> usize
        requires { place < deque_len self.now.connections }
        ensures { (d : _) → result
            ≡ (slice_index_or self.now.connections.items place d).number }
    {
        self.connections[place].number()
    }

    /// Notes that something may have come on the connection at a place.
    fn note_at(&mut self, place: usize, now: Instant)
        requires { place < deque_len self.old.connections }
        ensures { NotesAt place now self.old self.new }
    {
        self.connections[place].note(now);
    }

    /// When it is time to look at one of them, if there are any and nothing comes before.
    pub(crate) fn next_time(&self) -> Option<Instant> {
        self.connections.iter().map(|held| held.next()).min()
    }

    /// When the oldest has had its time, if there is no place for one more.
    pub(crate) fn room_time(&self) -> Option<Instant> {
        if !self.is_full() {
            return None;
        }
        self.connections.front()?.accepted().checked_add(granted())
    }

    /// Whether the connection at a place can be served. It looks by so many reads at most.
    fn is_ready_at(
        &mut self,
        place: usize,
        watch: &Watch,
        alloc: Global,
        most_reads: u32,
        now: Instant,
    ) -> bool
        requires { place < deque_len self.old.connections }
        ensures looks { LooksAt S.remaining place self.old.connections.items
            self.new.connections.items result }
        ensures next { self.new.next ≡ self.old.next }
        ensures end { self.new.end ≡ self.old.end }
    {
        let held = &mut self.connections[place];
        let before = held.size() as u128;
        let is_ready = held.is_ready(watch, alloc, most_reads, now);
        let size = held.size();
        self.size = self.size - before + size as u128;
        self.most = self.most.max(size);
        is_ready
    }

    /// The connection with the largest request leaves, however old it is, if the requests of all of them and those of
    /// others take so much memory that the next turn could exceed the bound. It is looked at once more before.
    pub(crate) fn free_memory(
        &mut self,
        others: usize,
        watch: &Watch,
        alloc: Global,
        now: Instant,
    ) -> Leaver<S>
        ensures { FreesMemory S.remaining MOST_BEFORE others self.old self.new result }
    {
        if self.connections.is_empty() || !self.takes_too_much(others) {
            return Leaver::Nobody;
        }
        let place = self.largest();
        self.most = self.size_at(place);
        match self.leave(place) {
            Some(largest) => last_look(largest, watch, alloc, now),
            None => Leaver::Closed,
        }
    }

    /// Whether the requests of all of them take too much memory before more of them is read.
    fn takes_too_much(&self, others: usize) -> bool
        ensures { IsTrue result ↔ (MOST_BEFORE < others + memory_of self.now.connections.items) }
    {
        self.size.saturating_add(others as u128) > MOST_BEFORE as u128
    }

    /// The place of the largest request, and of several the oldest. If there are many as large as any, the first is found
    /// at once.
    fn largest(&self) -> usize
        requires { 0 < deque_len self.now.connections }
        ensures { IsLargest self.now.connections.items result }
    {
        let mut found = 0;
        for place in 1..self.connections.len() {
            if self.size_at(found) >= self.most {
                return found;
            }
            if self.size_at(place) > self.size_at(found) {
                found = place;
            }
        }
        found
    }

    /// How many bytes of memory the request at a place takes.
    fn size_at(&self, place: usize) -> usize
        requires { place < deque_len self.now.connections }
        ensures { (d : _) → result
            ≡ size_of (slice_index_or self.now.connections.items place d) }
    {
        self.connections[place].size()
    }

    /// The connection at a place leaves.
    fn leave(&mut self, place: usize) -> Option<Held<S>>
        requires { place < deque_len self.old.connections }
        ensures leaves { Leaves place self.old self.new }
        ensures value { (d : _) → result ≡ Some (slice_index_or self.old.connections.items place d) }
    {
        let gone = self.take_out(place);
        if place < self.next {
            self.next -= 1;
        }
        if place < self.end {
            self.end -= 1;
        }
        gone
    }

    /// Takes out the connection at a place.
    fn take_out(&mut self, place: usize) -> Option<Held<S>>
        requires { place < deque_len self.old.connections }
        ensures value { (d : _) → result ≡ Some (slice_index_or self.old.connections.items place d) }
        ensures one { count_of result ≡ 1 }
        ensures items { self.new.connections.items ≡ remove self.old.connections.items place }
        ensures stays { StaysThere self.old self.new }
    {
        let held = self.connections.remove(place)?;
        self.size -= held.size() as u128;
        Some(held)
    }
}

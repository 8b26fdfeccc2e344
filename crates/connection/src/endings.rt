//! All connections that were served and aren't closed yet.
ghost use Rattle.std.specs.Prelude.{◌≡◌, ◌<◌, ◌≤◌, ◌+◌, ◌-◌, ◌↔◌, [], vec_len, IsTrue, IfSome};
ghost use Rattle.std.specs.List.{remove, slice_index_or};
ghost use Rattle.connection.specs.Endings.{IsSlowest, lost_with, rate};

use crate::ending::{Ending, Step};
use crate::limits::{MOST_ENDINGS, MOST_LOOKS, MOST_UNSENT, longest_work};
use crate::watch::Watch;
use std::alloc::Global;
use std::io::{Read, Write};
use std::net::OpenStream;
use std::time::{Clock, Instant};

/// The endings of connections, in the order of their numbers.
#[derive(Drop)]
pub(crate) struct Endings<'a, S: Read + Write + OpenStream + Drop, C: Clock> {
    endings: Vec<Ending<'a, S, C>>,
    clock: &'a C,
    /// The place of the one that is looked at next.
    next: usize,
    /// How many answers were lost, and how many of these were asked for.
    lost: u32,
    told: u32,
}

impl<'a, S: Read + Write + OpenStream + Drop, C: Clock> Endings<'a, S, C> {
    pub(crate) fn new(alloc: Global, clock: &'a C) -> Self
        ensures { result.endings.items ≡ [] }
    {
        Endings {
            endings: Vec::new(alloc),
            clock,
            next: 0,
            lost: 0,
            told: 0,
        }
    }

    /// How many there are.
    pub(crate) fn len(&self) -> usize
        ensures { result ≡ vec_len self.now.endings }
    {
        self.endings.len()
    }

    /// When it is time to look at one of them, if there are any and nothing comes before.
    pub(crate) fn next_time(&self) -> Option<Instant> {
        self.endings.iter().map(|ending| ending.next()).min()
    }

    /// Notes that something may have come on the connection with this number, or that it takes more.
    pub(crate) fn note(&mut self, number: usize, now: Instant)
        ensures { vec_len self.new.endings ≡ vec_len self.old.endings }
    {
        let place = self.place_of(number);
        match self.endings.get_mut(place) {
            Some(ending) if ending.number() == number => ending.note(now),
            _ => {}
        }
    }

    /// The place of the connection with this number, or where it would be.
    fn place_of(&self, number: usize) -> usize
        ensures { result ≤ vec_len self.now.endings }
    {
        self.endings
            .partition_point(|ending| ending.number() < number)
    }

    /// Keeps an ending. If there are too many, one is closed.
    pub(crate) fn keep(&mut self, ending: Ending<'a, S, C>, now: Instant)
        ensures { vec_len self.old.endings ≤ MOST_ENDINGS
            → vec_len self.new.endings ≤ MOST_ENDINGS }
    {
        if !ending.is_sent() {
            self.make_room(ending.size(), now);
        }
        if self.endings.len() >= MOST_ENDINGS {
            let place = match self.drained() {
                Some(place) => place,
                None => self.slowest(now),
            };
            self.close(place);
        }
        let is_sent = ending.is_sent();
        let place = self.place_of(ending.number());
        if self.endings.insert(place, ending).is_err() && !is_sent {
            self.lost = self.lost.saturating_add(1);
        }
    }

    /// Closes connections whose peers take their answers most slowly, until there is room for one of this size.
    fn make_room(&mut self, size: usize, now: Instant)
        ensures { vec_len self.new.endings ≤ vec_len self.old.endings }
    {
        for _ in 0..self.endings.len() {
            if self.unsent().saturating_add(size) <= MOST_UNSENT {
                return;
            }
            if self.endings.is_empty() {
                return;
            }
            let place = self.slowest(now);
            if self.endings[place].is_sent() {
                return;
            }
            self.close(place);
        }
    }

    /// How many bytes are kept for slow peers.
    fn unsent(&self) -> usize {
        let mut unsent: usize = 0;
        for ending in self.endings.iter() {
            unsent = unsent.saturating_add(ending.size());
        }
        unsent
    }

    /// The place of the connection that is drained for the longest, if there is one.
    fn drained(&self) -> Option<usize>
        ensures { IfSome result (λ place. place < vec_len self.now.endings) }
    {
        let mut found = None;
        let mut first: Option<Instant> = None;
        for place in 0..self.endings.len() {
            let ending = &self.endings[place];
            if ending.is_sent() && first.is_none_or(|end| ending.end() < end) {
                first = Some(ending.end());
                found = Some(place);
            }
        }
        found
    }

    /// The place of the connection whose peer takes its answer most slowly, and of several the oldest.
    fn slowest(&self, now: Instant) -> usize
        requires { 0 < vec_len self.now.endings }
        ensures { IsSlowest now self.now.endings.items result }
    {
        let mut found = 0;
        for place in 1..self.endings.len() {
            if self.rate_at(place, now) < self.rate_at(found, now) {
                found = place;
            }
        }
        found
    }

    /// How many bytes a second the peer of the one at a place has taken.
    fn rate_at(&self, place: usize, now: Instant) -> u128
        requires { place < vec_len self.now.endings }
        ensures { (d : _) → result ≡ rate now (slice_index_or self.now.endings.items place d) }
    {
        self.endings[place].rate(now)
    }

    /// Closes a connection, and notes if its answer wasn't sent whole.
    fn close(&mut self, place: usize)
        requires { place < vec_len self.old.endings }
        ensures length { vec_len self.new.endings + 1 ≡ vec_len self.old.endings }
        ensures others { self.new.endings.items ≡ remove self.old.endings.items place }
        ensures lost { (d : _) → self.new.lost
            ≡ lost_with self.old.lost (slice_index_or self.old.endings.items place d) }
        ensures told { self.new.told ≡ self.old.told }
    {
        let ending = self.endings.remove(place);
        if !ending.is_sent() {
            self.lost = self.lost.saturating_add(1);
        }
    }

    /// Goes on with those that it is time to look at, each once at most, and closes those that are over. It stops
    /// after some looks, or some time, and goes on from there in the next call.
    pub(crate) fn go_on(&mut self, watch: &Watch, now: Instant)
        ensures { vec_len self.new.endings ≤ vec_len self.old.endings }
    {
        let mut looks = 0;
        for _ in 0..self.endings.len() {
            if self.next >= self.endings.len() {
                self.next = 0;
            }
            match self.endings.get(self.next) {
                Some(ending) if ending.next() <= now => {}
                Some(_) => {
                    self.next += 1;
                    continue;
                }
                None => return,
            }
            if looks == MOST_LOOKS || self.has_worked_since(now) {
                return;
            }
            looks += 1;
            self.look(watch, now);
        }
    }

    /// Whether this call has taken as long as it may.
    fn has_worked_since(&self, began: Instant) -> bool {
        match Instant::now(self.clock) {
            Ok(now) => now.duration_since(began) >= longest_work(),
            Err(_) => true,
        }
    }

    /// Looks at the next one, and closes it if it is over.
    fn look(&mut self, watch: &Watch, now: Instant)
        requires { self.old.next < vec_len self.old.endings }
        ensures { vec_len self.new.endings ≤ vec_len self.old.endings }
    {
        match self.step_at(self.next, watch, now) {
            Step::Waits | Step::Interrupted | Step::Moves => self.next += 1,
            Step::Over => self.close(self.next),
        }
    }

    /// Looks at one of them.
    fn step_at(&mut self, place: usize, watch: &Watch, now: Instant) -> Step
        requires { place < vec_len self.old.endings }
        ensures length { vec_len self.new.endings ≡ vec_len self.old.endings }
        ensures next { self.new.next ≡ self.old.next }
    {
        self.endings[place].go_on(watch, now)
    }

    /// Whether an answer was lost.
    pub(crate) fn has_lost(&self) -> bool {
        self.lost > 0
    }

    /// How many answers were lost since the last call.
    pub(crate) fn take_lost(&mut self) -> u32
        ensures untold { result ≡ self.old.lost - self.old.told }
        ensures told { self.new.told ≡ self.new.lost }
        ensures lost { self.new.lost ≡ self.old.lost }
        ensures endings { self.new.endings ≡ self.old.endings }
    {
        let untold = self.lost.saturating_sub(self.told);
        self.told = self.lost;
        untold
    }
}

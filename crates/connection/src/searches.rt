//! Requests for which all rows are read.
ghost use Rattle.std.specs.Prelude.{◌≡◌, ◌≤◌};
ghost use Rattle.connection.specs.Memory.{memory_of};
ghost use Rattle.connection.specs.declared.limits.TheConstants.{MOST_SEARCH_MEMORY};

use crate::held::Held;
use crate::limits::{LATEST_SEARCHES, MOST_SEARCH_MEMORY, MOST_SEARCHES};
use http_text::{Input, read_request};
use provider_core::reads_all_rows;
use scim_http::meaning;
use std::alloc::Global;
use std::collections::VecDeque;
use std::io::Read;
use std::net::IpAddr;
use std::os::fd::AsRawFd;

/// Connections whose whole requests have all rows read, in the order in which they were found. They wait until nobody
/// else is to be served.
#[derive(Drop)]
pub(crate) struct Searches<S: Drop> {
    waiting: VecDeque<Held<S>>,
    /// How many bytes of memory their requests take.
    size: usize,
    /// The addresses of the last ones that were served.
    served: VecDeque<IpAddr>,
    ghost counted: { size ≡ memory_of waiting.items },
    ghost bounded: { size ≤ MOST_SEARCH_MEMORY },
}

impl<S: Read + AsRawFd + Drop> Searches<S> {
    ghost use Rattle.std.specs.Prelude.{◌<◌, [], count_by};
    ghost use Rattle.std.specs.Bool.{OnFalse, OnTrue};
    ghost use Rattle.std.specs.List.{slice_index_or};
    ghost use Rattle.std.specs.VecDeque.{deque_len};
    ghost use Rattle.connection.specs.Searches.{Adds, HasNoted, IsNext, TakesNext, is_same, served_of};

    pub(crate) fn new(alloc: Global) -> Self
        ensures waiting { result.waiting.items ≡ [] }
        ensures served { result.served.items ≡ [] }
    {
        Searches {
            waiting: VecDeque::new(alloc),
            size: 0,
            served: VecDeque::new(alloc),
        }
    }

    /// How many wait.
    pub(crate) fn len(&self) -> usize
        ensures { result ≡ deque_len self.now.waiting }
    {
        self.waiting.len()
    }

    /// How many bytes of memory their requests take.
    pub(crate) fn size(&self) -> usize
        ensures value { result ≡ memory_of self.now.waiting.items }
        ensures bound { result ≤ MOST_SEARCH_MEMORY }
    {
        self.size
    }

    /// Adds one behind the others. It returns whether there was a place and memory for it.
    pub(crate) fn add(&mut self, mut held: Held<S>) -> bool
        ensures added { OnTrue result (Adds held self.old self.new) }
        ensures kept { OnFalse result (self.new.waiting.items ≡ self.old.waiting.items) }
        ensures served { self.new.served ≡ self.old.served }
    {
        held.shrink();
        let size = held.size();
        if self.waiting.len() >= MOST_SEARCHES || size > MOST_SEARCH_MEMORY - self.size {
            return false;
        }
        let is_added = self.waiting.push_back(held).is_ok();
        if is_added {
            self.size += size;
        }
        is_added
    }

    /// Takes out the next one: of the client of which fewest were served lately, and of several the first.
    pub(crate) fn take(&mut self) -> Option<Held<S>>
        ensures { TakesNext LATEST_SEARCHES self.old self.new result }
    {
        if self.waiting.is_empty() {
            return None;
        }
        let place = self.fairest();
        let held = self.waiting.remove(place)?;
        self.size -= held.size();
        self.note(held.peer());
        Some(held)
    }

    /// The place of the next one.
    fn fairest(&self) -> usize
        requires { 0 < deque_len self.now.waiting }
        ensures { IsNext self.now.waiting.items self.now.served.items
            result }
    {
        let mut found = 0;
        let mut fewest = self.count_at(0);
        for place in 1..self.waiting.len() {
            let count = self.count_at(place);
            if count < fewest {
                fewest = count;
                found = place;
            }
        }
        found
    }

    /// How many of the last ones came from the address of the one at a place.
    fn count_at(&self, place: usize) -> usize
        requires { place < deque_len self.now.waiting }
        ensures { (d : _) → result ≡ served_of self.now.served.items
            (slice_index_or self.now.waiting.items place d) }
    {
        self.count(self.waiting[place].peer())
    }

    /// How many of the last ones came from this address.
    fn count(&self, peer: IpAddr) -> usize
        ensures { result ≡ count_by (λ address. is_same address peer)
            self.now.served.items }
    {
        self.served
            .iter()
            .filter(|address| **address == peer)
            .count()
    }

    /// Notes that one from this address is served.
    fn note(&mut self, peer: IpAddr)
        ensures noted { HasNoted LATEST_SEARCHES peer self.old self.new }
        ensures waiting { self.new.waiting ≡ self.old.waiting }
    {
        if self.served.len() >= LATEST_SEARCHES {
            let _first = self.served.pop_front();
        }
        let _is_noted = self.served.push_back(peer);
    }
}

/// Whether all rows are read for the request that these bytes begin with. If that can't be found out, they aren't. It
/// decides only who is served first.
pub(crate) fn is_search(alloc: Global, bytes: &[u8]) -> bool {
    if !may_search(bytes) {
        return false;
    }
    let mut input = Input::new(bytes);
    let Ok(incoming) = read_request(alloc, &mut input) else {
        return false;
    };
    let Ok(request) = meaning(alloc, &incoming) else {
        return false;
    };
    matches!(reads_all_rows(alloc, &request), Ok(true))
}

/// Whether the target may be a collection or a query: the quick test, for the sake of other requests.
fn may_search(bytes: &[u8]) -> bool {
    let mut words = bytes
        .trim_ascii_start()
        .split(|byte| *byte == b' ' || *byte == b'\r' || *byte == b'\n');
    match words.nth(1) {
        Some(target) => {
            target.contains(&b'?') || target.ends_with(b"Users") || target.ends_with(b"Groups")
        }
        None => false,
    }
}

//! How long searches take, and others between them.
ghost use Rattle.std.specs.Duration.{as_nanos};
ghost use Rattle.std.specs.Prelude.{◌≡◌, ◌↔◌, IsTrue};
ghost use Rattle.connection.specs.Searches.{IsOver};

use crate::limits::least_share;
use std::time::{Duration, Instant};

/// When searches began and ended.
#[derive(Clone, Copy)]
pub(crate) struct SearchTimes {
    /// How long a search may take in all.
    longest: Duration,
    /// When the search that is under way began.
    began: Option<Instant>,
    /// Since when others come before the next search, and how long the last one took.
    ended: Option<Instant>,
    took: Duration,
}

impl SearchTimes {
    pub(crate) fn new(longest: Duration) -> Self
        ensures { result.longest ≡ longest }
    {
        SearchTimes {
            longest,
            began: None,
            ended: None,
            took: Duration::ZERO,
        }
    }

    /// From this moment on others come before the next search.
    pub(crate) fn put_off(&mut self, now: Instant)
        ensures { self.new ≡ record self.old { ended = Some now } }
    {
        self.ended = Some(now);
    }

    /// A search begins.
    pub(crate) fn begin(&mut self, now: Instant)
        ensures { self.new ≡ record self.old { began = Some now } }
    {
        self.began = Some(now);
    }

    /// The search that was under way is over, if there was one. It returns whether there was.
    pub(crate) fn end(&mut self, now: Instant) -> bool
        ensures longest { self.new.longest ≡ self.old.longest }
        ensures began { self.new.began ≡ None }
    {
        let Some(began) = self.began else {
            return false;
        };
        self.took = now.duration_since(began);
        self.ended = Some(now);
        self.began = None;
        true
    }

    /// Whether others were served for as long as the last search took.
    pub(crate) fn had_their_share(&self, now: Instant) -> bool {
        match self.ended {
            Some(ended) => now.duration_since(ended) >= self.took.max(least_share()),
            None => false,
        }
    }

    /// Whether the search that is under way has had its time.
    pub(crate) fn is_over(&self, now: Instant) -> bool
        ensures { IsTrue result ↔ IsOver (as_nanos self.now.longest) self.now.began now }
    {
        match self.began {
            Some(began) => now.duration_since(began).as_nanos() >= self.longest.as_nanos(),
            None => false,
        }
    }
}

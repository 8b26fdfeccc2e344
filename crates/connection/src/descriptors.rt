//! Whether the system has descriptors for more connections.
ghost use Rattle.std.specs.Prelude.{◌≡◌};
ghost use Rattle.std.specs.Bool.{OnFalse, OnTrue};
ghost use Rattle.connection.specs.Descriptors.{HasReserve, LacksReserve};

use crate::limits::RESERVE;
use crate::watch::Watch;
use std::alloc::Global;

/// What the system had when it was asked for descriptors.
#[derive(Clone, Copy)]
pub(crate) struct Descriptors {
    /// For how many connections at once it had some so far, and `RESERVE` beside them.
    most_open: usize,
    /// How many it had when it was last asked, one more than `RESERVE` at most.
    free: usize,
}

impl Descriptors {
    pub(crate) fn new() -> Self
        ensures { result ≡ record { most_open = 0; free = 0 } }
    {
        Descriptors {
            most_open: 0,
            free: 0,
        }
    }

    /// Whether the system has a descriptor for another connection beside these, and `RESERVE` that it leaves to others.
    /// It is asked only if as many are open as never before.
    pub(crate) fn has_another(&mut self, watch: &Watch, alloc: Global, connections: usize) -> bool
        ensures granted { OnTrue result (HasReserve RESERVE connections self.old self.new) }
        ensures refused { OnFalse result (LacksReserve RESERVE connections self.old self.new) }
    {
        if connections < self.most_open {
            return true;
        }
        self.free = watch.free_descriptors(alloc, RESERVE + 1);
        let has_some = self.free > RESERVE;
        if has_some {
            self.most_open = connections.saturating_add(1);
        }
        has_some
    }
}

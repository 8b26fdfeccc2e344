//! Connections that leave to make room.
ghost use Rattle.connection.specs.Leaving.{LooksLast};

use crate::held::Held;
use crate::watch::Watch;
use std::alloc::Global;
use std::io::Read;
use std::os::fd::AsRawFd;
use std::time::Instant;

/// Who left, to make room.
#[derive(Drop)]
pub(crate) enum Leaver<S: Drop> {
    Nobody,
    /// One that can be served: its request is whole or refused. This was found by one look more.
    Ready(Held<S>),
    /// One that was closed. If little had come on it, one look more has found that its request isn't whole.
    Closed,
}

/// Looks once more at a connection that has to make room, by one read, if little has come on it so far. Reading all of
/// large requests, which most of these never complete, would cost more than all else that is done for newcomers.
pub(crate) fn last_look<S: Read + AsRawFd + Drop>(
    mut held: Held<S>,
    watch: &Watch,
    alloc: Global,
    now: Instant,
) -> Leaver<S>
    ensures { LooksLast S.remaining held result }
{
    if held.has_little() && held.is_ready(watch, alloc, 1, now) {
        Leaver::Ready(held)
    } else {
        Leaver::Closed
    }
}

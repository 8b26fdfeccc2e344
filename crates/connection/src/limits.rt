//! The limits of connections.
ghost use Rattle.std.specs.Prelude.{◌≡◌};
ghost use Rattle.std.specs.Duration.{as_nanos};
ghost use Rattle.connection.specs.Limits.{drain_time, granted, report_pause};

use std::time::Duration;

/// The most connections that are held until their requests are whole.
pub(crate) const MOST_HELD: usize = 4_096;

/// The most bytes of memory that the requests of all of them take.
pub(crate) const MOST_MEMORY: usize = 16_777_216;

/// The most bytes of memory that they take in addition before the largest make room again.
pub(crate) const MOST_GROWTH: usize = 2_097_152;

/// How many descriptors are left to others, as files that are opened again.
pub(crate) const RESERVE: usize = 8;

/// The most sockets of which the system tells at once.
pub(crate) const EVENTS_AT_ONCE: usize = 256;

/// The most turns in a row in which the system isn't asked what came, if there is something to do.
pub(crate) const MOST_SPARED: u32 = 3;

/// The most connections that one call looks at.
pub(crate) const MOST_LOOKS: usize = 4;

/// The most connections that are accepted in a row, or looked at outside of the rounds, if their requests aren't whole.
pub(crate) const MOST_IN_A_ROW: u32 = 64;

/// The most connections whose whole requests wait because all rows are read for them.
pub(crate) const MOST_SEARCHES: usize = 512;

/// The most bytes of memory that these requests take.
pub(crate) const MOST_SEARCH_MEMORY: usize = 6_291_456;

/// How many of these, that were served last, decide whose is next.
pub(crate) const LATEST_SEARCHES: usize = 32;

/// How many seconds a search may take in all, if nobody says otherwise.
pub const SEARCH_SECONDS: u32 = 10;

/// The most connections that were served and aren't closed yet.
pub(crate) const MOST_ENDINGS: usize = 256;

/// The most bytes of answers that are kept for slow peers, all together.
pub(crate) const MOST_UNSENT: usize = 16_777_216;

/// How long each connection may wait for its request, even if there is no place for others.
pub(crate) fn granted() -> Duration
    ensures { as_nanos result ≡ granted }
{
    Duration::from_millis(100)
}

/// How long a peer may still send after it has its answer.
pub(crate) fn drain_time() -> Duration
    ensures { as_nanos result ≡ drain_time }
{
    Duration::from_secs(2)
}

/// How long it is waited before what a peer still sends is read, since most peers close at once.
pub(crate) fn drain_pause() -> Duration {
    Duration::from_millis(1)
}

/// The shortest time between two reports of faults.
pub(crate) fn report_pause() -> Duration
    ensures { as_nanos result ≡ report_pause }
{
    Duration::from_secs(1)
}

/// How long a search goes on before others have a turn.
pub(crate) fn longest_turn() -> Duration {
    Duration::from_millis(1)
}

/// How long others are served at least before such a request, as long as there are others.
pub(crate) fn least_share() -> Duration {
    Duration::from_millis(50)
}

/// How long one call goes on with connections that were served, before others have their turn.
pub(crate) fn longest_work() -> Duration {
    Duration::from_micros(250)
}

/// How long those that wait are looked at, before others have their turn.
pub(crate) fn longest_looks() -> Duration {
    Duration::from_micros(100)
}

/// How long it is waited before another connection is asked for, if the system gave none for want of something.
pub(crate) fn accept_pause() -> Duration {
    Duration::from_millis(4)
}

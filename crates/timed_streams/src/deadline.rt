//! The remaining time of a connection.
ghost use Rattle.std.specs.Prelude.{◌≡◌, ◌+◌, ◌<◌, ◌≤◌, ◌↔◌, IfOk, IfSome, IsNone};
ghost use Rattle.std.specs.Duration.{as_nanos};
ghost use Rattle.std.specs.Time.{instant_nanos};
ghost use Rattle.timed_streams.specs.Deadlines.{IsAfter, IsLeft, LeavesAt};

use std::io;
use std::io::ErrorKind;
use std::time::{Clock, Duration, Instant};

/// The moment from which on a connection has taken too long.
#[derive(Clone, Copy)]
pub struct Deadline {
    pub end: Instant,
}

impl Deadline {
    /// The moment this long after the clock's current time. It fails if the clock fails or can't count that
    /// far.
    pub fn after(clock: &impl Clock, limit: Duration) -> io::Result<Deadline>
        ensures { IfOk result (IsAfter limit) }
    {
        let now = Instant::now(clock)?;
        match now.checked_add(limit) {
            Some(end) => Ok(Deadline { end }),
            None => Err(io::Error::from(ErrorKind::InvalidInput)),
        }
    }

    /// The remaining time at a moment, if there is any.
    pub fn left_at(&self, now: Instant) -> Option<Duration>
        ensures some { IfSome result (LeavesAt self.now now) }
        ensures none { IsNone result ↔ (instant_nanos self.now.end ≤ instant_nanos now) }
    {
        match self.end.checked_duration_since(now) {
            Some(left) if !left.is_zero() => Some(left),
            _ => None,
        }
    }

    /// The remaining time now. It fails with `TimedOut` if there is none.
    pub fn left(&self, clock: &impl Clock) -> io::Result<Duration>
        ensures { IfOk result (IsLeft self.now) }
    {
        let now = Instant::now(clock)?;
        match self.left_at(now) {
            Some(left) => Ok(left),
            None => Err(io::Error::from(ErrorKind::TimedOut)),
        }
    }
}

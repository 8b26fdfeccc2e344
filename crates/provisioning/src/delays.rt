//! Records whose next exchange waits, and until when.
use scim_key::RecordName;
use std::alloc::{AllocError, Global};
use std::cell::Cell;
use std::time::{Duration, Instant};

/// A record that waits.
#[derive(Drop)]
struct Waiting {
    name: RecordName,
    due: Instant,
}

/// The records that wait. Each has a stream of the run, so there are few of them.
#[derive(Drop)]
pub(crate) struct Delays {
    all: Vec<Waiting>,
}

/// Has a record wait until it is due.
pub(crate) fn put_off(
    alloc: Global,
    delays: &Cell<Option<Delays>>,
    name: &RecordName,
    due: Instant,
) -> Result<(), AllocError> {
    let mut all = match delays.replace(None) {
        Some(all) => all,
        None => Delays {
            all: Vec::new(alloc),
        },
    };
    let added = all.add(name, due);
    delays.set(Some(all));
    added
}

/// Whether a record is due at a moment. One that is due doesn't wait any more.
pub(crate) fn take_due(delays: &Cell<Option<Delays>>, name: &RecordName, now: Instant) -> bool {
    let Some(mut all) = delays.replace(None) else {
        return true;
    };
    let is_due = all.take_due(name, now);
    delays.set(Some(all));
    is_due
}

/// How long it is from a moment until the first record is due, if one waits.
pub(crate) fn time_left(delays: &Cell<Option<Delays>>, now: Instant) -> Option<Duration> {
    let all = delays.replace(None)?;
    let left = all.time_left(now);
    delays.set(Some(all));
    left
}

impl Delays {
    fn add(&mut self, name: &RecordName, due: Instant) -> Result<(), AllocError> {
        let name = name.clone()?;
        self.all.push(Waiting { name, due })?;
        Ok(())
    }

    /// A record that doesn't wait is due.
    fn take_due(&mut self, name: &RecordName, now: Instant) -> bool {
        let Some(place) = self.all.iter().position(|delay| delay.name == *name) else {
            return true;
        };
        let is_due = self.all[place].due <= now;
        if is_due {
            let _ = self.all.swap_remove(place);
        }
        is_due
    }

    fn time_left(&self, now: Instant) -> Option<Duration> {
        let mut least: Option<Duration> = None;
        for delay in &self.all {
            let left = delay.due.saturating_duration_since(now);
            least = match least {
                Some(other) if other <= left => Some(other),
                _ => Some(left),
            };
        }
        least
    }
}

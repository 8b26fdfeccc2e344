//! How many records in a row met the same obstacle.
ghost use Rattle.std.specs.Prelude.{◌≡◌};
ghost use Rattle.provisioning.specs.Streaks.{go_on_after, met_again, obstacle_in, obstacle_lost, obstacle_of, obstacle_refused, streak_with};

use crate::faults::{RecordFault, RunFault};
use crate::records::{Pushed, Standing};
use scim_client::ExchangeFault;
use std::fmt;

/// What may keep every record from being confirmed.
#[derive(Clone, Copy, Debug, PartialEq, Eq)]
pub enum Obstacle {
    /// The provider answers 401.
    Unauthorized,
    /// The provider answers 403.
    Forbidden,
    /// The provider answers 429: it has too many requests.
    TooMany,
    /// The provider answers 503: it isn't available.
    Unavailable,
    /// A connection was opened, and failed (H10, H11, H12, H14).
    Lost,
}

impl fmt::Display for Obstacle {
    ghost use Rattle.std.specs.Prelude.{Some};
    ghost use Rattle.provisioning.specs.Lines.{obstacle_text};

    ghost output = { λ obstacle. Some (obstacle_text obstacle) };

    fn fmt<W: fmt::Write>(&self, f: &mut fmt::Formatter<W>) -> fmt::Result {
        match self {
            Obstacle::Unauthorized => f.write_str("401"),
            Obstacle::Forbidden => f.write_str("403"),
            Obstacle::TooMany => f.write_str("429"),
            Obstacle::Unavailable => f.write_str("503"),
            Obstacle::Lost => f.write_str("the connection failed"),
        }
    }
}

/// So many records in a row met this obstacle, up to the greatest `u32`.
#[derive(Clone, Copy, Debug)]
pub struct Streak {
    pub obstacle: Obstacle,
    pub count: u32,
}

impl fmt::Display for Streak {
    ghost use Rattle.std.specs.Prelude.{Some};
    ghost use Rattle.provisioning.specs.Lines.{streak_text};

    ghost output = { λ streak. Some (streak_text streak) };

    /// Its text is `10 records in a row: 401`.
    fn fmt<W: fmt::Write>(&self, f: &mut fmt::Formatter<W>) -> fmt::Result {
        if self.count == 1 {
            write!(f, "1 record: {}", self.obstacle)
        } else {
            write!(f, "{} records in a row: {}", self.count, self.obstacle)
        }
    }
}

/// The streak with one more record. A record for which nothing was sent is passed over.
pub(crate) fn streak_with(streak: Option<Streak>, pushed: &Pushed) -> Option<Streak>
    ensures { result ≡ streak_with streak pushed.now }
{
    if pushed.exchanges == 0 {
        streak
    } else {
        met_again(streak, obstacle_of(&pushed.standing))
    }
}

/// The streak after a record that met this obstacle, or none.
fn met_again(streak: Option<Streak>, met: Option<Obstacle>) -> Option<Streak>
    ensures { result ≡ met_again streak met }
{
    match (streak, met) {
        (_, None) => None,
        (Some(streak), Some(obstacle)) if streak.obstacle == obstacle => Some(Streak {
            obstacle,
            count: streak.count.saturating_add(1),
        }),
        (_, Some(obstacle)) => Some(Streak { obstacle, count: 1 }),
    }
}

/// What kept a record from being confirmed, if it may keep every record.
fn obstacle_of(standing: &Standing) -> Option<Obstacle>
    ensures { result ≡ obstacle_of standing.now }
{
    match standing {
        Standing::Unconfirmed(Some(fault)) => obstacle_in(*fault),
        Standing::Confirmed(_) | Standing::Waits(_) | Standing::Unconfirmed(None) => None,
    }
}

fn obstacle_in(fault: RecordFault) -> Option<Obstacle>
    ensures { result ≡ obstacle_in fault }
{
    match fault {
        RecordFault::Unanswered(fault) => obstacle_lost(fault),
        RecordFault::Refused(status) => obstacle_refused(status),
        RecordFault::Unfit | RecordFault::Unversioned | RecordFault::NoSuchRecord => None,
    }
}

fn obstacle_lost(fault: ExchangeFault) -> Option<Obstacle>
    ensures { result ≡ obstacle_lost fault }
{
    match fault {
        ExchangeFault::Unsent(_)
        | ExchangeFault::EndedEarly
        | ExchangeFault::ReadFailed
        | ExchangeFault::TurnsExhausted => Some(Obstacle::Lost),
        ExchangeFault::OutOfMemory | ExchangeFault::NoAnswer(_) => None,
    }
}

fn obstacle_refused(status: u16) -> Option<Obstacle>
    ensures { result ≡ obstacle_refused status }
{
    match status {
        401 => Some(Obstacle::Unauthorized),
        403 => Some(Obstacle::Forbidden),
        429 => Some(Obstacle::TooMany),
        503 => Some(Obstacle::Unavailable),
        _ => None,
    }
}

/// The fault of a run whose streak has reached the limit. With 0 there is no limit.
pub(crate) fn go_on_after(limit: u32, streak: Option<Streak>) -> Result<(), RunFault>
    ensures { result ≡ go_on_after limit streak }
{
    match streak {
        Some(streak) if limit > 0 && streak.count == limit => Err(RunFault::GivenUp(streak)),
        _ => Ok(()),
    }
}

//! Settling: exchanges in which nothing is lost, until every record is confirmed.
ghost use Rattle.std.specs.Prelude.{IfErr, IfOk};
ghost use Rattle.world_sim.specs.Settling.{Settles, SettlesRecord, Stops, TakesStep};

use crate::reports::{Report, WorldFault};
use crate::worlds::World;
use connector_core::MOST_EXCHANGES;
use journal_core::Journal;
use provider_core::Registry;
use scim_key::RecordName;
use std::fmt;

/// How many exchanges a run to convergence took.
#[derive(Clone, Copy)]
pub struct Count {
    pub exchanges: u32,
}

impl fmt::Display for Count {
    ghost use Rattle.std.specs.Prelude.{Some};
    ghost use Rattle.world_sim.specs.Lines.{count_text};

    ghost output = { λ count. Some (count_text count) };

    /// A line: `settled in 4 exchanges`.
    fn fmt<W: fmt::Write>(&self, f: &mut fmt::Formatter<W>) -> fmt::Result {
        write!(f, "settled in {} exchanges", self.exchanges)
    }
}

/// Settles the world by exchanges in which nothing is lost: users by key, then groups by key, at
/// most three for each. After a fault it may be called again.
pub fn settle<R: Registry + Drop, J: Journal + Drop>(
    world: &mut World<R, J>,
) -> Result<Count, WorldFault>
    ensures settles { IfOk result (Settles R.Registry J.Journal world.old world.new) }
    ensures stops { IfErr result (Stops R.Registry J.Journal world.old world.new) }
{
    let names = world.names()?;
    let mut exchanges: u32 = 0;
    for name in names.as_slice() {
        let made = settle_record(world, name)?;
        exchanges = exchanges.saturating_add(made);
    }
    Ok(Count { exchanges })
}

/// Makes exchanges for a record until there is nothing to send for it, and returns how many.
fn settle_record<R: Registry + Drop, J: Journal + Drop>(
    world: &mut World<R, J>,
    name: &RecordName,
) -> Result<u32, WorldFault>
    ensures settles { IfOk result
        (SettlesRecord R.Registry J.Journal world.old world.new name.now) }
    ensures stops { IfErr result (Stops R.Registry J.Journal world.old world.new) }
{
    for exchanges in 0..MOST_EXCHANGES {
        let is_made = exchange_once(world, name)?;
        if !is_made {
            return Ok(exchanges);
        }
    }
    Ok(MOST_EXCHANGES)
}

/// Sends the connector's next request for a record and delivers it and its reply. It returns whether
/// there was a request.
fn exchange_once<R: Registry + Drop, J: Journal + Drop>(
    world: &mut World<R, J>,
    name: &RecordName,
) -> Result<bool, WorldFault>
    ensures step { IfOk result (TakesStep R.Registry J.Journal world.old world.new name.now) }
    ensures stops { IfErr result (Stops R.Registry J.Journal world.old world.new) }
{
    let before = world.sent.len();
    untold(world.send(name)?);
    let request = world.sent.len();
    if request == before {
        return Ok(false);
    }
    untold(world.deliver(request)?);
    let reply = world.sent.len();
    untold(world.deliver(reply)?);
    Ok(true)
}

/// Drops a report.
fn untold(_: Report) {}

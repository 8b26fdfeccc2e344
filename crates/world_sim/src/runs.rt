//! Whole runs of events.
ghost use Rattle.std.specs.Prelude.{◌≡◌, IfErr, IfOk};
ghost use Rattle.world_sim.specs.Events.{event_of, events_of};
ghost use Rattle.world_sim.specs.Following.{EndsTelling, RunsTelling, run_fault};
ghost use Rattle.world_sim.specs.Running.{EndsRun, FailsOurs, Happens, Runs, RunsFromEmpty};

use crate::events::Event;
use crate::following::{Follow, TellingFault, Transition, make_all};
use crate::reports::{Report, WorldFault};
use crate::worlds::{World, start};
use journal_core::ReopenJournal;
use provider_core::Reopen;
use scim_key::Base;
use std::alloc::{AllocError, Global};

/// Keeps the reports of a run.
#[derive(Drop)]
pub(crate) struct Reports<T> {
    pub(crate) kept: Vec<T>,
}

impl<T: Drop> Follow<T> for Reports<T> {
    type Fault = AllocError;

    ghost told = { λ r. r.kept.items };

    ghost does = { λ _ _ _. Unit {0} };

    fn tell(&mut self, report: T) -> Result<(), AllocError> {
        self.kept.push(report)?;
        Ok(())
    }
}

/// A report that couldn't be kept is out of memory.
pub(crate) fn run_fault(fault: TellingFault<AllocError>) -> WorldFault
    ensures { result ≡ run_fault fault }
{
    match fault {
        TellingFault::World(fault) => fault,
        TellingFault::Untold(error) => WorldFault::from(error),
    }
}

impl<R: Reopen + Drop, J: ReopenJournal + Drop> Transition<World<R, J>> for Event {
    type Report = Report;

    ghost makes = { λ old new event. Happens R.Registry J.Journal old new (event_of event) };

    ghost fails = { λ old new event. FailsOurs R.Registry J.Journal old new (event_of event) };

    ghost runs = { λ old new events. Runs R.Registry J.Journal old new (events_of events) };

    ghost fits = { λ _ _. Unit {0} };

    fn make(&self, world: &mut World<R, J>) -> Result<Report, WorldFault> {
        world.step(self)
    }
}

/// The world after these events, one after the other, over a registry without rows and a journal without
/// entries. The follower is told the report of each event before the next event is made. The promise of `run`
/// holds. If an event fails, or a report can't be told, the run ends there, and both stores are dropped.
pub fn run_telling<R: Reopen + Drop, J: ReopenJournal + Drop, F: Follow<Report>>(
    alloc: Global,
    registry: R,
    journal: J,
    base: Base,
    events: &[Event],
    follower: &mut F,
) -> Result<World<R, J>, TellingFault<F::Fault>>
    ensures ran { IfOk result (RunsTelling R.Registry J.Journal F.told F.does registry journal base
        (events_of events.now) follower.old follower.new) }
    ensures fault { IfErr result
        (EndsTelling R.Registry J.Journal F.told F.does registry journal base
        (events_of events.now) follower.old follower.new) }
{
    let mut world = start(alloc, registry, journal, base)?;
    make_all(&mut world, events, follower)?;
    Ok(world)
}

/// The world after these events, one after the other, over a registry without rows and a journal without
/// entries, and the report of each event. The headline holds: whatever is lost, repeated, late or
/// restarted, the provider holds at most one resource per name, its source revision never goes back, it is
/// that revision's image, and every revision that the connector counts as confirmed is held or surpassed.
/// If an event fails, both stores are dropped.
pub fn run<R: Reopen + Drop, J: ReopenJournal + Drop>(
    alloc: Global,
    registry: R,
    journal: J,
    base: Base,
    events: &[Event],
) -> Result<(World<R, J>, Vec<Report>), WorldFault>
    ensures ran { IfOk result
        (λ ran. RunsFromEmpty R.Registry J.Journal registry journal base
        (events_of events.now) ran.0 ran.1.items) }
    ensures fault { IfErr result
        (EndsRun R.Registry J.Journal registry journal base (events_of events.now)) }
{
    let mut reports = Reports {
        kept: Vec::new(alloc),
    };
    match run_telling(alloc, registry, journal, base, events, &mut reports) {
        Ok(world) => Ok((world, reports.kept)),
        Err(fault) => Err(run_fault(fault)),
    }
}

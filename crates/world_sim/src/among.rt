//! Runs among others: our events, and what others write at the same provider.
ghost use Rattle.std.specs.Prelude.{IfErr, IfOk};
ghost use Rattle.world_sim.specs.Amid.{Does, EndsRunAmong, FailsToDo, RunsAmong, RunsAmongFromEmpty};
ghost use Rattle.world_sim.specs.Following.{EndsTellingAmong, RunsTellingAmong};

use crate::acting::{Act, ActReport};
use crate::following::{Follow, TellingFault, Transition, make_all};
use crate::reports::WorldFault;
use crate::runs::{Reports, run_fault};
use crate::worlds::{World, start};
use journal_core::ReopenJournal;
use provider_core::Reopen;
use scim_key::Base;
use std::alloc::Global;

impl<R: Reopen + Drop, J: ReopenJournal + Drop> Transition<World<R, J>> for Act {
    type Report = ActReport;

    ghost makes = { Does R.Registry J.Journal };

    ghost fails = { FailsToDo R.Registry J.Journal };

    ghost runs = { RunsAmong R.Registry J.Journal };

    ghost fits = { λ _ _. Unit {0} };

    fn make(&self, world: &mut World<R, J>) -> Result<ActReport, WorldFault> {
        world.act(self)
    }
}

/// The world after these acts, one after the other, over a registry without rows and a journal without
/// entries. The follower is told the report of each act before the next act is made. The promise of `run_among`
/// holds. If an act fails, or a report can't be told, the run ends there, and both stores are dropped.
pub fn run_telling_among<R: Reopen + Drop, J: ReopenJournal + Drop, F: Follow<ActReport>>(
    alloc: Global,
    registry: R,
    journal: J,
    base: Base,
    acts: &[Act],
    follower: &mut F,
) -> Result<World<R, J>, TellingFault<F::Fault>>
    ensures ran { IfOk result (RunsTellingAmong R.Registry J.Journal F.told F.does registry journal
        base acts.now follower.old follower.new) }
    ensures fault { IfErr result
        (EndsTellingAmong R.Registry J.Journal F.told F.does registry journal base acts.now
        follower.old follower.new) }
{
    let mut world = start(alloc, registry, journal, base)?;
    make_all(&mut world, acts, follower)?;
    Ok(world)
}

/// The world after these acts, one after the other, over a registry without rows and a journal without
/// entries, and the report of each act. If others leave our records alone, the promise holds for our records:
/// whatever others write, and whatever of ours is lost, repeated, late or restarted. If an act fails, both
/// stores are dropped.
pub fn run_among<R: Reopen + Drop, J: ReopenJournal + Drop>(
    alloc: Global,
    registry: R,
    journal: J,
    base: Base,
    acts: &[Act],
) -> Result<(World<R, J>, Vec<ActReport>), WorldFault>
    ensures ran { IfOk result
        (λ ran. RunsAmongFromEmpty R.Registry J.Journal registry journal base acts.now
        ran.0 ran.1.items) }
    ensures fault { IfErr result
        (EndsRunAmong R.Registry J.Journal registry journal base acts.now) }
{
    let mut reports = Reports {
        kept: Vec::new(alloc),
    };
    match run_telling_among(alloc, registry, journal, base, acts, &mut reports) {
        Ok(world) => Ok((world, reports.kept)),
        Err(fault) => Err(run_fault(fault)),
    }
}

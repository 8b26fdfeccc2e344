//! Runs the events of `simulate`.
ghost use Rattle.std.specs.Prelude.{◌∷◌, IfErr, IfOk};
ghost use Rattle.commands.specs.Simulations.{EndsSimulation, EndsSimulationOfSeveral, Simulates, SimulatesSeveral};
ghost use Rattle.world_sim.specs.Events.{events_of};

use crate::endings::{several_status, simulated_status};
use crate::status::{CommandFault, Status};
use journal_core::ReopenJournal;
use provider_core::Reopen;
use scim_key::Base;
use std::alloc::{AllocError, Global};
use std::io::Write;
use world_sim::{Event, Report, ReportLines, TurnReport, print_run, print_several, random_turns};

/// Runs events over a registry without rows and a journal without entries, and prints a line for each report
/// as it comes. Then it settles every record if that is asked for, and prints how many exchanges that took, and
/// a line for each record. It returns the exit status.
pub fn simulate<R: Reopen + Drop, J: ReopenJournal + Drop, W: Write + Drop>(
    alloc: Global,
    registry: R,
    journal: J,
    base: Base,
    events: &[Event],
    settles: bool,
    lines: &mut ReportLines<Report, W>,
) -> Result<Status, CommandFault>
    ensures done { IfOk result (Simulates R.Registry J.Journal W.contents registry journal base
        (events_of events.now) settles lines.old lines.new) }
    ensures fault { IfErr result (EndsSimulation R.Registry J.Journal W.contents registry journal base
        (events_of events.now) lines.old lines.new) }
{
    match print_run(alloc, registry, journal, base, events, settles, lines) {
        Ok(printed) => Ok(simulated_status(lines.reports.as_slice(), printed.views.as_slice())),
        Err(fault) => Err(CommandFault::from(fault)),
    }
}

/// Runs random turns of several connectors, one over each of these journals without entries, over a registry
/// without rows, and prints a line for each as it comes. Then it settles every record of each if that is asked for,
/// and prints how many exchanges that took, and a line for each record of each. It returns the exit status.
pub fn simulate_several<R: Reopen + Drop, J: ReopenJournal + Drop, W: Write + Drop>(
    alloc: Global,
    registry: R,
    first: J,
    others: Vec<J>,
    base: Base,
    seed: u64,
    count: u32,
    settles: bool,
    lines: &mut ReportLines<TurnReport, W>,
) -> Result<Status, CommandFault>
    ensures done { IfOk result (SimulatesSeveral R.Registry J.Journal W.contents registry
        (first ∷ others.items) base seed count settles lines.old lines.new) }
    ensures fault { IfErr result (EndsSimulationOfSeveral R.Registry J.Journal W.contents registry
        (first ∷ others.items) base seed count lines.old lines.new) }
{
    let connectors = others.len().checked_add(1).ok_or(AllocError)?;
    let turns = random_turns(alloc, seed, count, connectors)?;
    match print_several(
        alloc,
        registry,
        first,
        others,
        base,
        turns.as_slice(),
        settles,
        lines,
    ) {
        Ok(printed) => Ok(several_status(lines.reports.as_slice(), printed.views.as_slice())),
        Err(fault) => Err(CommandFault::from(fault)),
    }
}

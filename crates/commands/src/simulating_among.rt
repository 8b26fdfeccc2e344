//! Runs the acts of `simulate`: our events, and what others write at the same provider.
ghost use Rattle.std.specs.Prelude.{◌≡◌, IfErr, IfOk, List, ℕ};
ghost use Rattle.std.specs.List.{list_all};
ghost use Rattle.scim_key.specs.Outcome.{GivesBy};
ghost use Rattle.source_csv.specs.Fields.{Record};
ghost use Rattle.commands.specs.SimulationsAmong.{EndsAmongOthers, SimulatesAmong, acted_status, among_in, is_taken_act, said_by, schedule_of};
ghost use Rattle.world_sim.specs.Schedules.{ReadsFiles, acts_in};

use crate::endings::{are_confirmed, is_taken};
use crate::status::{CommandFault, Status};
use journal_core::{ReopenJournal, kind_word};
use provider_core::Reopen;
use scim_key::Base;
use std::alloc::{AllocError, Global};
use std::io::{Eprint, Write};
use world_sim::{
    Act, ActReport, Event, ReportLines, ScheduleFault, View, contested, offered, print_run_among,
    read_acts, read_schedule, said_lines,
};

/// What a schedule says.
#[derive(Drop)]
pub enum Schedule {
    /// Events of ours alone.
    Alone(Vec<Event>),
    /// Others write too.
    Among(Vec<Act>),
}

/// Reads a schedule. If each line is an event, others don't write.
pub fn schedule_of(alloc: Global, text: &str) -> Result<Schedule, ScheduleFault>
    ensures { (records_in : List ℕ → List Record) → ReadsFiles records_in
        → GivesBy said_by ScheduleFault.Memory result (schedule_of records_in text.now) }
{
    match read_schedule(alloc, text) {
        Ok(events) => Ok(Schedule::Alone(events)),
        Err(ScheduleFault::Line(_)) => among_of(alloc, text),
        Err(ScheduleFault::Memory) => Err(ScheduleFault::Memory),
    }
}

/// Reads a schedule in which others write.
fn among_of(alloc: Global, text: &str) -> Result<Schedule, ScheduleFault>
    ensures { (records_in : List ℕ → List Record) → ReadsFiles records_in
        → GivesBy said_by ScheduleFault.Memory result (among_in (acts_in records_in text.now)) }
{
    match read_acts(alloc, text) {
        Ok(acts) => Ok(Schedule::Among(acts)),
        Err(fault) => Err(fault),
    }
}

/// Refuses a line by which something is held after a line of another kind: what is held is there at the start.
pub fn refuse_late(alloc: Global, text: &str, acts: &[Act]) -> Result<(), ScheduleFault> {
    let numbers = said_lines(alloc, text)?;
    let mut is_begun = false;
    for (number, act) in numbers.iter().zip(acts) {
        match act {
            Act::Holds(_) if is_begun => return Err(ScheduleFault::Line(*number)),
            Act::Holds(_) => {}
            Act::Ours(_) | Act::Asks(_) | Act::Writes(_) | Act::WritesRow(_) => is_begun = true,
        }
    }
    Ok(())
}

/// Reports each line by which others write a record of which a line of ours offers a row.
pub fn tell_contested(
    stderr: &impl Eprint,
    alloc: Global,
    text: &str,
    acts: &[Act],
) -> Result<(), AllocError> {
    let numbers = said_lines(alloc, text)?;
    let ours = offered(alloc, acts)?;
    for (number, act) in numbers.iter().zip(acts) {
        if let Some(name) = contested(alloc, &ours, act)? {
            let (kind, key) = (kind_word(name.kind), name.key.as_str());
            let _ = eprintln!(stderr;
                "schedule line {number}: others write {kind} {key}, a record of the source"
            );
        }
    }
    Ok(())
}

/// Whether an act isn't a row of ours that the connector refuses.
fn is_taken_act(report: &ActReport) -> bool
    ensures { result ≡ is_taken_act report.now }
{
    match report {
        ActReport::Ours(report) => is_taken(report),
        ActReport::Others(_) | ActReport::Waits(_) => true,
    }
}

fn are_taken_acts(reports: &[ActReport]) -> bool
    ensures { result ≡ list_all is_taken_act reports.now }
{
    reports.iter().all(|report| is_taken_act(report))
}

/// The exit status of a run with these reports of its acts and these views of our records.
pub fn acted_status(reports: &[ActReport], views: &[View]) -> Status
    ensures { result ≡ acted_status reports.now views.now }
{
    if are_taken_acts(reports) && are_confirmed(views) {
        Status::Done
    } else {
        Status::Refused
    }
}

/// Runs acts over a registry without rows and a journal without entries, and prints a line for each report as it
/// comes. Then it settles every record of ours if that is asked for, and prints how many exchanges that took, a
/// line for each record of ours, and one for each other record that others wrote by a row. It returns the exit
/// status.
pub fn simulate_among<R: Reopen + Drop, J: ReopenJournal + Drop, W: Write + Drop>(
    alloc: Global,
    registry: R,
    journal: J,
    base: Base,
    acts: &[Act],
    settles: bool,
    lines: &mut ReportLines<ActReport, W>,
) -> Result<Status, CommandFault>
    ensures done { IfOk result (SimulatesAmong R.Registry J.Journal W.contents registry journal base
        acts.now settles lines.old lines.new) }
    ensures fault { IfErr result (EndsAmongOthers R.Registry J.Journal W.contents registry journal
        base acts.now lines.old lines.new) }
{
    match print_run_among(alloc, registry, journal, base, acts, settles, lines) {
        Ok(printed) => Ok(acted_status(lines.reports.as_slice(), printed.views.as_slice())),
        Err(fault) => Err(CommandFault::from(fault)),
    }
}

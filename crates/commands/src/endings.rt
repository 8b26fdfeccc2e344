//! The exit status of a run, by its result.
ghost use Rattle.std.specs.Prelude.{◌≡◌};
ghost use Rattle.std.specs.List.{list_all};
ghost use Rattle.commands.specs.Comparing.{checked_status};
ghost use Rattle.commands.specs.Statuses.{carried_status, is_confirmed, is_taken, outcome_status, pushed_status, reset_status, run_status, several_status, shown_status, simulated_status};

use crate::looping::LoopFault;
use crate::status::{CommandFault, Status};
use checking::Counts;
use connection::ConnectionFault;
use journal_store::ResetResult;
use provisioning::{Outcome, RunFault};
use storage::ShowFault;
use world_sim::{Report, TurnReport, View};

/// The exit status of a run that has reported each fault of its connections.
pub fn outcome_status(outcome: Result<(), ConnectionFault>) -> Status
    ensures { result ≡ outcome_status outcome }
{
    match outcome {
        Ok(()) => Status::Done,
        Err(ConnectionFault) => Status::Fault,
    }
}

/// The exit status of a run of the connector that came to its end.
fn carried_status(outcome: Outcome) -> Status
    ensures { result ≡ carried_status outcome }
{
    if outcome.is_done() {
        Status::Done
    } else {
        Status::Refused
    }
}

/// The exit status of a `push`, by the result of its run.
pub fn pushed_status(ended: Result<Outcome, RunFault>) -> Result<Status, CommandFault>
    ensures { result ≡ pushed_status ended }
{
    Ok(carried_status(ended?))
}

/// The exit status of a `check`, by the counts of its records, and by whether each row of its files was taken.
pub(crate) fn checked_status(
    ended: Result<Counts, RunFault>,
    are_taken: bool,
) -> Result<Status, CommandFault>
    ensures { result ≡ checked_status ended are_taken }
{
    if ended?.are_in_step() && are_taken {
        Ok(Status::Done)
    } else {
        Ok(Status::Refused)
    }
}

/// The exit status of a `show`, by whether its lines were written.
pub fn shown_status(shown: Result<(), ShowFault>) -> Result<Status, CommandFault>
    ensures { result ≡ shown_status shown }
{
    shown?;
    Ok(Status::Done)
}

/// The exit status of a `reset`, by its answer.
pub(crate) fn reset_status(shown: Result<ResetResult, ShowFault>) -> Result<Status, CommandFault>
    ensures { result ≡ reset_status shown }
{
    match shown {
        Ok(ResetResult::Changed(_)) => Ok(Status::Done),
        Ok(ResetResult::Absent(_)) => Ok(Status::Refused),
        Err(fault) => Err(CommandFault::from(fault)),
    }
}

/// The exit status of a `loop`, by the result of its run.
pub fn run_status(ended: Result<Outcome, LoopFault>) -> Result<Status, CommandFault>
    ensures { result ≡ run_status ended }
{
    match ended {
        Ok(outcome) => Ok(carried_status(outcome)),
        Err(fault) => Err(CommandFault::from(fault)),
    }
}

/// Whether an event isn't a row that the connector refuses.
pub(crate) fn is_taken(report: &Report) -> bool
    ensures { result ≡ is_taken report.now }
{
    !matches!(report, Report::Judged(Err(_)))
}

fn are_taken(reports: &[Report]) -> bool
    ensures { result ≡ list_all is_taken reports.now }
{
    reports.iter().all(|report| is_taken(report))
}

/// Whether the wanted revision of a record is confirmed.
fn is_confirmed(view: &View) -> bool
    ensures { result ≡ is_confirmed view.now }
{
    view.confirmed == view.wanted
}

pub(crate) fn are_confirmed(views: &[View]) -> bool
    ensures { result ≡ list_all is_confirmed views.now }
{
    views.iter().all(|view| is_confirmed(view))
}

/// The exit status of a run with these reports of its events and these views of its records.
pub fn simulated_status(reports: &[Report], views: &[View]) -> Status
    ensures { result ≡ simulated_status reports.now views.now }
{
    if are_taken(reports) && are_confirmed(views) {
        Status::Done
    } else {
        Status::Refused
    }
}

fn are_all_taken(reports: &[TurnReport]) -> bool
    ensures { result ≡ list_all (λ said. is_taken said.report) reports.now }
{
    reports.iter().all(|said| is_taken(&said.report))
}

fn are_all_confirmed(views: &[Vec<View>]) -> bool
    ensures { result ≡ list_all (λ views. list_all is_confirmed views.items) views.now }
{
    views.iter().all(|views| are_confirmed(views.as_slice()))
}

/// The exit status of a run of several connectors, with these reports of its turns and these views of the
/// records of each.
pub fn several_status(reports: &[TurnReport], views: &[Vec<View>]) -> Status
    ensures { result ≡ several_status reports.now
        (list_all (λ views. list_all is_confirmed views.items) views.now) }
{
    if are_all_taken(reports) && are_all_confirmed(views) {
        Status::Done
    } else {
        Status::Refused
    }
}

//! `push --plan`: what a push would ask for.
ghost use Rattle.std.specs.Prelude.{◌≡◌, IfOk};
ghost use Rattle.commands.specs.Planning.{IsLookedAt, IsReadFrom, PlansFrom, PlansOver, PlansTo, plan_status, planned_status};

use crate::jobs::Job;
use crate::limiting::tell_excess;
use crate::output::{NotedWriter, standard_output};
use crate::status::{CommandFault, Status};
use connector_core::Connector;
use journal_core::{Entry, Journal, MemoryJournal};
use provisioning::{Plan, RowReports, RunFault, Sources, open_copy, plan_push};
use scim_key::StoreFault;
use std::alloc::Global;
use std::io::{Eprint, Write};
use std::rt::Runtime;
use storage::{EntryStorage, StoredEntries};

/// Looks at the journal and reads the files, and prints what a push would ask for. The journal isn't changed, and no
/// stream is opened. If there is no journal, nothing is confirmed, and none is made.
pub(crate) fn plan_over<R: Runtime + AllocGlobal, J: EntryStorage>(
    rt: &R,
    storage: &J,
    job: &Job<'_>,
    most: Option<u32>,
) -> Result<Status, CommandFault>
    ensures { IfOk result (PlansOver J.Entries.Journal ⟦<MemoryJournal as Journal>⟧
        (J.finds storage.now) J.Entries.is_closed most job.now) }
{
    let entries = look(rt.alloc(), storage)?;
    match open_copy(rt.alloc(), entries) {
        Ok(mut connector) => plan_from(rt, &mut connector, job, most),
        Err(fault) => Err(CommandFault::from(fault)),
    }
}

/// The entries of the journal, which is closed again; none if there is no journal.
fn look<J: EntryStorage>(alloc: Global, storage: &J) -> Result<Vec<Entry>, CommandFault>
    ensures { IfOk result (λ list.
        IsLookedAt J.Entries.Journal (J.finds storage.now) J.Entries.is_closed list.items) }
{
    match storage.look()? {
        Some(entries) => look_into(entries),
        None => Ok(Vec::new(alloc)),
    }
}

/// The entries of a journal, which is closed.
pub(crate) fn look_into<E: StoredEntries>(mut entries: E) -> Result<Vec<Entry>, CommandFault>
    ensures { IfOk result (λ list. IsReadFrom E.Journal E.is_closed entries list.items) }
{
    let list = entries.load();
    entries.close();
    match list {
        Ok(list) => Ok(list),
        Err(fault) => Err(unread(fault)),
    }
}

/// The fault of a journal that can't be read.
fn unread(fault: StoreFault) -> CommandFault {
    match fault {
        StoreFault::Store => CommandFault::Run(RunFault::Journal),
        StoreFault::Memory => CommandFault::Run(RunFault::Memory),
    }
}

/// Reads the files, and prints what a push by this connector would ask for.
fn plan_from<R: Runtime + AllocGlobal>(
    rt: &R,
    connector: &mut Connector<MemoryJournal>,
    job: &Job<'_>,
    most: Option<u32>,
) -> Result<Status, CommandFault>
    ensures { IfOk result (PlansFrom ⟦<MemoryJournal as Journal>⟧ most job.now connector.old
        connector.new) }
{
    let sources = job.read_over(rt, connector)?;
    let mut out = standard_output(rt)?;
    plan_to(rt, connector, &sources, most, &mut out)
}

/// Prints what a push of these files by this connector would ask for.
fn plan_to<R: Runtime + AllocGlobal, J: Journal, W: Write + Drop>(
    rt: &R,
    connector: &mut Connector<J>,
    sources: &Sources,
    most: Option<u32>,
    out: &mut NotedWriter<W>,
) -> Result<Status, CommandFault>
    ensures { PlansTo J.Journal most sources.now connector.old connector.new
        (W.contents out.old.inner) (W.contents out.new.inner) out.new.last result }
{
    let mut reports = RowReports { stderr: rt };
    let ended = plan_push(rt.alloc(), connector, sources, &mut reports, out);
    out.concluded(planned_status(rt, ended, most))
}

/// The exit status of a plan. It reports if too many users would be switched off.
fn planned_status<R: Eprint>(
    rt: &R,
    ended: Result<Plan, RunFault>,
    most: Option<u32>,
) -> Result<Status, CommandFault>
    ensures { result ≡ planned_status most ended }
{
    match ended {
        Ok(plan) => Ok(plan_status(rt, plan, most)),
        Err(fault) => Err(CommandFault::from(fault)),
    }
}

fn plan_status<R: Eprint>(rt: &R, plan: Plan, most: Option<u32>) -> Status
    ensures { result ≡ plan_status most plan }
{
    let is_excess = tell_excess(rt, plan.leavers, most);
    if plan.is_taken && !is_excess {
        Status::Done
    } else {
        Status::Refused
    }
}

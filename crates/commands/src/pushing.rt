//! `push`: the connector against the provider at an address.
ghost use Rattle.std.specs.Prelude.{◌≡◌, IfOk};
ghost use Rattle.clap.specs.Matches.{found_of};
ghost use Rattle.commands.specs.Planning.{IsPlanned, IsPushed, IsPushedAt};
ghost use Rattle.commands.specs.Limits.{BeginsBy, PushesApproved, PushesChecked, PushesOver};
ghost use Rattle.commands.specs.Running.{CarriesAs, GivesConnector, Pushes, PushesKnown, service_of};

use crate::endings::pushed_status;
use crate::jobs::Job;
use crate::limiting::approved;
use crate::manners::{Delivery, Manner};
use crate::output::{NotedWriter, standard_output};
use crate::planning::plan_over;
use crate::settling::settle;
use crate::status::{CommandFault, Status};
use crate::words::to;
use checking::recheck;
use clap::ArgMatches;
use connector_core::Connector;
use journal_core::{Journal, MemoryJournal};
use provisioning::{Outcome, RunFault, ServiceProvider, Sources, push_quietly};
use std::alloc::Global;
use std::io::{Read, Write};
use std::net::Net;
use std::rt::Runtime;
use storage::{EntryStorage, StoredEntries};
use timed_streams::TimedHandle;

/// What the arguments want: a plan of a push, or a push. It opens the journal, carries the records of files to the
/// provider at an address, and closes the journal. What was confirmed stays in the journal, however the run ends.
pub fn push<'a, R: Runtime + Net + AllocGlobal, J: EntryStorage>(
    rt: &'a R,
    words: &ArgMatches<'_>,
    journal: Option<&J>,
) -> Result<Status, CommandFault>
    ensures { IfOk result (IsPushedAt ⟦<TimedHandle<'a, R::Stream, R> as Read>⟧.remaining
        ⟦<TimedHandle<'a, R::Stream, R> as Write>⟧.contents J.Entries.Journal
        ⟦<MemoryJournal as Journal>⟧ J.finds J.Entries.is_closed (found_of words.now) journal.entry) }
{
    let storage = journal.ok_or(CommandFault::File)?;
    let manner = Manner::of(words)?;
    if manner.is_planned {
        plan_named(rt, words, storage, manner.most_leavers)
    } else {
        push_named(rt, words, storage, manner)
    }
}

/// Prints the plan of a push of the files that the arguments name.
fn plan_named<R: Runtime + AllocGlobal, J: EntryStorage>(
    rt: &R,
    words: &ArgMatches<'_>,
    storage: &J,
    most: Option<u32>,
) -> Result<Status, CommandFault>
    ensures { IfOk result (IsPlanned J.Entries.Journal ⟦<MemoryJournal as Journal>⟧
        (J.finds storage.now) J.Entries.is_closed most (found_of words.now)) }
{
    let job = Job::of(rt.alloc(), words)?;
    plan_over(rt, storage, &job, most)
}

/// Carries the records of the files that the arguments name to the provider that they name.
fn push_named<'a, R: Runtime + Net + AllocGlobal, J: EntryStorage>(
    rt: &'a R,
    words: &ArgMatches<'_>,
    storage: &J,
    manner: Manner,
) -> Result<Status, CommandFault>
    ensures { IfOk result (IsPushed ⟦<TimedHandle<'a, R::Stream, R> as Read>⟧.remaining
        ⟦<TimedHandle<'a, R::Stream, R> as Write>⟧.contents J.Entries.Journal
        (J.finds storage.now) J.Entries.is_closed manner (found_of words.now)) }
{
    let to = to(words)?;
    let job = Job::of(rt.alloc(), words)?;
    push_over(rt, storage, &job, to, manner.delivery, manner.most_leavers)
}

/// Opens the journal, compares what is confirmed if that is wanted, and reads the files. If more than `most` users
/// would be switched off, it reports that and changes nothing; otherwise it carries the records. Then it closes the
/// journal.
pub fn push_over<'a, R: Runtime + Net + AllocGlobal, J: EntryStorage>(
    rt: &'a R,
    storage: &J,
    job: &Job<'_>,
    to: &str,
    delivery: Delivery,
    most: Option<u32>,
) -> Result<Status, CommandFault>
    ensures { PushesOver ⟦<TimedHandle<'a, R::Stream, R> as Read>⟧.remaining
        ⟦<TimedHandle<'a, R::Stream, R> as Write>⟧.contents J.Entries.Journal
        (J.finds storage.now) J.Entries.is_closed delivery job.now most result }
{
    let mut connector = open_connector(rt.alloc(), storage)?;
    let ended = push_checked(rt, &mut connector, job, to, delivery, most);
    close(connector);
    ended
}

/// Waits if requests of an earlier run may be under way, compares what is confirmed, if that is wanted, and carries the
/// records of the files.
fn push_checked<'a, R: Runtime + Net + AllocGlobal, J: Journal>(
    rt: &'a R,
    connector: &mut Connector<J>,
    job: &Job<'_>,
    to: &str,
    delivery: Delivery,
    most: Option<u32>,
) -> Result<Status, CommandFault>
    ensures { PushesChecked ⟦<TimedHandle<'a, R::Stream, R> as Read>⟧.remaining
        ⟦<TimedHandle<'a, R::Stream, R> as Write>⟧.contents J.Journal delivery job.now most
        connector.old connector.new result }
{
    settle(rt, connector, delivery);
    let service = service_of(job, delivery);
    match begun(rt, connector, &service, to, delivery) {
        Ok(rechecked) => push_approved(rt, connector, job, to, delivery, most, rechecked),
        Err(fault) => Err(CommandFault::Run(fault)),
    }
}

/// The service of a job, and what its provider keeps.
fn service_of<'a>(job: &'a Job<'_>, delivery: Delivery) -> ServiceProvider<'a>
    ensures { result ≡ service_of job.now delivery }
{
    delivery.keeps.at(&job.service)
}

/// Doubts what differs from what is confirmed, if that is wanted. Returns how many users would be switched off by that.
fn begun<'a, R: Runtime + Net + AllocGlobal, J: Journal>(
    rt: &'a R,
    connector: &mut Connector<J>,
    service: &ServiceProvider<'_>,
    to: &str,
    delivery: Delivery,
) -> Result<usize, RunFault>
    ensures { BeginsBy ⟦<TimedHandle<'a, R::Stream, R> as Read>⟧.remaining
        ⟦<TimedHandle<'a, R::Stream, R> as Write>⟧.contents J.Journal delivery.is_rechecked
        service.now connector.old connector.new result }
{
    let (alloc, streams) = (rt.alloc(), delivery.pace.streams);
    if delivery.is_rechecked {
        recheck(
            rt,
            alloc,
            service,
            connector,
            delivery.is_quiet,
            streams,
            to,
        )
    } else {
        Ok(0)
    }
}

/// Reads the files, and carries their records if they keep to the limit beside those whom a recheck would switch off.
fn push_approved<'a, R: Runtime + Net + AllocGlobal, J: Journal>(
    rt: &'a R,
    connector: &mut Connector<J>,
    job: &Job<'_>,
    to: &str,
    delivery: Delivery,
    most: Option<u32>,
    rechecked: usize,
) -> Result<Status, CommandFault>
    ensures { PushesApproved ⟦<TimedHandle<'a, R::Stream, R> as Read>⟧.remaining
        ⟦<TimedHandle<'a, R::Stream, R> as Write>⟧.contents J.Journal delivery job.now most
        rechecked connector.old connector.new result }
{
    match approved(rt, connector, job, most, rechecked) {
        Ok(Some(sources)) => push_known(rt, connector, job, &sources, to, delivery),
        Ok(None) => Ok(Status::Refused),
        Err(fault) => Err(fault),
    }
}

/// Closes the journal of a connector.
pub(crate) fn close<E: StoredEntries>(connector: Connector<E>) -> E::Left
    ensures { E.is_closed connector.journal result }
{
    connector.close().close()
}

/// The connector over a journal. If the connector refuses the journal, it is closed.
pub(crate) fn open_connector<J: EntryStorage>(
    alloc: Global,
    storage: &J,
) -> Result<Connector<J::Entries>, CommandFault>
    ensures { GivesConnector J.Entries.Journal (J.finds storage.now) result }
{
    match Connector::open(alloc, storage.open()?) {
        Ok(connector) => Ok(connector),
        Err((fault, entries)) => {
            entries.close();
            Err(CommandFault::from(RunFault::from(fault)))
        }
    }
}

/// Carries the records of files.
fn push_known<'a, R: Runtime + Net + AllocGlobal, J: Journal>(
    rt: &'a R,
    connector: &mut Connector<J>,
    job: &Job<'_>,
    sources: &Sources,
    to: &str,
    delivery: Delivery,
) -> Result<Status, CommandFault>
    ensures { PushesKnown ⟦<TimedHandle<'a, R::Stream, R> as Read>⟧.remaining
        ⟦<TimedHandle<'a, R::Stream, R> as Write>⟧.contents J.Journal delivery
        (service_of job.now delivery) sources.now connector.old connector.new result }
{
    let mut out = standard_output(rt)?;
    push_to(rt, connector, job, sources, to, delivery, &mut out)
}

/// Carries the records of files, and gives the exit status.
fn push_to<'a, R: Runtime + Net + AllocGlobal, J: Journal, W: Write + Drop>(
    rt: &'a R,
    connector: &mut Connector<J>,
    job: &Job<'_>,
    sources: &Sources,
    to: &str,
    delivery: Delivery,
    out: &mut NotedWriter<W>,
) -> Result<Status, CommandFault>
    ensures { Pushes ⟦<TimedHandle<'a, R::Stream, R> as Read>⟧.remaining
        ⟦<TimedHandle<'a, R::Stream, R> as Write>⟧.contents J.Journal delivery.is_quiet
        delivery.pace (service_of job.now delivery) sources.now connector.old connector.new
        out.new.last result }
{
    let service = service_of(job, delivery);
    let carried = push_as(rt, connector, &service, sources, to, delivery, out);
    out.concluded(pushed_status(carried))
}

/// Carries the records of files. It prints a line for each, or, if the run is quiet, for each that isn't confirmed, and
/// the counts.
fn push_as<'a, R: Runtime + Net + AllocGlobal, J: Journal, W: Write>(
    rt: &'a R,
    connector: &mut Connector<J>,
    service: &ServiceProvider<'_>,
    sources: &Sources,
    to: &str,
    delivery: Delivery,
    out: &mut W,
) -> Result<Outcome, RunFault>
    ensures { CarriesAs ⟦<TimedHandle<'a, R::Stream, R> as Read>⟧.remaining
        ⟦<TimedHandle<'a, R::Stream, R> as Write>⟧.contents J.Journal delivery.is_quiet
        delivery.pace service.now sources.now connector.old connector.new result }
{
    let (alloc, pace) = (rt.alloc(), delivery.pace);
    if delivery.is_quiet {
        push_quietly(rt, alloc, service, connector, sources, pace, to, out)
    } else {
        provisioning::push(rt, alloc, service, connector, sources, pace, to, out)
    }
}

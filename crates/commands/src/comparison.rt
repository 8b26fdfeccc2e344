//! `check`: what the provider has, beside what the journal wants.
ghost use Rattle.std.specs.Prelude.{IfOk};
ghost use Rattle.clap.specs.Matches.{found_of};
ghost use Rattle.commands.specs.Comparing.{EndsChecking, IsCheckedAt, IsCheckedFrom, IsCopyOf, OffersFiles};

use crate::endings::checked_status;
use crate::jobs::Job;
use crate::manners::{is_quiet, keeps, streams};
use crate::output::{NotedWriter, standard_output};
use crate::planning::look_into;
use crate::status::{CommandFault, Part, Status};
use crate::words::{service, to, users_if_named};
use clap::ArgMatches;
use connector_core::Connector;
use journal_core::{Journal, MemoryJournal};
use provisioning::{RowReports, ServiceProvider, offer_all, open_copy};
use std::alloc::Global;
use std::io::{Read, Write};
use std::net::Net;
use std::rt::Runtime;
use storage::{EntryStorage, StoredEntries};
use timed_streams::TimedHandle;

/// Asks the provider at an address about each record of a journal, and of files if the arguments name some, and prints
/// what isn't as they want it. The journal isn't changed, and no request changes anything. If there is no such file, it
/// makes none.
pub fn check<'a, R: Runtime + Net + AllocGlobal, J: EntryStorage>(
    rt: &'a R,
    words: &ArgMatches<'_>,
    journal: Option<&J>,
) -> Result<Status, CommandFault>
    ensures { IfOk result (IsCheckedAt ⟦<TimedHandle<'a, R::Stream, R> as Read>⟧.remaining
        ⟦<TimedHandle<'a, R::Stream, R> as Write>⟧.contents J.Entries.Journal
        ⟦<MemoryJournal as Journal>⟧ J.finds J.Entries.is_closed (found_of words.now) journal.entry) }
{
    let storage = journal.ok_or(CommandFault::File)?;
    check_named(rt, words, storage)
}

/// Asks the provider that the arguments name about each record of a journal, and of files if they name some.
fn check_named<'a, R: Runtime + Net + AllocGlobal, J: EntryStorage>(
    rt: &'a R,
    words: &ArgMatches<'_>,
    storage: &J,
) -> Result<Status, CommandFault>
    ensures { IfOk result (IsCheckedFrom ⟦<TimedHandle<'a, R::Stream, R> as Read>⟧.remaining
        ⟦<TimedHandle<'a, R::Stream, R> as Write>⟧.contents J.Entries.Journal
        ⟦<MemoryJournal as Journal>⟧ (J.finds storage.now) J.Entries.is_closed (found_of words.now)) }
{
    let (to, streams) = (to(words)?, streams(words)?);
    let at = service(rt.alloc(), words)?;
    let keeps = keeps(words)?;
    let service = keeps.at(&at);
    let mut connector = copy_of(rt.alloc(), storage)?;
    let are_taken = offer_files(rt, words, &mut connector)?;
    let mut out = standard_output(rt)?;
    let is_quiet = is_quiet(words);
    check_to(
        rt, &connector, &service, is_quiet, streams, to, are_taken, &mut out,
    )
}

/// Offers the rows of the files that the arguments name, if they name some. It reports those that the connector rejects,
/// and returns whether it took each.
fn offer_files<R: Runtime + AllocGlobal>(
    rt: &R,
    words: &ArgMatches<'_>,
    connector: &mut Connector<MemoryJournal>,
) -> Result<bool, CommandFault>
    ensures { IfOk result (OffersFiles ⟦<MemoryJournal as Journal>⟧ (found_of words.now)
        connector.old connector.new) }
{
    if users_if_named(words).is_none() {
        return Ok(true);
    }
    let job = Job::of(rt.alloc(), words)?;
    let sources = job.read_files(rt)?;
    let mut reports = RowReports { stderr: rt };
    Ok(offer_all(rt.alloc(), connector, &sources, &mut reports)?)
}

/// The connector over a copy of the entries of a journal, which is closed again.
fn copy_of<J: EntryStorage>(
    alloc: Global,
    storage: &J,
) -> Result<Connector<MemoryJournal>, CommandFault>
    ensures { IfOk result (λ connector. IsCopyOf J.Entries.Journal (J.finds storage.now)
        J.Entries.is_closed connector.book) }
{
    match storage.look()? {
        Some(entries) => Ok(open_copy(alloc, look_into(entries)?)?),
        None => Err(CommandFault::Missing(Part::Journal)),
    }
}

/// Asks about each record of a connector, and prints what differs. The status also says whether each row was taken.
fn check_to<'a, R: Runtime + Net + AllocGlobal, W: Write + Drop>(
    rt: &'a R,
    connector: &Connector<MemoryJournal>,
    service: &ServiceProvider<'_>,
    is_quiet: bool,
    streams: u32,
    to: &str,
    are_taken: bool,
    out: &mut NotedWriter<W>,
) -> Result<Status, CommandFault>
    ensures { EndsChecking ⟦<TimedHandle<'a, R::Stream, R> as Read>⟧.remaining
        ⟦<TimedHandle<'a, R::Stream, R> as Write>⟧.contents service.now connector.now.book
        are_taken out.new.last result }
{
    let checked = checking::check(
        rt,
        rt.alloc(),
        service,
        connector,
        is_quiet,
        streams,
        to,
        out,
    );
    out.concluded(checked_status(checked, are_taken))
}

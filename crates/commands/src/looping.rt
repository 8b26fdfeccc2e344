//! `loop`: the connector against a provider in the same program, over TCP.
ghost use Rattle.std.specs.Prelude.{◌<◌, IfOk};
ghost use Rattle.clap.specs.Matches.{found_of};
ghost use Rattle.storage.specs.JournalOpened.{IsOpenedAt};
ghost use Rattle.commands.specs.Looping.{HasNone, IsDropped, IsEmpty, IsLooped, LoopsAt, LoopsFrom, LoopsOver, LoopsTo, LoopsWith, RunsWith};
ghost use Rattle.commands.specs.Running.{GivesConnector};

mod faults;
mod own;
mod reports;
mod runs;
mod views;

use crate::endings::run_status;
use crate::jobs::Job;
use crate::output::{NotedWriter, standard_output};
use crate::pushing::{close, open_connector};
use crate::status::{CommandFault, Status};
use clap::ArgMatches;
use connection::Sockets;
use connector_core::Connector;
pub use faults::LoopFault;
use journal_core::{Journal, MemoryJournal};
pub use own::OwnReader;
use provider_core::{MemoryRegistry, Provider, Registry};
use provisioning::{RunFault, Sources};
pub use runs::{OWN_ADDRESS, run_loop};
use std::alloc::Global;
use std::io::{Read, Write};
use std::net::{Net, TcpListener};
use std::rt::Runtime;
use storage::{EntryStorage, InMemory, RowStorage, StoredRows};
use timed_streams::TimedHandle;

/// Carries the records of files from a journal to a store, each in a file or in memory.
pub fn carry<'a, R: Runtime + Net + AllocGlobal, K: RowStorage + 'a, J: EntryStorage>(
    rt: &'a R,
    words: &ArgMatches<'_>,
    store: Option<&K>,
    journal: Option<&J>,
) -> Result<Status, CommandFault>
    ensures { IfOk result (IsLooped
        ⟦<OwnReader<'a, 'a, 'a, R, Sockets<'a, TcpListener, R>, K::Rows> as Read>⟧.remaining
        ⟦<OwnReader<'a, 'a, 'a, R, Sockets<'a, TcpListener, R>, MemoryRegistry> as Read>⟧.remaining
        ⟦<TimedHandle<'a, R::Stream, R> as Write>⟧.contents K.Rows.Registry K.finds K.Rows.is_closed
        ⟦<MemoryRegistry as Registry>⟧ J.Entries.Journal J.finds J.Entries.is_closed
        ⟦<MemoryJournal as Journal>⟧ (found_of words.now) store.entry journal.entry) }
{
    let job = Job::of(rt.alloc(), words)?;
    carry_job(rt, store, journal, &job)
}

/// A run to a provider in a file or in memory.
fn carry_job<'a, R: Runtime + Net + AllocGlobal, K: RowStorage + 'a, J: EntryStorage>(
    rt: &'a R,
    store: Option<&K>,
    journal: Option<&J>,
    job: &Job<'_>,
) -> Result<Status, CommandFault>
    ensures { LoopsWith
        ⟦<OwnReader<'a, 'a, 'a, R, Sockets<'a, TcpListener, R>, K::Rows> as Read>⟧.remaining
        ⟦<OwnReader<'a, 'a, 'a, R, Sockets<'a, TcpListener, R>, MemoryRegistry> as Read>⟧.remaining
        ⟦<TimedHandle<'a, R::Stream, R> as Write>⟧.contents K.Rows.Registry K.finds K.Rows.is_closed
        ⟦<MemoryRegistry as Registry>⟧ J.Entries.Journal J.finds J.Entries.is_closed
        ⟦<MemoryJournal as Journal>⟧ job.now store.entry journal.entry result }
{
    match store {
        Some(store) => carry_stored(rt, store, journal, job),
        None => carry_to_memory(rt, journal, job),
    }
}

/// A run to a provider in memory that starts empty.
fn carry_to_memory<'a, R: Runtime + Net + AllocGlobal, J: EntryStorage>(
    rt: &'a R,
    journal: Option<&J>,
    job: &Job<'_>,
) -> Result<Status, CommandFault>
    ensures { RunsWith ⟦<MemoryRegistry as Registry>⟧ IsEmpty IsDropped (LoopsAt
        ⟦<OwnReader<'a, 'a, 'a, R, Sockets<'a, TcpListener, R>, MemoryRegistry> as Read>⟧.remaining
        ⟦<TimedHandle<'a, R::Stream, R> as Write>⟧.contents J.Entries.Journal J.finds
        J.Entries.is_closed ⟦<MemoryJournal as Journal>⟧ job.now journal.entry) result }
{
    let memory = InMemory { alloc: rt.alloc() };
    carry_stored(rt, &memory, journal, job)
}

/// A run over rows that it opens first, and closes.
fn carry_stored<'a, R: Runtime + Net + AllocGlobal, K: RowStorage + 'a, J: EntryStorage>(
    rt: &'a R,
    storage: &K,
    journal: Option<&J>,
    job: &Job<'_>,
) -> Result<Status, CommandFault>
    ensures { RunsWith K.Rows.Registry (K.finds storage.now) K.Rows.is_closed (LoopsAt
        ⟦<OwnReader<'a, 'a, 'a, R, Sockets<'a, TcpListener, R>, K::Rows> as Read>⟧.remaining
        ⟦<TimedHandle<'a, R::Stream, R> as Write>⟧.contents J.Entries.Journal J.finds
        J.Entries.is_closed ⟦<MemoryJournal as Journal>⟧ job.now journal.entry) result }
{
    let mut provider = Provider::new(storage.open()?);
    let ended = carry_from(rt, &mut provider, journal, job);
    close_rows(provider);
    ended
}

/// Closes the rows of a provider.
fn close_rows<S: StoredRows>(provider: Provider<S>) -> S::Left
    ensures { S.is_closed provider result }
{
    provider.close().close()
}

/// A run to a provider, from a journal in a file or in memory.
fn carry_from<'a, R: Runtime + Net + AllocGlobal, S: StoredRows + 'a, J: EntryStorage>(
    rt: &'a R,
    provider: &mut Provider<S>,
    journal: Option<&J>,
    job: &Job<'_>,
) -> Result<Status, CommandFault>
    ensures { LoopsAt
        ⟦<OwnReader<'a, 'a, 'a, R, Sockets<'a, TcpListener, R>, S> as Read>⟧.remaining
        ⟦<TimedHandle<'a, R::Stream, R> as Write>⟧.contents J.Entries.Journal J.finds
        J.Entries.is_closed ⟦<MemoryJournal as Journal>⟧ job.now journal.entry
        (0 < S.faults provider.new) result }
{
    match journal {
        Some(journal) => carry_journaled(rt, provider, journal, job),
        None => carry_from_memory(rt, provider, job),
    }
}

/// A run from a journal that it opens first, and closes.
fn carry_journaled<'a, R: Runtime + Net + AllocGlobal, S: StoredRows + 'a, J: EntryStorage>(
    rt: &'a R,
    provider: &mut Provider<S>,
    storage: &J,
    job: &Job<'_>,
) -> Result<Status, CommandFault>
    ensures { LoopsOver
        ⟦<OwnReader<'a, 'a, 'a, R, Sockets<'a, TcpListener, R>, S> as Read>⟧.remaining
        ⟦<TimedHandle<'a, R::Stream, R> as Write>⟧.contents J.Entries.Journal
        (J.finds storage.now) J.Entries.is_closed job.now (0 < S.faults provider.new) result }
{
    let mut connector = open_connector(rt.alloc(), storage)?;
    let ended = carry_over(rt, provider, &mut connector, job);
    close(connector);
    ended
}

/// A run from a journal in memory that starts empty.
fn carry_from_memory<'a, R: Runtime + Net + AllocGlobal, S: StoredRows + 'a>(
    rt: &'a R,
    provider: &mut Provider<S>,
    job: &Job<'_>,
) -> Result<Status, CommandFault>
    ensures { LoopsOver
        ⟦<OwnReader<'a, 'a, 'a, R, Sockets<'a, TcpListener, R>, S> as Read>⟧.remaining
        ⟦<TimedHandle<'a, R::Stream, R> as Write>⟧.contents ⟦<MemoryJournal as Journal>⟧ HasNone
        IsDropped job.now (0 < S.faults provider.new) result }
{
    let mut connector = open_in_memory(rt.alloc())?;
    carry_over(rt, provider, &mut connector, job)
}

/// A connector over a journal in memory that starts empty.
fn open_in_memory(alloc: Global) -> Result<Connector<MemoryJournal>, CommandFault>
    ensures { GivesConnector ⟦<MemoryJournal as Journal>⟧ HasNone result }
{
    match Connector::open(alloc, empty_journal(alloc)) {
        Ok(connector) => Ok(connector),
        Err((fault, _journal)) => Err(CommandFault::from(RunFault::from(fault))),
    }
}

/// A journal in memory without entries.
fn empty_journal(alloc: Global) -> MemoryJournal
    ensures { IsOpenedAt ⟦<MemoryJournal as Journal>⟧ HasNone result }
{
    MemoryJournal::new(alloc)
}

/// Reads the files, and carries their records to the provider.
fn carry_over<'a, R: Runtime + Net + AllocGlobal, S: StoredRows + 'a, J: Journal>(
    rt: &'a R,
    provider: &mut Provider<S>,
    connector: &mut Connector<J>,
    job: &Job<'_>,
) -> Result<Status, CommandFault>
    ensures { LoopsFrom
        ⟦<OwnReader<'a, 'a, 'a, R, Sockets<'a, TcpListener, R>, S> as Read>⟧.remaining
        ⟦<TimedHandle<'a, R::Stream, R> as Write>⟧.contents J.Journal job.now
        (0 < S.faults provider.new) connector.old connector.new result }
{
    let sources = job.read_files(rt)?;
    let mut out = standard_output(rt)?;
    carry_to(rt, provider, connector, job, &sources, &mut out)
}

/// Carries the records of files to the provider, and prints a line for each.
fn carry_to<'a, R: Runtime + Net + AllocGlobal, S: StoredRows + 'a, J: Journal, W: Write + Drop>(
    rt: &'a R,
    provider: &mut Provider<S>,
    connector: &mut Connector<J>,
    job: &Job<'_>,
    sources: &Sources,
    out: &mut NotedWriter<W>,
) -> Result<Status, CommandFault>
    ensures { LoopsTo
        ⟦<OwnReader<'a, 'a, 'a, R, Sockets<'a, TcpListener, R>, S> as Read>⟧.remaining
        ⟦<TimedHandle<'a, R::Stream, R> as Write>⟧.contents J.Journal job.now.service sources.now
        connector.old connector.new (0 < S.faults provider.new) out.new.last result }
{
    let ended = run_loop(
        rt,
        rt.alloc(),
        &job.service,
        connector,
        provider,
        sources,
        out,
    );
    out.concluded(run_status(ended))
}

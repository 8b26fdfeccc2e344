//! `serve`: connections to a socket, answered by one provider, as their requests are whole.
ghost use Rattle.std.specs.Duration.{as_nanos};
ghost use Rattle.std.specs.Prelude.{◌≡◌, ◌*◌, IfOk};
ghost use Rattle.std.specs.Result.{result_and};
ghost use Rattle.clap.specs.Matches.{found_of};
ghost use Rattle.commands.specs.Statuses.{outcome_status};
ghost use Rattle.commands.specs.Listening.{IsServed, ServesEmpty, ServesRows, ServesStored};

use crate::endings::outcome_status;
use crate::status::{CommandFault, Status, listen_fault};
use crate::stored::serve_stored;
use crate::words::{address, base, longest_search, requests};
use clap::ArgMatches;
use connection::{AheadReader, ConnectionFault, LateWriter, Listen, Sockets, serve_from_memory};
use provider_core::{MemoryRegistry, Registry};
use provisioning::CONNECTION_SECONDS;
use scim_key::Base;
use std::io::{Read, Write};
use std::net::{Net, TcpListener, TcpStream};
use std::rt::Runtime;
use std::time::Duration;
use storage::{RowStorage, StoredRows};
use timed_streams::{PromptStream, SharedStream};

/// Serves some connections to an address from the rows of a file, which it opens first, or from a provider in
/// memory that starts empty.
pub fn serve<'a, R: Runtime + Net + AllocGlobal, K: RowStorage>(
    rt: &'a R,
    words: &ArgMatches<'_>,
    store: Option<&K>,
) -> Result<Status, CommandFault>
    ensures { IfOk result
        (IsServed ⟦<Sockets<'a, TcpListener, R> as Listen>⟧.waiting
        ⟦<PromptStream<'a, AheadReader<SharedStream<TcpStream>>, R> as Read>⟧.remaining
        ⟦<LateWriter<PromptStream<'a, SharedStream<TcpStream>, R>> as Write>⟧.contents
        (λ sockets. as_nanos sockets.search_times.longest)
        K.Rows.Registry K.finds ⟦<MemoryRegistry as Registry>⟧ (found_of words.now) store.entry) }
{
    let address = address(words)?;
    let requests = requests(words)?;
    let seconds = longest_search(words)?;
    let base = base(rt.alloc(), words)?;
    match store {
        Some(storage) => serve_from_file(rt, address, requests, seconds, &base, storage),
        None => serve_empty(rt, address, requests, seconds, &base),
    }
}

/// Listens, and serves `requests` connections from a provider in memory that starts empty.
fn serve_empty<'a, R: Runtime + Net + AllocGlobal>(
    rt: &'a R,
    address: &str,
    requests: u64,
    seconds: u32,
    base: &Base,
) -> Result<Status, CommandFault>
    ensures { IfOk result
        (ServesEmpty ⟦<Sockets<'a, TcpListener, R> as Listen>⟧.waiting
        ⟦<PromptStream<'a, AheadReader<SharedStream<TcpStream>>, R> as Read>⟧.remaining
        ⟦<LateWriter<PromptStream<'a, SharedStream<TcpStream>, R>> as Write>⟧.contents
        (λ sockets. as_nanos sockets.search_times.longest)
        ⟦<MemoryRegistry as Registry>⟧ base.now requests (seconds * 1_000_000_000)) }
{
    let mut sockets = sockets(rt, address, seconds)?;
    let outcome = serve_from_memory(rt, rt.alloc(), &mut sockets, requests, base);
    let finished = sockets.finish(rt);
    Ok(status_after(outcome, finished))
}

/// Opens the rows, listens, and serves `requests` connections.
fn serve_from_file<'a, R: Runtime + Net + AllocGlobal, K: RowStorage>(
    rt: &'a R,
    address: &str,
    requests: u64,
    seconds: u32,
    base: &Base,
    storage: &K,
) -> Result<Status, CommandFault>
    ensures { IfOk result
        (ServesStored ⟦<Sockets<'a, TcpListener, R> as Listen>⟧.waiting
        ⟦<PromptStream<'a, AheadReader<SharedStream<TcpStream>>, R> as Read>⟧.remaining
        ⟦<LateWriter<PromptStream<'a, SharedStream<TcpStream>, R>> as Write>⟧.contents
        (λ sockets. as_nanos sockets.search_times.longest)
        K.Rows.Registry (K.finds storage.now) base.now requests (seconds * 1_000_000_000)) }
{
    let rows = storage.open()?;
    match sockets(rt, address, seconds) {
        Ok(mut sockets) => serve_rows(rt, storage, rows, &mut sockets, requests, base),
        Err(fault) => {
            rows.close();
            Err(fault)
        }
    }
}

/// Serves `requests` connections from rows that were opened.
#[tactic(auto, using(crate::proofs::RunLemmas::rows_served))]
fn serve_rows<'a, R: Runtime + Net + AllocGlobal, K: RowStorage>(
    rt: &'a R,
    storage: &K,
    rows: K::Rows,
    sockets: &mut Sockets<'a, TcpListener, R>,
    requests: u64,
    base: &Base,
) -> Result<Status, CommandFault>
    ensures { IfOk result
        (ServesRows ⟦<Sockets<'a, TcpListener, R> as Listen>⟧.waiting
        ⟦<PromptStream<'a, AheadReader<SharedStream<TcpStream>>, R> as Read>⟧.remaining
        ⟦<LateWriter<PromptStream<'a, SharedStream<TcpStream>, R>> as Write>⟧.contents
        (λ sockets. as_nanos sockets.search_times.longest)
        K.Rows.Registry (K.finds storage.now) base.now rows requests
        (as_nanos sockets.old.search_times.longest)) }
{
    match serve_stored(rt, rt.alloc(), storage, rows, sockets, requests, base) {
        Ok(outcome) => {
            let finished = sockets.finish(rt);
            Ok(status_after(outcome, finished))
        }
        Err(refused) => {
            let _finished = sockets.finish(rt);
            Err(CommandFault::from(refused))
        }
    }
}

/// The exit status after connections, and after the answers that were still being sent.
fn status_after(
    outcome: Result<(), ConnectionFault>,
    finished: Result<(), ConnectionFault>,
) -> Status
    ensures { result ≡ outcome_status (result_and outcome finished) }
{
    outcome_status(outcome.and(finished))
}

/// The connections of an address, each with a deadline, and each search with so many seconds. It prints the address
/// with its port.
fn sockets<'a, R: Runtime + Net + AllocGlobal>(
    rt: &'a R,
    address: &str,
    seconds: u32,
) -> Result<Sockets<'a, TcpListener, R>, CommandFault>
    ensures { IfOk result (λ sockets. as_nanos sockets.search_times.longest
        ≡ seconds * 1_000_000_000) }
{
    let limit = Duration::from_secs(CONNECTION_SECONDS);
    let longest_search = Duration::from_secs(u64::from(seconds));
    match connection::listen_at(rt, rt.alloc(), address, rt, limit, longest_search) {
        Ok((sockets, taken)) => {
            println!(rt; "listening {taken}")?;
            Ok(sockets)
        }
        Err(error) => Err(listen_fault(error)),
    }
}

//! A run of `loop`: the connector against a provider in the same program, in turn, over TCP.
ghost use Rattle.std.specs.Prelude.{◌≡◌, ◌<◌, IfErr, IfOk};
ghost use Rattle.scim_key.specs.Stores.{CountsFaults};
ghost use Rattle.provisioning.specs.Carrying.{CarriesSilently};
ghost use Rattle.provisioning.specs.Services.{keeping_at};
ghost use Rattle.commands.specs.Loops.{CarriesHere, CountsLook, IsOutcome, IsUnprinted, Loops};

use crate::looping::faults::{LoopFault, unheard, unprinted};
use crate::looping::own::{OwnProvider, OwnReader, OwnStreams};
use crate::looping::reports::Reports;
use crate::looping::views::print_views;
use connection::{Listen, SEARCH_SECONDS, Sockets, listen_at};
use connector_core::{Connector, Keeps};
use journal_core::Journal;
use provider_core::Provider;
use provisioning::{
    CONNECTION_SECONDS, Outcome, Remote, RunFault, ServiceProvider, Sources, carry,
};
use scim_client::ScimService;
use std::alloc::Global;
use std::cell::RefCell;
use std::io::{Eprint, Read, Write};
use std::net::{Net, TcpListener};
use std::time::{Clock, Duration};
use storage::StoredRows;
use timed_streams::TimedHandle;
use world_sim::Count;

/// Where the provider of `run_loop` listens: at a free port that only this machine reaches.
pub const OWN_ADDRESS: &str = "127.0.0.1:0";

/// Runs the connector against a provider that listens at a free port. It prints a report for each row (older
/// rows are reported on standard error too), then, if every record is settled, how many exchanges there were,
/// then a line for each record. A fault of the provider's store ends the run.
pub fn run_loop<'a, N: Net + Clock + Eprint, R: StoredRows + 'a, J: Journal, W: Write>(
    rt: &'a N,
    alloc: Global,
    service: &ScimService,
    connector: &mut Connector<J>,
    provider: &mut Provider<R>,
    sources: &Sources,
    out: &mut W,
) -> Result<Outcome, LoopFault>
    ensures { Loops ⟦<OwnReader<'a, 'a, 'a, N, Sockets<'a, TcpListener, N>, R> as Read>⟧.remaining
        ⟦<TimedHandle<'a, N::Stream, N> as Write>⟧.contents J.Journal service.now sources.now
        connector.old connector.new (0 < R.faults provider.new) result }
{
    let carried = carry_here(rt, alloc, service, connector, provider, sources, out);
    finish(carried, connector, provider, out)
}

/// Prints the result of a run, and the state of its records. If the provider's store failed, that is the
/// fault of the run.
fn finish<R: StoredRows, J: Journal, W: Write>(
    carried: Result<Outcome, RunFault>,
    connector: &Connector<J>,
    provider: &mut Provider<R>,
    out: &mut W,
) -> Result<Outcome, LoopFault>
    ensures { IsOutcome (0 < R.faults provider.new) carried result }
{
    if provider.registry().has_failed() {
        return Err(LoopFault::Store);
    }
    match carried {
        Ok(outcome) => print_end(outcome, connector, provider, out),
        Err(fault) => Err(LoopFault::Ended(fault)),
    }
}

/// Prints the result of a run that no fault ended, and the state of its records.
fn print_end<R: StoredRows, J: Journal, W: Write>(
    outcome: Outcome,
    connector: &Connector<J>,
    provider: &mut Provider<R>,
    out: &mut W,
) -> Result<Outcome, LoopFault>
    ensures outcome { IfOk result (λ printed. printed ≡ outcome) }
    ensures fault { IfErr result IsUnprinted }
    ensures counted { CountsFaults CountsLook (R.faults provider.old) (R.faults provider.new) result }
{
    if outcome.tally.is_settled {
        let exchanges = outcome.tally.exchanges;
        writeln!(out, "{}", Count { exchanges }).map_err(unprinted)?;
    }
    print_views(connector, provider, out)?;
    out.flush().map_err(unprinted)?;
    Ok(outcome)
}

/// Runs the connector against a provider over TCP.
fn carry_here<'a, N: Net + Clock + Eprint, R: StoredRows + 'a, J: Journal, W: Write>(
    rt: &'a N,
    alloc: Global,
    service: &ScimService,
    connector: &mut Connector<J>,
    provider: &mut Provider<R>,
    sources: &Sources,
    out: &mut W,
) -> Result<Outcome, RunFault>
    ensures { CarriesHere
        ⟦<OwnReader<'a, 'a, 'a, N, Sockets<'a, TcpListener, N>, R> as Read>⟧.remaining
        ⟦<TimedHandle<'a, N::Stream, N> as Write>⟧.contents J.Journal service.now sources.now
        connector.old connector.new result }
{
    match listen(rt, alloc) {
        Ok((listener, address)) => {
            let own = RefCell::new(OwnProvider {
                alloc,
                base: service.base(),
                listener,
                provider,
            });
            let carried = carry_to(
                rt,
                alloc,
                service,
                connector,
                sources,
                address.as_str(),
                &own,
                out,
            );
            // The drop of a cell that holds a `&mut` isn't proved by itself; that of its value is.
            let _ = own.into_inner();
            carried
        }
        Err(fault) => Err(fault),
    }
}

/// Runs the connector against a provider in this program.
fn carry_to<
    'r,
    'p,
    'b,
    N: Net + Clock + Eprint,
    L: Listen + Drop,
    R: StoredRows,
    J: Journal,
    W: Write,
>(
    rt: &'r N,
    alloc: Global,
    service: &ScimService,
    connector: &mut Connector<J>,
    sources: &Sources,
    address: &str,
    own: &'p RefCell<OwnProvider<'b, L, R>>,
    out: &mut W,
) -> Result<Outcome, RunFault>
    ensures { CarriesSilently ⟦<OwnReader<'r, 'p, 'b, N, L, R> as Read>⟧.remaining
        ⟦<TimedHandle<'r, N::Stream, N> as Write>⟧.contents J.Journal (keeping_at service.now)
        sources.now connector.old connector.new result }
{
    let mut streams = OwnStreams {
        remote: Remote::new(alloc, rt, address),
        own,
    };
    let mut reports = Reports {
        out,
        stderr: rt,
        rows: 0,
    };
    let keeping = ServiceProvider {
        service,
        keeps: Keeps::Revisions,
        is_versioned: true,
    };
    carry(
        alloc,
        &keeping,
        connector,
        sources,
        &mut streams,
        &mut reports,
    )
}

/// The connections of a free port, each with its deadline, and the port's address.
fn listen<'a, N: Net + Clock + Eprint>(
    rt: &'a N,
    alloc: Global,
) -> Result<(Sockets<'a, TcpListener, N>, String), RunFault> {
    let limit = Duration::from_secs(CONNECTION_SECONDS);
    let longest_search = Duration::from_secs(u64::from(SEARCH_SECONDS));
    let opened = listen_at(rt, alloc, OWN_ADDRESS, rt, limit, longest_search);
    let (mut sockets, taken) = opened.map_err(unheard)?;
    sockets.serve_own_thread();
    Ok((sockets, format!(in alloc; "{taken}")?))
}

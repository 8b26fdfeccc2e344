//! The connector against the provider at an address.
ghost use Rattle.provisioning.specs.Carrying.{CarriesSilentlyAt, CarriesToldAt};
ghost use Rattle.provisioning.specs.Quiet.{CarriesQuietly, Concludes};

use crate::carrying::{Outcome, carry_at};
use crate::delaying::Delaying;
use crate::faults::{RunFault, unwritten};
use crate::lines::Lines;
use crate::offering::Hear;
use crate::paces::Pace;
use crate::quiet::QuietLines;
use crate::services::ServiceProvider;
use crate::sockets::Remote;
use crate::sources::Sources;
use crate::telling::Tell;
use crate::watching::{Explained, Explaining};
use connector_core::Connector;
use journal_core::Journal;
use std::alloc::Global;
use std::cell::Cell;
use std::io::{Eprint, Read, Write};
use std::net::Net;
use std::time::Clock;
use timed_streams::TimedHandle;

/// Runs the connector against the provider at an address, HOST:PORT. It prints a line for each record as
/// soon as the record is done, and reports rows that the connector refuses, and older rows, on standard error.
/// There it also says what the last fault of an unconfirmed record was, which records wait, as the provider asks, and what
/// a provider that drops revisions shows of a confirmed record with other values than were asked.
pub fn push<'a, N: Net + Clock + Eprint, J: Journal, W: Write>(
    rt: &'a N,
    alloc: Global,
    service: &ServiceProvider<'_>,
    connector: &mut Connector<J>,
    sources: &Sources,
    pace: Pace,
    address: &str,
    out: &mut W,
) -> Result<Outcome, RunFault>
    ensures { CarriesSilentlyAt ⟦<TimedHandle<'a, N::Stream, N> as Read>⟧.remaining
        ⟦<TimedHandle<'a, N::Stream, N> as Write>⟧.contents J.Journal pace service.now sources.now
        connector.old connector.new result }
{
    let lines = Lines { out, stderr: rt };
    let (carried, _lines) = carry_to(rt, alloc, service, connector, sources, pace, address, lines);
    carried
}

/// The same, but it prints a line only for each record that isn't confirmed, and at the end how many records were
/// confirmed and unconfirmed, and how many rows were rejected. On standard error it says nothing of what is shown of
/// confirmed records.
pub fn push_quietly<'a, N: Net + Clock + Eprint, J: Journal, W: Write>(
    rt: &'a N,
    alloc: Global,
    service: &ServiceProvider<'_>,
    connector: &mut Connector<J>,
    sources: &Sources,
    pace: Pace,
    address: &str,
    out: &mut W,
) -> Result<Outcome, RunFault>
    ensures { CarriesQuietly ⟦<TimedHandle<'a, N::Stream, N> as Read>⟧.remaining
        ⟦<TimedHandle<'a, N::Stream, N> as Write>⟧.contents J.Journal pace service.now sources.now
        connector.old connector.new result }
{
    let lines = QuietLines::over(Lines { out, stderr: rt }, sources);
    let (carried, lines) = carry_to(rt, alloc, service, connector, sources, pace, address, lines);
    concluded(carried, lines)
}

/// The same, reported by a teller, which it returns.
fn carry_to<'a, N: Net + Clock + Eprint, J: Journal, T: Hear + Tell + Drop>(
    rt: &'a N,
    alloc: Global,
    service: &ServiceProvider<'_>,
    connector: &mut Connector<J>,
    sources: &Sources,
    pace: Pace,
    address: &str,
    teller: T,
) -> (Result<Outcome, RunFault>, T)
    ensures { CarriesToldAt ⟦<TimedHandle<'a, N::Stream, N> as Read>⟧.remaining
        ⟦<TimedHandle<'a, N::Stream, N> as Write>⟧.contents J.Journal pace T.heard T.told
        service.now sources.now connector.old connector.new result.0 }
{
    let (last, delays) = (Cell::new(None), Cell::new(None));
    let mut dial = Explaining {
        dial: Delaying {
            dial: Remote::new(alloc, rt, address),
            alloc,
            runtime: rt,
            delays: &delays,
        },
        last: &last,
    };
    let mut explained = Explained {
        teller,
        stderr: rt,
        last: &last,
    };
    let carried = carry_at(
        alloc,
        service,
        connector,
        sources,
        &mut dial,
        &mut explained,
        pace,
    );
    let Explained { teller, .. } = explained;
    (carried, teller)
}

/// Prints the counts of a run that no fault ended.
fn concluded<W: Write + Drop, E: Eprint>(
    carried: Result<Outcome, RunFault>,
    mut lines: QuietLines<'_, W, E>,
) -> Result<Outcome, RunFault>
    ensures { Concludes carried result }
{
    match carried {
        Ok(outcome) => match lines.conclude() {
            Ok(()) => Ok(outcome),
            Err(error) => Err(unwritten(error)),
        },
        Err(fault) => Err(fault),
    }
}

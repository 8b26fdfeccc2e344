//! The check against the provider at an address.
ghost use Rattle.checking.specs.Checks.{ChecksAloud, Concludes};
ghost use Rattle.checking.specs.Rechecks.{RechecksAt};

use crate::counts::Counts;
use crate::explaining::Explained;
use crate::lines::{FindingLines, FindingNotices};
use crate::rechecking::recheck_all;
use crate::running::check_all;
use connector_core::Connector;
use journal_core::Journal;
use provisioning::{Explaining, Remote, RunFault, ServiceProvider, names_in_order, unwritten};
use std::alloc::Global;
use std::cell::Cell;
use std::io::{Eprint, Read, Write};
use std::net::Net;
use std::time::Clock;
use timed_streams::TimedHandle;

/// Asks the provider at an address, HOST:PORT, about every record. It prints a line for each that differs or is
/// unchecked, in a quiet run fewer, and at the end how many there were. On standard error it says why a record is
/// unchecked.
pub fn check<'a, N: Net + Clock + Eprint, J: Journal, W: Write>(
    rt: &'a N,
    alloc: Global,
    service: &ServiceProvider<'_>,
    connector: &Connector<J>,
    is_quiet: bool,
    streams: u32,
    address: &str,
    out: &mut W,
) -> Result<Counts, RunFault>
    ensures { ChecksAloud ⟦<TimedHandle<'a, N::Stream, N> as Read>⟧.remaining
        ⟦<TimedHandle<'a, N::Stream, N> as Write>⟧.contents service.now connector.now.book result }
{
    let names = names_in_order(connector)?;
    let last = Cell::new(None);
    let mut dial = Explaining {
        dial: Remote::new(alloc, rt, address),
        last: &last,
    };
    let mut explained = Explained {
        teller: FindingLines { out, is_quiet },
        stderr: rt,
        last: &last,
    };
    let counts = check_all(
        alloc,
        service,
        connector,
        &mut dial,
        &mut explained,
        names,
        streams,
    );
    let Explained { teller, .. } = explained;
    concluded(counts, teller)
}

/// Asks the provider at an address about each record whose wanted revision is confirmed, and reports what differs or is
/// unchecked on standard error, in a quiet run less. The connector doubts that from then on, and each record that wasn't
/// asked about. Returns of how many records the account is active, and shouldn't be.
pub fn recheck<'a, N: Net + Clock + Eprint, J: Journal>(
    rt: &'a N,
    alloc: Global,
    service: &ServiceProvider<'_>,
    connector: &mut Connector<J>,
    is_quiet: bool,
    streams: u32,
    address: &str,
) -> Result<usize, RunFault>
    ensures { RechecksAt ⟦<TimedHandle<'a, N::Stream, N> as Read>⟧.remaining
        ⟦<TimedHandle<'a, N::Stream, N> as Write>⟧.contents service.now
        connector.old connector.new result }
{
    let last = Cell::new(None);
    let mut dial = Explaining {
        dial: Remote::new(alloc, rt, address),
        last: &last,
    };
    let notices = Explained {
        teller: FindingNotices {
            stderr: rt,
            is_quiet,
        },
        stderr: rt,
        last: &last,
    };
    recheck_all(alloc, service, connector, &mut dial, notices, streams)
}

/// Prints the counts of a run that no fault ended.
fn concluded<W: Write + Drop>(
    checked: Result<Counts, RunFault>,
    mut lines: FindingLines<W>,
) -> Result<Counts, RunFault>
    ensures { Concludes checked result }
{
    match checked {
        Ok(counts) => match lines.conclude(counts) {
            Ok(()) => Ok(counts),
            Err(error) => Err(unwritten(error)),
        },
        Err(fault) => Err(fault),
    }
}

//! The check of every record.
ghost use Rattle.std.specs.Prelude.{◌≡◌, IfErr, OnOk};
ghost use Rattle.connector_core.specs.Maps.{book_of};
ghost use Rattle.provisioning.specs.Lists.{Adds};
ghost use Rattle.provisioning.specs.Openings.{Opens};
ghost use Rattle.provisioning.specs.Runs.{IsUntold};
ghost use Rattle.checking.specs.Checks.{Checks, MakesRoom, Reports, ReportsRest, Sends, counted};

use crate::begun::{Pending, begin, finish};
use crate::counts::Counts;
use crate::findings::Finding;
use crate::telling::TellFinding;
use connector_core::{Connector, Keeps};
use journal_core::Journal;
use provisioning::{Dial, RunFault, ServiceProvider, unwritten};
use scim_key::RecordName;
use std::alloc::Global;
use std::collections::VecDeque;

/// Asks about each of these records by one search, on a stream of its own, and reports the finding of each in this order.
/// Up to `streams` are under way at once. It changes nothing. The run ends early if a stream can't be opened, a finding
/// can't be reported, or memory runs out.
pub fn check_all<J: Journal, D: Dial, T: TellFinding>(
    alloc: Global,
    service: &ServiceProvider<'_>,
    connector: &Connector<J>,
    dial: &mut D,
    teller: &mut T,
    names: Vec<RecordName>,
    streams: u32,
) -> Result<Counts, RunFault>
    ensures { Opens (D.opened dial.old) (D.opened dial.new) (λ opened. Checks T.note
        D.Reader.remaining D.Writer.contents service.now (book_of connector.now.book) names.items opened
        (T.noted teller.old) (T.noted teller.new) result) }
{
    let waiting = VecDeque::from_vec(names);
    check_names(
        alloc,
        service,
        connector,
        dial,
        teller,
        waiting,
        streams as usize,
    )
}

/// Checks these records.
fn check_names<J: Journal, D: Dial, T: TellFinding>(
    alloc: Global,
    service: &ServiceProvider<'_>,
    connector: &Connector<J>,
    dial: &mut D,
    teller: &mut T,
    mut waiting: VecDeque<RecordName>,
    streams: usize,
) -> Result<Counts, RunFault>
    ensures { Opens (D.opened dial.old) (D.opened dial.new) (λ opened. Checks T.note
        D.Reader.remaining D.Writer.contents service.now (book_of connector.now.book) waiting.items opened
        (T.noted teller.old) (T.noted teller.new) result) }
{
    let mut counts = Counts::new();
    let mut under_way = VecDeque::new(alloc);
    while let Some(name) = waiting.pop_front() {
        counts = make_room(
            alloc,
            service.keeps,
            dial,
            teller,
            &mut under_way,
            streams,
            counts,
        )?;
        send(alloc, service, connector, dial, &mut under_way, name)?;
    }
    report_rest(alloc, service.keeps, dial, teller, under_way, counts)
}

/// Reports the first record, if as many are under way as may be.
fn make_room<D: Dial, T: TellFinding>(
    alloc: Global,
    keeps: Keeps,
    dial: &D,
    teller: &mut T,
    under_way: &mut VecDeque<Pending<D::Reader, D::Writer>>,
    streams: usize,
    counts: Counts,
) -> Result<Counts, RunFault>
    ensures { MakesRoom T.note D.Reader.remaining under_way.old.items under_way.new.items counts
        (T.noted teller.old) (T.noted teller.new) result }
{
    if under_way.len() < streams {
        return Ok(counts);
    }
    match under_way.pop_front() {
        Some(first) => report(alloc, keeps, dial, teller, first, counts),
        None => Ok(counts),
    }
}

/// Sends the search for a record, which is then under way behind the others.
fn send<J: Journal, D: Dial>(
    alloc: Global,
    service: &ServiceProvider<'_>,
    connector: &Connector<J>,
    dial: &mut D,
    under_way: &mut VecDeque<Pending<D::Reader, D::Writer>>,
    name: RecordName,
) -> Result<(), RunFault>
    ensures { Opens (D.opened dial.old) (D.opened dial.new) (λ opened. Sends
        D.Writer.contents service.now (book_of connector.now.book) name opened
        under_way.old.items under_way.new.items result) }
{
    under_way.reserve(1)?;
    let begun = begin(alloc, service, connector, dial, &name)?;
    under_way.push_back_reserved(Pending { name, begun });
    Ok(())
}

/// Reports the records that are under way.
fn report_rest<D: Dial, T: TellFinding>(
    alloc: Global,
    keeps: Keeps,
    dial: &D,
    teller: &mut T,
    mut under_way: VecDeque<Pending<D::Reader, D::Writer>>,
    mut counts: Counts,
) -> Result<Counts, RunFault>
    ensures { ReportsRest T.note D.Reader.remaining under_way.items counts (T.noted teller.old)
        (T.noted teller.new) result }
{
    while let Some(first) = under_way.pop_front() {
        counts = report(alloc, keeps, dial, teller, first, counts)?;
    }
    Ok(counts)
}

/// Reads the answer about a record, reports the finding, and counts it.
fn report<D: Dial, T: TellFinding>(
    alloc: Global,
    keeps: Keeps,
    dial: &D,
    teller: &mut T,
    pending: Pending<D::Reader, D::Writer>,
    counts: Counts,
) -> Result<Counts, RunFault>
    ensures { Reports T.note D.Reader.remaining pending.name pending.begun counts (T.noted teller.old)
        (T.noted teller.new) result }
{
    let Pending { name, begun } = pending;
    let finding = finish(alloc, dial, keeps, &name, begun)?;
    let told = tell(teller, &name, &finding);
    counted(counts, &finding, told)
}

/// The counts with one record more, if it was reported.
fn counted(
    counts: Counts,
    finding: &Finding,
    told: Result<(), RunFault>,
) -> Result<Counts, RunFault>
    ensures { result ≡ counted counts finding.now told }
{
    match told {
        Ok(()) => Ok(counts.with(finding)),
        Err(fault) => Err(fault),
    }
}

/// Reports the finding of a record.
fn tell<T: TellFinding>(
    teller: &mut T,
    name: &RecordName,
    finding: &Finding,
) -> Result<(), RunFault>
    ensures noted { OnOk result
        (Adds (T.noted teller.old) (T.noted teller.new) (T.note name.now finding.now)) }
    ensures fault { IfErr result IsUntold }
{
    match teller.tell(name, finding) {
        Ok(()) => Ok(()),
        Err(error) => Err(unwritten(error)),
    }
}

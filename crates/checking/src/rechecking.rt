//! What differs from what is wanted is doubted, so that a push puts it right.
ghost use Rattle.std.specs.Prelude.{◌≡◌, IfErr, IfOk, map};
ghost use Rattle.connector_core.specs.Maps.{book_of};
ghost use Rattle.provisioning.specs.Openings.{Opens};
ghost use Rattle.checking.specs.Rechecks.{AreDoubted, Compares, ComparesSome, Rechecks, carried, groups_in, is_carried, unasked, uncarried, with_groups};

use crate::doubtful::{Doubtful, Doubting, is_user, leavers_among, may_move};
use crate::running::check_all;
use crate::telling::TellFinding;
use connector_core::Connector;
use journal_core::Journal;
use provisioning::{Dial, RunFault, ServiceProvider, names_in_order};
use scim_key::RecordName;
use std::alloc::{AllocError, Global};

/// Checks each record whose wanted revision is confirmed. From then on it doubts each that wasn't found in step, each
/// that wasn't checked, and, if the id of a user may change, each group. Returns of how many records the account is
/// active, and shouldn't be. If the check ends early, the connector stays as it was.
pub fn recheck_all<J: Journal, D: Dial, T: TellFinding + Drop>(
    alloc: Global,
    service: &ServiceProvider<'_>,
    connector: &mut Connector<J>,
    dial: &mut D,
    teller: T,
    streams: u32,
) -> Result<usize, RunFault>
    ensures { Opens (D.opened dial.old) (D.opened dial.new) (λ opened. Rechecks
        D.Reader.remaining D.Writer.contents service.now opened connector.old connector.new result) }
{
    match compare(alloc, service, connector, dial, teller, streams) {
        Ok(doubtful) => {
            doubt_each(connector, doubtful.as_slice());
            Ok(leavers_among(doubtful.as_slice()))
        }
        Err(fault) => Err(fault),
    }
}

/// Checks each record whose wanted revision is confirmed. Returns the records that weren't checked, those that weren't
/// found in step, and, if the id of a user may change, the groups.
fn compare<J: Journal, D: Dial, T: TellFinding + Drop>(
    alloc: Global,
    service: &ServiceProvider<'_>,
    connector: &Connector<J>,
    dial: &mut D,
    teller: T,
    streams: u32,
) -> Result<Vec<Doubtful>, RunFault>
    ensures compared { IfOk result (λ doubtful. Opens (D.opened dial.old) (D.opened dial.new)
        (λ opened. Compares D.Reader.remaining D.Writer.contents service.now
        connector.now.book opened doubtful.items)) }
    ensures ended { IfErr result (λ fault. Opens (D.opened dial.old) (D.opened dial.new)
        (λ opened. ComparesSome D.Reader.remaining D.Writer.contents service.now
        connector.now.book opened fault)) }
{
    let names = names_in_order(connector)?;
    let (carried, others) = by_confirmation(alloc, connector, names)?;
    let groups = groups_in(alloc, carried.as_slice())?;
    let doubtful = unasked(alloc, others)?;
    let mut doubting = Doubting { teller, doubtful };
    let checked = check_all(
        alloc,
        service,
        connector,
        dial,
        &mut doubting,
        carried,
        streams,
    );
    let Doubting { doubtful, .. } = doubting;
    match checked {
        Ok(_) => Ok(with_groups(groups, doubtful)?),
        Err(fault) => Err(fault),
    }
}

/// Of these records, those whose wanted revision is confirmed, and the others.
fn by_confirmation<J: Journal>(
    alloc: Global,
    connector: &Connector<J>,
    names: Vec<RecordName>,
) -> Result<(Vec<RecordName>, Vec<RecordName>), AllocError>
    ensures { IfOk result (λ names_by. (names_by.0.items ≡ carried (book_of connector.now.book) names.items)
        × (names_by.1.items ≡ uncarried (book_of connector.now.book) names.items)) }
{
    names
        .into_iter()
        .partition(alloc, |name| is_carried(connector, name))
}

/// These records, about which nothing was asked.
fn unasked(alloc: Global, names: Vec<RecordName>) -> Result<Vec<Doubtful>, AllocError>
    ensures { IfOk result (λ doubtful. doubtful.items ≡ map unasked names.items) }
{
    names
        .into_iter()
        .map(|name| Doubtful::unasked(name))
        .collect(alloc)
}

/// The groups among these records.
fn groups_in(alloc: Global, names: &[RecordName]) -> Result<Vec<Doubtful>, AllocError>
    ensures { IfOk result (λ groups. groups.items ≡ groups_in names.now) }
{
    let mut groups = Vec::new(alloc);
    for name in names {
        if !is_user(name) {
            groups.push(Doubtful::unasked(name.clone()?))?;
        }
    }
    Ok(groups)
}

/// These doubtful records, with the groups behind them if the id of a user may change.
fn with_groups(
    mut groups: Vec<Doubtful>,
    mut doubtful: Vec<Doubtful>,
) -> Result<Vec<Doubtful>, AllocError>
    ensures { IfOk result (λ more. more.items ≡ with_groups groups.items doubtful.items) }
{
    if may_move(doubtful.as_slice()) {
        doubtful.append(&mut groups)?;
    }
    Ok(doubtful)
}

/// Whether the wanted revision of a record is confirmed.
fn is_carried<J: Journal>(connector: &Connector<J>, name: &RecordName) -> bool
    ensures { result ≡ is_carried (book_of connector.now.book) name.now }
{
    connector.wanted(name) == connector.confirmed(name)
}

/// Doubts each of these records.
fn doubt_each<J: Journal>(connector: &mut Connector<J>, doubtful: &[Doubtful])
    ensures { AreDoubted doubtful.now connector.old connector.new }
{
    for record in doubtful {
        connector.doubt(&record.name);
    }
}

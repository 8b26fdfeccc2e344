//! Records that others write and that aren't ours.
ghost use Rattle.std.specs.Option.{option_copied};
ghost use Rattle.std.specs.Prelude.{◌≡◌, IfOk, List};
ghost use Rattle.mapping.specs.Settling.{IsSettleOrder};
ghost use Rattle.scim_key.specs.declared.records.RecordName.{RecordName};
ghost use Rattle.world_sim.specs.Strangers as spec;
ghost use Rattle.world_sim.specs.Strangers.{HasNames};

use crate::acting::Act;
use crate::events::Event;
use mapping::settle_order;
use scim_key::RecordName;
use source_csv::Row;
use std::alloc::{AllocError, Global};
use std::collections::BTreeSet;

/// These names as a set.
fn set_of(alloc: Global, names: &[RecordName]) -> Result<BTreeSet<RecordName>, AllocError>
    ensures { IfOk result (λ set. HasNames set names.now) }
{
    let mut set = BTreeSet::new(alloc);
    for name in names {
        set.insert(name.clone()?)?;
    }
    Ok(set)
}

/// The row of which others write the image by this act, or of which the provider holds the image at the start.
fn written(act: &Act) -> Option<&Row>
    ensures { option_copied result ≡ spec.written act.now }
{
    match act {
        Act::WritesRow(row) => Some(row),
        Act::Holds(row) => Some(row),
        Act::Ours(_) | Act::Asks(_) | Act::Writes(_) => None,
    }
}

/// The record that others write by the row of this act, if it isn't known.
fn met(
    alloc: Global,
    known: &BTreeSet<RecordName>,
    act: &Act,
) -> Result<Option<RecordName>, AllocError>
    ensures { (names : List RecordName) → HasNames known.now names
        → IfOk result (λ name. name ≡ spec.met names act.now) }
{
    let Some(row) = written(act) else {
        return Ok(None);
    };
    let name = row.record_name(alloc)?;
    if known.contains(&name) {
        return Ok(None);
    }
    Ok(Some(name))
}

/// The records that others write by rows, but for these, each once, as they come.
fn all_met(alloc: Global, ours: &[RecordName], acts: &[Act]) -> Result<Vec<RecordName>, AllocError>
    ensures { IfOk result (λ names. names.items ≡ spec.strangers ours.now acts.now) }
{
    let mut known = set_of(alloc, ours)?;
    let mut names = Vec::new(alloc);
    for act in acts {
        if let Some(name) = met(alloc, &known, act)? {
            known.insert(name.clone()?)?;
            names.push(name)?;
        }
    }
    Ok(names)
}

/// The records that others write by rows, but for these, each once: users by key, then groups by key.
pub(crate) fn strangers(
    alloc: Global,
    ours: &[RecordName],
    acts: &[Act],
) -> Result<Vec<RecordName>, AllocError>
    ensures { IfOk result
        (λ names. IsSettleOrder (spec.strangers ours.now acts.now) names.items) }
{
    let mut names = all_met(alloc, ours, acts)?;
    settle_order(names.as_mut_slice());
    Ok(names)
}

/// The record of which our source offers a row by this act, if it offers one.
fn offer(alloc: Global, act: &Act) -> Result<Option<RecordName>, AllocError>
    ensures { IfOk result (λ name. name ≡ spec.offer act.now) }
{
    match act {
        Act::Ours(Event::Change(row)) => {
            let name = row.record_name(alloc)?;
            Ok(Some(name))
        }
        _ => Ok(None),
    }
}

/// The records of which our source offers rows by these acts.
pub fn offered(alloc: Global, acts: &[Act]) -> Result<BTreeSet<RecordName>, AllocError>
    ensures { IfOk result (λ names. HasNames names (spec.offered acts.now)) }
{
    let mut names = BTreeSet::new(alloc);
    for act in acts {
        if let Some(name) = offer(alloc, act)? {
            names.insert(name)?;
        }
    }
    Ok(names)
}

/// The record that others write by the row of this act, if it is one of these.
pub fn contested(
    alloc: Global,
    ours: &BTreeSet<RecordName>,
    act: &Act,
) -> Result<Option<RecordName>, AllocError>
    ensures { (names : List RecordName) → HasNames ours.now names
        → IfOk result (λ name. name ≡ spec.contested names act.now) }
{
    let Act::WritesRow(row) = act else {
        return Ok(None);
    };
    let name = row.record_name(alloc)?;
    if !ours.contains(&name) {
        return Ok(None);
    }
    Ok(Some(name))
}

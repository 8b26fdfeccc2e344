//! The records that are absent from a snapshot.
ghost use Rattle.std.specs.Prelude.{◌≡◌, ◌+◌, ◌++◌, OnOk, length};
ghost use Rattle.std.specs.FinMap.{keys};
ghost use Rattle.std.specs.Option.{option_copied};
ghost use Rattle.connector_core.specs.Book.{wanted_row};
ghost use Rattle.connector_core.specs.Maps.{book_of};
ghost use Rattle.snapshots.specs.Snapshots.{absent_row, numbered_absent};
ghost use Rattle.snapshots.specs.Tally.{counts};

use crate::tally::Tally;
use crate::withdrawing::{is_in_force, number_withdrawn};
use connector_core::Connector;
use journal_core::Journal;
use scim_key::{Kind, RecordName};
use source_csv::{Row, RowFault};
use std::alloc::{AllocError, Global};

/// The wanted row of this record, if the record is of this kind and absent, and its row is in force.
fn absent_row<'a, J: Journal>(
    connector: &'a Connector<J>,
    tally: &Tally,
    kind: Kind,
    name: &RecordName,
) -> Option<&'a Row>
    ensures { option_copied result
        ≡ absent_row (wanted_row (book_of connector.now.book)) (counts tally.now) kind name.now }
{
    if name.kind != kind || tally.count(name) != 0 {
        return None;
    }
    match connector.row(name) {
        Some(row) if is_in_force(row) => Some(row),
        _ => None,
    }
}

/// Appends the absent records, withdrawn. If a record has no next revision, its fault stands at the place after the
/// last row.
pub(crate) fn push_absent<J: Journal>(
    alloc: Global,
    connector: &Connector<J>,
    tally: &Tally,
    kind: Kind,
    rows: &mut Vec<Result<Row, RowFault>>,
) -> Result<(), AllocError>
    ensures { OnOk result (rows.new.items ≡ rows.old.items
        ++ numbered_absent (wanted_row (book_of connector.now.book)) (counts tally.now) kind
        (length rows.old.items + 1) (keys connector.now.book)) }
{
    let place = rows.len() + 1;
    for name in connector.names()? {
        if let Some(wanted) = absent_row(connector, tally, kind, &name) {
            rows.push(number_withdrawn(alloc, place, wanted)?)?;
        }
    }
    Ok(())
}

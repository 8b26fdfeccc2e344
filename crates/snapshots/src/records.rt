//! The records of a snapshot, numbered.
ghost use Rattle.std.specs.Prelude.{◌≡◌, IfOk, Ok};
ghost use Rattle.connector_core.specs.Book.{wanted_row};
ghost use Rattle.connector_core.specs.Maps.{book_of};
ghost use Rattle.snapshots.specs.Snapshots.{is_repeated as repeated_by, numbered_file, numbered_record};
ghost use Rattle.snapshots.specs.Tally.{KnowsRepeats, counts};

use crate::rows::{at_place, number_row, repeated};
use crate::tally::Tally;
use connector_core::Connector;
use journal_core::Journal;
use source_csv::{Rejected, Row, RowFault};
use std::alloc::{AllocError, Global};

/// A row of the file, numbered.
fn number_said<J: Journal>(
    alloc: Global,
    connector: &Connector<J>,
    tally: &Tally,
    place: usize,
    row: Row,
) -> Result<Result<Row, RowFault>, AllocError>
    requires { KnowsRepeats tally.now }
    ensures { IfOk result (λ numbered. numbered
        ≡ numbered_record (wanted_row (book_of connector.now.book)) (counts tally.now) place (Ok row)) }
{
    let name = row.record_name(alloc)?;
    if tally.is_repeated(&name) {
        return Ok(Err(repeated(place)));
    }
    Ok(at_place(place, number_row(connector.row(&name), row)))
}

/// Whether another record of the snapshot has the same name as the rejected record.
fn is_repeated(tally: &Tally, rejected: &Rejected) -> bool
    requires { KnowsRepeats tally.now }
    ensures { result ≡ repeated_by (counts tally.now) rejected.now.name }
{
    match &rejected.name {
        Some(name) => tally.is_repeated(name),
        None => false,
    }
}

/// A record of the file, numbered.
fn number_record<J: Journal>(
    alloc: Global,
    connector: &Connector<J>,
    tally: &Tally,
    place: usize,
    said: Result<Row, Rejected>,
) -> Result<Result<Row, RowFault>, AllocError>
    requires { KnowsRepeats tally.now }
    ensures { IfOk result (λ numbered. numbered
        ≡ numbered_record (wanted_row (book_of connector.now.book)) (counts tally.now) place said) }
{
    match said {
        Ok(row) => number_said(alloc, connector, tally, place, row),
        Err(rejected) if is_repeated(tally, &rejected) => Ok(Err(repeated(place))),
        Err(rejected) => Ok(Err(rejected.fault)),
    }
}

/// The records of the file, numbered.
pub(crate) fn number_file<J: Journal>(
    alloc: Global,
    connector: &Connector<J>,
    tally: &Tally,
    records: Vec<Result<Row, Rejected>>,
) -> Result<Vec<Result<Row, RowFault>>, AllocError>
    requires { KnowsRepeats tally.now }
    ensures { IfOk result (λ rows. rows.items
        ≡ numbered_file (wanted_row (book_of connector.now.book)) (counts tally.now) 1 records.items) }
{
    let mut rows = Vec::new(alloc);
    for said in records {
        let place = rows.len() + 1;
        rows.push(number_record(alloc, connector, tally, place, said)?)?;
    }
    Ok(rows)
}

//! Numbers a snapshot.
ghost use Rattle.std.specs.Prelude.{◌≡◌, IfOk};
ghost use Rattle.std.specs.FinMap.{keys};
ghost use Rattle.connector_core.specs.Book.{wanted_row};
ghost use Rattle.connector_core.specs.Maps.{book_of};
ghost use Rattle.snapshots.specs.Snapshots.{numbered, unsure};

use crate::absence::push_absent;
use crate::doubts::{Unsure, doubt};
use crate::records::number_file;
use crate::tally::Tally;
use connector_core::Connector;
use journal_core::Journal;
use scim_key::Kind;
use source_csv::{Rejected, Row, RowFault};
use std::alloc::{AllocError, Global};

/// What is offered for a snapshot.
#[derive(Drop)]
pub struct Numbered {
    /// The records of the file in order, so that the one at place 1 comes first, and then those that are absent.
    pub rows: Vec<Result<Row, RowFault>>,
    /// Why no absent record is among the rows, if it isn't certain who is absent.
    pub unsure: Option<Unsure>,
}

/// Gives the rows of a snapshot of this kind their revisions, by the wanted rows of the connector, and withdraws the
/// records of this kind that are absent from it. `is_closed` says whether no quote is open at the end of the file, or
/// may be missing within it.
pub fn number<J: Journal>(
    alloc: Global,
    connector: &Connector<J>,
    kind: Kind,
    records: Vec<Result<Row, Rejected>>,
    is_closed: bool,
) -> Result<Numbered, AllocError>
    ensures rows { IfOk result (λ offered. offered.rows.items
        ≡ numbered (wanted_row (book_of connector.now.book)) (keys connector.now.book) kind
        records.items is_closed) }
    ensures unsure { IfOk result (λ offered. offered.unsure ≡ unsure is_closed records.items) }
{
    let tally = Tally::of(alloc, &records)?;
    let unsure = doubt(is_closed, &records);
    let mut rows = number_file(alloc, connector, &tally, records)?;
    if unsure.is_some() {
        return Ok(Numbered { rows, unsure });
    }
    push_absent(alloc, connector, &tally, kind, &mut rows)?;
    Ok(Numbered { rows, unsure })
}

//! How a new row is put into the book, and taken back.
ghost use Rattle.std.specs.Prelude.{◌≡◌, IfOk, None, OnErr};
ghost use Rattle.std.specs.FinMap.{get, insert};
ghost use Rattle.source_csv.specs.Records.{row_name};
ghost use Rattle.connector_core.specs.Book.{wanting};
ghost use Rattle.connector_core.specs.Offering.{taken_back};

use crate::books::Book;
use crate::knowledge::{Known, Seen};
use scim_key::{RecordName, Revision};
use source_csv::Row;
use std::alloc::AllocError;

/// How to take a new row back: the row that was wanted before; none if the new row was the first.
#[derive(Drop)]
pub(crate) struct Note {
    name: RecordName,
    last: Option<Row>,
}

/// Takes a row back.
pub(crate) fn take_back(book: &mut Book, note: Note)
    ensures { book.new ≡ taken_back book.old note }
{
    let Note { name, last } = note;
    match last {
        Some(row) => {
            if book.get(&name).is_some() {
                book.want(&name, row);
            }
        }
        None => book.take_out(&name),
    }
}

/// What is known about a record after its first row.
fn first_known(row: Row) -> Known
    ensures { result ≡ wanting None row }
{
    Known {
        wanted: row,
        confirmed: Revision::none(),
        id: None,
        seen: Seen::Unknown,
        is_doubted: false,
    }
}

/// Takes a new row into the book, and gives how to take it back.
pub(crate) fn take_row(book: &mut Book, name: RecordName, row: Row) -> Result<Note, AllocError>
    requires { name ≡ row_name row }
    ensures ok { IfOk result (λ _. book.new
        ≡ insert book.old (row_name row) (wanting (get book.old (row_name row)) row)) }
    ensures back { IfOk result (λ note. taken_back book.new note ≡ book.old) }
    ensures err { OnErr result (book.new ≡ book.old) }
{
    if book.get(&name).is_some() {
        let last = book.want(&name, row);
        return Ok(Note { name, last });
    }
    book.put(name.clone()?, first_known(row))?;
    Ok(Note { name, last: None })
}

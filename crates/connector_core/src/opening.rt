//! Opens the connector.
ghost use Rattle.std.specs.Prelude.{◌≡◌, IfOk};
ghost use Rattle.connector_core.specs.State.{opened, opened_book};

use crate::books::Book;
use crate::knowledge::{Known, Seen};
use journal_core::Entry;
use scim_key::StoreFault;
use std::alloc::{AllocError, Global};
use thiserror::Error;

/// Why the connector couldn't be opened.
#[derive(Clone, Copy, Debug, Error)]
pub enum ConnectorOpenFault {
    /// The journal's store failed.
    #[error("C5")]
    Store,
    #[error("C6")]
    Memory,
}

impl From<StoreFault> for ConnectorOpenFault {
    ghost use Rattle.connector_core.specs.State.{open_fault};

    ghost from_gives = { λ from fault. fault ≡ open_fault from };

    fn from(fault: StoreFault) -> ConnectorOpenFault {
        match fault {
            StoreFault::Store => ConnectorOpenFault::Store,
            StoreFault::Memory => ConnectorOpenFault::Memory,
        }
    }
}

/// What is known about an entry's record; nothing was seen of it yet.
fn known_of(entry: Entry) -> Known
    ensures { result ≡ opened entry }
{
    let (row, confirmed, id) = entry.into_parts();
    Known {
        wanted: row,
        confirmed,
        id,
        seen: Seen::Unknown,
        is_doubted: false,
    }
}

/// The book of a list of entries. If a name is repeated, the earlier entry counts.
pub(crate) fn read_book(alloc: Global, mut list: Vec<Entry>) -> Result<Book, AllocError>
    ensures { IfOk result (λ book. book ≡ opened_book list.items) }
{
    let mut book = Book::new(alloc);
    while let Some(entry) = list.pop() {
        let name = entry.row.record_name(alloc)?;
        if book.put(name, known_of(entry)).is_err() {
            return Err(AllocError);
        }
    }
    Ok(book)
}

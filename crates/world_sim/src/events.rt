//! What may happen in a world.
use scim_key::RecordName;
use source_csv::Row;

/// What may happen in a world.
#[derive(Drop)]
pub enum Event {
    /// The source offers a row.
    Change(Row),
    /// The connector sends its next request for a record.
    Send(RecordName),
    /// The message with this number, counted from 1, arrives.
    Deliver(usize),
    /// Only the first `length` bytes of the message with this number arrive.
    Cut { number: usize, length: usize },
    /// The connector doubts a record: somebody else may have changed it.
    Doubt(RecordName),
    /// The provider is opened again on its rows.
    RestartProvider,
    /// The connector is opened again on its journal.
    RestartConnector,
}

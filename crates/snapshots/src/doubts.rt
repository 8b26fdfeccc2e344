//! Why it may be uncertain who is absent from a snapshot.
ghost use Rattle.std.specs.Prelude.{◌≡◌, ◌<◌, IfSome, length};
ghost use Rattle.std.specs.List.{position};
ghost use Rattle.snapshots.specs.Snapshots.{has_no_name, unsure};

use source_csv::{Rejected, Row};

/// Why it isn't certain who is absent from a snapshot. So nobody was switched off, and no group was emptied.
#[derive(Clone, Copy)]
pub enum Unsure {
    /// The name of the record at this place can't be read. It is the first such record, counted from 1.
    Unreadable { place: usize },
    /// A quote is open at the end of the file, or may be missing within it.
    OpenQuote,
    NoRecord,
}

fn has_no_name(said: &Result<Row, Rejected>) -> bool
    ensures { result ≡ has_no_name said.now }
{
    match said {
        Ok(_) => false,
        Err(rejected) => rejected.name.is_none(),
    }
}

/// The index of the first record whose name can't be read.
fn first_unreadable(records: &[Result<Row, Rejected>]) -> Option<usize>
    ensures exact { result ≡ position has_no_name records.now }
    ensures within { IfSome result (λ index. index < length records.now) }
{
    records.iter().position(has_no_name)
}

/// Why it isn't certain who is absent, if it isn't.
pub(crate) fn doubt(is_closed: bool, records: &[Result<Row, Rejected>]) -> Option<Unsure>
    ensures { result ≡ unsure is_closed records.now }
{
    match first_unreadable(records) {
        Some(index) => Some(Unsure::Unreadable { place: index + 1 }),
        None if !is_closed => Some(Unsure::OpenQuote),
        None if records.is_empty() => Some(Unsure::NoRecord),
        None => None,
    }
}

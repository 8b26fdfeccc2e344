//! Accepts a row, by the last accepted row of its record.
ghost use Rattle.std.specs.Prelude.{◌≡◌};
ghost use Rattle.std.specs.Option.{option_copied};
ghost use Rattle.connector_core.specs.Accepting.{AcceptsByHistory, HistoriesRise, NewRowsGoOn, accepted, newer};

use source_csv::Row;
use thiserror::Error;

/// The verdict on a row that isn't refused. Only a `New` row changes the history.
#[derive(Clone, Copy)]
pub enum Verdict {
    /// The first row of its record, or a row with a higher revision than the last.
    New,
    /// The last row of its record again.
    Known,
    /// A row with a lower revision than the last row of its record.
    Older,
}

/// Why a row is refused.
#[derive(Clone, Copy, Debug, Error)]
pub enum BookFault {
    /// It has the revision of the last row of its record, but another field.
    #[error("S7")]
    Differs,
    /// The member at this place, from 0, is the first by key that isn't a user record.
    #[error("S8")]
    NoSuchMember { place: usize },
}

/// The verdict on a row with a new revision.
fn newer(missing: Option<usize>) -> Result<Verdict, BookFault>
    ensures { result ≡ newer missing }
{
    match missing {
        Some(place) => Err(BookFault::NoSuchMember { place }),
        None => Ok(Verdict::New),
    }
}

/// The verdict on a row. `held` is the last accepted row of its record; `missing` is the place of its first
/// member that isn't a user record. It allocates nothing.
pub fn accept(held: Option<&Row>, row: &Row, missing: Option<usize>) -> Result<Verdict, BookFault>
    ensures { result ≡ accepted (option_copied held.entry) row.now missing }
{
    let Some(held) = held else {
        return newer(missing);
    };
    if row.revision().is_before(held.revision()) {
        Ok(Verdict::Older)
    } else if held.revision().is_before(row.revision()) {
        newer(missing)
    } else if row.same_fields(held) {
        Ok(Verdict::Known)
    } else {
        Err(BookFault::Differs)
    }
}

/// `accept` decides by the history of the source, if it gets the last row of the record and the first
/// member that isn't a user record.
pub fn accept_is_by_history()
    ensures { AcceptsByHistory }
{}

/// A new row becomes the last row of its record. The record's rows go on and rise, and no other record
/// changes.
pub fn new_rows_go_on()
    ensures { NewRowsGoOn }
{}

/// The accepted rows of a record strictly rise and stay, and their members are user records.
pub fn histories_rise()
    ensures { HistoriesRise }
{}

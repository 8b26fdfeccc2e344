//! The next row of a record.
ghost use Rattle.std.specs.Prelude.{◌≡◌};
ghost use Rattle.std.specs.Option.{option_copied};
ghost use Rattle.scim_key.specs.Revisions.{IsRevision, next_revision};
ghost use Rattle.source_csv.specs.Files.{at_place as result_at};
ghost use Rattle.snapshots.specs.Snapshots.{numbered_row, row_at};

use scim_key::Revision;
use source_csv::{Row, RowCode, RowFault};

/// What is read at a place: a row, or a fault with the place.
pub(crate) fn at_place(place: usize, row: Result<Row, RowCode>) -> Result<Row, RowFault>
    ensures { result ≡ result_at place row }
{
    match row {
        Ok(row) => Ok(row),
        Err(code) => Err(RowFault { place, code }),
    }
}

/// A row at the revision after the wanted one.
pub(crate) fn row_after(wanted: Revision, row: Row) -> Result<Row, RowCode>
    ensures { result ≡ row_at (next_revision wanted) row }
{
    match wanted.next() {
        Some(revision) => Ok(row.at_revision(revision)),
        None => Err(RowCode::LastRevision),
    }
}

/// A row of the file, by the wanted row of its record.
pub(crate) fn number_row(wanted: Option<&Row>, row: Row) -> Result<Row, RowCode>
    ensures { result ≡ numbered_row (option_copied wanted.entry) row }
{
    match wanted {
        None => Ok(row),
        Some(wanted) if row.says_the_same(wanted) => Ok(row.at_revision(wanted.revision())),
        Some(wanted) => row_after(wanted.revision(), row),
    }
}

/// The fault of a record at this place whose name another record has too.
pub(crate) fn repeated(place: usize) -> RowFault
    ensures { result ≡ record { place = place; code = RowCode.RepeatedRecord } }
{
    RowFault {
        place,
        code: RowCode::RepeatedRecord,
    }
}

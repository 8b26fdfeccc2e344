//! The headers of files of the source.
ghost use Rattle.std.specs.Prelude.{◌≡◌, map};
ghost use Rattle.std.specs.List.{enumerate_from, find, list_all};
ghost use Rattle.std.specs.Option.{option_map};
ghost use Rattle.std.specs.Str.{bytes_eq};
ghost use Rattle.csv.specs.Records.{fields_of};
ghost use Rattle.source_csv.specs.Columns.{columns_named, field, named};
ghost use Rattle.source_csv.specs.Files.{columns_of, same_record};

use crate::columns::{Columns, bytes_at};
use csv::ByteRecord;
use scim_key::Kind;

/// The columns of a file of users, as its header names them.
pub const USER_COLUMNS: [&str; 7] = [
    "login", "revision", "number", "given", "family", "mail", "status",
];

/// The columns of a file of users with their departments.
pub const DEPARTMENT_COLUMNS: [&str; 8] = [
    "login",
    "revision",
    "number",
    "given",
    "family",
    "mail",
    "status",
    "department",
];

/// The headers that a file of users may have.
pub const USER_HEADERS: [&[&str]; 2] = [&USER_COLUMNS, &DEPARTMENT_COLUMNS];

/// The columns of a file of groups.
pub const GROUP_COLUMNS: [&str; 3] = ["name", "revision", "members"];

/// The headers that a file of groups may have.
pub const GROUP_HEADERS: [&[&str]; 1] = [&GROUP_COLUMNS];

/// Whether the fields of a record are these, from the first on.
fn has_fields(raw: &ByteRecord, names: &[&str]) -> bool
    ensures { result
        ≡ list_all (λ p. bytes_eq (field (fields_of raw.now) p.0) p.1.now)
        (enumerate_from 0 names.now) }
{
    names
        .iter()
        .enumerate()
        .all(|(place, name)| bytes_at(raw, place) == name.as_bytes())
}

/// Whether a record has exactly these columns.
fn has_columns(raw: &ByteRecord, columns: &[&str]) -> bool
    ensures { result ≡ same_record (fields_of raw.now) (named columns.now) }
{
    raw.len() == columns.len() && has_fields(raw, columns)
}

/// The columns of the header among these that the record is. `None` if it is none of them.
fn header_among(
    headers: &[&'static [&'static str]],
    raw: &ByteRecord,
) -> Option<&'static [&'static str]>
    ensures { option_map (λ columns. named columns.now) result
        ≡ find (same_record (fields_of raw.now)) (map (λ columns. named columns.now) headers.now) }
{
    headers
        .iter()
        .find(|columns| has_columns(raw, columns))
        .copied()
}

/// Our columns in a file of this kind with this header. `None` if no file of this kind has it.
pub(crate) fn columns_of(kind: Kind, header: &ByteRecord) -> Option<Columns>
    ensures { result ≡ columns_of kind (fields_of header.now) }
{
    let names = match kind {
        Kind::User => header_among(&USER_HEADERS, header),
        Kind::Group => header_among(&GROUP_HEADERS, header),
    };
    Some(Columns::of(kind, names?))
}

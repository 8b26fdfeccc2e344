//! The columns of a file.
ghost use Rattle.std.specs.Prelude.{◌≡◌, [], codes, length, map};
ghost use Rattle.csv.specs.Records.{fields_of};
ghost use Rattle.source_csv.specs.Columns.{columns_named, field, field_or, members_in, name_column, name_in, named, place_named, revision_in, status_in, texts_in};

use crate::texts::{TEXT_FIELD_COUNT, TEXT_FIELDS};
use csv::{ByteRecord, StringRecord};
use scim_key::Kind;

/// The column of a user's name.
pub(crate) const USER_NAME_COLUMN: &str = "login";

/// The column of a group's name.
pub(crate) const GROUP_NAME_COLUMN: &str = "name";

/// What a file without revisions says in place of each.
pub(crate) const FIRST_REVISION: &str = "1";

/// Where each of our columns is in the header of a file, so that no record of the file looks for it. A header
/// may lack some of them.
#[derive(Clone, Copy)]
pub(crate) struct Columns {
    /// How many columns the header has.
    pub(crate) count: usize,
    pub(crate) name: Option<usize>,
    pub(crate) revision: Option<usize>,
    pub(crate) texts: [Option<usize>; TEXT_FIELD_COUNT],
    pub(crate) status: Option<usize>,
    pub(crate) members: Option<usize>,
}

/// The column of the name of a record of this kind.
pub(crate) fn name_column(kind: Kind) -> &'static str
    ensures { result.now ≡ name_column kind }
{
    match kind {
        Kind::User => USER_NAME_COLUMN,
        Kind::Group => GROUP_NAME_COLUMN,
    }
}

/// The place of the column of this name.
fn place_named(names: &[&str], name: &str) -> Option<usize>
    ensures { result ≡ place_named (named names.now) name.now }
{
    names.iter().position(|column| *column == name)
}

/// The field at a place; empty if there is none.
fn field(texts: &StringRecord, place: usize) -> &str
    ensures { result.now ≡ field (fields_of texts.now) place }
{
    texts.get(place).unwrap_or("")
}

/// The bytes of the field at a place; none if there is no such field.
pub(crate) fn bytes_at(raw: &ByteRecord, place: usize) -> &[u8]
    ensures { result.now ≡ field (fields_of raw.now) place }
{
    raw.get(place).unwrap_or(b"")
}

/// The field in a column that the header may have; `absent` without that column.
fn field_or<'a>(texts: &'a StringRecord, place: Option<usize>, absent: &'a str) -> &'a str
    ensures { result.now ≡ field_or absent.now (fields_of texts.now) place }
{
    match place {
        Some(place) => field(texts, place),
        None => absent,
    }
}

impl Columns {
    /// The columns of a header with these names.
    pub(crate) fn of(kind: Kind, names: &[&str]) -> Columns
        ensures { result ≡ columns_named kind (named names.now) }
    {
        Columns {
            count: names.len(),
            name: place_named(names, name_column(kind)),
            revision: place_named(names, "revision"),
            texts: TEXT_FIELDS.map(|name| place_named(names, name)),
            status: place_named(names, "status"),
            members: place_named(names, "members"),
        }
    }

    /// The bytes in the column of the name.
    pub(crate) fn name_bytes<'a>(&self, raw: &'a ByteRecord) -> &'a [u8]
        ensures { result.now ≡ name_in self.now (fields_of raw.now) }
    {
        match self.name {
            Some(place) => bytes_at(raw, place),
            None => b"",
        }
    }

    /// The field in the column of the name.
    pub(crate) fn name<'a>(&self, texts: &'a StringRecord) -> &'a str
        ensures { result.now ≡ name_in self.now (fields_of texts.now) }
    {
        field_or(texts, self.name, "")
    }

    /// The field in the column `revision`; without that column, the first revision.
    pub(crate) fn revision<'a>(&self, texts: &'a StringRecord) -> &'a str
        ensures { result.now ≡ revision_in self.now (fields_of texts.now) }
    {
        field_or(texts, self.revision, FIRST_REVISION)
    }

    /// The fields in the columns of the texts of a user.
    pub(crate) fn texts<'a>(&self, texts: &'a StringRecord) -> [&'a str; TEXT_FIELD_COUNT]
        ensures { map (λ f. f.now) result ≡ texts_in self.now (fields_of texts.now) }
    {
        self.texts.map(|place| field_or(texts, place, ""))
    }

    /// The field in the column `status`; without that column, `active`.
    pub(crate) fn status<'a>(&self, texts: &'a StringRecord) -> &'a str
        ensures { result.now ≡ status_in self.now (fields_of texts.now) }
    {
        field_or(texts, self.status, "active")
    }

    /// The field in the column `members`.
    pub(crate) fn members<'a>(&self, texts: &'a StringRecord) -> &'a str
        ensures { result.now ≡ members_in self.now (fields_of texts.now) }
    {
        field_or(texts, self.members, "")
    }
}

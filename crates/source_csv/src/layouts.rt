//! How a snapshot is laid out.
ghost use Rattle.std.specs.Prelude.{◌≡◌, ◌&&◌, string_bytes};
ghost use Rattle.std.specs.List.{list_any};
ghost use Rattle.source_csv.specs.Columns.{name_column};
ghost use Rattle.source_csv.specs.Files.{separator_byte};
ghost use Rattle.source_csv.specs.Layouts.{column_name, column_named, is_ours, is_taken_for, names_it, renames, same_name, snapshot_columns};

use crate::columns::{GROUP_NAME_COLUMN, USER_NAME_COLUMN};
use crate::texts::TextField;
use scim_key::Kind;

/// What separates the fields of a file.
#[derive(Clone, Copy)]
pub enum Separator {
    Comma,
    Semicolon,
    Tab,
}

impl Separator {
    pub(crate) fn byte(self) -> u8
        ensures { result ≡ separator_byte self }
    {
        match self {
            Separator::Comma => b',',
            Separator::Semicolon => b';',
            Separator::Tab => b'\t',
        }
    }
}

/// A column of ours in a snapshot.
#[derive(Clone, Copy)]
pub enum Column {
    /// The name of a user.
    Login,
    Text(TextField),
    Status,
    /// The name of a group.
    Name,
    Members,
}

/// The columns that a snapshot of users may have; it must have the first.
pub const USER_SNAPSHOT: [Column; 7] = [
    Column::Login,
    Column::Text(TextField::Number),
    Column::Text(TextField::Given),
    Column::Text(TextField::Family),
    Column::Text(TextField::Mail),
    Column::Status,
    Column::Text(TextField::Department),
];

/// The columns that a snapshot of groups may have; it must have the first.
pub const GROUP_SNAPSHOT: [Column; 2] = [Column::Name, Column::Members];

/// The columns that a snapshot of this kind may have; it must have the first.
pub(crate) fn snapshot_columns(kind: Kind) -> &'static [Column]
    ensures { result.now ≡ snapshot_columns kind }
{
    match kind {
        Kind::User => &USER_SNAPSHOT,
        Kind::Group => &GROUP_SNAPSHOT,
    }
}

impl Column {
    /// Its name, which is that in a file of revisions.
    pub fn name(self) -> &'static str
        ensures { result.now ≡ column_name self }
    {
        match self {
            Column::Login => USER_NAME_COLUMN,
            Column::Text(text) => text.column(),
            Column::Status => "status",
            Column::Name => GROUP_NAME_COLUMN,
            Column::Members => "members",
        }
    }

    /// The column of this name in a snapshot of this kind.
    pub fn named(kind: Kind, name: &str) -> Option<Column>
        ensures { result ≡ column_named kind name.now }
    {
        snapshot_columns(kind)
            .iter()
            .find(|column| column.name() == name)
            .copied()
    }
}

/// A column of ours that a snapshot names otherwise.
#[derive(Drop)]
pub struct Alias {
    pub column: Column,
    /// Its name in the header of the snapshot. ASCII letters may be in another case there.
    pub named: String,
}

/// How a snapshot is laid out: what separates its fields, and which of our columns it names otherwise.
#[derive(Drop)]
pub struct Layout {
    pub separator: Separator,
    pub aliases: Vec<Alias>,
}

/// Whether two names of columns are one in any case of ASCII letters.
fn same_name(one: &[u8], other: &[u8]) -> bool
    ensures { result ≡ same_name one.now other.now }
{
    one.eq_ignore_ascii_case(other)
}

impl Alias {
    /// Whether it is of our column of this name.
    fn renames(&self, ours: &str) -> bool
        ensures { result ≡ renames ours.now self.now }
    {
        self.column.name() == ours
    }

    /// Whether a column of a header has the name in it.
    pub(crate) fn is_of(&self, theirs: &[u8]) -> bool
        ensures { result ≡ same_name (string_bytes self.now.named) theirs.now }
    {
        same_name(self.named.as_bytes(), theirs)
    }

    /// Whether a column of a header is our column of this name.
    fn names_it(&self, ours: &str, theirs: &[u8]) -> bool
        ensures { result ≡ names_it ours.now theirs.now self.now }
    {
        self.renames(ours) && self.is_of(theirs)
    }
}

/// Whether an alias is of our column of this name.
fn is_renamed(aliases: &[Alias], ours: &str) -> bool
    ensures { result ≡ list_any (renames ours.now) aliases.now }
{
    aliases.iter().any(|alias| alias.renames(ours))
}

/// Whether an alias says that a column of a header is our column of this name.
fn is_named(aliases: &[Alias], ours: &str, theirs: &[u8]) -> bool
    ensures { result ≡ list_any (names_it ours.now theirs.now) aliases.now }
{
    aliases.iter().any(|alias| alias.names_it(ours, theirs))
}

/// Whether a column of a header is our column of this name.
pub(crate) fn is_taken_for(aliases: &[Alias], ours: &str, theirs: &[u8]) -> bool
    ensures { result ≡ is_taken_for aliases.now ours.now theirs.now }
{
    if is_renamed(aliases, ours) {
        is_named(aliases, ours, theirs)
    } else {
        same_name(ours.as_bytes(), theirs)
    }
}

/// Whether a column of a header is one of ours.
pub(crate) fn is_ours(kind: Kind, aliases: &[Alias], theirs: &[u8]) -> bool
    ensures { result ≡ is_ours kind aliases.now theirs.now }
{
    snapshot_columns(kind)
        .iter()
        .any(|column| is_taken_for(aliases, column.name(), theirs))
}

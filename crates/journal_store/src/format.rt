//! The format of a journal: its number, its tables, and the check of a schema at run time.
ghost use Rattle.std.specs.Prelude.{◌≡◌, ◌<◌, [], ◌∷◌, IsTrue, map};
ghost use Rattle.journal_store.specs.Tables.{column_of, key_places, keyed_index};
ghost use Rattle.journal_store.specs.Format.{third_groups, third_users};
ghost use Rattle.journal_store.specs.Opening.{IsEntryTable, IsJournal, HasFormatTable, IsKeyed, IsKeyedTable};

use crate::older::format::{is_first_groups, is_first_users, is_second_users};
use source_csv::{TEXT_FIELD_COUNT, TextField};
use sql_tables::{Layout, has_order, is_column, is_format, is_plain};
use sqlite_schema::schema::{Column, Index, Kind, Schema, Table};

/// The number of the format that is written.
pub(crate) const FORMAT: u64 = 3;

/// A column of a table of entries: its name, its type, and whether it may not be NULL.
pub(crate) type EntryColumn = (&'static str, Kind, bool);

/// The columns of the table of users.
const USER_COLUMNS: [EntryColumn; 8 + TEXT_FIELD_COUNT] = [
    ("name_key", Kind::Text, true),
    ("login", Kind::Text, true),
    ("revision", Kind::Integer, true),
    ("number", Kind::Text, true),
    ("given", Kind::Text, true),
    ("family", Kind::Text, true),
    ("mail", Kind::Text, true),
    ("department", Kind::Text, true),
    ("active", Kind::Integer, true),
    ("confirmed", Kind::Integer, true),
    ("id", Kind::Text, false),
    ("epoch", Kind::Integer, true),
    ("confirmed_epoch", Kind::Integer, true),
];

/// The columns of the table of groups.
const GROUP_COLUMNS: [EntryColumn; 8] = [
    ("name_key", Kind::Text, true),
    ("name", Kind::Text, true),
    ("revision", Kind::Integer, true),
    ("members", Kind::Text, true),
    ("confirmed", Kind::Integer, true),
    ("id", Kind::Text, false),
    ("epoch", Kind::Integer, true),
    ("confirmed_epoch", Kind::Integer, true),
];

/// The texts of a user, in the order of their columns.
pub(crate) const TEXT_ORDER: [TextField; TEXT_FIELD_COUNT] = [
    TextField::Number,
    TextField::Given,
    TextField::Family,
    TextField::Mail,
    TextField::Department,
];

/// The tables of the format.
pub(crate) struct Journal;

impl Layout for Journal {
    ghost use Rattle.journal_store.specs.Format.{Form, journal_schema};

    ghost form = { Form };

    ghost layout = { journal_schema };
}

/// The table of the format, and any tables after it: those of a format that isn't known.
pub(crate) struct Unknown;

impl Layout for Unknown {
    ghost use Rattle.journal_store.specs.Format.{MarkedForm, marked_schema};

    ghost form = { MarkedForm };

    ghost layout = { marked_schema };
}

/// Whether the tables are those of the format. The CHECK of the format's table may have any terms, because
/// its row is checked.
pub(crate) fn is_journal(schema: &Schema) -> bool
    ensures is { IsTrue result → IsJournal schema.now }
    ensures known { IsJournal schema.now → IsTrue result }
{
    let [format, firsts, old_groups, seconds, users, groups] = schema.tables.as_slice() else {
        return false;
    };
    let [
        first_keys,
        old_group_keys,
        second_keys,
        user_keys,
        group_keys,
    ] = schema.indexes.as_slice()
    else {
        return false;
    };
    schema.views.is_empty()
        && is_format(format, b"journal_format")
        && is_first_users(firsts, first_keys)
        && is_first_groups(old_groups, old_group_keys)
        && is_second_users(seconds, second_keys)
        && is_users(users, user_keys)
        && is_groups(groups, group_keys)
}

/// Whether the first table is that of the format.
pub(crate) fn has_format_table(schema: &Schema) -> bool
    ensures is { IsTrue result → HasFormatTable schema.now }
    ensures known { HasFormatTable schema.now → IsTrue result }
{
    let tables = schema.tables.as_slice();
    !tables.is_empty() && is_format(&tables[0], b"journal_format")
}

// ---- the tables of entries, each with the index of its keys

fn is_users(table: &Table, keys: &Index) -> bool
    ensures is { IsTrue result → IsKeyedTable third_users table.now keys.now }
    ensures known { IsKeyedTable third_users table.now keys.now → IsTrue result }
{
    is_table(b"user_entry_3", 7, &USER_COLUMNS, table)
        && is_key_index(b"sqlite_autoindex_user_entry_3_1", 7, keys)
        && has_order(table, keys)
}

fn is_groups(table: &Table, keys: &Index) -> bool
    ensures is { IsTrue result → IsKeyedTable third_groups table.now keys.now }
    ensures known { IsKeyedTable third_groups table.now keys.now → IsTrue result }
{
    is_table(b"group_entry_3", 9, &GROUP_COLUMNS, table)
        && is_key_index(b"sqlite_autoindex_group_entry_3_1", 9, keys)
        && has_order(table, keys)
}

/// Whether the table of entries has this name, this tree and these columns.
pub(crate) fn is_table(name: &[u8], tree: u32, columns: &[EntryColumn], table: &Table) -> bool
    ensures is { IsTrue result → IsEntryTable name.now tree (map column_of columns.now) table.now }
    ensures known { IsEntryTable name.now tree (map column_of columns.now) table.now
        → IsTrue result }
{
    table.name.as_slice() == name
        && table.tree == tree
        && has_columns(table.columns.as_slice(), columns)
        && is_keyed(table)
}

/// Whether the table has its key, and nothing else is declared for it.
fn is_keyed(table: &Table) -> bool
    ensures is { IsTrue result → IsKeyed table.now }
    ensures known { IsKeyed table.now → IsTrue result }
{
    table.key.is_none()
        && table.primary.as_slice() == [1].as_slice()
        && has_unique(table)
        && table.checks.roots.is_empty()
        && is_plain(table)
}

/// Whether the columns of a table are these.
fn has_columns(columns: &[Column], wanted: &[EntryColumn]) -> bool
    ensures is { IsTrue result → columns.now ≡ map column_of wanted.now }
    ensures known { columns.now ≡ map column_of wanted.now → IsTrue result }
{
    if columns.len() != wanted.len() {
        return false;
    }
    for at in 0..columns.len() {
        let (name, kind, not_null) = wanted[at];
        if !is_column(&columns[at], name.as_bytes(), kind, not_null) {
            return false;
        }
    }
    true
}

/// Whether the table's only UNIQUE is over the key.
fn has_unique(table: &Table) -> bool
    ensures is { IsTrue result → table.now.uniques ≡ key_places ∷ [] }
    ensures known { table.now.uniques ≡ key_places ∷ [] → IsTrue result }
{
    match table.uniques.as_slice() {
        [places] => places.as_slice() == [1].as_slice(),
        _ => false,
    }
}

/// Whether the index is that of the keys of the table in this tree.
pub(crate) fn is_key_index(name: &[u8], tree: u32, index: &Index) -> bool
    requires { tree < 10 }
    ensures is { IsTrue result → index.now ≡ keyed_index name.now tree index.now.order }
    ensures known { index.now ≡ keyed_index name.now tree index.now.order → IsTrue result }
{
    index.name.as_slice() == name
        && index.tree == tree + 1
        && index.table == tree
        && index.columns.as_slice() == [1].as_slice()
        && index.is_unique
}

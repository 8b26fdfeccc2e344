//! The older formats of a journal: their numbers, their tables, and the check of a schema at run time.
ghost use Rattle.std.specs.Prelude.{IsTrue};
ghost use Rattle.journal_store.specs.Older.Format.{first_groups, first_users, second_users};
ghost use Rattle.journal_store.specs.Opening.{IsFirst, IsKeyedTable, IsSecond};

use crate::format::{EntryColumn, is_key_index, is_table};
use source_csv::TEXT_FIELD_COUNT;
use sql_tables::{Layout, has_order, is_format};
use sqlite_schema::schema::{Index, Kind, Schema, Table};

/// The number of the second format, from which a journal is carried over.
pub(crate) const SECOND_FORMAT: u64 = 2;

/// The number of the first format, from which a journal is carried over to the second.
pub(crate) const FIRST_FORMAT: u64 = 1;

/// The columns of the table of users of the second format.
const SECOND_USER_COLUMNS: [EntryColumn; 6 + TEXT_FIELD_COUNT] = [
    ("name_key", Kind::Text, true),
    ("login", Kind::Text, true),
    ("revision", Kind::Integer, true),
    ("number", Kind::Text, true),
    ("given", Kind::Text, true),
    ("family", Kind::Text, true),
    ("mail", Kind::Text, true),
    ("department", Kind::Text, true),
    ("active", Kind::Integer, true),
    ("confirmed", Kind::Integer, true),
    ("id", Kind::Text, false),
];

/// The columns of the table of users of the first format.
const FIRST_USER_COLUMNS: [EntryColumn; 10] = [
    ("name_key", Kind::Text, true),
    ("login", Kind::Text, true),
    ("revision", Kind::Integer, true),
    ("number", Kind::Text, true),
    ("given", Kind::Text, true),
    ("family", Kind::Text, true),
    ("mail", Kind::Text, true),
    ("active", Kind::Integer, true),
    ("confirmed", Kind::Integer, true),
    ("id", Kind::Text, false),
];

/// The columns of the table of groups of both these formats.
const FIRST_GROUP_COLUMNS: [EntryColumn; 6] = [
    ("name_key", Kind::Text, true),
    ("name", Kind::Text, true),
    ("revision", Kind::Integer, true),
    ("members", Kind::Text, true),
    ("confirmed", Kind::Integer, true),
    ("id", Kind::Text, false),
];

/// The tables of the second format.
pub(crate) struct Second;

impl Layout for Second {
    ghost use Rattle.journal_store.specs.Older.Format.{SecondForm, second_schema};

    ghost form = { SecondForm };

    ghost layout = { second_schema };
}

/// The tables of the first format.
pub(crate) struct First;

impl Layout for First {
    ghost use Rattle.journal_store.specs.Older.Format.{FirstForm, first_schema};

    ghost form = { FirstForm };

    ghost layout = { first_schema };
}

/// Whether the tables are those of the second format.
pub(crate) fn is_second(schema: &Schema) -> bool
    ensures is { IsTrue result → IsSecond schema.now }
    ensures known { IsSecond schema.now → IsTrue result }
{
    let [format, firsts, groups, users] = schema.tables.as_slice() else {
        return false;
    };
    let [first_keys, group_keys, user_keys] = schema.indexes.as_slice() else {
        return false;
    };
    schema.views.is_empty()
        && is_format(format, b"journal_format")
        && is_first_users(firsts, first_keys)
        && is_first_groups(groups, group_keys)
        && is_second_users(users, user_keys)
}

/// Whether the tables are those of the first format.
pub(crate) fn is_first(schema: &Schema) -> bool
    ensures is { IsTrue result → IsFirst schema.now }
    ensures known { IsFirst schema.now → IsTrue result }
{
    let [format, users, groups] = schema.tables.as_slice() else {
        return false;
    };
    let [user_keys, group_keys] = schema.indexes.as_slice() else {
        return false;
    };
    schema.views.is_empty()
        && is_format(format, b"journal_format")
        && is_first_users(users, user_keys)
        && is_first_groups(groups, group_keys)
}

// ---- the tables of entries, each with the index of its keys

pub(crate) fn is_second_users(table: &Table, keys: &Index) -> bool
    ensures is { IsTrue result → IsKeyedTable second_users table.now keys.now }
    ensures known { IsKeyedTable second_users table.now keys.now → IsTrue result }
{
    is_table(b"user_entry_2", 5, &SECOND_USER_COLUMNS, table)
        && is_key_index(b"sqlite_autoindex_user_entry_2_1", 5, keys)
        && has_order(table, keys)
}

pub(crate) fn is_first_users(table: &Table, keys: &Index) -> bool
    ensures is { IsTrue result → IsKeyedTable first_users table.now keys.now }
    ensures known { IsKeyedTable first_users table.now keys.now → IsTrue result }
{
    is_table(b"user_entry", 1, &FIRST_USER_COLUMNS, table)
        && is_key_index(b"sqlite_autoindex_user_entry_1", 1, keys)
        && has_order(table, keys)
}

pub(crate) fn is_first_groups(table: &Table, keys: &Index) -> bool
    ensures is { IsTrue result → IsKeyedTable first_groups table.now keys.now }
    ensures known { IsKeyedTable first_groups table.now keys.now → IsTrue result }
{
    is_table(b"group_entry", 3, &FIRST_GROUP_COLUMNS, table)
        && is_key_index(b"sqlite_autoindex_group_entry_1", 3, keys)
        && has_order(table, keys)
}

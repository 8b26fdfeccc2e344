//! How the entries in the tables of the older formats are listed.
ghost use Rattle.std.specs.Prelude.{◌≡◌};
ghost use Rattle.journal_store.specs.Older.Format.{first_all_text, first_numbers_text, second_all_text, second_numbers_text};

use crate::formats::{Format, Marked};
use crate::older::format::{FIRST_FORMAT, First, SECOND_FORMAT, Second, is_first, is_second};
use crate::tables::marked_statement;
use scim_key::Kind;
use sqlite_schema::schema::Schema;

impl Marked for Second {
    fn is_laid_out(schema: &Schema) -> bool {
        is_second(schema)
    }

    fn marked_statement() -> &'static str {
        marked_statement()
    }
}

impl Marked for First {
    fn is_laid_out(schema: &Schema) -> bool {
        is_first(schema)
    }

    fn marked_statement() -> &'static str {
        marked_statement()
    }
}

impl Format for Second {
    ghost use Rattle.journal_store.specs.Older.Format.{second_number, second_tree};
    ghost use Rattle.journal_store.specs.Older.Rows.{second_row};

    ghost number = { second_number };

    ghost tree = { second_tree };

    ghost columns = { second_row };

    fn number() -> u64 {
        SECOND_FORMAT
    }

    fn numbers_statement(kind: Kind) -> &'static str {
        second_numbers_statement(kind)
    }

    fn list_statement(kind: Kind) -> &'static str {
        second_all_statement(kind)
    }
}

impl Format for First {
    ghost use Rattle.journal_store.specs.Older.Format.{first_number, first_tree};
    ghost use Rattle.journal_store.specs.Older.Rows.{first_row};

    ghost number = { first_number };

    ghost tree = { first_tree };

    ghost columns = { first_row };

    fn number() -> u64 {
        FIRST_FORMAT
    }

    fn numbers_statement(kind: Kind) -> &'static str {
        first_numbers_statement(kind)
    }

    fn list_statement(kind: Kind) -> &'static str {
        first_all_statement(kind)
    }
}

// ---- the queries

fn second_numbers_statement(kind: Kind) -> &'static str
    ensures { result.now ≡ second_numbers_text kind }
{
    match kind {
        Kind::User => "SELECT rowid FROM user_entry_2 ORDER BY rowid",
        Kind::Group => "SELECT rowid FROM group_entry ORDER BY rowid",
    }
}

fn second_all_statement(kind: Kind) -> &'static str
    ensures { result.now ≡ second_all_text kind }
{
    match kind {
        Kind::User => {
            "SELECT name_key, login, revision, number, given, family, mail, department, active, confirmed, id, 0, 0 FROM user_entry_2 ORDER BY name_key"
        }
        Kind::Group => {
            "SELECT name_key, name, revision, members, confirmed, id, 0, 0 FROM group_entry ORDER BY name_key"
        }
    }
}

fn first_numbers_statement(kind: Kind) -> &'static str
    ensures { result.now ≡ first_numbers_text kind }
{
    match kind {
        Kind::User => "SELECT rowid FROM user_entry ORDER BY rowid",
        Kind::Group => second_numbers_statement(Kind::Group),
    }
}

fn first_all_statement(kind: Kind) -> &'static str
    ensures { result.now ≡ first_all_text kind }
{
    match kind {
        Kind::User => {
            "SELECT name_key, login, revision, number, given, family, mail, '', active, confirmed, id, 0, 0 FROM user_entry ORDER BY name_key"
        }
        Kind::Group => second_all_statement(Kind::Group),
    }
}

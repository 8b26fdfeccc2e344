//! The formats of a journal, and how the entries in their tables are listed.
ghost use Rattle.std.specs.Prelude.{◌≡◌, ◌≤◌, ℕ, [], ◌∷◌, IsTrue};
ghost use Rattle.scim_key.specs.declared.records.Kind.{Kind as KindData};
ghost use Rattle.sqlite_value.specs.Order.{Row as RowData};
ghost use Rattle.sqlite_trees.specs.Tree.{rowid};
ghost use Rattle.sql_tables.specs.Layouts.{IsOne};
ghost use Rattle.sql_tables.specs.Statements.{IsGiven, IsQuery, ShowsFormat};
ghost use Rattle.journal_store.specs.Connections.{Lists};
ghost use Rattle.journal_store.specs.Format.{format_number};

use crate::format::{FORMAT, Journal, Unknown, has_format_table, is_journal};
use crate::tables::{all_statement, marked_statement, numbers_statement};
use scim_key::Kind;
use sql_tables::Layout;
use sqlite_schema::schema::Schema;

/// Tables of which the first is that of the format.
pub(crate) trait Marked: Layout {
    /// Whether the tables are laid out so.
    fn is_laid_out(schema: &Schema) -> bool
        ensures is { IsTrue result → IsOne Self.layout schema.now }
        ensures known { IsOne Self.layout schema.now → IsTrue result };

    /// The query for the number in the table of the format.
    fn marked_statement() -> &'static str
        ensures query { IsQuery Self.layout result.now }
        ensures given { IsGiven Self.layout result.now [] }
        ensures shows { ShowsFormat Self.layout result.now };
}

impl Marked for Journal {
    fn is_laid_out(schema: &Schema) -> bool {
        is_journal(schema)
    }

    fn marked_statement() -> &'static str {
        marked_statement()
    }
}

impl Marked for Unknown {
    fn is_laid_out(schema: &Schema) -> bool {
        has_format_table(schema)
    }

    fn marked_statement() -> &'static str {
        marked_statement()
    }
}

/// A format of the journal: its number, and how the entries in its tables are listed. A row that is listed has
/// the columns of the current format.
pub(crate) trait Format: Marked {
    ghost number: { ℕ };

    ghost tree: { KindData → ℕ };

    ghost columns: { KindData → RowData → RowData };

    /// The number of the format, which is at most the current one's.
    fn number() -> u64
        ensures number { result ≡ number }
        ensures known { number ≤ format_number };

    /// The query that lists the numbers of the rows of a type.
    fn numbers_statement(kind: Kind) -> &'static str
        ensures query { IsQuery Self.layout result.now }
        ensures given { IsGiven Self.layout result.now [] }
        ensures lists { Lists Self.layout (tree kind) (λ row. rowid row ∷ []) result.now };

    /// The query that lists the entries of a type, in order of their keys.
    fn list_statement(kind: Kind) -> &'static str
        ensures query { IsQuery Self.layout result.now }
        ensures given { IsGiven Self.layout result.now [] }
        ensures lists { Lists Self.layout (tree kind) (columns kind) result.now };
}

impl Format for Journal {
    ghost use Rattle.journal_store.specs.Format.{entry_tree};
    ghost use Rattle.journal_store.specs.Rows.{shown_row};

    ghost number = { format_number };

    ghost tree = { entry_tree };

    ghost columns = { shown_row };

    fn number() -> u64 {
        FORMAT
    }

    fn numbers_statement(kind: Kind) -> &'static str {
        numbers_statement(kind)
    }

    fn list_statement(kind: Kind) -> &'static str {
        all_statement(kind)
    }
}

//! The check of a schema at run time: what the tables of every store have in common.
ghost use Rattle.std.specs.Prelude.{◌≡◌, false, [], ◌∷◌, IsTrue};
ghost use Rattle.sqlite_value.specs.declared.value.Value.TheVariants.{Null};
ghost use Rattle.sqlite_value.specs.declared.keys.Collation.TheVariants.{Binary};
ghost use Rattle.sql_tables.specs.Layouts.{IsPlainTable, format_table, no_schema, no_stamps};

use sqlite_schema::schema::{Column, Index, Kind, Schema, Table};
use sqlite_value::keys::Collation;
use sqlite_value::value::Value;

/// Whether there are no tables.
pub fn is_blank(schema: &Schema) -> bool
    ensures is { IsTrue result → schema.now ≡ no_schema }
    ensures known { schema.now ≡ no_schema → IsTrue result }
{
    schema.tables.is_empty() && schema.indexes.is_empty() && schema.views.is_empty()
}

/// Whether the table's only UNIQUE has the order of the index.
pub fn has_order(table: &Table, index: &Index) -> bool
    ensures is { IsTrue result → table.now.orders ≡ index.now.order ∷ [] }
    ensures known { table.now.orders ≡ index.now.order ∷ [] → IsTrue result }
{
    match table.orders.as_slice() {
        [order] => order.digits == index.order.digits,
        _ => false,
    }
}

/// Whether the table is that of the format, with this name. Its CHECK may have any terms, because its row is
/// checked.
pub fn is_format(table: &Table, name: &[u8]) -> bool
    ensures is { IsTrue result → table.now ≡ format_table name.now table.now.checks }
    ensures known { table.now ≡ format_table name.now table.now.checks → IsTrue result }
{
    match table.columns.as_slice() {
        [one, number] => table.name.as_slice() == name
            && table.tree == 0
            && is_column(one, b"one", Kind::Integer, false)
            && is_column(number, b"number", Kind::Integer, true)
            && table.key == Some(0)
            && table.primary.as_slice() == [0].as_slice()
            && table.uniques.is_empty()
            && table.orders.is_empty()
            && is_plain(table),
        _ => false,
    }
}

/// Whether nothing is declared for the table except its columns, its keys and its CHECKs.
pub fn is_plain(table: &Table) -> bool
    ensures is { IsTrue result → IsPlainTable table.now }
    ensures known { IsPlainTable table.now → IsTrue result }
{
    table.references.is_empty()
        && table.computed.is_empty()
        && has_no_stamps(table)
        && !table.is_counted
}

fn has_no_stamps(table: &Table) -> bool
    ensures is { IsTrue result → table.now.stamps ≡ no_stamps }
    ensures known { table.now.stamps ≡ no_stamps → IsTrue result }
{
    table.stamps.places.is_empty()
        && table.stamps.terms.roots.is_empty()
        && table.stamps.formats.is_empty()
}

/// Whether the column has this name and type, may be NULL or not, and nothing else is declared for it.
pub fn is_column(column: &Column, name: &[u8], kind: Kind, not_null: bool) -> bool
    ensures is { IsTrue result → column.now ≡ record {
      name = name.now;
      kind = kind;
      is_strict = false;
      not_null = not_null;
      default = Null;
      collation = Binary;
    } }
    ensures known { column.now ≡ record {
      name = name.now;
      kind = kind;
      is_strict = false;
      not_null = not_null;
      default = Null;
      collation = Binary;
    } → IsTrue result }
{
    column.name.as_slice() == name
        && column.kind == kind
        && !column.is_strict
        && column.not_null == not_null
        && matches!(column.default, Value::Null)
        && column.collation == Collation::Binary
}

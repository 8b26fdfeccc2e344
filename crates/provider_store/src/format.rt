//! The format of a store: its number, its tables, and the check of a schema at run time.
ghost use Rattle.std.specs.Prelude.{◌≡◌, [], ◌∷◌, IsTrue};
ghost use Rattle.provider_store.specs.Format.{name_index, name_places, resource_columns};
ghost use Rattle.provider_store.specs.Opening.{IsProvider, IsResourceTable};

use sql_tables::{Layout, has_order, is_column, is_format, is_plain};
use sqlite_schema::schema::{Column, Index, Kind, Schema, Table};

/// The number of the format that is written; no other format is read.
pub(crate) const FORMAT: u64 = 1;

/// The tables of the format.
pub(crate) struct Provider;

impl Layout for Provider {
    ghost use Rattle.provider_store.specs.Format.{Form, provider_schema};

    ghost form = { Form };

    ghost layout = { provider_schema };
}

/// Whether the tables are those of the format. Their CHECKs may have any terms, because each row is checked
/// when a store is opened.
pub(crate) fn is_provider(schema: &Schema) -> bool
    ensures is { IsTrue result → IsProvider schema.now }
    ensures known { IsProvider schema.now → IsTrue result }
{
    let [format, resource] = schema.tables.as_slice() else {
        return false;
    };
    let [index] = schema.indexes.as_slice() else {
        return false;
    };
    is_format(format, b"provider_format")
        && is_resource(resource)
        && is_name_index(index)
        && schema.views.is_empty()
        && has_order(resource, index)
}

fn is_resource(table: &Table) -> bool
    ensures is { IsTrue result → IsResourceTable table.now }
    ensures known { IsResourceTable table.now → IsTrue result }
{
    table.name.as_slice() == b"resource".as_slice()
        && table.tree == 1
        && has_columns(table.columns.as_slice())
        && table.key == Some(0)
        && table.primary.as_slice() == [0].as_slice()
        && is_plain(table)
        && has_unique(table)
}

/// Whether the columns are those of a resource.
fn has_columns(columns: &[Column]) -> bool
    ensures is { IsTrue result → columns.now ≡ resource_columns }
    ensures known { columns.now ≡ resource_columns → IsTrue result }
{
    match columns {
        [number, kind, name_key, version, content] => is_column(
            number,
            b"number",
            Kind::Integer,
            false,
        ) && is_column(kind, b"kind", Kind::Integer, true)
            && is_column(name_key, b"name_key", Kind::Text, true)
            && is_column(version, b"version", Kind::Integer, true)
            && is_column(content, b"content", Kind::Text, true),
        _ => false,
    }
}

/// Whether the table's only UNIQUE is over kind and key.
fn has_unique(table: &Table) -> bool
    ensures is { IsTrue result → table.now.uniques ≡ name_places ∷ [] }
    ensures known { table.now.uniques ≡ name_places ∷ [] → IsTrue result }
{
    match table.uniques.as_slice() {
        [places] => places.as_slice() == [2, 3].as_slice(),
        _ => false,
    }
}

fn is_name_index(index: &Index) -> bool
    ensures is { IsTrue result → index.now ≡ name_index index.now.order }
    ensures known { index.now ≡ name_index index.now.order → IsTrue result }
{
    index.name.as_slice() == b"sqlite_autoindex_resource_1".as_slice()
        && index.tree == 2
        && index.table == 1
        && index.columns.as_slice() == [2, 3].as_slice()
        && index.is_unique
}

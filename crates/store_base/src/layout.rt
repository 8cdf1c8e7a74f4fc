//! Whether the parts of a schema are as a layer makes them.

ghost use Rattle.std.specs.Prelude.{◌≡◌, IsTrue};
ghost use Rattle.store_base.specs.Columns.{base, needed, unique_index};
ghost use Rattle.store_base.specs.Making.{no_schema};

use sqlite::types::Value;
use sqlite_schema::schema::{Column, Index, Kind, Schema, Table};
use sqlite_value::keys::Collation;

/// Whether the column is one of a STRICT table, of this kind, which may not be NULL.
pub fn is_needed(column: &Column, name: &[u8], kind: Kind) -> bool
    ensures { IsTrue result → column.now ≡ needed name.now kind }
{
    column.name.as_slice() == name
        && column.kind == kind
        && column.is_strict
        && column.not_null
        && matches!(column.default, Value::Null)
        && column.collation == Collation::Binary
}

// A table with no rule but those of its columns, its key, its references and what is unique.
fn is_bare(table: &Table, name: &[u8], tree: u32) -> bool
    ensures { IsTrue result → table.now ≡ record (base name.now tree table.now.columns) {
      key = table.now.key;
      primary = table.now.primary;
      uniques = table.now.uniques;
      orders = table.now.orders;
      references = table.now.references;
    } }
{
    table.name.as_slice() == name
        && table.tree == tree
        && table.checks.roots.is_empty()
        && table.computed.is_empty()
        && table.stamps.places.is_empty()
        && table.stamps.terms.roots.is_empty()
        && table.stamps.formats.is_empty()
        && !table.is_counted
}

/// Whether the table has its first column as its key, and no rule but those of its columns and of what
/// is unique.
pub fn is_keyed(table: &Table, name: &[u8], tree: u32) -> bool
    ensures { IsTrue result → table.now ≡ record (base name.now tree table.now.columns) {
      uniques = table.now.uniques;
      orders = table.now.orders;
    } }
{
    is_bare(table, name, tree)
        && table.key == Some(0)
        && matches!(table.primary.as_slice(), [0])
        && table.references.is_empty()
}

/// Whether it is the index of what is unique in these columns.
pub fn is_unique_index(index: &Index, name: &[u8], tree: u32, table: u32, columns: &[usize]) -> bool
    ensures { IsTrue result → index.now ≡ unique_index name.now tree table columns.now }
{
    index.name.as_slice() == name
        && index.tree == tree
        && index.table == table
        && index.columns.as_slice() == columns
        && index.order.digits == 0
        && index.is_unique
}

/// Whether there is no table yet.
pub fn is_empty(schema: &Schema) -> bool
    ensures { IsTrue result → schema.now ≡ no_schema }
{
    schema.tables.is_empty() && schema.indexes.is_empty() && schema.views.is_empty()
}

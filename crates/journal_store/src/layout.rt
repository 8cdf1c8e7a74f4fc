//! Whether a schema is the journal's.

ghost use Rattle.std.specs.Prelude.{◌≡◌, [], ◌∷◌, ◌++◌, IsTrue, Some, None, codes, true};
ghost use Rattle.std.specs.Fmt.{decimal};
ghost use Rattle.sqlite_value.specs.Keys.{plain};
ghost use Rattle.journal_tables.specs.Schema.{advice, advice_key, base, first_schema, joined};
ghost use Rattle.journal_tables.specs.Schema.{joined_key, journal_schema, member, member_key, meta};
ghost use Rattle.journal_tables.specs.Schema.{needed, part, part_key, shelf, to_part, to_tx, tx};
ghost use Rattle.journal_store.specs.Making.{no_schema};
ghost use Rattle.sqlite_schema.specs.declared.schema.Kind.TheVariants.{Blob, Integer, Text};

use sqlite::types::{Bytes, Value};
use sqlite_items::Items;
use sqlite_schema::schema::{Action, Column, Index, Kind, Reference, Schema, Table};
use sqlite_value::keys::Collation;

fn is_needed(column: &Column, name: &[u8], kind: Kind) -> bool
    ensures { IsTrue result → column.now ≡ needed name.now kind }
{
    column.name.as_slice() == name
        && column.kind == kind
        && column.is_strict
        && column.not_null
        && matches!(column.default, Value::Null)
        && column.collation == Collation::Binary
}

// A table with no rule but those of its columns, its key and its references.
fn is_bare(table: &Table, name: &[u8], tree: u32) -> bool
    ensures { IsTrue result → table.now ≡ record (base name.now tree table.now.columns) {
      key = table.now.key;
      primary = table.now.primary;
      uniques = table.now.uniques;
      orders = table.now.orders;
      references = table.now.references;
    } }
{
    table.name.as_slice() == name
        && table.tree == tree
        && table.checks.roots.is_empty()
        && table.computed.is_empty()
        && table.stamps.places.is_empty()
        && table.stamps.terms.roots.is_empty()
        && table.stamps.formats.is_empty()
        && !table.is_counted
}

// A table whose first column is its key, with no other rule.
fn is_keyed(table: &Table, name: &[u8], tree: u32) -> bool
    ensures { IsTrue result → table.now ≡ base name.now tree table.now.columns }
{
    is_bare(table, name, tree)
        && table.key == Some(0)
        && matches!(table.primary.as_slice(), [0])
        && table.uniques.is_empty()
        && table.orders.is_empty()
        && table.references.is_empty()
}

fn is_meta(table: &Table) -> bool
    ensures { IsTrue result → table.now ≡ meta }
{
    let [k, v] = table.columns.as_slice() else {
        return false;
    };
    is_keyed(table, b"meta", 0)
        && is_needed(k, b"k", Kind::Integer)
        && is_needed(v, b"v", Kind::Integer)
}

fn are_state_columns(columns: &[Column]) -> bool
    ensures { IsTrue result → columns.now
        ≡ needed (codes "id") Integer ∷ needed (codes "phase") Integer
        ∷ needed (codes "told") Integer ∷ [] }
{
    let [id, phase, told] = columns else {
        return false;
    };
    is_needed(id, b"id", Kind::Integer)
        && is_needed(phase, b"phase", Kind::Integer)
        && is_needed(told, b"told", Kind::Integer)
}

fn are_value_columns(columns: &[Column]) -> bool
    ensures { IsTrue result → columns.now
        ≡ needed (codes "doing") Text ∷ needed (codes "tries") Integer
        ∷ needed (codes "context") Blob ∷ [] }
{
    let [doing, tries, context] = columns else {
        return false;
    };
    is_needed(doing, b"doing", Kind::Text)
        && is_needed(tries, b"tries", Kind::Integer)
        && is_needed(context, b"context", Kind::Blob)
}

fn is_tx(table: &Table) -> bool
    ensures { IsTrue result → table.now ≡ tx }
{
    let Some((state, values)) = table.columns.as_slice().split_at_checked(3) else {
        return false;
    };
    is_keyed(table, b"tx", 1) && are_state_columns(state) && are_value_columns(values)
}

fn is_text(bytes: &Bytes, text: &[u8]) -> bool
    ensures { IsTrue result → bytes.now ≡ text.now }
{
    bytes.as_slice() == text
}

fn are_places(places: &Items<usize>, wanted: &[usize]) -> bool
    ensures { IsTrue result → places.now ≡ wanted.now }
{
    places.as_slice() == wanted
}

fn is_one_name(names: &Items<Bytes>, text: &[u8]) -> bool
    ensures { IsTrue result → names.now ≡ text.now ∷ [] }
{
    let [name] = names.as_slice() else {
        return false;
    };
    is_text(name, text)
}

fn is_to_tx(reference: &Reference) -> bool
    ensures { IsTrue result → reference.now ≡ to_tx }
{
    are_places(&reference.columns, [1usize].as_slice())
        && is_text(&reference.parent, b"tx".as_slice())
        && is_one_name(&reference.parent_columns, b"id".as_slice())
        && reference.on_delete == Action::Cascade
        && reference.on_update == Action::NoAction
        && !reference.is_deferred
}

// The columns `id` and `place`, and another one.
fn are_place_columns(columns: &[Column], last: &[u8], kind: Kind) -> bool
    ensures { IsTrue result → columns.now
        ≡ needed (codes "id") Integer ∷ needed (codes "place") Integer
        ∷ needed last.now kind ∷ [] }
{
    let [id, place, other] = columns else {
        return false;
    };
    is_needed(id, b"id", Kind::Integer)
        && is_needed(place, b"place", Kind::Integer)
        && is_needed(other, last, kind)
}

// A table whose key is its second and third column, with references and no other rule.
fn is_placed(table: &Table, name: &[u8], tree: u32) -> bool
    ensures { IsTrue result → table.now ≡ record (base name.now tree table.now.columns) {
      key = None;
      primary = 1 ∷ 2 ∷ [];
      uniques = (1 ∷ 2 ∷ []) ∷ [];
      orders = plain ∷ [];
      references = table.now.references;
    } }
{
    let [unique] = table.uniques.as_slice() else {
        return false;
    };
    let [order] = table.orders.as_slice() else {
        return false;
    };
    is_bare(table, name, tree)
        && table.key.is_none()
        && matches!(table.primary.as_slice(), [1, 2])
        && matches!(unique.as_slice(), [1, 2])
        && order.digits == 0
}

fn is_member(table: &Table) -> bool
    ensures { IsTrue result → table.now ≡ member }
{
    let [reference] = table.references.as_slice() else {
        return false;
    };
    is_placed(table, b"member", 2)
        && are_place_columns(table.columns.as_slice(), b"name", Kind::Text)
        && is_to_tx(reference)
}

// The index of a key of these columns.
fn is_key(index: &Index, name: &[u8], tree: u32, table: u32, columns: &[usize]) -> bool
    ensures { IsTrue result → index.now ≡ record {
      name = name.now;
      tree = tree;
      table = table;
      columns = columns.now;
      order = plain;
      is_unique = true;
    } }
{
    is_text(&index.name, name)
        && index.tree == tree
        && index.table == table
        && are_places(&index.columns, columns)
        && index.order.digits == 0
        && index.is_unique
}

#[tactic(auto, using(crate::proofs::KeyNames::member_key_name))]
fn is_member_key(index: &Index) -> bool
    ensures { IsTrue result → index.now ≡ member_key }
{
    is_key(
        index,
        b"sqlite_autoindex_member_1".as_slice(),
        3,
        2,
        [1usize, 2].as_slice(),
    )
}

fn is_shelf(table: &Table) -> bool
    ensures { IsTrue result → table.now ≡ shelf }
{
    let [id, tries, context] = table.columns.as_slice() else {
        return false;
    };
    is_keyed(table, b"shelf", 4)
        && is_needed(id, b"id", Kind::Integer)
        && is_needed(tries, b"tries", Kind::Integer)
        && is_needed(context, b"context", Kind::Blob)
}

fn is_advice(table: &Table) -> bool
    ensures { IsTrue result → table.now ≡ advice }
{
    is_placed(table, b"advice", 5)
        && are_place_columns(table.columns.as_slice(), b"body", Kind::Blob)
        && table.references.is_empty()
}

#[tactic(auto, using(crate::proofs::KeyNames::advice_key_name))]
fn is_advice_key(index: &Index) -> bool
    ensures { IsTrue result → index.now ≡ advice_key }
{
    is_key(
        index,
        b"sqlite_autoindex_advice_1".as_slice(),
        6,
        5,
        [1usize, 2].as_slice(),
    )
}

/// Whether these are the tables of layout 1, in their order, and nothing else.
pub fn is_first(schema: &Schema) -> bool
    ensures { IsTrue result → schema.now ≡ first_schema }
{
    let [first, second, third, fourth, fifth] = schema.tables.as_slice() else {
        return false;
    };
    let [index, other] = schema.indexes.as_slice() else {
        return false;
    };
    is_meta(first)
        && is_tx(second)
        && is_member(third)
        && is_shelf(fourth)
        && is_advice(fifth)
        && is_member_key(index)
        && is_advice_key(other)
        && schema.views.is_empty()
}

fn is_part(table: &Table) -> bool
    ensures { IsTrue result → table.now ≡ part }
{
    let [n, name] = table.columns.as_slice() else {
        return false;
    };
    let [unique] = table.uniques.as_slice() else {
        return false;
    };
    let [order] = table.orders.as_slice() else {
        return false;
    };
    is_bare(table, b"part", 7)
        && table.key == Some(0)
        && matches!(table.primary.as_slice(), [0])
        && matches!(unique.as_slice(), [2])
        && order.digits == 0
        && table.references.is_empty()
        && is_needed(n, b"n", Kind::Integer)
        && is_needed(name, b"name", Kind::Text)
}

#[tactic(auto, using(crate::proofs::KeyNames::part_key_name))]
fn is_part_key(index: &Index) -> bool
    ensures { IsTrue result → index.now ≡ part_key }
{
    is_key(
        index,
        b"sqlite_autoindex_part_1".as_slice(),
        8,
        7,
        [2usize].as_slice(),
    )
}

fn is_to_part(reference: &Reference) -> bool
    ensures { IsTrue result → reference.now ≡ to_part }
{
    are_places(&reference.columns, [3usize].as_slice())
        && is_text(&reference.parent, b"part".as_slice())
        && is_one_name(&reference.parent_columns, b"n".as_slice())
        && reference.on_delete == Action::NoAction
        && reference.on_update == Action::NoAction
        && !reference.is_deferred
}

fn is_joined(table: &Table) -> bool
    ensures { IsTrue result → table.now ≡ joined }
{
    let [transaction, other] = table.references.as_slice() else {
        return false;
    };
    is_placed(table, b"joined", 9)
        && are_place_columns(table.columns.as_slice(), b"part", Kind::Integer)
        && is_to_tx(transaction)
        && is_to_part(other)
}

#[tactic(auto, using(crate::proofs::KeyNames::joined_key_name))]
fn is_joined_key(index: &Index) -> bool
    ensures { IsTrue result → index.now ≡ joined_key }
{
    is_key(
        index,
        b"sqlite_autoindex_joined_1".as_slice(),
        10,
        9,
        [1usize, 2].as_slice(),
    )
}

// The tables that both layouts have.
fn are_first(tables: &[Table]) -> bool
    ensures { IsTrue result → tables.now ≡ meta ∷ tx ∷ member ∷ shelf ∷ advice ∷ [] }
{
    let [first, second, third, fourth, fifth] = tables else {
        return false;
    };
    is_meta(first) && is_tx(second) && is_member(third) && is_shelf(fourth) && is_advice(fifth)
}

// Those that only layout 2 has.
fn are_other(tables: &[Table]) -> bool
    ensures { IsTrue result → tables.now ≡ part ∷ joined ∷ [] }
{
    let [first, second] = tables else {
        return false;
    };
    is_part(first) && is_joined(second)
}

fn are_keys(indexes: &[Index]) -> bool
    ensures { IsTrue result → indexes.now ≡ member_key ∷ advice_key ∷ part_key ∷ joined_key ∷ [] }
{
    let [first, second, third, fourth] = indexes else {
        return false;
    };
    is_member_key(first) && is_advice_key(second) && is_part_key(third) && is_joined_key(fourth)
}

/// Whether these are the journal's tables, in their order, and nothing else.
pub fn is_journal(schema: &Schema) -> bool
    ensures { IsTrue result → schema.now ≡ journal_schema }
{
    let Some((shared, others)) = schema.tables.as_slice().split_at_checked(5) else {
        return false;
    };
    are_first(shared)
        && are_other(others)
        && are_keys(schema.indexes.as_slice())
        && schema.views.is_empty()
}

/// Whether there is no table yet.
pub fn is_empty(schema: &Schema) -> bool
    ensures { IsTrue result → schema.now ≡ no_schema }
{
    schema.tables.is_empty() && schema.indexes.is_empty() && schema.views.is_empty()
}

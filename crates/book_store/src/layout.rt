//! Whether a schema is a book's.

ghost use Rattle.std.specs.Prelude.{◌≡◌, ◌∷◌, [], IsTrue, codes};
ghost use Rattle.sqlite_schema.specs.declared.schema.Kind.TheVariants.{Blob, Integer};
ghost use Rattle.store_base.specs.Columns.{needed};
ghost use Rattle.book_store.specs.Schema.{book_schema, day_key, item, request_key, salt};

use sqlite_schema::schema::{Column, Index, Kind, Schema, Table};
use store_base::{is_keyed, is_needed, is_unique_index};

fn is_salt(table: &Table) -> bool
    ensures { IsTrue result → table.now ≡ salt }
{
    let [n, bytes] = table.columns.as_slice() else {
        return false;
    };
    is_keyed(table, b"salt", 0)
        && is_needed(n, b"n", Kind::Integer)
        && is_needed(bytes, b"bytes", Kind::Blob)
        && table.uniques.is_empty()
        && table.orders.is_empty()
}

fn are_first_columns(columns: &[Column]) -> bool
    ensures { IsTrue result → columns.now ≡ needed (codes "id") Integer
        ∷ needed (codes "card") Blob ∷ needed (codes "request") Blob ∷ [] }
{
    let [id, card, request] = columns else {
        return false;
    };
    is_needed(id, b"id", Kind::Integer)
        && is_needed(card, b"card", Kind::Blob)
        && is_needed(request, b"request", Kind::Blob)
}

fn are_last_columns(columns: &[Column]) -> bool
    ensures { IsTrue result → columns.now ≡ needed (codes "amount") Integer
        ∷ needed (codes "day") Integer ∷ needed (codes "reversed") Integer ∷ [] }
{
    let [amount, day, reversed] = columns else {
        return false;
    };
    is_needed(amount, b"amount", Kind::Integer)
        && is_needed(day, b"day", Kind::Integer)
        && is_needed(reversed, b"reversed", Kind::Integer)
}

fn is_item(table: &Table) -> bool
    ensures { IsTrue result → table.now ≡ item }
{
    let Some((first, last)) = table.columns.as_slice().split_at_checked(3) else {
        return false;
    };
    let [by_request, by_day] = table.uniques.as_slice() else {
        return false;
    };
    let [one, other] = table.orders.as_slice() else {
        return false;
    };
    is_keyed(table, b"item", 1)
        && are_first_columns(first)
        && are_last_columns(last)
        && matches!(by_request.as_slice(), [3, 0])
        && matches!(by_day.as_slice(), [5, 0])
        && one.digits == 0
        && other.digits == 0
}

#[tactic(auto, using(crate::proofs::KeyNames::request_key_name))]
fn is_request_key(index: &Index) -> bool
    ensures { IsTrue result → index.now ≡ request_key }
{
    is_unique_index(
        index,
        b"sqlite_autoindex_item_1".as_slice(),
        2,
        1,
        [3usize, 0].as_slice(),
    )
}

#[tactic(auto, using(crate::proofs::KeyNames::day_key_name))]
fn is_day_key(index: &Index) -> bool
    ensures { IsTrue result → index.now ≡ day_key }
{
    is_unique_index(
        index,
        b"sqlite_autoindex_item_2".as_slice(),
        3,
        1,
        [5usize, 0].as_slice(),
    )
}

/// Whether these are a book's tables, in their order, and nothing else.
pub fn is_book(schema: &Schema) -> bool
    ensures { IsTrue result → schema.now ≡ book_schema }
{
    let [first, second] = schema.tables.as_slice() else {
        return false;
    };
    let [index, other] = schema.indexes.as_slice() else {
        return false;
    };
    is_salt(first)
        && is_item(second)
        && is_request_key(index)
        && is_day_key(other)
        && schema.views.is_empty()
}

//! The statements that change the tables, one for each call, inside a transaction.
//!
//! Each either runs, and then the tables have changed as its definition says, or is refused by the
//! store. A stop during it leaves what was committed before.

ghost use Rattle.sqlite.specs.Held.{state};
ghost use Rattle.store_base.specs.Making.{Creates, no_schema};
ghost use Rattle.store_base.specs.Tables.{KeepsCommitted, Runs};
ghost use Rattle.book_store.specs.Lines.{marked, with_line, without_lines};
ghost use Rattle.book_store.specs.Items.{line_in};
ghost use Rattle.book_store.specs.Schema.{book_schema, salt_schema};
ghost use Rattle.book_store.specs.Steps.{Edits, PutsSalt};

use crate::item::ItemCells;
use sqlite::types::ValueRef;
use sqlite::{Alter, Error, Transaction};

pub fn create_salt<S: Alter>(tx: &mut Transaction<'_, S>) -> Result<usize, Error>
    ensures makes { Creates no_schema salt_schema
        (state S.Store tx.old.conn.now) (state S.Store tx.new.conn.now) result }
    ensures keeps { KeepsCommitted S.Store tx.old.conn tx.new.conn }
{
    tx.execute(
        "CREATE TABLE salt (n INTEGER NOT NULL PRIMARY KEY, bytes BLOB NOT NULL) STRICT",
        &[],
    )
}

pub fn create_item<S: Alter>(tx: &mut Transaction<'_, S>) -> Result<usize, Error>
    ensures makes { Creates salt_schema book_schema
        (state S.Store tx.old.conn.now) (state S.Store tx.new.conn.now) result }
    ensures keeps { KeepsCommitted S.Store tx.old.conn tx.new.conn }
{
    tx.execute(
        "CREATE TABLE item (id INTEGER NOT NULL PRIMARY KEY, card BLOB NOT NULL, \
request BLOB NOT NULL, amount INTEGER NOT NULL, day INTEGER NOT NULL, reversed INTEGER NOT NULL, \
UNIQUE (request, id), UNIQUE (day, id)) STRICT",
        &[],
    )
}

pub fn add_salt<S: Alter>(tx: &mut Transaction<'_, S>, salt: &[u8]) -> Result<usize, Error>
    ensures steps { Runs book_schema (PutsSalt salt.now)
        (state S.Store tx.old.conn.now) (state S.Store tx.new.conn.now) result }
    ensures keeps { KeepsCommitted S.Store tx.old.conn tx.new.conn }
{
    tx.execute(
        "INSERT INTO salt (n, bytes) VALUES (1, ?1)",
        &[ValueRef::Blob(salt)],
    )
}

/// Puts an item, unless its id is there.
pub fn put_item<S: Alter>(
    tx: &mut Transaction<'_, S>,
    cells: &ItemCells<'_>,
) -> Result<usize, Error>
    ensures steps { Runs book_schema (Edits (with_line (line_in cells.now)))
        (state S.Store tx.old.conn.now) (state S.Store tx.new.conn.now) result }
    ensures keeps { KeepsCommitted S.Store tx.old.conn tx.new.conn }
{
    tx.execute(
        "INSERT INTO item (id, card, request, amount, day, reversed) \
VALUES (?1, ?2, ?3, ?4, ?5, ?6) ON CONFLICT (id) DO NOTHING",
        &[
            ValueRef::Int(cells.id),
            ValueRef::Blob(cells.card),
            ValueRef::Blob(cells.request),
            ValueRef::Int(cells.amount),
            ValueRef::Int(cells.day),
            ValueRef::Int(cells.reversed),
        ],
    )
}

/// Marks the item of this id as reversed.
pub fn mark_item<S: Alter>(tx: &mut Transaction<'_, S>, id: i64) -> Result<usize, Error>
    ensures steps { Runs book_schema (Edits (marked id))
        (state S.Store tx.old.conn.now) (state S.Store tx.new.conn.now) result }
    ensures keeps { KeepsCommitted S.Store tx.old.conn tx.new.conn }
{
    tx.execute(
        "UPDATE item SET reversed = 1 WHERE id = ?1",
        &[ValueRef::Int(id)],
    )
}

/// Drops the items of this day whose ids are up to this one.
pub fn drop_items<S: Alter>(
    tx: &mut Transaction<'_, S>,
    day: i64,
    last: i64,
) -> Result<usize, Error>
    ensures steps { Runs book_schema (Edits (without_lines day last))
        (state S.Store tx.old.conn.now) (state S.Store tx.new.conn.now) result }
    ensures keeps { KeepsCommitted S.Store tx.old.conn tx.new.conn }
{
    tx.execute(
        "DELETE FROM item WHERE day = ?1 AND id <= ?2",
        &[ValueRef::Int(day), ValueRef::Int(last)],
    )
}

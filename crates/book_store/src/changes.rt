//! Changes of the tables, each in one transaction.

ghost use Rattle.std.specs.Prelude.{◌≡◌, IfOk, false, is_some};
ghost use Rattle.sqlite.specs.Held.{state};
ghost use Rattle.sqlite.specs.State.{HasCleanDisk, Survives};
ghost use Rattle.store_base.specs.Making.{IsStage, no_schema};
ghost use Rattle.store_base.specs.Tables.{Changes, KeepsCommitted, LeavesChange};
ghost use Rattle.book_store.specs.Lines.{lines_of, marked, with_line, without_lines};
ghost use Rattle.book_store.specs.Items.{IsSmall, line_for};
ghost use Rattle.book_store.specs.Making.{Fills, LeavesNew, MakesBook};
ghost use Rattle.book_store.specs.Changes.{Alters, LeavesAltered, forgotten, reversed, without_if};
ghost use Rattle.book_store.specs.Queries.{last_id, of_request, open_id};
ghost use Rattle.book_store.specs.Schema.{book_schema};
ghost use Rattle.book_store.specs.Steps.{Edits, IsBook};

use crate::item::{Item, ItemCells};
use crate::reading::{first_day, last_id, open_item};
use crate::statements::{add_salt, create_item, create_salt, drop_items, mark_item, put_item};
use sqlite::{Alter, Connection, Error, Transaction};

/// Marks the item of a request as reversed, and returns whether there was one to mark.
pub fn reverse<S: Alter>(conn: &mut Connection<S>, request: &[u8]) -> Result<bool, Error>
    requires autocommit { conn.old.in_transaction ≡ false }
    ensures autocommit { conn.new.in_transaction ≡ false }
    ensures told { HasCleanDisk (state S.Store conn.new) → IsBook (state S.Store conn.old).now
        → IfOk result (λ b. b ≡ is_some (open_id
        (of_request request.now (lines_of (state S.Store conn.old).now.trees)))) }
    ensures altered { Alters (reversed request.now)
        (state S.Store conn.old) (state S.Store conn.new) result }
    ensures crash { Survives (state S.Store conn.old) (state S.Store conn.new)
        (LeavesAltered (reversed request.now) (state S.Store conn.old)) }
{
    let Some(id) = open_item(conn, request)? else {
        return Ok(false);
    };
    mark(conn, id)?;
    Ok(true)
}

// Forgets the first items of a day.
fn forget_of<S: Alter>(conn: &mut Connection<S>, day: i64, most: i64) -> Result<(), Error>
    requires autocommit { conn.old.in_transaction ≡ false }
    ensures autocommit { conn.new.in_transaction ≡ false }
    ensures altered { Alters (λ lines. without_if day (last_id day most lines) lines)
        (state S.Store conn.old) (state S.Store conn.new) result }
    ensures crash { Survives (state S.Store conn.old) (state S.Store conn.new)
        (LeavesAltered (λ lines. without_if day (last_id day most lines) lines)
        (state S.Store conn.old)) }
{
    let Some(last) = last_id(conn, day, most)? else {
        return Ok(());
    };
    drop_day(conn, day, last)
}

/// Forgets at most so many items of the oldest day, if this is before the given one.
pub fn forget<S: Alter>(conn: &mut Connection<S>, before: i64, most: i64) -> Result<(), Error>
    requires autocommit { conn.old.in_transaction ≡ false }
    ensures autocommit { conn.new.in_transaction ≡ false }
    ensures altered { Alters (forgotten before most)
        (state S.Store conn.old) (state S.Store conn.new) result }
    ensures crash { Survives (state S.Store conn.old) (state S.Store conn.new)
        (LeavesAltered (forgotten before most) (state S.Store conn.old)) }
{
    let Some(day) = first_day(conn, 0)? else {
        return Ok(());
    };
    if day >= before {
        return Ok(());
    }
    forget_of(conn, day, most)
}

// The tables, and the row of the salt.
fn fill<S: Alter>(tx: &mut Transaction<'_, S>, salt: &[u8]) -> Result<(), Error>
    ensures fills { Fills salt.now
        (state S.Store tx.old.conn.now) (state S.Store tx.new.conn.now) result }
    ensures keeps { KeepsCommitted S.Store tx.old.conn tx.new.conn }
{
    create_salt(tx)?;
    create_item(tx)?;
    add_salt(tx, salt)?;
    Ok(())
}

/// Makes the tables of a new book, or nothing.
pub fn make_book<S: Alter>(conn: &mut Connection<S>, salt: &[u8]) -> Result<(), Error>
    requires autocommit { conn.old.in_transaction ≡ false }
    ensures autocommit { conn.new.in_transaction ≡ false }
    ensures made { MakesBook salt.now (state S.Store conn.old) (state S.Store conn.new) result }
    ensures crash { Survives (state S.Store conn.old) (state S.Store conn.new)
        (LeavesNew salt.now (state S.Store conn.old)) }
{
    let mut tx = conn.transaction();
    fill(&mut tx, salt)?;
    tx.commit()
}

// The cells of an item.
fn cells_of(item: &Item) -> ItemCells<'_>
    requires small { IsSmall item.now }
    ensures { Rattle.book_store.specs.Items.line_in result ≡ line_for item.now }
{
    ItemCells {
        id: item.id as i64,
        card: item.card.bytes.as_slice(),
        request: item.request.bytes.as_slice(),
        amount: item.amount as i64,
        day: item.day as i64,
        reversed: if item.reversed { 1 } else { 0 },
    }
}

/// Puts an item, unless its id is there.
pub fn put<S: Alter>(conn: &mut Connection<S>, item: &Item) -> Result<(), Error>
    requires autocommit { conn.old.in_transaction ≡ false }
    requires small { IsSmall item.now }
    ensures autocommit { conn.new.in_transaction ≡ false }
    ensures changed { Changes book_schema (Edits (with_line (line_for item.now)))
        (state S.Store conn.old) (state S.Store conn.new) result }
    ensures crash { Survives (state S.Store conn.old) (state S.Store conn.new)
        (LeavesChange book_schema (Edits (with_line (line_for item.now)))
        (state S.Store conn.old)) }
{
    let mut tx = conn.transaction();
    put_item(&mut tx, &cells_of(item))?;
    tx.commit()
}

/// Marks the item of this id as reversed.
pub fn mark<S: Alter>(conn: &mut Connection<S>, id: i64) -> Result<(), Error>
    requires autocommit { conn.old.in_transaction ≡ false }
    ensures autocommit { conn.new.in_transaction ≡ false }
    ensures changed { Changes book_schema (Edits (marked id))
        (state S.Store conn.old) (state S.Store conn.new) result }
    ensures crash { Survives (state S.Store conn.old) (state S.Store conn.new)
        (LeavesChange book_schema (Edits (marked id)) (state S.Store conn.old)) }
{
    let mut tx = conn.transaction();
    mark_item(&mut tx, id)?;
    tx.commit()
}

/// Drops the items of this day whose ids are up to this one.
pub fn drop_day<S: Alter>(conn: &mut Connection<S>, day: i64, last: i64) -> Result<(), Error>
    requires autocommit { conn.old.in_transaction ≡ false }
    ensures autocommit { conn.new.in_transaction ≡ false }
    ensures changed { Changes book_schema (Edits (without_lines day last))
        (state S.Store conn.old) (state S.Store conn.new) result }
    ensures crash { Survives (state S.Store conn.old) (state S.Store conn.new)
        (LeavesChange book_schema (Edits (without_lines day last)) (state S.Store conn.old)) }
{
    let mut tx = conn.transaction();
    drop_items(&mut tx, day, last)?;
    tx.commit()
}

//! The queries, and what their rows say.

ghost use Rattle.std.specs.Prelude.{◌≡◌, ◌≢◌, ◌∷◌, [], ℕ, List, pos, false, filter, map, take, IfNone};
ghost use Rattle.std.specs.Prelude.{IfSome};
ghost use Rattle.sqlite.specs.declared.types.Value.TheVariants.{Blob, Int};
ghost use Rattle.sqlite.specs.Held.{state};
ghost use Rattle.store_base.specs.Tables.{OnlyReads};
ghost use Rattle.book_store.specs.Queries.{ChangesNothing, IsKnownSalt, IsSaltShown, ShowsRows};
ghost use Rattle.book_store.specs.Queries.{Finds, days_from, firsts, first_day, last_id, of_day};
ghost use Rattle.book_store.specs.Queries.{of_request};
ghost use Rattle.book_store.specs.Queries.{next_lines, open_id, shown_day, shown_id, shown_line};
ghost use Rattle.book_store.specs.Queries.{shown_mark, shown_salt};
ghost use Rattle.book_store.specs.Queries.{used, used_in};
ghost use Rattle.book_store.specs.Lines.{Line, has_id, lines_of};
ghost use Rattle.std.specs.List.{list_any};
ghost use Rattle.book_store.specs.Schema.{book_schema};

use sqlite::types::ValueRef;
use sqlite::{Alter, Connection, Error, Row};
use store_base::{first_int, int_at, last_int};

// The rows of `salt`, by number.
fn all_salt<S: Alter>(conn: &mut Connection<S>) -> Result<Vec<Row>, Error>
    ensures mode { conn.old.in_transaction ≡ false → conn.new.in_transaction ≡ false }
    ensures rows { ShowsRows (λ db. map shown_salt (db 0))
        (state S.Store conn.old) (state S.Store conn.new) result }
    ensures same { ChangesNothing (state S.Store conn.old) (state S.Store conn.new) result }
    ensures survives { OnlyReads book_schema (state S.Store conn.old) (state S.Store conn.new) }
{
    conn.query_all("SELECT n, bytes FROM salt ORDER BY n", &[])
}

// The bytes of a row of `salt`, if its number is 1.
fn bytes_in(row: &Row) -> Option<&[u8]>
    ensures some { IfSome result (λ bytes. row.now ≡ Int (pos 1) ∷ Blob bytes.now ∷ []) }
    ensures none { IfNone result ((bytes : List ℕ) → row.now ≢ Int (pos 1) ∷ Blob bytes ∷ []) }
{
    if row.column_count() != 2 {
        return None;
    }
    let Ok(ValueRef::Int(1)) = row.get_ref(0) else {
        return None;
    };
    let Ok(ValueRef::Blob(bytes)) = row.get_ref(1) else {
        return None;
    };
    Some(bytes)
}

// The 32 bytes of the one row of `salt`.
fn salt_of(rows: &[Row]) -> Option<[u8; 32]>
    ensures { IsSaltShown rows.now result }
{
    let [row] = rows else {
        return None;
    };
    let Some(bytes) = bytes_in(row) else {
        return None;
    };
    match bytes.as_array::<32>() {
        Some(salt) => Some(*salt),
        None => None,
    }
}

/// Reads the salt of a book, if it is as it is to be.
pub fn known_salt<S: Alter>(conn: &mut Connection<S>) -> Result<Option<[u8; 32]>, Error>
    ensures mode { conn.old.in_transaction ≡ false → conn.new.in_transaction ≡ false }
    ensures salt { IsKnownSalt (state S.Store conn.old) (state S.Store conn.new) result }
    ensures same { ChangesNothing (state S.Store conn.old) (state S.Store conn.new) result }
    ensures survives { OnlyReads book_schema (state S.Store conn.old) (state S.Store conn.new) }
{
    let rows = all_salt(conn)?;
    Ok(salt_of(rows.as_slice()))
}

// The items of a request, by id.
fn of_request<S: Alter>(conn: &mut Connection<S>, request: &[u8]) -> Result<Vec<Row>, Error>
    ensures mode { conn.old.in_transaction ≡ false → conn.new.in_transaction ≡ false }
    ensures rows { ShowsRows (λ db. map shown_mark (of_request request.now (lines_of db)))
        (state S.Store conn.old) (state S.Store conn.new) result }
    ensures same { ChangesNothing (state S.Store conn.old) (state S.Store conn.new) result }
    ensures survives { OnlyReads book_schema (state S.Store conn.old) (state S.Store conn.new) }
{
    conn.query_all(
        "SELECT id, reversed FROM item WHERE request = ?1 ORDER BY id",
        &[ValueRef::Blob(request)],
    )
}

// The id of the last of these rows, if it was not reversed.
fn open_in(rows: &[Row]) -> Option<i64>
    ensures { (lines : List Line) → rows.now ≡ map shown_mark lines → result ≡ open_id lines }
{
    match rows.last() {
        Some(row) => {
            if int_at(row, 1) == 0 {
                Some(int_at(row, 0))
            } else {
                None
            }
        }
        None => None,
    }
}

/// The id of the last item of a request, if it was not reversed.
pub fn open_item<S: Alter>(conn: &mut Connection<S>, request: &[u8]) -> Result<Option<i64>, Error>
    ensures mode { conn.old.in_transaction ≡ false → conn.new.in_transaction ≡ false }
    ensures found { Finds (λ lines. open_id (of_request request.now lines))
        (state S.Store conn.old) (state S.Store conn.new) result }
    ensures same { ChangesNothing (state S.Store conn.old) (state S.Store conn.new) result }
    ensures survives { OnlyReads book_schema (state S.Store conn.old) (state S.Store conn.new) }
{
    let rows = of_request(conn, request)?;
    Ok(open_in(rows.as_slice()))
}

// The ids of the items that have this id.
fn of_id<S: Alter>(conn: &mut Connection<S>, id: i64) -> Result<Vec<Row>, Error>
    ensures mode { conn.old.in_transaction ≡ false → conn.new.in_transaction ≡ false }
    ensures rows { ShowsRows (λ db. map shown_id (filter (has_id id) (lines_of db)))
        (state S.Store conn.old) (state S.Store conn.new) result }
    ensures same { ChangesNothing (state S.Store conn.old) (state S.Store conn.new) result }
    ensures survives { OnlyReads book_schema (state S.Store conn.old) (state S.Store conn.new) }
{
    conn.query_all(
        "SELECT id FROM item WHERE id = ?1 ORDER BY id",
        &[ValueRef::Int(id)],
    )
}

/// Whether an item has this id.
pub fn has<S: Alter>(conn: &mut Connection<S>, id: i64) -> Result<bool, Error>
    ensures mode { conn.old.in_transaction ≡ false → conn.new.in_transaction ≡ false }
    ensures found { Finds (list_any (has_id id))
        (state S.Store conn.old) (state S.Store conn.new) result }
    ensures same { ChangesNothing (state S.Store conn.old) (state S.Store conn.new) result }
    ensures survives { OnlyReads book_schema (state S.Store conn.old) (state S.Store conn.new) }
{
    let rows = of_id(conn, id)?;
    Ok(!rows.as_slice().is_empty())
}

// The first day from this one on, if an item has it.
fn first_days<S: Alter>(conn: &mut Connection<S>, from: i64) -> Result<Vec<Row>, Error>
    ensures mode { conn.old.in_transaction ≡ false → conn.new.in_transaction ≡ false }
    ensures rows { ShowsRows (λ db. take 1 (map shown_day (days_from from (lines_of db))))
        (state S.Store conn.old) (state S.Store conn.new) result }
    ensures same { ChangesNothing (state S.Store conn.old) (state S.Store conn.new) result }
    ensures survives { OnlyReads book_schema (state S.Store conn.old) (state S.Store conn.new) }
{
    conn.query_all(
        "SELECT day FROM item WHERE day >= ?1 ORDER BY day, id LIMIT 1",
        &[ValueRef::Int(from)],
    )
}

/// The first of the days from this one on that items have.
pub fn first_day<S: Alter>(conn: &mut Connection<S>, from: i64) -> Result<Option<i64>, Error>
    ensures mode { conn.old.in_transaction ≡ false → conn.new.in_transaction ≡ false }
    ensures found { Finds (first_day from)
        (state S.Store conn.old) (state S.Store conn.new) result }
    ensures same { ChangesNothing (state S.Store conn.old) (state S.Store conn.new) result }
    ensures survives { OnlyReads book_schema (state S.Store conn.old) (state S.Store conn.new) }
{
    let rows = first_days(conn, from)?;
    Ok(first_int(rows.as_slice()))
}

// The first ids of a day.
fn first_ids<S: Alter>(conn: &mut Connection<S>, day: i64, most: i64) -> Result<Vec<Row>, Error>
    ensures mode { conn.old.in_transaction ≡ false → conn.new.in_transaction ≡ false }
    ensures rows { ShowsRows (λ db. firsts most (map shown_id (of_day day (lines_of db))))
        (state S.Store conn.old) (state S.Store conn.new) result }
    ensures same { ChangesNothing (state S.Store conn.old) (state S.Store conn.new) result }
    ensures survives { OnlyReads book_schema (state S.Store conn.old) (state S.Store conn.new) }
{
    conn.query_all(
        "SELECT id FROM item WHERE day = ?1 ORDER BY id LIMIT ?2",
        &[ValueRef::Int(day), ValueRef::Int(most)],
    )
}

/// The last id among the first items of a day.
pub fn last_id<S: Alter>(
    conn: &mut Connection<S>,
    day: i64,
    most: i64,
) -> Result<Option<i64>, Error>
    ensures mode { conn.old.in_transaction ≡ false → conn.new.in_transaction ≡ false }
    ensures found { Finds (last_id day most)
        (state S.Store conn.old) (state S.Store conn.new) result }
    ensures same { ChangesNothing (state S.Store conn.old) (state S.Store conn.new) result }
    ensures survives { OnlyReads book_schema (state S.Store conn.old) (state S.Store conn.new) }
{
    let rows = first_ids(conn, day, most)?;
    Ok(last_int(rows.as_slice()))
}

/// The next items after an id, of days from one on, by id: at most so many.
pub fn next_items<S: Alter>(
    conn: &mut Connection<S>,
    after: i64,
    day: i64,
    most: i64,
) -> Result<Vec<Row>, Error>
    ensures mode { conn.old.in_transaction ≡ false → conn.new.in_transaction ≡ false }
    ensures rows { ShowsRows (λ db. map shown_line (next_lines after day most (lines_of db)))
        (state S.Store conn.old) (state S.Store conn.new) result }
    ensures same { ChangesNothing (state S.Store conn.old) (state S.Store conn.new) result }
    ensures survives { OnlyReads book_schema (state S.Store conn.old) (state S.Store conn.new) }
{
    conn.query_all(
        "SELECT id, card, request, amount, day, reversed FROM item \
WHERE id > ?1 AND day >= ?2 ORDER BY id LIMIT ?3",
        &[
            ValueRef::Int(after),
            ValueRef::Int(day),
            ValueRef::Int(most),
        ],
    )
}

// The row with what a card has used in a day.
fn used_rows<S: Alter>(conn: &mut Connection<S>, card: &[u8], day: i64) -> Result<Vec<Row>, Error>
    ensures mode { conn.old.in_transaction ≡ false → conn.new.in_transaction ≡ false }
    ensures rows { ShowsRows (λ db. (Int (used card.now day (lines_of db)) ∷ []) ∷ [])
        (state S.Store conn.old) (state S.Store conn.new) result }
    ensures same { ChangesNothing (state S.Store conn.old) (state S.Store conn.new) result }
    ensures survives { OnlyReads book_schema (state S.Store conn.old) (state S.Store conn.new) }
{
    conn.query_all(
        "SELECT coalesce(sum(amount), 0) FROM item WHERE card = ?1 AND day = ?2 AND reversed = 0",
        &[ValueRef::Blob(card), ValueRef::Int(day)],
    )
}

/// What a card has used in a day.
pub fn used<S: Alter>(conn: &mut Connection<S>, card: &[u8], day: i64) -> Result<i64, Error>
    ensures mode { conn.old.in_transaction ≡ false → conn.new.in_transaction ≡ false }
    ensures found { Finds (used card.now day)
        (state S.Store conn.old) (state S.Store conn.new) result }
    ensures same { ChangesNothing (state S.Store conn.old) (state S.Store conn.new) result }
    ensures survives { OnlyReads book_schema (state S.Store conn.old) (state S.Store conn.new) }
{
    let rows = used_rows(conn, card, day)?;
    Ok(first_int(rows.as_slice()).unwrap_or(0))
}

// The row with what all cards have used in a day.
fn sum_rows<S: Alter>(conn: &mut Connection<S>, day: i64) -> Result<Vec<Row>, Error>
    ensures mode { conn.old.in_transaction ≡ false → conn.new.in_transaction ≡ false }
    ensures rows { ShowsRows (λ db. (Int (used_in day (lines_of db)) ∷ []) ∷ [])
        (state S.Store conn.old) (state S.Store conn.new) result }
    ensures same { ChangesNothing (state S.Store conn.old) (state S.Store conn.new) result }
    ensures survives { OnlyReads book_schema (state S.Store conn.old) (state S.Store conn.new) }
{
    conn.query_all(
        "SELECT coalesce(sum(amount), 0) FROM item WHERE day = ?1 AND reversed = 0",
        &[ValueRef::Int(day)],
    )
}

/// What all cards have used in a day.
pub fn used_in<S: Alter>(conn: &mut Connection<S>, day: i64) -> Result<i64, Error>
    ensures mode { conn.old.in_transaction ≡ false → conn.new.in_transaction ≡ false }
    ensures found { Finds (used_in day)
        (state S.Store conn.old) (state S.Store conn.new) result }
    ensures same { ChangesNothing (state S.Store conn.old) (state S.Store conn.new) result }
    ensures survives { OnlyReads book_schema (state S.Store conn.old) (state S.Store conn.new) }
{
    let rows = sum_rows(conn, day)?;
    Ok(first_int(rows.as_slice()).unwrap_or(0))
}

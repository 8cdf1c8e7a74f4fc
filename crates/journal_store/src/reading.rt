//! Reads the rows of each table, in either layout.

ghost use Rattle.std.specs.Prelude.{◌≡◌, false, map};
ghost use Rattle.sqlite.specs.Held.{state};
ghost use Rattle.sqlite_keyed.specs.Lists.{sort_by};
ghost use Rattle.journal_rows.specs.Reads.{place_cmp, shown_advice, shown_joined, shown_member};
ghost use Rattle.journal_rows.specs.Reads.{shown_meta, shown_part, shown_shelf, shown_tx};
ghost use Rattle.journal_rows.specs.Tables.{first_tables_of, named, tables_of};
ghost use Rattle.journal_tables.specs.Steps.{IsJournal};
ghost use Rattle.journal_tables.specs.Converting.{IsFirst};
ghost use Rattle.journal_store.specs.Stored.{ChangesNothing, IsEither, OnlyReads, ShowsRows, ShowsAll};

use journal_rows::{TableRows, with_names};
use sqlite::{Alter, Connection, Error, ErrorCode, Row};
use std::alloc::{AllocError, Global};

// The rows of `meta`, by key.
fn all_meta<S: Alter>(conn: &mut Connection<S>) -> Result<Vec<Row>, Error>
    ensures mode { conn.old.in_transaction ≡ false → conn.new.in_transaction ≡ false }
    ensures rows { ShowsRows IsEither (λ db. map shown_meta (db 0))
        (state S.Store conn.old) (state S.Store conn.new) result }
    ensures same { ChangesNothing IsEither
        (state S.Store conn.old) (state S.Store conn.new) result }
    ensures survives { OnlyReads IsEither (state S.Store conn.old) (state S.Store conn.new) }
{
    conn.query_all("SELECT k, v FROM meta ORDER BY k", &[])
}

// The rows of `tx`, by id.
fn all_tx<S: Alter>(conn: &mut Connection<S>) -> Result<Vec<Row>, Error>
    ensures mode { conn.old.in_transaction ≡ false → conn.new.in_transaction ≡ false }
    ensures rows { ShowsRows IsEither (λ db. map shown_tx (db 1))
        (state S.Store conn.old) (state S.Store conn.new) result }
    ensures same { ChangesNothing IsEither
        (state S.Store conn.old) (state S.Store conn.new) result }
    ensures survives { OnlyReads IsEither (state S.Store conn.old) (state S.Store conn.new) }
{
    conn.query_all(
        "SELECT id, phase, told, doing, tries, context FROM tx ORDER BY id",
        &[],
    )
}

// The rows of `shelf`, by id.
fn all_shelf<S: Alter>(conn: &mut Connection<S>) -> Result<Vec<Row>, Error>
    ensures mode { conn.old.in_transaction ≡ false → conn.new.in_transaction ≡ false }
    ensures rows { ShowsRows IsEither (λ db. map shown_shelf (db 4))
        (state S.Store conn.old) (state S.Store conn.new) result }
    ensures same { ChangesNothing IsEither
        (state S.Store conn.old) (state S.Store conn.new) result }
    ensures survives { OnlyReads IsEither (state S.Store conn.old) (state S.Store conn.new) }
{
    conn.query_all("SELECT id, tries, context FROM shelf ORDER BY id", &[])
}

// The advices, by id and place.
fn all_advices<S: Alter>(conn: &mut Connection<S>) -> Result<Vec<Row>, Error>
    ensures mode { conn.old.in_transaction ≡ false → conn.new.in_transaction ≡ false }
    ensures rows { ShowsRows IsEither (λ db. map shown_advice (sort_by place_cmp (db 5)))
        (state S.Store conn.old) (state S.Store conn.new) result }
    ensures same { ChangesNothing IsEither
        (state S.Store conn.old) (state S.Store conn.new) result }
    ensures survives { OnlyReads IsEither (state S.Store conn.old) (state S.Store conn.new) }
{
    conn.query_all(
        "SELECT id, place, body FROM advice ORDER BY id, place, rowid",
        &[],
    )
}

// The members of layout 1, by id and place.
fn all_members<S: Alter>(conn: &mut Connection<S>) -> Result<Vec<Row>, Error>
    ensures mode { conn.old.in_transaction ≡ false → conn.new.in_transaction ≡ false }
    ensures rows { ShowsRows IsFirst (λ db. map shown_member (sort_by place_cmp (db 2)))
        (state S.Store conn.old) (state S.Store conn.new) result }
    ensures same { ChangesNothing IsFirst
        (state S.Store conn.old) (state S.Store conn.new) result }
    ensures survives { OnlyReads IsFirst (state S.Store conn.old) (state S.Store conn.new) }
{
    conn.query_all(
        "SELECT id, place, name FROM member ORDER BY id, place, rowid",
        &[],
    )
}

// The members of layout 2 with the numbers of their parts, by id and place.
fn all_joined<S: Alter>(conn: &mut Connection<S>) -> Result<Vec<Row>, Error>
    ensures mode { conn.old.in_transaction ≡ false → conn.new.in_transaction ≡ false }
    ensures rows { ShowsRows IsJournal (λ db. map shown_joined (sort_by place_cmp (db 9)))
        (state S.Store conn.old) (state S.Store conn.new) result }
    ensures same { ChangesNothing IsJournal
        (state S.Store conn.old) (state S.Store conn.new) result }
    ensures survives { OnlyReads IsJournal (state S.Store conn.old) (state S.Store conn.new) }
{
    conn.query_all(
        "SELECT id, place, part FROM joined ORDER BY id, place, rowid",
        &[],
    )
}

/// The parts, by number.
pub fn all_parts<S: Alter>(conn: &mut Connection<S>) -> Result<Vec<Row>, Error>
    ensures mode { conn.old.in_transaction ≡ false → conn.new.in_transaction ≡ false }
    ensures rows { ShowsRows IsJournal (λ db. map shown_part (db 7))
        (state S.Store conn.old) (state S.Store conn.new) result }
    ensures same { ChangesNothing IsJournal
        (state S.Store conn.old) (state S.Store conn.new) result }
    ensures survives { OnlyReads IsJournal (state S.Store conn.old) (state S.Store conn.new) }
{
    conn.query_all("SELECT n, name FROM part ORDER BY n", &[])
}

// The members of layout 2 with the names of these parts, by id and place.
fn all_named<S: Alter>(
    alloc: Global,
    conn: &mut Connection<S>,
    parts: &[Row],
) -> Result<Vec<Row>, Error>
    ensures mode { conn.old.in_transaction ≡ false → conn.new.in_transaction ≡ false }
    ensures rows { ShowsRows (λ db. IsJournal db × (parts.now ≡ map shown_part (db.trees 7)))
        (λ db. map shown_member (sort_by place_cmp (map (named (db 7)) (db 9))))
        (state S.Store conn.old) (state S.Store conn.new) result }
    ensures same { ChangesNothing IsJournal
        (state S.Store conn.old) (state S.Store conn.new) result }
    ensures survives { OnlyReads IsJournal (state S.Store conn.old) (state S.Store conn.new) }
{
    let joined = all_joined(conn)?;
    match with_names(alloc, parts, joined.as_slice()) {
        Ok(rows) => Ok(rows),
        Err(AllocError) => Err(Error::SqliteFailure(ErrorCode::OutOfMemory)),
    }
}

/// All rows of the tables, each member with its name.
pub struct Stored {
    pub parts: Vec<Row>,
    pub meta: Vec<Row>,
    pub tx: Vec<Row>,
    pub members: Vec<Row>,
    pub shelf: Vec<Row>,
    pub advices: Vec<Row>,
}

// Written out, so that no caller proves again how its parts are dropped.
impl Drop for Stored {
    fn drop(self) {
        let Stored {
            parts: _,
            meta: _,
            tx: _,
            members: _,
            shelf: _,
            advices: _,
        } = self;
    }
}

impl Stored {
    /// The rows as slices.
    pub fn rows(&self) -> TableRows<'_>
        ensures parts { result.parts.now ≡ self.now.parts.items }
        ensures meta { result.meta.now ≡ self.now.meta.items }
        ensures tx { result.tx.now ≡ self.now.tx.items }
        ensures members { result.members.now ≡ self.now.members.items }
        ensures shelf { result.shelf.now ≡ self.now.shelf.items }
        ensures advices { result.advices.now ≡ self.now.advices.items }
    {
        TableRows {
            parts: self.parts.as_slice(),
            meta: self.meta.as_slice(),
            tx: self.tx.as_slice(),
            members: self.members.as_slice(),
            shelf: self.shelf.as_slice(),
            advices: self.advices.as_slice(),
        }
    }
}

/// Reads all rows of layout 2, each table in the order of its key. If there is no memory for the
/// names, this is reported as the store's out of memory.
pub fn read_all<S: Alter>(alloc: Global, conn: &mut Connection<S>) -> Result<Stored, Error>
    ensures mode { conn.old.in_transaction ≡ false → conn.new.in_transaction ≡ false }
    ensures rows { ShowsAll IsJournal tables_of
        (state S.Store conn.old) (state S.Store conn.new) result }
    ensures same { ChangesNothing IsJournal
        (state S.Store conn.old) (state S.Store conn.new) result }
    ensures survives { OnlyReads IsJournal (state S.Store conn.old) (state S.Store conn.new) }
{
    let parts = all_parts(conn)?;
    let members = all_named(alloc, conn, parts.as_slice())?;
    Ok(Stored {
        parts,
        members,
        meta: all_meta(conn)?,
        tx: all_tx(conn)?,
        shelf: all_shelf(conn)?,
        advices: all_advices(conn)?,
    })
}

/// Reads all rows of layout 1, each table in the order of its key.
pub fn read_first<S: Alter>(alloc: Global, conn: &mut Connection<S>) -> Result<Stored, Error>
    ensures mode { conn.old.in_transaction ≡ false → conn.new.in_transaction ≡ false }
    ensures rows { ShowsAll IsFirst first_tables_of
        (state S.Store conn.old) (state S.Store conn.new) result }
    ensures same { ChangesNothing IsFirst
        (state S.Store conn.old) (state S.Store conn.new) result }
    ensures survives { OnlyReads IsFirst (state S.Store conn.old) (state S.Store conn.new) }
{
    Ok(Stored {
        parts: Vec::new(alloc),
        members: all_members(conn)?,
        meta: all_meta(conn)?,
        tx: all_tx(conn)?,
        shelf: all_shelf(conn)?,
        advices: all_advices(conn)?,
    })
}

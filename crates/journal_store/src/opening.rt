//! What is read from a database that is opened: the parts of layout 2, and all of layout 1, which
//! is converted.

ghost use Rattle.std.specs.Prelude.{◌≡◌, ◌∷◌, [], IfErr, IfOk, IfSome, IsTrue, false};
ghost use Rattle.sqlite.specs.Held.{state};
ghost use Rattle.sqlite.specs.State.{HasCleanDisk, Survives};
ghost use Rattle.journal_rows.specs.Tables.{first_tables_of};
ghost use Rattle.journal_tables.specs.Parts.{numbered_from};
ghost use Rattle.journal_tables.specs.Steps.{IsJournal};
ghost use Rattle.journal_tables.specs.Converting.{IsFirst};
ghost use Rattle.journal_store.specs.Means.{IsNotFailed};
ghost use Rattle.journal_store.specs.Stored.{ChangesNothing, OnlyReads};
ghost use Rattle.journal_store.specs.Converted.{Knowing, LeavesFirst, NamesFault, OnlyReadIf};
ghost use Rattle.journal_store.specs.Converted.{ConvertsFirst, part_shown};

use crate::error::JournalError;
use crate::reading::{all_parts, read_first};
use crate::viewing::{cause_of, read_as};
use journal_rows::Layout;
use journal_tables::{Parts, convert};
use sqlite::types::ValueRef;
use sqlite::{Alter, Connection, Error, ErrorCode, Row};
use std::alloc::Global;
use std::str;
use sw_participant::Text;

// The name of a part, if the row has this number.
fn name_at(row: &Row, at: u64) -> Option<&str>
    ensures { IfSome result (λ name. row.now ≡ part_shown at name.now) }
{
    if row.column_count() != 2 {
        return None;
    }
    let Ok(ValueRef::Int(n)) = row.get_ref(0) else {
        return None;
    };
    let Ok(ValueRef::Text(bytes)) = row.get_ref(1) else {
        return None;
    };
    if n < 0 || n as u64 != at {
        return None;
    }
    str::from_utf8(bytes).ok()
}

// Whether all rows are in order, and the parts of those before the first that is not.
fn parts_of(alloc: Global, rows: &[Row]) -> Result<(bool, Parts), Error>
    ensures { IfOk result (λ k. IsTrue k.0 → rows.now ≡ numbered_from 0 k.1) }
{
    let mut parts = Parts::new(alloc);
    let mut at = 0;
    for row in rows {
        let Some(name) = name_at(row, at) else {
            return Ok((false, parts));
        };
        let Ok(part) = Text::from_str(alloc, name) else {
            return Err(Error::SqliteFailure(ErrorCode::OutOfMemory));
        };
        parts.push(&part)?;
        at += 1;
    }
    Ok((true, parts))
}

/// Reads the parts of a journal of layout 2, and tells whether they are in order.
pub fn known_parts<S: Alter>(
    alloc: Global,
    conn: &mut Connection<S>,
) -> Result<(bool, Parts), Error>
    ensures mode { conn.old.in_transaction ≡ false → conn.new.in_transaction ≡ false }
    ensures knows { Knowing (state S.Store conn.old) (state S.Store conn.new) result }
    ensures same { ChangesNothing IsJournal
        (state S.Store conn.old) (state S.Store conn.new) result }
    ensures survives { OnlyReads IsJournal (state S.Store conn.old) (state S.Store conn.new) }
{
    let rows = all_parts(conn)?;
    parts_of(alloc, rows.as_slice())
}

/// Converts a journal of layout 1 into layout 2, in one transaction, and returns the parts. If a row is
/// at fault, the first one is named, and nothing is changed.
pub fn convert_first<S: Alter>(
    alloc: Global,
    conn: &mut Connection<S>,
) -> Result<Parts, JournalError>
    requires autocommit { conn.old.in_transaction ≡ false }
    ensures autocommit { conn.new.in_transaction ≡ false }
    ensures converted { ConvertsFirst (state S.Store conn.old) (state S.Store conn.new) result }
    ensures names { HasCleanDisk (state S.Store conn.new) → IsFirst (state S.Store conn.old).now
        → NamesFault (first_tables_of (state S.Store conn.old).now.trees) result }
    ensures live { IfErr result IsNotFailed }
    ensures read { OnlyReadIf (state S.Store conn.old) (state S.Store conn.new) result }
    ensures crash { Survives (state S.Store conn.old) (state S.Store conn.new)
        (LeavesFirst (state S.Store conn.old)) }
{
    let stored = match read_first(alloc, conn) {
        Ok(stored) => stored,
        Err(error) => return Err(cause_of(&error)),
    };
    let _view = match read_as(alloc, Layout::First, &stored) {
        Ok(view) => view,
        Err(error) => return Err(error),
    };
    match convert(alloc, conn, stored.members.as_slice()) {
        Ok(parts) => Ok(parts),
        Err(error) => Err(cause_of(&error)),
    }
}

//! The journal of a connection.

ghost use Rattle.std.specs.Prelude.{◌≡◌, IfErr, IfOk};
ghost use Rattle.journal_copy.specs.Found as spec;

use crate::error::LookError;
use crate::rest::rest_of;
use journal_rows::Layout;
use journal_store::{Journal, JournalError, Left, Stored, read_all, read_first};
use sqlite::{Alter, Connection};
use std::alloc::Global;
use tx_history::JournalView;

/// What a copy of a journal holds.
pub struct FoundJournal {
    /// The layout of the journal's tables: 1 or 2.
    pub layout: u64,
    pub view: JournalView,
}

// Written out, so that no caller proves again how its parts are dropped.
impl Drop for FoundJournal {
    fn drop(self) {
        let FoundJournal { layout: _, view: _ } = self;
    }
}

// The layout of a journal with this many tables.
fn layout_by(tables: usize) -> Option<u64>
    ensures { result ≡ spec.layout_by tables }
{
    match tables {
        5 => Some(1),
        7 => Some(2),
        _ => None,
    }
}

// The error of a journal that is refused; `stored` has its rows, if they could be read.
fn spoilt(
    alloc: Global,
    layout: Layout,
    error: JournalError,
    stored: Result<Stored, sqlite::Error>,
) -> LookError
    ensures { spec.IsSpoilt error result }
{
    let JournalError::BadRow(bad) = error else {
        return LookError::from(error);
    };
    let Ok(stored) = stored else {
        return LookError::BadRow { bad, rest: None };
    };
    match rest_of(alloc, layout, stored) {
        Ok(rest) => LookError::BadRow { bad, rest },
        Err(_) => LookError::OutOfMemory,
    }
}

// The error of a journal that is not opened. If a row is at fault, it has layout 1.
fn unopened<S: Alter + Drop>(alloc: Global, error: JournalError, left: Left<S>) -> LookError
    ensures { spec.IsSpoilt error result }
{
    match left {
        Left::Open(conn) => {
            let mut conn = conn;
            spoilt(alloc, Layout::First, error, read_first(alloc, &mut conn))
        }
        Left::Closed(_) => LookError::from(error),
    }
}

// The error of a journal whose view is refused.
fn unread<S: Alter + Drop>(alloc: Global, error: JournalError, journal: Journal<S>) -> LookError
    ensures { spec.IsSpoilt error result }
{
    let mut conn = journal.into_connection();
    spoilt(alloc, Layout::Second, error, read_all(alloc, &mut conn))
}

fn open<S: Alter + Drop>(alloc: Global, conn: Connection<S>) -> Result<Journal<S>, LookError>
    ensures opened { IfOk result (spec.IsOpenedBy S.Store conn) }
    ensures bad { IfErr result (spec.IfBadRow (spec.IsFaultBy S.Store conn)) }
    ensures rest { IfErr result spec.IfRest }
{
    match Journal::open(alloc, conn) {
        Ok(journal) => Ok(journal),
        Err((error, left)) => Err(unopened(alloc, error, left)),
    }
}

/// The layout of a connection's journal, and its view.
pub fn found_by<S: Alter + Drop>(
    alloc: Global,
    conn: Connection<S>,
) -> Result<FoundJournal, LookError>
    ensures found { IfOk result (spec.IsFoundBy S.Store conn) }
    ensures bad { IfErr result (spec.IfBadRow (spec.IsFaultBy S.Store conn)) }
    ensures rest { IfErr result spec.IfRest }
{
    let Some(layout) = layout_by(conn.schema().tables.len()) else {
        return Err(LookError::NotAJournal);
    };
    let mut journal = open(alloc, conn)?;
    match journal.view(alloc) {
        Ok(view) => Ok(FoundJournal { layout, view }),
        Err(error) => Err(unread(alloc, error, journal)),
    }
}

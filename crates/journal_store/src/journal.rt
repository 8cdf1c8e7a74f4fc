//! The journal: its tables in a connection.

ghost use Rattle.std.specs.Prelude.{◌≡◌, ◌≤◌, ◌⊎◌, [], All, Err, IfErr, IfOk, IsTrue, Ok};
ghost use Rattle.std.specs.Prelude.{OnErr, OnOk, false, true};
ghost use Rattle.sqlite.specs.Held.{state};
ghost use Rattle.sqlite_trees.specs.View.{doubt};
ghost use Rattle.journal_rows.specs.Law.{changes_of};
ghost use Rattle.journal_rows.specs.Reads.{Stands};
ghost use Rattle.journal_rows.specs.Tables.{Tables, all_made};
ghost use Rattle.tx_history.specs.Views.{IsOk};
ghost use Rattle.journal_tables.specs.Small.{IsEntrySmall};
ghost use Rattle.journal_store.specs.Kept.{IsCleanJournal, Kept, OpensAs, kept, left_by};
ghost use Rattle.journal_store.specs.Left.{IsBeforeOrMade, doubt_of, leaves};
ghost use Rattle.journal_store.specs.Converted.{IfBad, IsNaming};
ghost use Rattle.sqlite_trees.specs.Tree.{Trees};
ghost use Rattle.journal_store.specs.Means.{IsNotFailed, IsStore, Means};
ghost use Rattle.journal_store.specs.Opened.{KeepsView, LeavesView};

use crate::error::{Cause, JournalError};
use crate::layout::{is_empty, is_first, is_journal};
use crate::opening::{convert_first, known_parts};
use crate::reading::read_all;
use crate::reread::reread;
use crate::tables::make_journal;
use crate::viewing::{cause_of, viewed};
use journal_tables::{LastPut, Parts, write_all};
use sqlite::{Alter, Connection};
use std::alloc::Global;
use std::marker::Model;
use tx_history::{Entry, JournalView};

/// What a refused `open` hands back: the connection, or the store of one that cannot be read again.
#[derive(Drop)]
pub enum Left<S: Alter> {
    Open(Connection<S>),
    Closed(S),
}

/// A connection whose tables are the journal's.
pub struct Journal<S: Alter> {
    conn: Connection<S>,
    failed: bool,
    // The row that was put last, which need not be put again.
    last_put: Option<LastPut>,
    // Whether the table `part` has its rows in order. If it has, `parts` holds its names, and no
    // statement looks one up.
    knows_parts: bool,
    parts: Parts,
}

impl<S: Alter> Model for Journal<S> {
    ghost use Rattle.sqlite.specs.Held.{state};
    ghost use Rattle.journal_store.specs.Kept.{Kept, kept_code, IsKept};

    ghost Value = { Kept S };

    ghost coded = { kept_code S.code };

    ghost view = { λ j. record { held = j.conn; failed = j.failed } };

    ghost invariant = { λ j.
        IsKept (state S.Store j.conn) j.failed j.last_put j.knows_parts j.parts };
}

impl<S: Alter + Drop> Drop for Journal<S> {
    fn drop(self) {
        let Journal {
            conn: _,
            failed: _,
            last_put: _,
            knows_parts: _,
            parts: _,
        } = self;
    }
}

impl<S: Alter> Journal<S> {
    /// Writes the changes of all entries in one transaction, or none. An empty list changes
    /// nothing. A failed journal refuses with `Failed`, and nothing is done. Any other refusal is
    /// `Store`: then the journal is failed, and a stop leaves all changes made or none. If the
    /// numbers of `part` have a gap, which `view` reports as a bad row, nothing is written, and the
    /// refusal is `Store(Refused)`.
    pub fn write(&mut self, entries: &[Entry]) -> Result<(), JournalError>
        requires small { All IsEntrySmall entries.now }
        ensures failed { IsTrue self.old.failed
            → (result ≡ Err JournalError.Failed) × (self.new ≡ self.old) }
        ensures none { self.old.failed ≡ false → entries.now ≡ []
            → (result ≡ Ok tt) × (self.new ≡ self.old) }
        ensures clean { doubt (kept S.Store self.old).is_clean
            ≤ doubt (kept S.Store self.new).is_clean }
        ensures ok { OnOk result (self.new.failed ≡ false) }
        ensures err { OnErr result (self.new.failed ≡ true) }
        ensures refused { self.old.failed ≡ false → IfErr result IsStore }
        ensures wrote { IsCleanJournal (kept S.Store self.new) → OnOk result
            ((kept S.Store self.new).tables
            ≡ all_made (changes_of entries.now) (kept S.Store self.old).tables) }
        ensures kept { IsCleanJournal (kept S.Store self.new) → OnOk result ((t : Tables)
            → (kept S.Store self.new).may_leave t → t ≡ (kept S.Store self.new).tables) }
        ensures stop { IsCleanJournal (kept S.Store self.new) → self.old.failed ≡ false
            → (t : Tables) → (kept S.Store self.new).may_leave t
            → (t ≡ (kept S.Store self.old).tables)
            ⊎ (t ≡ all_made (changes_of entries.now) (kept S.Store self.old).tables) }
    {
        if self.failed {
            return Err(JournalError::Failed);
        }
        if entries.is_empty() {
            return Ok(());
        }
        if !self.knows_parts {
            self.failed = true;
            return Err(JournalError::Store(Cause::Refused));
        }
        match write_all(&mut self.conn, &mut self.parts, entries, self.last_put) {
            Ok(last_put) => {
                self.last_put = last_put;
                Ok(())
            }
            Err(error) => {
                self.failed = true;
                Err(cause_of(&error))
            }
        }
    }

    /// Reads the view that the tables hold, on which an engine may be opened, or reports their first
    /// row at fault. If the store refuses, the journal is failed. A bad row, or no memory for the
    /// lists of the view, leaves it as it was.
    pub fn view(&mut self, alloc: Global) -> Result<JournalView, JournalError>
        ensures failed { IsTrue self.old.failed
            → (result ≡ Err JournalError.Failed) × (self.new ≡ self.old) }
        ensures clean { doubt (kept S.Store self.old).is_clean
            ≤ doubt (kept S.Store self.new).is_clean }
        ensures same { IsCleanJournal (kept S.Store self.new) → self.new.failed ≡ false
            → (kept S.Store self.new).tables ≡ (kept S.Store self.old).tables }
        ensures left { IsCleanJournal (kept S.Store self.new) → self.old.failed ≡ false
            → (t : Tables) → (kept S.Store self.new).may_leave t
            → t ≡ (kept S.Store self.old).tables }
        ensures live { self.old.failed ≡ false → IfErr result IsNotFailed }
        ensures means { IsCleanJournal (kept S.Store self.new)
            → Means (kept S.Store self.old).tables self.new.failed result }
        ensures stands { IsCleanJournal (kept S.Store self.new)
            → IfOk result (Stands (kept S.Store self.old).tables) }
        ensures sound { IsCleanJournal (kept S.Store self.new) → IfOk result IsOk }
    {
        if self.failed {
            return Err(JournalError::Failed);
        }
        match read_all(alloc, &mut self.conn) {
            Ok(stored) => viewed(alloc, &stored),
            Err(error) => {
                self.failed = true;
                Err(cause_of(&error))
            }
        }
    }

    /// Hands back the connection, whose tables are as they were.
    pub fn into_connection(self) -> Connection<S>
        ensures same { result ≡ self.held }
    {
        let Journal {
            conn,
            failed: _,
            last_put: _,
            knows_parts: _,
            parts: _,
        } = self;
        conn
    }
}

impl<S: Alter + Drop> Journal<S> {
    /// Opens a journal: makes the tables of layout 2, with next id 1, in an empty database, takes those
    /// of a journal in layout 2 as they are, and converts one in layout 1 into layout 2, in one
    /// transaction. The journal has the view that the database had, and so has whatever a stop leaves.
    ///
    /// The first row at fault in layout 1 is refused as `BadRow`, and the database is as it was;
    /// `OutOfMemory` is refused only when layout 1 is read. Any other database is refused as
    /// `Store(Refused)` and left as it was. A refused `open` hands back what it has.
    pub fn open(alloc: Global, conn: Connection<S>) -> Result<Journal<S>, (JournalError, Left<S>)>
        ensures fresh { IfOk result (λ j. j.failed ≡ false) }
        ensures clean { IfOk result (λ j.
            doubt (state S.Store conn).is_clean ≤ doubt (kept S.Store j).is_clean) }
        ensures opened { IfOk result (λ j. IsCleanJournal (kept S.Store j)
            → IsTrue (state S.Store conn).is_open
            × OpensAs (state S.Store conn).committed.trees (kept S.Store j).tables) }
        ensures kept { IfOk result (λ j. IsCleanJournal (kept S.Store j)
            → (t : Tables) → (kept S.Store j).may_leave t → t ≡ (kept S.Store j).tables) }
        ensures view { IfOk result (λ j. IsCleanJournal (kept S.Store j)
            → KeepsView (state S.Store conn).committed.trees (kept S.Store j)) }
        ensures view_left { IfErr result (λ e. doubt_of S.Store e.1 ≡ 0
            → IsTrue (state S.Store conn).is_open
            → LeavesView (state S.Store conn).committed.trees (leaves S.Store e.1)) }
        ensures live { IfErr result (λ e. IsNotFailed e.0) }
        ensures names { IfErr result (λ e. doubt_of S.Store e.1 ≡ 0
            → IsNaming (state S.Store conn).committed.trees e.0) }
        ensures unchanged { IfErr result (λ e. IfBad (doubt_of S.Store e.1 ≡ 0
            → (db : Trees) → leaves S.Store e.1 db → S.Store.recovers conn.store db) e.0) }
        ensures left { IfErr result (λ e.
            IsBeforeOrMade S.Store conn.store (state S.Store conn).committed.trees e.1) }

        // A connection that finds what a stop left of a journal is opened as one of the tables that
        // the stop may have left. What a refusal leaves, or a stop during it, is opened as this
        // connection would have been.
        ensures found { IfOk result (λ j. IsCleanJournal (kept S.Store j) → (old : Kept S)
            → S.Store.recovers old.held.store (state S.Store conn).committed.trees
            → (kept S.Store old).may_leave (kept S.Store j).tables) }
        ensures again { IfErr result (λ e. doubt_of S.Store e.1 ≡ 0
            → IsTrue (state S.Store conn).is_open
            → (t u : Tables) → OpensAs (state S.Store conn).committed.trees t
            → left_by (leaves S.Store e.1) u → u ≡ t) }
    {
        let mut conn = match reread(alloc, conn) {
            Ok(conn) => conn,
            Err((error, store)) => return Err((cause_of(&error), Left::Closed(store))),
        };
        if is_journal(conn.schema()) {
            return match known_parts(alloc, &mut conn) {
                Ok((knows_parts, parts)) => Ok(Journal {
                    conn,
                    failed: false,
                    last_put: None,
                    knows_parts,
                    parts,
                }),
                Err(error) => Err((cause_of(&error), Left::Open(conn))),
            };
        }
        if is_first(conn.schema()) {
            return match convert_first(alloc, &mut conn) {
                Ok(parts) => Ok(Journal {
                    conn,
                    failed: false,
                    last_put: None,
                    knows_parts: true,
                    parts,
                }),
                Err(error) => Err((error, Left::Open(conn))),
            };
        }
        if !is_empty(conn.schema()) {
            return Err((JournalError::Store(Cause::Refused), Left::Open(conn)));
        }
        match make_journal(&mut conn) {
            Ok(()) => Ok(Journal {
                conn,
                failed: false,
                last_put: None,
                knows_parts: true,
                parts: Parts::new(alloc),
            }),
            Err(error) => Err((cause_of(&error), Left::Open(conn))),
        }
    }
}

//! A book in its file.

ghost use Rattle.std.specs.Prelude.{◌≡◌, ◌≤◌, ◌⊎◌, ◌∷◌, ◌++◌, [], ℕ, List, Err, IfErr, IfOk};
ghost use Rattle.std.specs.Prelude.{IsTrue, OnErr, OnOk};
ghost use Rattle.std.specs.Prelude.{false, is_some, true};
ghost use Rattle.sqlite.specs.Held.{state};
ghost use Rattle.sha2.specs.Sha256.{sha256};
ghost use Rattle.sqlite_trees.specs.Tree.{Trees};
ghost use Rattle.sqlite_trees.specs.View.{doubt};
ghost use Rattle.book_store.specs.Items.{IsSmall, line_for};
ghost use Rattle.book_store.specs.Kept.{IsCleanBook, Kept, OpensAs, Tables, book, changed, left_by};
ghost use Rattle.book_store.specs.Left.{IsBeforeOrNew, IsNaming, IsStore, doubt_of, leaves};
ghost use Rattle.book_store.specs.Lines.{marked, with_line};
ghost use Rattle.book_store.specs.Changes.{forgotten, reversed};
ghost use Rattle.book_store.specs.Queries.{of_request, open_id};
ghost use Rattle.book_store.specs.Steps.{salt_row};

use crate::changes::{forget, make_book, mark, put, reverse};
use crate::error::BookFileError;
use crate::hash::hashed;
use crate::item::{Hashed, Item};
use crate::layout::is_book;
use crate::reading::known_salt;
use sqlite::{Alter, Connection};
use std::alloc::Global;
use std::marker::Model;
use store_base::{is_empty, reread};

/// What a refused `open` hands back: the connection, or the store of one that cannot be read again.
#[derive(Drop)]
pub enum Left<S: Alter> {
    Open(Connection<S>),
    Closed(S),
}

/// A connection whose tables are a book's.
pub struct BookFile<S: Alter> {
    pub(crate) conn: Connection<S>,
    pub(crate) failed: bool,
    salt: [u8; 32],
}

impl<S: Alter> Model for BookFile<S> {
    ghost use Rattle.sqlite.specs.Held.{state};
    ghost use Rattle.book_store.specs.Kept.{Kept, kept_code, IsKept};

    ghost Value = { Kept S };

    ghost coded = { kept_code S.code };

    ghost view = { λ b. record { held = b.conn; failed = b.failed; salt = b.salt } };

    ghost invariant = { λ b. IsKept (state S.Store b.conn) b.failed b.salt };
}

impl<S: Alter + Drop> Drop for BookFile<S> {
    fn drop(self) {
        let BookFile {
            conn: _,
            failed: _,
            salt: _,
        } = self;
    }
}

impl<S: Alter> BookFile<S> {
    /// The salted hash by which this file knows a card or a request.
    pub fn hash(&self, bytes: &[u8]) -> Hashed
        ensures { result.bytes ≡ sha256 (self.now.salt ++ bytes.now) }
    {
        hashed(self.salt.as_slice(), bytes)
    }

    /// Puts an item. If its id is there, nothing is changed. A failed file refuses with `Failed`, and
    /// nothing is done. Any other refusal is `Store`: then the file is failed, and a stop leaves the
    /// item put or not.
    pub fn put(&mut self, item: &Item) -> Result<(), BookFileError>
        requires small { IsSmall item.now }
        ensures failed { IsTrue self.old.failed
            → (result ≡ Err BookFileError.Failed) × (self.new ≡ self.old) }
        ensures salt { self.new.salt ≡ self.old.salt }
        ensures clean { doubt (book S.Store self.old).is_clean
            ≤ doubt (book S.Store self.new).is_clean }
        ensures ok { OnOk result (self.new.failed ≡ false) }
        ensures err { OnErr result (self.new.failed ≡ true) }
        ensures refused { self.old.failed ≡ false → IfErr result IsStore }
        ensures wrote { IsCleanBook (book S.Store self.new) → OnOk result
            ((book S.Store self.new).tables
            ≡ changed (with_line (line_for item.now)) (book S.Store self.old).tables) }
        ensures kept { IsCleanBook (book S.Store self.new) → OnOk result
            ((salt : List ℕ) (t : Tables) → (book S.Store self.new).may_leave salt t
            → t ≡ (book S.Store self.new).tables) }
        ensures stop { IsCleanBook (book S.Store self.new) → self.old.failed ≡ false
            → (salt : List ℕ) (t : Tables) → (book S.Store self.new).may_leave salt t
            → (t ≡ (book S.Store self.old).tables)
            ⊎ (t ≡ changed (with_line (line_for item.now)) (book S.Store self.old).tables) }
    {
        if self.failed {
            return Err(BookFileError::Failed);
        }
        match put(&mut self.conn, item) {
            Ok(()) => Ok(()),
            Err(error) => {
                self.failed = true;
                Err(BookFileError::Store(error))
            }
        }
    }

    /// Marks the item of a request as reversed, and returns whether there was one to mark: of the items
    /// that have the request, the one that was put last counts, unless it was reversed before.
    /// Refusals are as in `put`.
    pub fn reverse(&mut self, request: &Hashed) -> Result<bool, BookFileError>
        ensures failed { IsTrue self.old.failed
            → (result ≡ Err BookFileError.Failed) × (self.new ≡ self.old) }
        ensures salt { self.new.salt ≡ self.old.salt }
        ensures clean { doubt (book S.Store self.old).is_clean
            ≤ doubt (book S.Store self.new).is_clean }
        ensures ok { OnOk result (self.new.failed ≡ false) }
        ensures err { OnErr result (self.new.failed ≡ true) }
        ensures refused { self.old.failed ≡ false → IfErr result IsStore }
        ensures told { IsCleanBook (book S.Store self.new) → IfOk result (λ b. b ≡ is_some
            (open_id (of_request request.now.bytes (book S.Store self.old).tables.lines))) }
        ensures wrote { IsCleanBook (book S.Store self.new) → OnOk result
            ((book S.Store self.new).tables
            ≡ changed (reversed request.now.bytes) (book S.Store self.old).tables) }
        ensures kept { IsCleanBook (book S.Store self.new) → OnOk result
            ((salt : List ℕ) (t : Tables) → (book S.Store self.new).may_leave salt t
            → t ≡ (book S.Store self.new).tables) }
        ensures stop { IsCleanBook (book S.Store self.new) → self.old.failed ≡ false
            → (salt : List ℕ) (t : Tables) → (book S.Store self.new).may_leave salt t
            → (t ≡ (book S.Store self.old).tables)
            ⊎ (t ≡ changed (reversed request.now.bytes) (book S.Store self.old).tables) }
    {
        if self.failed {
            return Err(BookFileError::Failed);
        }
        match reverse(&mut self.conn, request.bytes.as_slice()) {
            Ok(was_open) => Ok(was_open),
            Err(error) => {
                self.failed = true;
                Err(BookFileError::Store(error))
            }
        }
    }

    /// Marks the item under an id as reversed, if there is one. Refusals are as in `put`.
    pub fn mark(&mut self, id: i64) -> Result<(), BookFileError>
        ensures failed { IsTrue self.old.failed
            → (result ≡ Err BookFileError.Failed) × (self.new ≡ self.old) }
        ensures salt { self.new.salt ≡ self.old.salt }
        ensures clean { doubt (book S.Store self.old).is_clean
            ≤ doubt (book S.Store self.new).is_clean }
        ensures ok { OnOk result (self.new.failed ≡ false) }
        ensures err { OnErr result (self.new.failed ≡ true) }
        ensures refused { self.old.failed ≡ false → IfErr result IsStore }
        ensures wrote { IsCleanBook (book S.Store self.new) → OnOk result
            ((book S.Store self.new).tables
            ≡ changed (marked id) (book S.Store self.old).tables) }
        ensures kept { IsCleanBook (book S.Store self.new) → OnOk result
            ((salt : List ℕ) (t : Tables) → (book S.Store self.new).may_leave salt t
            → t ≡ (book S.Store self.new).tables) }
        ensures stop { IsCleanBook (book S.Store self.new) → self.old.failed ≡ false
            → (salt : List ℕ) (t : Tables) → (book S.Store self.new).may_leave salt t
            → (t ≡ (book S.Store self.old).tables)
            ⊎ (t ≡ changed (marked id) (book S.Store self.old).tables) }
    {
        if self.failed {
            return Err(BookFileError::Failed);
        }
        match mark(&mut self.conn, id) {
            Ok(()) => Ok(()),
            Err(error) => {
                self.failed = true;
                Err(BookFileError::Store(error))
            }
        }
    }

    /// Forgets at most so many items: the first ones, by id, of the oldest day, if this is before the
    /// given one. Refusals are as in `put`.
    pub fn forget(&mut self, before: i64, most: i64) -> Result<(), BookFileError>
        ensures failed { IsTrue self.old.failed
            → (result ≡ Err BookFileError.Failed) × (self.new ≡ self.old) }
        ensures salt { self.new.salt ≡ self.old.salt }
        ensures clean { doubt (book S.Store self.old).is_clean
            ≤ doubt (book S.Store self.new).is_clean }
        ensures ok { OnOk result (self.new.failed ≡ false) }
        ensures err { OnErr result (self.new.failed ≡ true) }
        ensures refused { self.old.failed ≡ false → IfErr result IsStore }
        ensures wrote { IsCleanBook (book S.Store self.new) → OnOk result
            ((book S.Store self.new).tables
            ≡ changed (forgotten before most) (book S.Store self.old).tables) }
        ensures kept { IsCleanBook (book S.Store self.new) → OnOk result
            ((salt : List ℕ) (t : Tables) → (book S.Store self.new).may_leave salt t
            → t ≡ (book S.Store self.new).tables) }
        ensures stop { IsCleanBook (book S.Store self.new) → self.old.failed ≡ false
            → (salt : List ℕ) (t : Tables) → (book S.Store self.new).may_leave salt t
            → (t ≡ (book S.Store self.old).tables)
            ⊎ (t ≡ changed (forgotten before most) (book S.Store self.old).tables) }
    {
        if self.failed {
            return Err(BookFileError::Failed);
        }
        match forget(&mut self.conn, before, most) {
            Ok(()) => Ok(()),
            Err(error) => {
                self.failed = true;
                Err(BookFileError::Store(error))
            }
        }
    }

    /// Hands back the connection, whose tables are as they were.
    pub fn into_connection(self) -> Connection<S>
        ensures same { result ≡ self.held }
    {
        let BookFile {
            conn,
            failed: _,
            salt: _,
        } = self;
        conn
    }
}

impl<S: Alter + Drop> BookFile<S> {
    /// Opens a book: takes its tables as they are, and makes those of a new book, with this salt, in an
    /// empty database. Any other database is refused as `NotABook` or `BadSalt` and left as it was. A
    /// refused `open` hands back what it has.
    pub fn open(
        alloc: Global,
        conn: Connection<S>,
        salt: &[u8; 32],
    ) -> Result<BookFile<S>, (BookFileError, Left<S>)>
        ensures fresh { IfOk result (λ b. b.failed ≡ false) }
        ensures clean { IfOk result (λ b.
            doubt (state S.Store conn).is_clean ≤ doubt (book S.Store b).is_clean) }
        ensures opened { IfOk result (λ b. IsCleanBook (book S.Store b)
            → IsTrue (state S.Store conn).is_open
            × OpensAs salt.now (state S.Store conn).committed.trees (book S.Store b).tables) }
        ensures salted { IfOk result (λ b. IsCleanBook (book S.Store b)
            → (book S.Store b).tables.salt ≡ salt_row b.salt ∷ []) }
        ensures kept { IfOk result (λ b. IsCleanBook (book S.Store b)
            → (given : List ℕ) (t : Tables) → (book S.Store b).may_leave given t
            → t ≡ (book S.Store b).tables) }
        ensures names { IfErr result (λ e. doubt_of S.Store e.1 ≡ 0
            → IsNaming (state S.Store conn).committed.trees e.0) }
        ensures left { IfErr result (λ e. IsBeforeOrNew S.Store conn.store
            (state S.Store conn).committed.trees salt.now e.1) }

        // A connection that finds what a stop left of a book is opened as the tables that the stop
        // may have left. What a refusal leaves, or a stop during it, is opened as this connection
        // would have been.
        ensures found { IfOk result (λ b. IsCleanBook (book S.Store b) → (old : Kept S)
            → S.Store.recovers old.held.store (state S.Store conn).committed.trees
            → (book S.Store old).may_leave salt.now (book S.Store b).tables) }
        ensures again { IfErr result (λ e. doubt_of S.Store e.1 ≡ 0
            → IsTrue (state S.Store conn).is_open
            → (t u : Tables) → OpensAs salt.now (state S.Store conn).committed.trees t
            → left_by (leaves S.Store e.1) salt.now u → u ≡ t) }
    {
        let mut conn = match reread(alloc, conn) {
            Ok(conn) => conn,
            Err((error, store)) => {
                return Err((BookFileError::Store(error), Left::Closed(store)));
            }
        };
        if is_book(conn.schema()) {
            return match known_salt(&mut conn) {
                Ok(Some(salt)) => Ok(BookFile {
                    conn,
                    failed: false,
                    salt,
                }),
                Ok(None) => Err((BookFileError::BadSalt, Left::Open(conn))),
                Err(error) => Err((BookFileError::Store(error), Left::Open(conn))),
            };
        }
        if !is_empty(conn.schema()) {
            return Err((BookFileError::NotABook, Left::Open(conn)));
        }
        match make_book(&mut conn, salt.as_slice()) {
            Ok(()) => Ok(BookFile {
                conn,
                failed: false,
                salt: *salt,
            }),
            Err(error) => Err((BookFileError::Store(error), Left::Open(conn))),
        }
    }
}

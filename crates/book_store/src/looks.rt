//! Calls of a book's file that only read.

ghost use Rattle.std.specs.Prelude.{◌≡◌, ◌≤◌, ℕ, List, Err, IfErr, IfOk, IsTrue, OnErr, OnOk};
ghost use Rattle.std.specs.Prelude.{false, map};
ghost use Rattle.std.specs.Prelude.{true};
ghost use Rattle.sqlite_trees.specs.View.{doubt};
ghost use Rattle.book_store.specs.Kept.{IsCleanBook, Tables, book};
ghost use Rattle.std.specs.List.{list_any};
ghost use Rattle.book_store.specs.Left.{IsStore};
ghost use Rattle.book_store.specs.Lines.{has_id};
ghost use Rattle.book_store.specs.Queries.{first_day, next_lines, shown_line, used, used_in};

use crate::book::BookFile;
use crate::error::BookFileError;
use crate::item::Hashed;
use crate::reading::{first_day, has, next_items, used, used_in};
use sqlite::{Alter, Row};

impl<S: Alter> BookFile<S> {
    /// Reads the next items after an id, of days from one on, by id: at most so many. The rows are read
    /// as items by `item_in`. A failed file refuses with `Failed`, and nothing is done. Any other refusal
    /// is `Store`: then the file is failed. The items stay as they were.
    pub fn next(&mut self, after: i64, from: i64, most: i64) -> Result<Vec<Row>, BookFileError>
        ensures failed { IsTrue self.old.failed
            → (result ≡ Err BookFileError.Failed) × (self.new ≡ self.old) }
        ensures salt { self.new.salt ≡ self.old.salt }
        ensures clean { doubt (book S.Store self.old).is_clean
            ≤ doubt (book S.Store self.new).is_clean }
        ensures ok { OnOk result (self.new.failed ≡ false) }
        ensures err { OnErr result (self.new.failed ≡ true) }
        ensures refused { self.old.failed ≡ false → IfErr result IsStore }
        ensures same { IsCleanBook (book S.Store self.new) → self.new.failed ≡ false
            → (book S.Store self.new).tables ≡ (book S.Store self.old).tables }
        ensures left { IsCleanBook (book S.Store self.new) → self.old.failed ≡ false
            → (salt : List ℕ) (t : Tables) → (book S.Store self.new).may_leave salt t
            → t ≡ (book S.Store self.old).tables }
        ensures found { IsCleanBook (book S.Store self.new) → IfOk result
            (λ rows. rows.items ≡ map shown_line
            (next_lines after from most (book S.Store self.old).tables.lines)) }
    {
        if self.failed {
            return Err(BookFileError::Failed);
        }
        match next_items(&mut self.conn, after, from, most) {
            Ok(found) => Ok(found),
            Err(error) => {
                self.failed = true;
                Err(BookFileError::Store(error))
            }
        }
    }

    /// Whether an item has this id. Refusals are as in `next`.
    pub fn has(&mut self, id: i64) -> Result<bool, BookFileError>
        ensures failed { IsTrue self.old.failed
            → (result ≡ Err BookFileError.Failed) × (self.new ≡ self.old) }
        ensures salt { self.new.salt ≡ self.old.salt }
        ensures clean { doubt (book S.Store self.old).is_clean
            ≤ doubt (book S.Store self.new).is_clean }
        ensures ok { OnOk result (self.new.failed ≡ false) }
        ensures err { OnErr result (self.new.failed ≡ true) }
        ensures refused { self.old.failed ≡ false → IfErr result IsStore }
        ensures same { IsCleanBook (book S.Store self.new) → self.new.failed ≡ false
            → (book S.Store self.new).tables ≡ (book S.Store self.old).tables }
        ensures left { IsCleanBook (book S.Store self.new) → self.old.failed ≡ false
            → (salt : List ℕ) (t : Tables) → (book S.Store self.new).may_leave salt t
            → t ≡ (book S.Store self.old).tables }
        ensures found { IsCleanBook (book S.Store self.new) → IfOk result
            (λ b. b ≡ list_any (has_id id) (book S.Store self.old).tables.lines) }
    {
        if self.failed {
            return Err(BookFileError::Failed);
        }
        match has(&mut self.conn, id) {
            Ok(found) => Ok(found),
            Err(error) => {
                self.failed = true;
                Err(BookFileError::Store(error))
            }
        }
    }

    /// What a card has used in a day: the sum of the amounts of its items of that day that were not
    /// reversed. Refusals are as in `next`.
    pub fn used(&mut self, card: &Hashed, day: i64) -> Result<i64, BookFileError>
        ensures failed { IsTrue self.old.failed
            → (result ≡ Err BookFileError.Failed) × (self.new ≡ self.old) }
        ensures salt { self.new.salt ≡ self.old.salt }
        ensures clean { doubt (book S.Store self.old).is_clean
            ≤ doubt (book S.Store self.new).is_clean }
        ensures ok { OnOk result (self.new.failed ≡ false) }
        ensures err { OnErr result (self.new.failed ≡ true) }
        ensures refused { self.old.failed ≡ false → IfErr result IsStore }
        ensures same { IsCleanBook (book S.Store self.new) → self.new.failed ≡ false
            → (book S.Store self.new).tables ≡ (book S.Store self.old).tables }
        ensures left { IsCleanBook (book S.Store self.new) → self.old.failed ≡ false
            → (salt : List ℕ) (t : Tables) → (book S.Store self.new).may_leave salt t
            → t ≡ (book S.Store self.old).tables }
        ensures found { IsCleanBook (book S.Store self.new) → IfOk result
            (λ n. n ≡ used card.now.bytes day (book S.Store self.old).tables.lines) }
    {
        if self.failed {
            return Err(BookFileError::Failed);
        }
        match used(&mut self.conn, card.bytes.as_slice(), day) {
            Ok(found) => Ok(found),
            Err(error) => {
                self.failed = true;
                Err(BookFileError::Store(error))
            }
        }
    }

    /// What all cards have used in a day. Refusals are as in `next`.
    pub fn used_in(&mut self, day: i64) -> Result<i64, BookFileError>
        ensures failed { IsTrue self.old.failed
            → (result ≡ Err BookFileError.Failed) × (self.new ≡ self.old) }
        ensures salt { self.new.salt ≡ self.old.salt }
        ensures clean { doubt (book S.Store self.old).is_clean
            ≤ doubt (book S.Store self.new).is_clean }
        ensures ok { OnOk result (self.new.failed ≡ false) }
        ensures err { OnErr result (self.new.failed ≡ true) }
        ensures refused { self.old.failed ≡ false → IfErr result IsStore }
        ensures same { IsCleanBook (book S.Store self.new) → self.new.failed ≡ false
            → (book S.Store self.new).tables ≡ (book S.Store self.old).tables }
        ensures left { IsCleanBook (book S.Store self.new) → self.old.failed ≡ false
            → (salt : List ℕ) (t : Tables) → (book S.Store self.new).may_leave salt t
            → t ≡ (book S.Store self.old).tables }
        ensures found { IsCleanBook (book S.Store self.new) → IfOk result
            (λ n. n ≡ used_in day (book S.Store self.old).tables.lines) }
    {
        if self.failed {
            return Err(BookFileError::Failed);
        }
        match used_in(&mut self.conn, day) {
            Ok(found) => Ok(found),
            Err(error) => {
                self.failed = true;
                Err(BookFileError::Store(error))
            }
        }
    }

    /// The first of the days from this one on that items have. Refusals are as in `next`.
    pub fn first_day(&mut self, from: i64) -> Result<Option<i64>, BookFileError>
        ensures failed { IsTrue self.old.failed
            → (result ≡ Err BookFileError.Failed) × (self.new ≡ self.old) }
        ensures salt { self.new.salt ≡ self.old.salt }
        ensures clean { doubt (book S.Store self.old).is_clean
            ≤ doubt (book S.Store self.new).is_clean }
        ensures ok { OnOk result (self.new.failed ≡ false) }
        ensures err { OnErr result (self.new.failed ≡ true) }
        ensures refused { self.old.failed ≡ false → IfErr result IsStore }
        ensures same { IsCleanBook (book S.Store self.new) → self.new.failed ≡ false
            → (book S.Store self.new).tables ≡ (book S.Store self.old).tables }
        ensures left { IsCleanBook (book S.Store self.new) → self.old.failed ≡ false
            → (salt : List ℕ) (t : Tables) → (book S.Store self.new).may_leave salt t
            → t ≡ (book S.Store self.old).tables }
        ensures found { IsCleanBook (book S.Store self.new) → IfOk result
            (λ day. day ≡ first_day from (book S.Store self.old).tables.lines) }
    {
        if self.failed {
            return Err(BookFileError::Failed);
        }
        match first_day(&mut self.conn, from) {
            Ok(found) => Ok(found),
            Err(error) => {
                self.failed = true;
                Err(BookFileError::Store(error))
            }
        }
    }
}

//! The book.

ghost use Rattle.std.specs.Prelude.{◌≡◌, ◌++◌, max, false, None, IfErr, IfOk, OnErr, OnOk};
ghost use Rattle.sha2.specs.Sha256.{sha256};
ghost use Rattle.book_store.specs.Kept.{IsCleanBook, book};
ghost use Rattle.day_book.specs.declared.item.State.TheVariants.{Open};
ghost use Rattle.day_book.specs.Items.{is_open, is_open_in, is_used_in, item_at, newest, with_items};
ghost use Rattle.day_book.specs.Changes.{forgotten, is_first_past, released, reversed, settled, with_item};
ghost use Rattle.day_book.specs.Taking.{IsRefusal, refusal, restoring_refusal};
ghost use Rattle.lasting_book.specs.Files.{IsKeptOrFailed, Lasts};
ghost use Rattle.lasting_book.specs.Tied.{AreKept, Tied, in_reach, lines_in};

use crate::error::LastingError;
use crate::file::{forget, mark, put};
use crate::opening::read_items;
use book_store::BookFile;
use day_book::{DayBook, DayBookError, DayItem, RequestDay, State};
use sqlite::Alter;
use std::alloc::Global;
use std::marker::Model;

/// The items of several days in memory, and those that are settled in a file too.
pub struct LastingBook<S: Alter> {
    days: DayBook,
    file: BookFile<S>,
    reach: u32,
    // The file has an item that memory did not take.
    failed: bool,
}

impl<S: Alter> Model for LastingBook<S> {
    ghost use Rattle.book_store.specs.Kept.{book};
    ghost use Rattle.lasting_book.specs.Tied.{Lasting, Tied, lasting_code};

    ghost Value = { Lasting S };

    ghost coded = { lasting_code S.code };

    ghost view = { λ b. record { days = b.days; file = b.file; reach = b.reach; failed = b.failed } };

    ghost invariant = { λ b. Tied b.failed (book S.Store b.file) b.reach b.days.items };
}

// Written out, so that no caller proves again how its parts are dropped.
impl<S: Alter + Drop> Drop for LastingBook<S> {
    fn drop(self) {
        let LastingBook {
            days: _,
            file: _,
            reach: _,
            failed: _,
        } = self;
    }
}

impl<S: Alter> LastingBook<S> {
    /// The book of these items and this file, which agree.
    pub fn new(days: DayBook, file: BookFile<S>, reach: u32) -> LastingBook<S>
        requires tied { Tied false (book S.Store file) reach days.items }
        ensures { result ≡ record { days = days; file = file; reach = reach; failed = false } }
    {
        LastingBook {
            days,
            file,
            reach,
            failed: false,
        }
    }

    /// Opens a book over its file: takes the file's items into memory, those of days from `reach` on, all
    /// at once. They are not asked whether they are within the limit. A row that is no item is named, as is
    /// one that is out of order. A refused `open` hands the file back.
    pub fn open(
        alloc: Global,
        limit: u64,
        file: BookFile<S>,
        reach: u32,
    ) -> Result<LastingBook<S>, (LastingError, BookFile<S>)>
        ensures limit { IfOk result (λ b. b.days.limit ≡ limit) }
        ensures reach { IfOk result (λ b. b.reach ≡ reach) }
        ensures failed { IfOk result (λ b. b.failed ≡ false) }
        ensures file { IfOk result (λ b. IsKeptOrFailed S.Store file b.file) }
        ensures items { IfOk result (λ b. IsCleanBook (book S.Store b.file)
            → in_reach reach (book S.Store file).tables.lines ≡ lines_in reach b.days.items) }
        ensures kept { IfOk result (λ b. AreKept reach b.days.items) }
        ensures left { IfErr result (λ e. IsKeptOrFailed S.Store file e.1) }
    {
        let mut days = match DayBook::new(alloc, limit) {
            Ok(days) => days,
            Err(error) => return Err((LastingError::Refused(error), file)),
        };
        let mut file = file;
        match read_items(&mut file, &mut days, reach) {
            Ok(()) => Ok(LastingBook::new(days, file, reach)),
            Err(error) => Err((error, file)),
        }
    }

    /// Hands back the file, which has what it had. What is held is lost.
    pub fn into_file(self) -> BookFile<S>
        ensures { result ≡ self.file }
    {
        let LastingBook {
            days: _,
            file,
            reach: _,
            failed: _,
        } = self;
        file
    }

    /// The first day in reach. Memory and file agree.
    pub fn reach(&self) -> u32
        ensures value { result ≡ self.now.reach }
        ensures tied { Tied self.now.failed (book S.Store self.now.file) self.now.reach
            self.now.days.items }
    {
        self.reach
    }

    /// The salted hash by which memory and file know a card or a request.
    pub fn hash(&self, bytes: &[u8]) -> [u8; 32]
        ensures { result ≡ sha256 (self.now.file.salt ++ bytes.now) }
    {
        self.file.hash(bytes).bytes
    }

    /// The item under an id.
    pub fn item(&self, id: u64) -> Option<DayItem>
        ensures { result ≡ item_at id self.now.days.items }
    {
        self.days.item(id)
    }

    /// Of the items of a request on a day, the id of the one with the greatest id.
    pub fn newest(&self, request: &RequestDay) -> Option<u64>
        ensures { result ≡ newest request.now self.now.days.items }
    {
        self.days.newest(request)
    }

    /// Holds an amount, in memory alone: `DayBook::reserve`.
    pub fn reserve(&mut self, id: u64, item: DayItem) -> Result<(), DayBookError>
        requires open { item.state ≡ Open }
        ensures held { OnOk result (self.new.days
            ≡ with_items self.old.days (with_item id item self.old.days.items)) }
        ensures taken { OnOk result (refusal self.old.days id item ≡ None) }
        ensures refused { IfErr result (λ e. IsRefusal e (refusal self.old.days id item)) }
        ensures kept { OnErr result (self.new.days ≡ self.old.days) }
        ensures file { self.new.file ≡ self.old.file }
        ensures reach { self.new.reach ≡ self.old.reach }
        ensures failed { self.new.failed ≡ self.old.failed }
    {
        self.days.reserve(id, item)
    }

    /// Frees what is held under an id, in memory alone: `DayBook::release`.
    pub fn release(&mut self, id: u64) -> bool
        ensures changed { result ≡ is_open_in id self.old.days.items }
        ensures released { self.new.days
            ≡ with_items self.old.days (released id self.old.days.items) }
        ensures file { self.new.file ≡ self.old.file }
        ensures reach { self.new.reach ≡ self.old.reach }
        ensures failed { self.new.failed ≡ self.old.failed }
    {
        self.days.release(id)
    }

    /// Spends what is held under an id: the item is put into the file, if its day is in reach, and then
    /// it is used in memory. Returns whether anything was held. On a refusal memory is as it was.
    pub fn settle(&mut self, id: u64) -> Result<bool, LastingError>
        ensures changed { IfOk result (λ b. b ≡ is_open_in id self.old.days.items) }
        ensures settled { OnOk result (self.new.days
            ≡ with_items self.old.days (settled id self.old.days.items)) }
        ensures lasts { OnOk result (Lasts S.Store self.old.file self.new.file) }
        ensures days_kept { OnErr result (self.new.days ≡ self.old.days) }
        ensures file_kept { OnErr result (IsKeptOrFailed S.Store self.old.file self.new.file) }
        ensures salt { self.new.file.salt ≡ self.old.file.salt }
        ensures reach { self.new.reach ≡ self.old.reach }
        ensures failed { self.new.failed ≡ self.old.failed }
    {
        let Some(item) = self.days.item(id) else {
            return Ok(false);
        };
        let State::Open = item.state else {
            return Ok(false);
        };
        let _rising = self.days.len();
        if item.day < self.reach {
            return Ok(self.days.settle(id));
        }
        let used = DayItem {
            state: State::Used,
            ..item
        };
        match put(&mut self.file, id, &used) {
            Ok(()) => Ok(self.days.settle(id)),
            Err(error) => Err(error),
        }
    }

    /// Gives back what was spent under an id: the item is marked in the file and in memory. Returns
    /// whether anything was spent. On a refusal memory is as it was.
    pub fn reverse(&mut self, id: u64) -> Result<bool, LastingError>
        ensures changed { IfOk result (λ b. b ≡ is_used_in id self.old.days.items) }
        ensures reversed { OnOk result (self.new.days
            ≡ with_items self.old.days (reversed id self.old.days.items)) }
        ensures lasts { OnOk result (Lasts S.Store self.old.file self.new.file) }
        ensures days_kept { OnErr result (self.new.days ≡ self.old.days) }
        ensures file_kept { OnErr result (IsKeptOrFailed S.Store self.old.file self.new.file) }
        ensures salt { self.new.file.salt ≡ self.old.file.salt }
        ensures reach { self.new.reach ≡ self.old.reach }
        ensures failed { self.new.failed ≡ self.old.failed }
    {
        let Some(item) = self.days.item(id) else {
            return Ok(false);
        };
        let State::Used = item.state else {
            return Ok(false);
        };
        let _rising = self.days.len();
        match mark(&mut self.file, id) {
            Ok(()) => Ok(self.days.reverse(id)),
            Err(error) => Err(error),
        }
    }

    /// Takes in an item that is not open and that the book does not have, of a recovered transaction: it
    /// is put into the file, if its day is in reach, and then into memory. If memory does not take it,
    /// the book has failed. On a refusal memory is as it was.
    pub fn restore(&mut self, id: u64, item: DayItem) -> Result<(), LastingError>
        requires closed { is_open item.state ≡ false }
        ensures put { OnOk result (self.new.days
            ≡ with_items self.old.days (with_item id item self.old.days.items)) }
        ensures taken { OnOk result (restoring_refusal self.old.days id item ≡ None) }
        ensures lasts { OnOk result (Lasts S.Store self.old.file self.new.file) }
        ensures days_kept { OnErr result (self.new.days ≡ self.old.days) }
        ensures salt { self.new.file.salt ≡ self.old.file.salt }
        ensures reach { self.new.reach ≡ self.old.reach }
        ensures failed { OnOk result (self.new.failed ≡ self.old.failed) }
    {
        let _rising = self.days.len();
        if item.day < self.reach {
            return match self.days.restore(id, item) {
                Ok(()) => Ok(()),
                Err(error) => Err(LastingError::Refused(error)),
            };
        }
        match put(&mut self.file, id, &item) {
            Ok(()) => {}
            Err(error) => return Err(error),
        }
        match self.days.restore(id, item) {
            Ok(()) => Ok(()),
            Err(error) => {
                self.failed = true;
                Err(LastingError::Refused(error))
            }
        }
    }

    /// Puts the days before this one out of reach.
    pub fn advance(&mut self, day: u32)
        ensures { self.new ≡ record self.old { reach = max self.old.reach day } }
    {
        self.reach = self.reach.max(day);
    }

    /// Forgets in memory the item with the least id, if its day is out of reach and it is not open.
    pub fn forget(&mut self) -> bool
        ensures changed { result ≡ is_first_past self.old.reach self.old.days.items }
        ensures forgotten { self.new.days
            ≡ with_items self.old.days (forgotten self.old.reach self.old.days.items) }
        ensures file { self.new.file ≡ self.old.file }
        ensures reach { self.new.reach ≡ self.old.reach }
        ensures failed { self.new.failed ≡ self.old.failed }
    {
        self.days.forget(self.reach)
    }

    /// Forgets in the file at most so many items, in one transaction: the first ones, by id, of its oldest
    /// day, if this is out of reach. On a refusal the file has failed.
    pub fn forget_in_file(&mut self, most: i64) -> Result<(), LastingError>
        ensures days { self.new.days ≡ self.old.days }
        ensures lasts { OnOk result (Lasts S.Store self.old.file self.new.file) }
        ensures file_kept { OnErr result (IsKeptOrFailed S.Store self.old.file self.new.file) }
        ensures salt { self.new.file.salt ≡ self.old.file.salt }
        ensures reach { self.new.reach ≡ self.old.reach }
        ensures failed { self.new.failed ≡ self.old.failed }
    {
        forget(&mut self.file, self.reach, most)
    }
}

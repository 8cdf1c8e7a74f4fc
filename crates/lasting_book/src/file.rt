//! Calls of the file.

ghost use Rattle.std.specs.Prelude.{◌≡◌, OnErr, OnOk, false, pos};
ghost use Rattle.std.specs.List.{list_any};
ghost use Rattle.book_store.specs.Changes.{forgotten};
ghost use Rattle.book_store.specs.Items.{line_for};
ghost use Rattle.book_store.specs.Kept.{IsCleanBook, book};
ghost use Rattle.book_store.specs.Lines.{has_id, marked, with_line};
ghost use Rattle.day_book.specs.Items.{is_open};
ghost use Rattle.lasting_book.specs.Files.{IsChanged, IsKeptOrFailed};
ghost use Rattle.lasting_book.specs.Tied.{line_at};

use crate::error::LastingError;
use book_store::{BookFile, Hashed, Item};
use day_book::{DayItem, MAX_AMOUNT, State};
use sqlite::Alter;

/// The greatest id that the file takes: 2^63 - 1.
const MAX_ID: u64 = 9_223_372_036_854_775_807;

// An item as the file takes it.
fn item_for(id: u64, item: &DayItem) -> Item
    requires closed { is_open item.now.state ≡ false }
    ensures { line_for result ≡ line_at (id, item.now) }
{
    Item {
        id,
        card: Hashed { bytes: item.card },
        request: Hashed {
            bytes: item.request,
        },
        amount: item.amount,
        day: item.day,
        reversed: matches!(item.state, State::Reversed),
    }
}

/// Puts an item that is not open under an id that the file does not have.
pub fn put<S: Alter>(file: &mut BookFile<S>, id: u64, item: &DayItem) -> Result<(), LastingError>
    requires closed { is_open item.now.state ≡ false }
    ensures put { OnOk result
        (IsChanged S.Store (with_line (line_at (id, item.now))) file.old file.new) }
    ensures free { IsCleanBook (book S.Store file.new) → OnOk result
        (list_any (has_id (pos id)) (book S.Store file.old).tables.lines ≡ false) }
    ensures kept { OnErr result (IsKeptOrFailed S.Store file.old file.new) }
{
    if id > MAX_ID || item.amount > MAX_AMOUNT {
        return Err(LastingError::TooLarge);
    }
    match file.has(id as i64) {
        Ok(false) => {}
        Ok(true) => return Err(LastingError::Taken(id)),
        Err(error) => return Err(LastingError::File(error)),
    }
    match file.put(&item_for(id, item)) {
        Ok(()) => Ok(()),
        Err(error) => Err(LastingError::File(error)),
    }
}

/// Marks the item under an id as reversed.
pub fn mark<S: Alter>(file: &mut BookFile<S>, id: u64) -> Result<(), LastingError>
    ensures marked { OnOk result (IsChanged S.Store (marked (pos id)) file.old file.new) }
    ensures kept { OnErr result (IsKeptOrFailed S.Store file.old file.new) }
{
    if id > MAX_ID {
        return Err(LastingError::TooLarge);
    }
    match file.mark(id as i64) {
        Ok(()) => Ok(()),
        Err(error) => Err(LastingError::File(error)),
    }
}

/// Forgets at most so many items: the first ones, by id, of the oldest day, if this is before the given
/// one.
pub fn forget<S: Alter>(file: &mut BookFile<S>, before: u32, most: i64) -> Result<(), LastingError>
    ensures forgotten { OnOk result
        (IsChanged S.Store (forgotten (pos before) most) file.old file.new) }
    ensures kept { OnErr result (IsKeptOrFailed S.Store file.old file.new) }
{
    match file.forget(i64::from(before), most) {
        Ok(()) => Ok(()),
        Err(error) => Err(LastingError::File(error)),
    }
}

//! The items that a file has when it is opened.

ghost use Rattle.std.specs.Prelude.{◌≡◌, ◌++◌, ◌∷◌, [], List, OnOk, IfOk, map};
ghost use Rattle.book_store.specs.Kept.{IsCleanBook, book};
ghost use Rattle.book_store.specs.Lines as file_lines;
ghost use Rattle.book_store.specs.Queries.{shown_line};
ghost use Rattle.lasting_book.specs.Files.{IsKeptOrFailed};
ghost use Rattle.lasting_book.specs.Tied.{AreBelow, AreKept, day_item, in_reach, lines_in};

use crate::error::LastingError;
use book_store::{BookFile, Item, item_in};
use day_book::{DayBook, DayItem, State};
use sqlite::{Alter, Row};

// An item of the file as memory takes it.
fn day_item(item: &Item) -> DayItem
    ensures { result ≡ day_item item.now }
{
    DayItem {
        card: item.card.bytes,
        request: item.request.bytes,
        amount: item.amount,
        day: item.day,
        state: if item.reversed {
            State::Reversed
        } else {
            State::Used
        },
    }
}

// Takes in the item that a row shows, whose id is not below this one, and answers what the next id is not
// below.
fn take_row(days: &mut DayBook, row: &Row, reach: u32, next: u64) -> Result<u64, LastingError>
    requires below { AreBelow next days.old.items }
    ensures limit { days.new.limit ≡ days.old.limit }
    ensures below { IfOk result (λ n. AreBelow n days.new.items) }
    ensures kept { AreKept reach days.old.items → OnOk result (AreKept reach days.new.items) }
    ensures taken { OnOk result ((l : file_lines.Line) → row.now ≡ shown_line l
        → lines_in reach days.new.items ≡ lines_in reach days.old.items ++ l ∷ []) }
{
    let item = match item_in(row) {
        Ok(item) => item,
        Err(error) => return Err(LastingError::File(error)),
    };
    if item.id < next || item.id >= u64::MAX || item.day < reach {
        return Err(LastingError::Disorder(item.id));
    }
    match days.restore(item.id, day_item(&item)) {
        Ok(()) => Ok(item.id + 1),
        Err(error) => Err(LastingError::Refused(error)),
    }
}

// Takes in the items that rows show, ids rising.
fn take_rows(days: &mut DayBook, rows: &[Row], reach: u32) -> Result<(), LastingError>
    requires none { days.old.items ≡ [] }
    ensures limit { days.new.limit ≡ days.old.limit }
    ensures taken { OnOk result ((ls : List file_lines.Line) → rows.now ≡ map shown_line ls
        → lines_in reach days.new.items ≡ ls) }
    ensures kept { OnOk result (AreKept reach days.new.items) }
{
    let mut next = 0;
    for row in rows {
        next = take_row(days, row, reach, next)?;
    }
    Ok(())
}

/// Takes the items of a file that are in reach into a book without items.
pub fn read_items<S: Alter>(
    file: &mut BookFile<S>,
    days: &mut DayBook,
    reach: u32,
) -> Result<(), LastingError>
    requires none { days.old.items ≡ [] }
    ensures limit { days.new.limit ≡ days.old.limit }
    ensures read { IsCleanBook (book S.Store file.new) → OnOk result
        (in_reach reach (book S.Store file.old).tables.lines ≡ lines_in reach days.new.items) }
    ensures items { OnOk result (AreKept reach days.new.items) }
    ensures kept { IsKeptOrFailed S.Store file.old file.new }
{
    let rows = match file.next(-1, i64::from(reach), -1) {
        Ok(rows) => rows,
        Err(error) => return Err(LastingError::File(error)),
    };
    take_rows(days, rows.as_slice(), reach)
}

//! A limits book that lasts: a book of days in memory, and its file.
//!
//! A [`LastingBook`] has the items of `day_book` in memory, and those that are not open in a file of
//! `book_store` too. What is held for open transactions is in memory alone. A day is *in reach* if it
//! still counts for the limit or for repeats: from `reach` on. What is out of reach is no longer put into
//! the file, and is forgotten in both, each at its own pace.
//!
//! - `LastingBook::open` takes the file's items that are in reach into memory, and `into_file` hands the
//!   file back.
//! - `LastingBook::reserve` and `LastingBook::release` are those of `DayBook`, in memory alone.
//! - `LastingBook::settle` puts the item into the file, in one transaction, and then uses it in memory.
//!   `LastingBook::reverse` marks the item in the file, and then in memory.
//! - `LastingBook::restore` takes in an item of a recovered transaction that the book does not have.
//! - `LastingBook::advance` puts days out of reach. `LastingBook::forget` forgets one item in memory, and
//!   `LastingBook::forget_in_file` some in the file. A few calls for each reservation keep both small.
//!
//! # What is proved
//!
//! Of any store of `sqlite`, if the disk returns what was written. **Memory and file agree** (`Tied`, the
//! invariant of the type): as long as the book and its file have not failed, the file's items that are in
//! reach are those of memory that are not open, one for one, each with id, card, request, amount, day and
//! whether it was reversed. Each call keeps that, whatever it answers. An `open` starts with these items
//! alone (`items`, `kept`), so none is open. Once `settle`, `reverse` or
//! `restore` has answered, a stop leaves what the file then has (`lasts`). What memory does is what
//! `day_book` says of its items. On a refusal memory is as it was (`days_kept`), and the file has failed or is
//! as it was (`file_kept`).
//!
//! A call that is made again finds the id and changes nothing: `settle` and `reverse` ask memory, which has
//! all that the file has in reach.
//!
//! # Decisions
//!
//! - **An id is looked up in the file before it is put**: an item of a day out of reach, or of another
//!   journal, may have it, and `BookFile::put` then changes nothing. Without the look an approved amount
//!   could be missing from the file. It costs a SELECT by id beside the write.
//! - **An item of a day out of reach is not put**: it would be forgotten at once.
//! - **`restore` puts into the file first.** If memory then does not take the item, the book has failed
//!   (`failed`), and memory and file need not agree until it is opened again. The file's item is then read.
//! - **`open` reads all items in reach at once**, and compares their ids one with the next: no contract of
//!   the file says that its rows rise. Alternative: page by page, for which the file's contract has to say
//!   so.
#![tactic(auto)]

mod book;
mod error;
mod file;
mod opening;

pub use book::LastingBook;
pub use error::LastingError;

//! Why a call of a lasting book was not made.

use book_store::BookFileError;
use day_book::DayBookError;
use thiserror::Error;

/// A refusal. The items are as they were.
#[derive(Clone, Copy, Debug, Error)]
pub enum LastingError {
    /// The file has an item under the id already, of another transaction.
    #[error("the file has an item under the id {0} already: it belongs to another journal")]
    Taken(u64),
    /// An id or an amount is too large for the file.
    #[error("the id or the amount is too large: expected an id below 2^63, an amount of at most 999999999999")]
    TooLarge,
    /// The file shows an item out of order: its id is not above that of the one before, or its day is not in
    /// reach.
    #[error("the file's item under the id {0} is out of order")]
    Disorder(u64),
    /// Memory does not take the item.
    #[error("{0}")]
    Refused(DayBookError),
    /// The file refused; it has failed, or had failed before.
    #[error("{0}")]
    File(BookFileError),
}

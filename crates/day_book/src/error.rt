//! Why an item was not taken.

use thiserror::Error;

/// A refusal; nothing has changed.
#[derive(Clone, Copy, Debug, PartialEq, Eq, Drop, Error)]
pub enum DayBookError {
    /// Memory was refused. Everything else about the call was right.
    #[error("out of memory")]
    OutOfMemory = 0,
    /// What the card has used on the day, what is held for it and this amount would together be
    /// over the limit.
    #[error("the card has no room under its limit for this amount")]
    OverLimit = 1,
    /// The amount has more than the twelve digits of field 4.
    #[error("the amount is too large: expected at most 999999999999")]
    AmountTooLarge = 2,
    /// The book has the id or the request already.
    #[error("the book has this id or this request already")]
    Duplicate = 3,
    /// The limit of a new book is too large.
    #[error("the limit is too large: expected at most 999999999999999")]
    BadLimit = 4,
    /// The sum of the card's amounts on the day would be too large.
    #[error("the sum of the card's amounts on a day is too large: expected at most 9223372036854775807")]
    SumTooLarge = 5,
}

use sqlite::Error as Cause;
use thiserror::Error;

/// Why a book's file refused a call.
#[derive(Clone, Copy, PartialEq, Eq, Debug, Error)]
pub enum BookFileError {
    /// The store refused; from then on the file is failed.
    #[error("cannot read or write the book: {0}")]
    Store(Cause),
    /// The store refused at an earlier call. Nothing was done.
    #[error("the book failed at an earlier call")]
    Failed,
    /// The database has other tables, or those of another layout.
    #[error("not a book: expected an empty database, or one with the tables of a book alone")]
    NotABook,
    /// The salt is not as it is to be.
    #[error("table salt: bad row; expected one row, under number 1, with 32 bytes")]
    BadSalt,
    /// A row of `item` is at fault; the file goes on.
    #[error("table item, id {0}: bad row; expected an id and an amount from 0, 32 bytes for the card and \
for the request, a day from 0 to 4294967295, and 0 or 1 for reversed")]
    BadRow(i64),
}

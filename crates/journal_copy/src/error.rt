//! Why there is no copy of a journal, or nothing in it to show.

ghost use Rattle.std.specs.Prelude.{◌≡◌};
ghost use Rattle.journal_copy.specs.Errors.{error_of_journal};
ghost use Rattle.journal_copy.specs.declared.error.CopyError.TheVariants.{Io};
ghost use Rattle.journal_copy.specs.declared.error.LookError.TheVariants as look;

use crate::rest::Rest;
use cli_io::IoError;
use journal_rows::BadRow;
use journal_store::{Cause, JournalError};
use std::alloc::AllocError;
use std::{fmt, io};
use thiserror::Error;

/// Why there is no copy of a journal's files. The text does not name them.
#[derive(Drop, Error)]
pub enum CopyError {
    /// There is no such file, or it may not be opened.
    #[error("cannot open: {0}")]
    Open(io::Error),
    /// It could not be read to its end, or no memory was left.
    #[error("{0}")]
    Io(IoError),
    /// Its log was begun anew while it was read, at every try.
    #[error("changed while it was read; try again")]
    Changed,
}

// By hand: a person is shown the same text, and a derived `fmt` is slow to prove.
impl fmt::Debug for CopyError {
    fn fmt<W: fmt::Write>(&self, f: &mut fmt::Formatter<W>) -> fmt::Result {
        fmt::Display::fmt(self, f)
    }
}

impl From<IoError> for CopyError {
    ghost from_gives = { λ e f. f ≡ Io e };

    fn from(error: IoError) -> CopyError {
        CopyError::Io(error)
    }
}

/// Why a copy holds no journal to show. The text does not name the file.
#[derive(Drop, Error)]
pub enum LookError {
    /// It is not a journal's file.
    #[error("not a journal of cardswitch")]
    NotAJournal,
    /// It begins as a database does, or has a log, but cannot be opened.
    #[error("cannot open: {0}")]
    Database(sqlite::Error),
    /// A row of its tables is at fault.
    #[error("{bad}")]
    BadRow {
        /// The first one.
        bad: BadRow,
        /// The journal without its rows at fault, if there is one.
        rest: Option<Rest>,
    },
    /// No memory was left.
    #[error("out of memory")]
    OutOfMemory,
}

// By hand, as above.
impl fmt::Debug for LookError {
    fn fmt<W: fmt::Write>(&self, f: &mut fmt::Formatter<W>) -> fmt::Result {
        fmt::Display::fmt(self, f)
    }
}

impl From<JournalError> for LookError {
    ghost from_gives = { λ e f. f ≡ error_of_journal e };

    fn from(error: JournalError) -> LookError {
        match error {
            JournalError::BadRow(bad) => LookError::BadRow { bad, rest: None },
            JournalError::OutOfMemory | JournalError::Store(Cause::Memory) => {
                LookError::OutOfMemory
            }
            JournalError::Failed | JournalError::Store(Cause::Refused) => LookError::NotAJournal,
        }
    }
}

impl From<AllocError> for LookError {
    ghost from_gives = { λ _ f. f ≡ look.OutOfMemory };

    fn from(_error: AllocError) -> LookError {
        LookError::OutOfMemory
    }
}

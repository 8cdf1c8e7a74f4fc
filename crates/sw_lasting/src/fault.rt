//! Why the file of a book refused a call.

use book_store::BookFileError;
use day_book::DayBookError;
use lasting_book::LastingError;
use sqlite::{Error, ErrorCode};
use std::sync::Mutex;

/// More tries than it takes to get a lock that is held for a few steps.
const MAX_TRIES: u64 = u64::MAX;

/// The first refusal of a book, for a program that is to name it: a participant's only refusal is
/// `NoMemory`. No contract says what was noted.
pub struct BookFault {
    first: Mutex<Option<LastingError>>,
}

// Written out, so that no caller proves again how its parts are dropped.
impl Drop for BookFault {
    fn drop(self) {
        let BookFault { first: _ } = self;
    }
}

// Whether a refusal is for lack of memory.
fn is_of_memory(error: LastingError) -> bool {
    match error {
        LastingError::Refused(DayBookError::OutOfMemory) => true,
        LastingError::File(BookFileError::Store(Error::SqliteFailure(ErrorCode::OutOfMemory))) => {
            true
        }
        _ => false,
    }
}

impl BookFault {
    /// Nothing is noted.
    pub fn new() -> BookFault {
        BookFault {
            first: Mutex::new(None),
        }
    }

    /// Notes a refusal, if none is noted. One for lack of memory is passed over.
    pub fn note(&self, error: LastingError) {
        if is_of_memory(error) {
            return;
        }
        for _ in 0..MAX_TRIES {
            if let Some(mut first) = self.first.try_lock() {
                if first.is_none() {
                    *first = Some(error);
                }
                return;
            }
        }
    }

    /// The first refusal that was noted.
    pub fn noted(&self) -> Option<LastingError> {
        for _ in 0..MAX_TRIES {
            if let Some(first) = self.first.try_lock() {
                return *first;
            }
        }
        None
    }
}

//! Why the program ends early.

use cli_io::IoError;
use cli_script::ScriptError;
use cli_step::StepError;
use journal_store::JournalError;
use std::alloc::{AllocError, AllocFailed};
use std::{fmt, io};
use thiserror::Error;
use tx_plant::PlantError;

/// Why the program ends early. Disks that are cut are not an error.
#[derive(Drop, Error)]
pub enum TestError {
    #[error("expected: stopped power|kill [twice], stopped refusal, again, opened PATH, or turned power|kill|refusal")]
    Words,
    #[error("the journal's file was not opened")]
    File,
    #[error("a statement of the input was refused")]
    Sql,
    #[error("{0}")]
    Script(#[from] ScriptError),
    #[error("{0}")]
    Step(#[from] StepError),
    #[error("{0}")]
    Plant(#[from] PlantError),
    #[error("{0}")]
    Journal(#[from] JournalError),
    #[error("the script has no line after its settings")]
    NoLine,
    #[error("a line of the script is not a turn")]
    NoTurn,
    #[error("the journal was not opened again")]
    Lost,
    #[error("a run was still cut after so many calls")]
    Endless,
    #[error("{0}")]
    Io(#[from] IoError),
    #[error("out of memory")]
    OutOfMemory(#[from] AllocError),
}

// By hand: a person is shown the same text, and a derived `fmt` of so many variants is slow to prove.
impl fmt::Debug for TestError {
    fn fmt<W: fmt::Write>(&self, f: &mut fmt::Formatter<W>) -> fmt::Result {
        fmt::Display::fmt(self, f)
    }
}

impl From<io::Error> for TestError {
    fn from(error: io::Error) -> TestError {
        TestError::Io(IoError::from_write(error))
    }
}

impl<T: Drop> From<AllocFailed<T>> for TestError {
    fn from(_error: AllocFailed<T>) -> TestError {
        TestError::OutOfMemory(AllocError)
    }
}

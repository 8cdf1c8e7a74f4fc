//! Why a reading or a writing ended early.
ghost use Rattle.std.specs.Prelude.{◌≡◌};
ghost use Rattle.cli_io.specs.Errors.{IsReadErrorOf, IsWriteErrorOf};
ghost use Rattle.cli_io.specs.declared.error.IoError.TheVariants.{OutOfMemory};

use std::alloc::{AllocError, AllocFailed};
use std::fmt;
use std::io::{self, ErrorKind};
use thiserror::Error;

/// Why a reading ended before its input did, or a writing before all was written and flushed. What was read
/// before stays valid, and a beginning of what was to be written was written: none of it, some, or all.
#[derive(Debug, Drop, Error)]
pub enum IoError {
    /// A read of the input failed.
    #[error("cannot read: {0}")]
    Read(io::Error),
    /// The input did not end within the reads that it is given.
    #[error("cannot read: it did not end within 1048576 reads")]
    TooManyReads,
    /// A write or a flush of the output failed.
    #[error("cannot write: {0}")]
    Write(io::Error),
    /// No memory was left.
    #[error("out of memory")]
    OutOfMemory,
}

impl IoError {
    /// The error of a read.
    pub fn from_read(error: io::Error) -> IoError
        ensures { IsReadErrorOf error result }
    {
        match error.kind() {
            ErrorKind::OutOfMemory => IoError::OutOfMemory,
            _ => IoError::Read(error),
        }
    }

    /// The error of a write or a flush.
    pub fn from_write(error: io::Error) -> IoError
        ensures { IsWriteErrorOf error result }
    {
        match error.kind() {
            ErrorKind::OutOfMemory => IoError::OutOfMemory,
            _ => IoError::Write(error),
        }
    }
}

impl From<AllocError> for IoError {
    ghost from_gives = { λ _ e. e ≡ OutOfMemory };

    fn from(_error: AllocError) -> IoError {
        IoError::OutOfMemory
    }
}

impl<T: Drop> From<AllocFailed<T>> for IoError {
    ghost from_gives = { λ _ e. e ≡ OutOfMemory };

    fn from(_error: AllocFailed<T>) -> IoError {
        IoError::OutOfMemory
    }
}

/// An error of the standard input or the standard output, whose text says which of the two.
#[derive(Clone, Copy)]
pub struct StreamErrorText<'a>(pub &'a IoError);

impl fmt::Display for StreamErrorText<'_> {
    fn fmt<W: fmt::Write>(&self, f: &mut fmt::Formatter<W>) -> fmt::Result {
        let error = self.0;
        match error {
            IoError::Read(_) | IoError::TooManyReads => write!(f, "standard input: {error}"),
            IoError::Write(_) => write!(f, "standard output: {error}"),
            IoError::OutOfMemory => write!(f, "{error}"),
        }
    }
}

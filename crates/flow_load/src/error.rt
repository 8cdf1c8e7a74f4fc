//! Why an image is refused.

use flow_model::FlowError;
use std::alloc::{AllocError, AllocFailed};
use std::fmt;
use thiserror::Error;

/// The first fault of an image, its kinds in the order of their numbers, from 0. Lines are numbered
/// from 1, groups from 0.
#[derive(Clone, Copy, PartialEq, Eq, Error)]
pub enum LoadError {
    /// An allocation failed. No line by itself has a fault, nor has the version (`BadHeader`, `BadLine`,
    /// `BadNumber`), since those faults are reported without memory; the lines together and the flow may
    /// have one, since theirs are found only in lines that are kept.
    #[error("out of memory")]
    OutOfMemory,
    /// The first line is missing, not of its form, of a version other than 1 and 2, or counts more
    /// than an image may have; or it says version 2 although no participant recovers.
    #[error("line 1: bad header: expected `image 1` or `image 2`, retries up to 100, and the numbers of \
         participants up to 16384, of groups up to 256 and of steps up to 33024; version 2 where a \
         participant recovers")]
    BadHeader,
    /// The line is missing, has no line feed or is not of its form; or it comes after the last
    /// one; or it marks a participant as recovering in version 1.
    #[error("line {0}: bad line: expected the participants, the groups and the steps that line 1 counts, \
         each line ended by a line feed, numbers up to 100000, and `recover` only in version 2")]
    BadLine(usize),
    /// The line's own number is not its index among the lines of its kind, from 0.
    #[error("line {0}: bad number: expected the participants, the groups and the steps to be numbered \
         from 0 without a gap")]
    BadNumber(usize),
    /// What the line says does not fit the lines before it: a doubled or unused participant, a
    /// group that does not start after the one before it, a call of a participant that does not exist or
    /// not the next new one, a selector's call without its pick, a pick elsewhere, or a step after
    /// the last group.
    #[error("line {0}: bad target: expected distinct participants in the order of their first calls, \
         groups one after the other, and a pick right after each call of a selector")]
    BadTarget(usize),
    /// The steps end before the group's return.
    #[error("group {0}: no return: expected a line `N return` at its end")]
    NoReturn(usize),
    /// The image is that of a flow which its check refuses.
    #[error("{0}")]
    Flow(FlowError),
}

// By hand: a person is shown the same text, and a derived `fmt` of so many variants is slow to prove.
impl fmt::Debug for LoadError {
    fn fmt<W: fmt::Write>(&self, f: &mut fmt::Formatter<W>) -> fmt::Result {
        fmt::Display::fmt(self, f)
    }
}

impl From<AllocError> for LoadError {
    ghost use Rattle.std.specs.Prelude.{◌≡◌};
    ghost use Rattle.flow_load.specs.declared.error.LoadError.TheVariants.{OutOfMemory};

    ghost from_gives = { λ _ e. e ≡ OutOfMemory };

    fn from(_e: AllocError) -> LoadError {
        LoadError::OutOfMemory
    }
}

impl<T: Drop> From<AllocFailed<T>> for LoadError {
    ghost use Rattle.std.specs.Prelude.{◌≡◌};
    ghost use Rattle.flow_load.specs.declared.error.LoadError.TheVariants.{OutOfMemory};

    ghost from_gives = { λ _ e. e ≡ OutOfMemory };

    fn from(_e: AllocFailed<T>) -> LoadError {
        LoadError::OutOfMemory
    }
}

//! Why the program ends early.

use cli_flows::FlowsError;
use std::alloc::{AllocError, AllocFailed};
use std::{fmt, io};
use thiserror::Error;
use tx_plant::PlantError;
use tx_pool::{Early, Fault};

/// Why the program ends early.
#[derive(Drop, Error)]
pub enum TestError {
    #[error("expected: FLOW SESSIONS OFFERS CAPACITY SEED, or again FLOW SESSIONS OFFERS SEED")]
    Words,
    #[error("{0}")]
    Flow(#[from] FlowsError),
    #[error("the journal was not opened")]
    Journal,
    #[error("{0}")]
    Plant(#[from] PlantError),
    #[error("the run did not begin: {0}")]
    Early(Early),
    #[error("the run was given up: {0:?}")]
    Late(Fault),
    #[error("contexts are still on the shelf after so many runs")]
    Endless,
    #[error("writing the output: {0}")]
    Write(#[from] io::Error),
    #[error("out of memory")]
    OutOfMemory(#[from] AllocError),
}

// By hand: a person is shown the same text, and a derived `fmt` of so many variants is slow to prove.
impl fmt::Debug for TestError {
    fn fmt<W: fmt::Write>(&self, f: &mut fmt::Formatter<W>) -> fmt::Result {
        fmt::Display::fmt(self, f)
    }
}

impl<T: Drop> From<AllocFailed<T>> for TestError {
    fn from(_error: AllocFailed<T>) -> TestError {
        TestError::OutOfMemory(AllocError)
    }
}

//! Why a flow file is refused.

use crate::keys::{Key, TablePath, keys_of};
use flow_model::FlowError;
use std::alloc::{AllocError, AllocFailed};
use std::fmt;
use sw_participant::Text;
use thiserror::Error;

/// The first fault of a flow file, its kinds in the order of their numbers, from 0.
#[derive(Drop, Error)]
pub enum FlowTomlError {
    /// An allocation failed, which says nothing about the file.
    #[error("out of memory")]
    OutOfMemory,
    /// The text is not TOML; the reason has its line and column, both from 1.
    #[error("{0}")]
    Toml(toml::de::Error),
    /// The table lacks the key.
    #[error("{}: key {} is missing: expected {}", .1, .0, .0.wants())]
    Missing(Key, TablePath),
    /// The key has a value of the wrong kind; of several such keys, the least is reported.
    #[error("{}: key {} has a value of the wrong kind: expected {}", .1, .0, .0.wants())]
    WrongKind(Key, TablePath),
    /// The table has an unknown key; of several such keys, the least by its bytes is reported.
    #[error("{}: unknown key: expected one of {}", .1, keys_for(*.1))]
    Unknown(Text, TablePath),
    /// The file states a flow that the check of flows refuses.
    #[error("{0}")]
    Flow(FlowError),
}

// By hand: a person is shown the same text, and a derived `fmt` is slow to prove.
impl fmt::Debug for FlowTomlError {
    fn fmt<W: fmt::Write>(&self, f: &mut fmt::Formatter<W>) -> fmt::Result {
        fmt::Display::fmt(self, f)
    }
}

/// The keys of a table, for a message.
#[derive(Drop)]
struct Known {
    path: TablePath,
}

fn keys_for(path: TablePath) -> Known {
    Known { path }
}

impl fmt::Display for Known {
    fn fmt<W: fmt::Write>(&self, f: &mut fmt::Formatter<W>) -> fmt::Result {
        let mut gap = "";
        for key in keys_of(self.path) {
            write!(f, "{gap}{key}")?;
            gap = ", ";
        }
        Ok(())
    }
}

impl From<AllocError> for FlowTomlError {
    ghost use Rattle.std.specs.Prelude.{◌≡◌};
    ghost use Rattle.flow_toml.specs.declared.error.FlowTomlError.TheVariants.{OutOfMemory};

    ghost from_gives = { λ _ e. e ≡ OutOfMemory };

    fn from(_e: AllocError) -> FlowTomlError {
        FlowTomlError::OutOfMemory
    }
}

impl<T: Drop> From<AllocFailed<T>> for FlowTomlError {
    ghost use Rattle.std.specs.Prelude.{◌≡◌};
    ghost use Rattle.flow_toml.specs.declared.error.FlowTomlError.TheVariants.{OutOfMemory};

    ghost from_gives = { λ _ e. e ≡ OutOfMemory };

    fn from(_e: AllocFailed<T>) -> FlowTomlError {
        FlowTomlError::OutOfMemory
    }
}

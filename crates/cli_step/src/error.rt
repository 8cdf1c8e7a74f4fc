//! Why the run of a script ends early.

ghost use Rattle.std.specs.Prelude.{◌≡◌};
ghost use Rattle.cli_step.specs.Errors.{at_line, error_of_script};
ghost use Rattle.cli_step.specs.declared.error.ActionError.TheVariants as act;
ghost use Rattle.cli_io.specs.declared.error.IoError.TheVariants.{OutOfMemory};
ghost use Rattle.cli_step.specs.declared.error.StepError.TheVariants.{Io};

use cli_io::{IoError, StreamErrorText};
use cli_script::ScriptError;
use journal_store::JournalError;
use std::alloc::{AllocError, AllocFailed};
use sw_participant::{NoMemory, Text};
use thiserror::Error;
use tx_plant::PlantError;

/// Why the run of a script ends early, and at which line. What the lines before it printed remains.
#[derive(Debug, Drop, Error)]
pub enum StepError {
    /// A line of the script or its flow is refused.
    #[error("{0}")]
    Script(ScriptError),
    /// No plant can be made of what the settings state. The line is the first that is not a setting.
    #[error("line {line}: {cause}")]
    Plant { line: usize, cause: PlantError },
    /// The switch has no participant of this name.
    #[error("the flow has participant {}, which the switch does not have; expected check, limits, route, reverse, \
        query_NAME, standin, forward or respond", .0.as_str())]
    NoParticipant(Text),
    /// The journal refused.
    #[error("line {line}: the journal refused: {cause}")]
    Journal { line: usize, cause: JournalError },
    /// The next line could not be read, the output could not be written, or no memory was left.
    #[error("{}", StreamErrorText(.0))]
    Io(IoError),
}

/// Why a line was not run.
#[derive(Drop)]
pub enum ActionError {
    Plant(PlantError),
    OutOfMemory,
}

impl ActionError {
    /// The error of the line of this number.
    pub fn at_line(self, line: usize) -> StepError
        ensures { result ≡ at_line line self }
    {
        match self {
            ActionError::OutOfMemory => StepError::Io(IoError::OutOfMemory),
            ActionError::Plant(PlantError::OutOfMemory) => StepError::Io(IoError::OutOfMemory),
            ActionError::Plant(PlantError::Journal(cause)) => StepError::Journal { line, cause },
            ActionError::Plant(cause) => StepError::Plant { line, cause },
        }
    }
}

impl From<PlantError> for ActionError {
    ghost from_gives = { λ e a. a ≡ act.Plant e };

    fn from(error: PlantError) -> ActionError {
        ActionError::Plant(error)
    }
}

impl From<AllocError> for ActionError {
    ghost from_gives = { λ _ a. a ≡ act.OutOfMemory };

    fn from(_error: AllocError) -> ActionError {
        ActionError::OutOfMemory
    }
}

impl From<NoMemory> for ActionError {
    ghost from_gives = { λ _ a. a ≡ act.OutOfMemory };

    fn from(_error: NoMemory) -> ActionError {
        ActionError::OutOfMemory
    }
}

impl From<AllocError> for StepError {
    ghost from_gives = { λ _ s. s ≡ Io OutOfMemory };

    fn from(_error: AllocError) -> StepError {
        StepError::Io(IoError::OutOfMemory)
    }
}

impl<T: Drop> From<AllocFailed<T>> for StepError {
    ghost from_gives = { λ _ s. s ≡ Io OutOfMemory };

    fn from(_error: AllocFailed<T>) -> StepError {
        StepError::Io(IoError::OutOfMemory)
    }
}

impl From<ScriptError> for StepError {
    ghost from_gives = { λ e s. s ≡ error_of_script e };

    fn from(error: ScriptError) -> StepError {
        match error {
            ScriptError::OutOfMemory => StepError::Io(IoError::OutOfMemory),
            other => StepError::Script(other),
        }
    }
}

impl From<IoError> for StepError {
    ghost from_gives = { λ e s. s ≡ Io e };

    fn from(error: IoError) -> StepError {
        StepError::Io(error)
    }
}

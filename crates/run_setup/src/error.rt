//! Why nothing is set up.

ghost use Rattle.std.specs.Prelude.{◌≡◌};
ghost use Rattle.run_setup.specs.Errors.{error_of_config};
ghost use Rattle.run_setup.specs.declared.error.ConfigFileError.TheVariants.{Io, NotText};
ghost use Rattle.run_setup.specs.declared.error.SetupError.TheVariants.{OutOfMemory};

use cli_config::ConfigError;
use cli_io::IoError;
use cli_recode::ProfileLoadError;
use std::alloc::{AllocError, AllocFailed};
use std::str::Utf8Error;
use std::{fmt, io};
use sw_participant::Text;
use thiserror::Error;

/// Why a configuration file is not taken. The text gives the position in the file, what is expected there and what was
/// found, and not the file.
#[derive(Drop, Error)]
pub enum ConfigFileError {
    /// There is no such file, or it may not be opened.
    #[error("cannot open: {0}")]
    Open(io::Error),
    /// It could not be read to its end, or no memory was left.
    #[error("{0}")]
    Io(IoError),
    /// It is not text.
    #[error("{0}; expected a configuration file in UTF-8")]
    NotText(Utf8Error),
    /// The text is not a configuration file; with the key that is refused.
    #[error("{0}")]
    Config(ConfigError),
}

// By hand: a person is shown the same text, and a derived `fmt` is slow to prove.
impl fmt::Debug for ConfigFileError {
    fn fmt<W: fmt::Write>(&self, f: &mut fmt::Formatter<W>) -> fmt::Result {
        fmt::Display::fmt(self, f)
    }
}

impl From<IoError> for ConfigFileError {
    ghost from_gives = { λ e f. f ≡ Io e };

    fn from(error: IoError) -> ConfigFileError {
        ConfigFileError::Io(error)
    }
}

impl From<ConfigError> for ConfigFileError {
    ghost from_gives = { λ e f. f ≡ error_of_config e };

    fn from(error: ConfigError) -> ConfigFileError {
        match error {
            ConfigError::OutOfMemory => ConfigFileError::Io(IoError::OutOfMemory),
            other => ConfigFileError::Config(other),
        }
    }
}

impl From<Utf8Error> for ConfigFileError {
    ghost from_gives = { λ e f. f ≡ NotText e };

    fn from(error: Utf8Error) -> ConfigFileError {
        ConfigFileError::NotText(error)
    }
}

/// Why a run is not set up.
#[derive(Drop, Error)]
pub enum SetupError {
    /// Out of memory, or a thread could not be started.
    #[error("out of memory")]
    OutOfMemory,
    /// What a card may spend is above the greatest limit.
    #[error("--limit: {0} is not 0 to 999999999999999")]
    BadLimit(u64),
    /// The profile file at the path is not taken.
    #[error("{}: {cause}", .path.as_str())]
    Profile { path: Text, cause: ProfileLoadError },
}

// By hand: a person is shown the same text, and a derived `fmt` is slow to prove.
impl fmt::Debug for SetupError {
    fn fmt<W: fmt::Write>(&self, f: &mut fmt::Formatter<W>) -> fmt::Result {
        fmt::Display::fmt(self, f)
    }
}

impl From<AllocError> for SetupError {
    ghost from_gives = { λ _ f. f ≡ OutOfMemory };

    fn from(_error: AllocError) -> SetupError {
        SetupError::OutOfMemory
    }
}

impl<T: Drop> From<AllocFailed<T>> for SetupError {
    ghost from_gives = { λ _ f. f ≡ OutOfMemory };

    fn from(_error: AllocFailed<T>) -> SetupError {
        SetupError::OutOfMemory
    }
}

//! Why a message is left out, and why a profile file is not taken.

ghost use Rattle.std.specs.Prelude.{◌≡◌};
ghost use Rattle.cli_recode.specs.Conversion.{error_of_decode, error_of_frame};
ghost use Rattle.cli_recode.specs.Conversion.{error_of_profile, error_of_write};
ghost use Rattle.cli_io.specs.declared.error.IoError.TheVariants as io_error;
ghost use Rattle.cli_recode.specs.declared.error.InputError.TheVariants as input;
ghost use Rattle.cli_recode.specs.declared.error.ProfileLoadError.TheVariants as load;
ghost use Rattle.cli_recode.specs.declared.error.RecodeError.TheVariants as recode;

use cli_io::IoError;
use dialect_frame::FrameError;
use dialect_toml::ProfileFileError;
use iso_codec::DecodeError;
use iso_dialect::WriteError;
use std::alloc::AllocError;
use std::str::Utf8Error;
use std::{fmt, io};
use sw_participant::Text;
use thiserror::Error;

/// Why a message is not recoded.
#[derive(Drop, Error)]
pub enum RecodeError {
    /// It has fewer bytes than its header, which has this many.
    #[error("fewer bytes than those of its header; expected at least {0}")]
    NoHeader(u8),
    /// In the profile its bytes are no message.
    #[error("{0}")]
    Unread(DecodeError),
    /// It is no message of the switch, or has a field that the profile cannot write.
    #[error("{0}")]
    Unwritten(WriteError),
    /// Its frame cannot count it.
    #[error("{0}")]
    Unframed(FrameError),
    /// No memory was left.
    #[error("out of memory")]
    OutOfMemory,
}

// A person is shown the same text.
impl fmt::Debug for RecodeError {
    fn fmt<W: fmt::Write>(&self, f: &mut fmt::Formatter<W>) -> fmt::Result {
        fmt::Display::fmt(self, f)
    }
}

impl From<AllocError> for RecodeError {
    ghost from_gives = { λ _ e. e ≡ recode.OutOfMemory };

    fn from(_error: AllocError) -> RecodeError {
        RecodeError::OutOfMemory
    }
}

impl From<DecodeError> for RecodeError {
    ghost from_gives = { λ e f. f ≡ error_of_decode e };

    fn from(error: DecodeError) -> RecodeError {
        match error {
            DecodeError::OutOfMemory => RecodeError::OutOfMemory,
            other => RecodeError::Unread(other),
        }
    }
}

impl From<WriteError> for RecodeError {
    ghost from_gives = { λ e f. f ≡ error_of_write e };

    fn from(error: WriteError) -> RecodeError {
        match error {
            WriteError::OutOfMemory => RecodeError::OutOfMemory,
            other => RecodeError::Unwritten(other),
        }
    }
}

impl From<FrameError> for RecodeError {
    ghost from_gives = { λ e f. f ≡ error_of_frame e };

    fn from(error: FrameError) -> RecodeError {
        match error {
            FrameError::OutOfMemory => RecodeError::OutOfMemory,
            other => RecodeError::Unframed(other),
        }
    }
}

/// Why a profile file is not taken. The text does not name the file.
#[derive(Drop, Error)]
pub enum ProfileLoadError {
    /// There is no such file, or it may not be opened.
    #[error("cannot open: {0}")]
    Open(io::Error),
    /// It could not be read to its end, or no memory was left.
    #[error("{0}")]
    Io(IoError),
    /// It is not text.
    #[error("{0}; expected a profile file in UTF-8")]
    NotText(Utf8Error),
    /// The text is not a profile file.
    #[error("{0}")]
    Profile(ProfileFileError),
}

// A person is shown the same text.
impl fmt::Debug for ProfileLoadError {
    fn fmt<W: fmt::Write>(&self, f: &mut fmt::Formatter<W>) -> fmt::Result {
        fmt::Display::fmt(self, f)
    }
}

impl From<IoError> for ProfileLoadError {
    ghost from_gives = { λ e f. f ≡ load.Io e };

    fn from(error: IoError) -> ProfileLoadError {
        ProfileLoadError::Io(error)
    }
}

impl From<Utf8Error> for ProfileLoadError {
    ghost from_gives = { λ e f. f ≡ load.NotText e };

    fn from(error: Utf8Error) -> ProfileLoadError {
        ProfileLoadError::NotText(error)
    }
}

impl From<ProfileFileError> for ProfileLoadError {
    ghost from_gives = { λ e f. f ≡ error_of_profile e };

    fn from(error: ProfileFileError) -> ProfileLoadError {
        match error {
            ProfileFileError::OutOfMemory => ProfileLoadError::Io(IoError::OutOfMemory),
            other => ProfileLoadError::Profile(other),
        }
    }
}

/// What is refused where an input is not all recoded.
#[derive(Error)]
pub enum InputRefusal {
    /// The profile file at the path is not taken, and nothing is written.
    #[error("{}: {cause}", .path.as_str())]
    Profile { path: Text, cause: ProfileLoadError },
    /// A message or a frame of the input, as was reported. What can be recoded is written.
    #[error("standard input: a message or a frame is refused (see the lines before); expected frames of \
        messages that can be recoded")]
    Messages,
}

// Written out, so that no caller proves again how its parts are dropped.
impl Drop for InputRefusal {
    fn drop(self) {
        match self {
            InputRefusal::Profile { path: _, cause: _ } => {}
            InputRefusal::Messages => {}
        }
    }
}

// A person is shown the same text.
impl fmt::Debug for InputRefusal {
    fn fmt<W: fmt::Write>(&self, f: &mut fmt::Formatter<W>) -> fmt::Result {
        fmt::Display::fmt(self, f)
    }
}

/// Why an input is not all recoded.
#[derive(Drop, Error)]
pub enum InputError {
    /// The input could not be read to its end, the output could not be written, or no memory was left.
    #[error("{0}")]
    Io(IoError),
    /// The profile file or something of the input is refused.
    #[error("{0}")]
    Refused(InputRefusal),
}

// A person is shown the same text.
impl fmt::Debug for InputError {
    fn fmt<W: fmt::Write>(&self, f: &mut fmt::Formatter<W>) -> fmt::Result {
        fmt::Display::fmt(self, f)
    }
}

impl From<IoError> for InputError {
    ghost from_gives = { λ e f. f ≡ input.Io e };

    fn from(error: IoError) -> InputError {
        InputError::Io(error)
    }
}

impl From<AllocError> for InputError {
    ghost from_gives = { λ _ f. f ≡ input.Io io_error.OutOfMemory };

    fn from(_error: AllocError) -> InputError {
        InputError::Io(IoError::OutOfMemory)
    }
}

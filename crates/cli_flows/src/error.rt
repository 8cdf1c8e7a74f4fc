//! Why a flow file or an image is refused.

ghost use Rattle.std.specs.Prelude.{◌≡◌};
ghost use Rattle.cli_flows.specs.Errors.{IsErrorOfFile, IsErrorOfImage};
ghost use Rattle.cli_flows.specs.declared.error.FlowsError.TheVariants.{Io, NotText};

use crate::found::{found, line_at, refused_in};
use cli_io::{IoError, Quoted};
use flow_load::LoadError;
use flow_toml::FlowTomlError;
use std::alloc::Global;
use std::str::Utf8Error;
use std::{fmt, io};
use thiserror::Error;

/// Why a flow file or an image is refused. The text gives the position in the file, what is expected
/// there and what was found, but not the file.
#[derive(Drop, Error)]
pub enum FlowsError {
    /// There is no such file, or it may not be opened.
    #[error("cannot open: {0}")]
    Open(io::Error),
    /// It could not be read to its end, the output could not be written, or no memory was left.
    #[error("{0}")]
    Io(IoError),
    /// A flow file is not text.
    #[error("{0}; expected a flow file in UTF-8")]
    NotText(Utf8Error),
    /// A text is not a flow file, or its flow is refused; with the key or the value that is refused.
    #[error("{}{}", .0, found(.1))]
    File(FlowTomlError, Option<Quoted>),
    /// Bytes are not an image; with the line that is refused.
    #[error("{}{}", .0, found(.1))]
    Image(LoadError, Option<Quoted>),
}

// By hand: a person is shown the same text, and a derived `fmt` is slow to prove.
impl fmt::Debug for FlowsError {
    fn fmt<W: fmt::Write>(&self, f: &mut fmt::Formatter<W>) -> fmt::Result {
        fmt::Display::fmt(self, f)
    }
}

impl FlowsError {
    /// The error of a text that is refused as a flow file.
    pub fn of_file(alloc: Global, error: FlowTomlError, text: &str) -> FlowsError
        ensures { IsErrorOfFile error result }
    {
        if let FlowTomlError::OutOfMemory = error {
            return FlowsError::Io(IoError::OutOfMemory);
        }
        let found = refused_in(alloc, &error, text);
        FlowsError::File(error, found)
    }

    /// The error of bytes that are refused as an image.
    pub fn of_image(error: LoadError, bytes: &[u8]) -> FlowsError
        ensures { IsErrorOfImage error result }
    {
        match error {
            LoadError::OutOfMemory => FlowsError::Io(IoError::OutOfMemory),
            other => FlowsError::Image(other, line_at(bytes, other)),
        }
    }
}

impl From<IoError> for FlowsError {
    ghost from_gives = { λ e f. f ≡ Io e };

    fn from(error: IoError) -> FlowsError {
        FlowsError::Io(error)
    }
}

impl From<Utf8Error> for FlowsError {
    ghost from_gives = { λ e f. f ≡ NotText e };

    fn from(error: Utf8Error) -> FlowsError {
        FlowsError::NotText(error)
    }
}

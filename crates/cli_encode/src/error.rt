//! Why a text is not encoded to its end.

ghost use Rattle.std.specs.Prelude.{◌≡◌};
ghost use Rattle.cli_encode.specs.declared.error.EncodeError.TheVariants.{Io, Text};

use cli_io::{IoError, Quoted, StreamErrorText};
use iso_msg::{ExpectedValue, FieldForm, FieldLabel, form_at};
use std::fmt;
use thiserror::Error;

/// What is awaited after a heading.
#[derive(Clone, Copy)]
pub enum Awaited {
    /// A header in this many digits.
    Header(usize),
    /// The message's type.
    MessageType,
}

impl fmt::Display for Awaited {
    fn fmt<W: fmt::Write>(&self, f: &mut fmt::Formatter<W>) -> fmt::Result {
        match self {
            Awaited::Header(digits) => write!(
                f,
                "\"header\" and {digits} hexadecimal digits in upper case"
            ),
            Awaited::MessageType => f.write_str("\"mti\" and 4 digits"),
        }
    }
}

/// What is wrong with a line, and what was expected.
#[derive(Drop)]
pub enum Fault {
    /// The text ends where this is awaited.
    Ended(Awaited),
    /// The last line has no line feed.
    NoLineFeed,
    /// The line ends with a carriage return.
    CarriageReturn,
    /// Not the heading of the message of this number.
    Heading {
        found: Quoted,
        expected: u64,
    },
    /// Not what is awaited after a heading.
    Opening {
        found: Quoted,
        expected: Awaited,
    },
    /// A header, where messages have none.
    NoHeader {
        found: Quoted,
    },
    /// Neither a field nor the heading of the message of this number.
    Unknown {
        found: Quoted,
        next: u64,
    },
    /// The value of this field is masked.
    Masked(u8),
    /// The profile has no field of this number.
    UnknownField(u8),
    /// The field before it has the same number.
    Repeated(u8),
    /// The field comes after one with a higher number.
    Order {
        number: u8,
        last: u8,
    },
    /// The field does not take this value, which has `length` bytes.
    Value {
        number: u8,
        found: Quoted,
        length: usize,
    },
}

// What is expected on a line as the value of this field.
#[derive(Clone, Copy)]
struct ExpectedText(u8);

impl fmt::Display for ExpectedText {
    fn fmt<W: fmt::Write>(&self, f: &mut fmt::Formatter<W>) -> fmt::Result {
        match form_at(self.0) {
            Some(FieldForm::Binary) => f.write_str("16 hexadecimal digits in upper case"),
            _ => write!(f, "{}", ExpectedValue(self.0)),
        }
    }
}

fn fmt_value<W: fmt::Write>(
    f: &mut fmt::Formatter<W>,
    number: u8,
    found: &Quoted,
    length: usize,
) -> fmt::Result {
    let (label, expected) = (FieldLabel(number), ExpectedText(number));
    write!(
        f,
        "{label}: found {found}, {length} bytes; expected {expected}"
    )
}

impl fmt::Display for Fault {
    fn fmt<W: fmt::Write>(&self, f: &mut fmt::Formatter<W>) -> fmt::Result {
        match self {
            Fault::Ended(expected) => write!(f, "the text ends; expected {expected}"),
            Fault::NoLineFeed => {
                f.write_str("the last line has no line feed; expected one at its end")
            }
            Fault::CarriageReturn => {
                f.write_str("found a carriage return; expected a line feed alone")
            }
            Fault::Heading { found, expected } => {
                write!(f, "found {found}; expected \"message {expected}\"")
            }
            Fault::Opening { found, expected } => write!(f, "found {found}; expected {expected}"),
            Fault::NoHeader { found } => write!(
                f,
                "found {found}; expected {}, since without --header no message has a header",
                Awaited::MessageType
            ),
            Fault::Unknown { found, next } => write!(
                f,
                "found {found}; expected a field's number and value, or \"message {next}\""
            ),
            Fault::Masked(number) => write!(
                f,
                "{}: the value is masked; expected the text of decode without --mask",
                FieldLabel(*number)
            ),
            Fault::UnknownField(number) => write!(
                f,
                "field {number}: unknown field; expected one of the switch's fields"
            ),
            Fault::Repeated(number) => write!(
                f,
                "{}: given twice; expected each field once",
                FieldLabel(*number)
            ),
            Fault::Order { number, last } => write!(
                f,
                "{}: found after field {last}; expected rising numbers",
                FieldLabel(*number)
            ),
            Fault::Value {
                number,
                found,
                length,
            } => fmt_value(f, *number, found, *length),
        }
    }
}

/// A line that is refused, counted from 1, and why.
#[derive(Drop, Error)]
#[error("line {line}: {fault}")]
pub struct TextError {
    pub line: usize,
    pub fault: Fault,
}

// A person is shown the same text.
impl fmt::Debug for TextError {
    fn fmt<W: fmt::Write>(&self, f: &mut fmt::Formatter<W>) -> fmt::Result {
        fmt::Display::fmt(self, f)
    }
}

/// Why a text is not encoded to its end.
#[derive(Drop, Error)]
pub enum EncodeError {
    /// A line is refused. The frames of the messages before it are written.
    #[error("{0}")]
    Text(TextError),
    /// The input could not be read to its end, and nothing is written; or the frames could not be written, or no
    /// memory was left.
    #[error("{}", StreamErrorText(.0))]
    Io(IoError),
}

// A person is shown the same text.
impl fmt::Debug for EncodeError {
    fn fmt<W: fmt::Write>(&self, f: &mut fmt::Formatter<W>) -> fmt::Result {
        fmt::Display::fmt(self, f)
    }
}

impl From<IoError> for EncodeError {
    ghost from_gives = { λ e f. f ≡ Io e };

    fn from(error: IoError) -> EncodeError {
        EncodeError::Io(error)
    }
}

impl From<TextError> for EncodeError {
    ghost from_gives = { λ e f. f ≡ Text e };

    fn from(error: TextError) -> EncodeError {
        EncodeError::Text(error)
    }
}

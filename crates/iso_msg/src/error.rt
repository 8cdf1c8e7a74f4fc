//! Why a message type was not made or a field was not set.

ghost use Rattle.std.specs.Prelude.{◌≡◌};
ghost use Rattle.iso_msg.specs.declared.error.MessageError.TheVariants.{OutOfMemory};

use crate::table::{definition_at, form_at};
use std::alloc::{AllocError, AllocFailed};
use std::fmt;
use thiserror::Error;

/// The numbers of the profile's fields, as a person reads them.
pub const FIELD_NUMBERS: &str =
    "2 to 7, 9 to 19, 22 to 26, 32, 33, 35, 37 to 39, 41 to 45, 48 to 55, 60 to 64, 70, 90, 95, \
100, 102, 103 or 128";

/// A refusal. That of a field has the field's number, and its text also gives the field's name and
/// what was expected. `Message::set` tests for its refusals in this order, with out of memory last.
/// Their numbers are 0 for out of memory, 1, 2 and 3 for those of a field and 4 for that of a message
/// type.
#[derive(Clone, Copy, Debug, PartialEq, Eq, Drop, Error)]
pub enum MessageError {
    /// The allocator has refused memory.
    #[error("out of memory")]
    OutOfMemory,
    /// The number is not a field of the profile.
    #[error("{}: unknown field; expected {}", FieldLabel(*.0), FIELD_NUMBERS)]
    FieldNotInProfile(u8),
    /// The value is shorter or longer than the field takes.
    #[error("{}: wrong length, expected {}", FieldLabel(*.0), ExpectedValue(*.0))]
    BadLength(u8),
    /// The value has a byte that the field does not take.
    #[error("{}: a byte that the field does not take, expected {}", FieldLabel(*.0), ExpectedValue(*.0))]
    BadContent(u8),
    /// A message type is four digits.
    #[error("message type: expected 4 digits")]
    BadMti,
}

impl From<AllocError> for MessageError {
    ghost from_gives = { λ _ e. e ≡ OutOfMemory };

    fn from(_e: AllocError) -> MessageError {
        MessageError::OutOfMemory
    }
}

impl<T: Drop> From<AllocFailed<T>> for MessageError {
    ghost from_gives = { λ _ e. e ≡ OutOfMemory };

    fn from(_e: AllocFailed<T>) -> MessageError {
        MessageError::OutOfMemory
    }
}

/// A field's number, shown with its name, as in "field 39 (response code)".
#[derive(Clone, Copy, PartialEq, Eq)]
pub struct FieldLabel(pub u8);

impl fmt::Display for FieldLabel {
    fn fmt<W: fmt::Write>(&self, f: &mut fmt::Formatter<W>) -> fmt::Result {
        let number = self.0;
        match definition_at(number) {
            Some(definition) => {
                let name = definition.name;
                write!(f, "field {number} ({name})")
            }
            None => write!(f, "field {number}"),
        }
    }
}

/// A field's number, shown as what its values may be, as in "at most 19 digits".
#[derive(Clone, Copy, PartialEq, Eq)]
pub struct ExpectedValue(pub u8);

impl fmt::Display for ExpectedValue {
    fn fmt<W: fmt::Write>(&self, f: &mut fmt::Formatter<W>) -> fmt::Result {
        match form_at(self.0) {
            Some(form) => write!(f, "{form}"),
            None => f.write_str("no value"),
        }
    }
}

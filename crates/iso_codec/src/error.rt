//! Why bytes are not a message.

ghost use Rattle.std.specs.Prelude.{◌≡◌};
ghost use Rattle.iso_codec.specs.GrowingMessage.{error_of};
ghost use Rattle.iso_codec.specs.declared.error.DecodeError.TheVariants.{OutOfMemory};

use iso_msg::{ExpectedValue, FIELD_NUMBERS, FieldLabel, MessageError};
use std::alloc::AllocError;
use thiserror::Error;

/// The first fault from the left, or out of memory. The fault of a field has the field's number, and
/// its text also gives the field's name and what was expected. The numbers of the faults are 0 for
/// out of memory, and then 1 to 7 in this order.
#[derive(Clone, Copy, Debug, PartialEq, Eq, Drop, Error)]
pub enum DecodeError {
    /// The allocator has refused memory. The bytes are those of a message.
    #[error("out of memory")]
    OutOfMemory,
    /// A part is longer than what is left of the bytes.
    #[error("the message is too short; expected a type, a bitmap and every field that the bitmap lists")]
    Short,
    /// The first four bytes are not digits.
    #[error("message type: expected 4 digits")]
    BadMti,
    /// A bitmap has a character that is not a hexadecimal digit.
    #[error("bitmap: expected 16 hexadecimal digits")]
    BadBitmap,
    /// The lowest field number that is set in a bitmap and that the profile does not have.
    #[error("{}: unknown field; expected {}", FieldLabel(*.0), FIELD_NUMBERS)]
    FieldNotInProfile(u8),
    /// The length of a variable field is not written in digits, or is more than the field takes.
    #[error("{}: bad length, expected {}", FieldLabel(*.0), ExpectedValue(*.0))]
    BadLength(u8),
    /// The value has a byte that the field does not take.
    #[error("{}: a byte that the field does not take, expected {}", FieldLabel(*.0), ExpectedValue(*.0))]
    BadContent(u8),
    /// There are bytes after the last field.
    #[error("there are bytes after the last field; expected the end of the message")]
    Trailing,
}

impl From<AllocError> for DecodeError {
    ghost from_gives = { λ _ e. e ≡ OutOfMemory };

    fn from(_e: AllocError) -> DecodeError {
        DecodeError::OutOfMemory
    }
}

/// The fault of a value that a message does not take.
impl From<MessageError> for DecodeError {
    ghost from_gives = { λ e f. f ≡ error_of e };

    fn from(e: MessageError) -> DecodeError {
        match e {
            MessageError::FieldNotInProfile(number) => DecodeError::FieldNotInProfile(number),
            MessageError::BadLength(number) => DecodeError::BadLength(number),
            MessageError::BadContent(number) => DecodeError::BadContent(number),
            MessageError::BadMti => DecodeError::BadMti,
            MessageError::OutOfMemory => DecodeError::OutOfMemory,
        }
    }
}

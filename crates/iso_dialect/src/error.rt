//! Why a draft is not a profile, and why a message is not written.

use iso_codec::DecodeError;
use iso_msg::FieldLabel;
use thiserror::Error;

/// What is wrong with a draft. The type and the bitmaps come first, and then the rows by rising
/// numbers, each in the order of the variants.
#[derive(Clone, Copy, Debug, PartialEq, Eq, Drop, Error)]
pub enum ProfileError {
    /// The digits of the type cannot be octets, and a pad is at most 15.
    #[error("message type: expected ASCII, EBCDIC or packed digits with a pad of at most 15")]
    BadMtiCoding,
    /// The digits of a bitmap have halves above 9, which packed digits have not.
    #[error("bitmap: expected ASCII, EBCDIC or octets")]
    BadBitmapCoding,
    /// There is a row for a number that no field has.
    #[error("{}: expected a number from 2 to 64 or from 66 to 128", FieldLabel(*.0))]
    NoField(u8),
    /// The field is kept, and the switch has no such field.
    #[error("{}: the switch does not have it; expected a row that is not kept", FieldLabel(*.0))]
    NotInTable(u8),
    /// The field is kept, and has no length that the field has in the switch.
    #[error("{}: no value of this length fits the field", FieldLabel(*.0))]
    NeverFits(u8),
    /// A number has no digits, or more than four, or is written in octets.
    #[error("{}: expected a length of 1 to 4 digits, in ASCII, EBCDIC or packed", FieldLabel(*.0))]
    BadCount(u8),
    /// The greatest length has more digits than the number.
    #[error("{}: the greatest length has no room in the number before it", FieldLabel(*.0))]
    CountTooSmall(u8),
    /// A pad is not half a byte.
    #[error("{}: expected a pad from 0 to 15", FieldLabel(*.0))]
    BadPad(u8),
    /// The switch cannot do without the field, and it has no row that is kept.
    #[error("{}: the switch needs it; expected a row that is kept", FieldLabel(*.0))]
    NotKept(u8),
}

/// Why bytes of the ASCII profile are not written in another one. The variants stand in the order in
/// which they are reported.
#[derive(Clone, Copy, Debug, PartialEq, Eq, Drop, Error)]
pub enum WriteError {
    /// The bytes are no message in the ASCII profile: the first fault.
    #[error("{0}")]
    NotAMessage(DecodeError),
    /// The lowest field that has no bytes in the other profile: there is no row, or the row does not
    /// take a value of this length or with these characters.
    #[error("{}: the profile cannot write it; expected a row that takes the value", FieldLabel(*.0))]
    NotWritable(u8),
    /// The allocator has refused memory. The bytes are those of a message that can be written.
    #[error("out of memory")]
    OutOfMemory,
}

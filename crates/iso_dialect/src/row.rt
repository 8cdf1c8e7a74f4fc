//! How another system writes a field.

use crate::coding::Coding;

/// How a number of characters is written before them.
#[derive(Clone, Copy, PartialEq, Eq)]
pub enum Count {
    /// As this many decimal digits.
    Digits { coding: Coding, digits: u16 },
    /// As one byte.
    Byte,
    /// As two bytes, the high one first.
    TwoBytes,
}

/// How many characters a value has; of one in `Coding::Octets`, how many bytes.
#[derive(Clone, Copy, PartialEq, Eq)]
pub enum Size {
    /// This many.
    Exact(u16),
    /// As many as a number before it says, and at most this many.
    Counted { count: Count, most: u16 },
}

/// How a field is written. One that is not kept is passed over in reading, and left out in writing.
#[derive(Clone, Copy, PartialEq, Eq)]
pub struct Row {
    pub size: Size,
    pub coding: Coding,
    pub is_kept: bool,
}

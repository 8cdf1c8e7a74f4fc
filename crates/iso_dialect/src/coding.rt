//! How the characters of a text are written as bytes.

/// A page of EBCDIC, of which the printable characters of ASCII are used.
#[derive(Clone, Copy, PartialEq, Eq)]
pub enum Page {
    /// IBM 037.
    Cp037,
    /// IBM 1047.
    Cp1047,
}

/// How the characters of a text are written as bytes.
#[derive(Clone, Copy, PartialEq, Eq)]
pub enum Coding {
    /// Each as its ASCII code.
    Ascii,
    /// Each as its code in a page of EBCDIC.
    Ebcdic(Page),
    /// Two digits a byte, the first in the high half. The separator `=` of a track is 13. An odd
    /// number of digits has the pad, from 0 to 15, in the last half, or else in the first one.
    Packed { on_right: bool, pad: u8 },
    /// The text is the upper case hexadecimal digits of the bytes.
    Octets,
}

//! The words of a profile file: class names of jPOS, pages, sides, and lengths of frames.

ghost use Rattle.std.specs.Prelude.{◌≡◌, find};
ghost use Rattle.std.specs.Str.{bytes_eq};
ghost use Rattle.dialect_toml.specs.Words as spec;
ghost use Rattle.dialect_toml.specs.Shapes as shapes;

use iso_dialect::{Coding, Page};
use std::convert::AsStr;

/// How the length before a frame is written.
#[derive(Clone, Copy, PartialEq, Eq)]
pub enum FrameLength {
    /// As four decimal digits.
    Ascii4,
    /// As two bytes, the high one first.
    Binary2,
    /// As four bytes, the high one first.
    Binary4,
    /// As four packed digits.
    Packed2,
}

/// A class of the message type.
#[derive(Clone, Copy)]
pub(crate) enum MtiClass {
    IfaNumeric,
    IfbNumeric,
    IfeNumeric,
}

/// A class of the bitmaps.
#[derive(Clone, Copy)]
pub(crate) enum BitmapClass {
    IfaBitmap,
    IfbBitmap,
    IfeBitmap,
}

/// The name of a page of EBCDIC.
#[derive(Clone, Copy)]
pub(crate) enum PageName {
    Cp037,
    Cp1047,
}

/// On which side an odd number of packed digits is padded.
#[derive(Clone, Copy)]
pub(crate) enum Side {
    Left,
    Right,
}

/// A class of a field.
#[derive(Clone, Copy)]
pub enum FieldClass {
    IfChar,
    IfaNumeric,
    IfaLlNum,
    IfaLllNum,
    IfaLlChar,
    IfaLllChar,
    IfaBinary,
    IfaLlBinary,
    IfaLllBinary,
    IfaAmount,
    IfbNumeric,
    IfbLlNum,
    IfbLllNum,
    IfbLlChar,
    IfbLllChar,
    IfbLlhNum,
    IfbLlhChar,
    IfbLlhEchar,
    IfbLlhBinary,
    IfbLllhChar,
    IfbLllhEchar,
    IfbLllhBinary,
    IfbBinary,
    IfbLlBinary,
    IfbLllBinary,
    IfbAmount,
    IfeChar,
    IfeNumeric,
    IfeLlNum,
    IfeLllNum,
    IfeLlChar,
    IfeLllChar,
}

/// What stands before a value.
#[derive(Clone, Copy)]
pub(crate) enum Lead {
    Nothing,
    /// How many are counted, as this many digits in ASCII.
    Ascii(u16),
    /// The same, in EBCDIC.
    Ebcdic(u16),
    /// The same, packed, with a zero on the left of an odd number of digits.
    Packed(u16),
    Byte,
    TwoBytes,
}

/// How a value is written.
#[derive(Clone, Copy)]
pub(crate) enum Kind {
    Ascii,
    Ebcdic,
    Packed,
    /// Bytes as they are, and they are counted.
    Octets,
    /// Bytes as two hexadecimal digits each in ASCII, and the bytes are counted.
    Hex,
    /// A sign and digits, in ASCII.
    SignedAscii,
    /// A sign in ASCII, and packed digits.
    SignedPacked,
}

impl Kind {
    /// Whether an odd number of digits is padded.
    pub(crate) fn is_padded(self) -> bool
        ensures { result ≡ shapes.is_padded self }
    {
        matches!(self, Kind::Packed)
    }

    /// Whether it is of an amount with a sign.
    pub(crate) fn is_signed(self) -> bool
        ensures { result ≡ shapes.is_signed self }
    {
        matches!(self, Kind::SignedAscii | Kind::SignedPacked)
    }
}

/// The word that is spelled so.
pub(crate) fn word_in<W: AsStr + Copy>(words: &[W], text: &str) -> Option<W>
    ensures { result ≡ spec.word_in W.text words.now text.now }
{
    for word in words {
        if word.as_str() == text {
            return Some(*word);
        }
    }
    None
}

impl FrameLength {
    pub(crate) fn all() -> &'static [FrameLength]
        ensures { result.now ≡ spec.frame_lengths }
    {
        &[
            FrameLength::Ascii4,
            FrameLength::Binary2,
            FrameLength::Binary4,
            FrameLength::Packed2,
        ]
    }
}

impl MtiClass {
    pub(crate) fn all() -> &'static [MtiClass]
        ensures { result.now ≡ spec.mti_classes }
    {
        &[
            MtiClass::IfaNumeric,
            MtiClass::IfbNumeric,
            MtiClass::IfeNumeric,
        ]
    }

    /// How it writes the four digits.
    pub(crate) fn coding(self, page: Page) -> Coding
        ensures { result ≡ shapes.mti_coding self page }
    {
        match self {
            MtiClass::IfaNumeric => Coding::Ascii,
            MtiClass::IfbNumeric => Coding::Packed {
                on_right: false,
                pad: 0,
            },
            MtiClass::IfeNumeric => Coding::Ebcdic(page),
        }
    }
}

impl BitmapClass {
    pub(crate) fn all() -> &'static [BitmapClass]
        ensures { result.now ≡ spec.bitmap_classes }
    {
        &[
            BitmapClass::IfaBitmap,
            BitmapClass::IfbBitmap,
            BitmapClass::IfeBitmap,
        ]
    }

    /// How it writes a bitmap.
    pub(crate) fn coding(self, page: Page) -> Coding
        ensures { result ≡ shapes.bitmap_coding self page }
    {
        match self {
            BitmapClass::IfaBitmap => Coding::Ascii,
            BitmapClass::IfbBitmap => Coding::Octets,
            BitmapClass::IfeBitmap => Coding::Ebcdic(page),
        }
    }
}

impl PageName {
    pub(crate) fn all() -> &'static [PageName]
        ensures { result.now ≡ spec.page_names }
    {
        &[PageName::Cp037, PageName::Cp1047]
    }

    /// The page of the name.
    pub(crate) fn page(self) -> Page
        ensures { result ≡ shapes.page_by self }
    {
        match self {
            PageName::Cp037 => Page::Cp037,
            PageName::Cp1047 => Page::Cp1047,
        }
    }
}

impl Side {
    pub(crate) fn all() -> &'static [Side]
        ensures { result.now ≡ spec.sides }
    {
        &[Side::Left, Side::Right]
    }
}

impl FieldClass {
    /// All classes, as they are listed in a message.
    #[tactic(auto, unfolding(crate::specs::Words::field_classes))]
    pub(crate) fn all() -> &'static [FieldClass]
        ensures { result.now ≡ spec.field_classes }
    {
        &[
            FieldClass::IfChar,
            FieldClass::IfaNumeric,
            FieldClass::IfaLlNum,
            FieldClass::IfaLllNum,
            FieldClass::IfaLlChar,
            FieldClass::IfaLllChar,
            FieldClass::IfaBinary,
            FieldClass::IfaLlBinary,
            FieldClass::IfaLllBinary,
            FieldClass::IfaAmount,
            FieldClass::IfbNumeric,
            FieldClass::IfbLlNum,
            FieldClass::IfbLllNum,
            FieldClass::IfbLlChar,
            FieldClass::IfbLllChar,
            FieldClass::IfbLlhNum,
            FieldClass::IfbLlhChar,
            FieldClass::IfbLlhEchar,
            FieldClass::IfbLlhBinary,
            FieldClass::IfbLllhChar,
            FieldClass::IfbLllhEchar,
            FieldClass::IfbLllhBinary,
            FieldClass::IfbBinary,
            FieldClass::IfbLlBinary,
            FieldClass::IfbLllBinary,
            FieldClass::IfbAmount,
            FieldClass::IfeChar,
            FieldClass::IfeNumeric,
            FieldClass::IfeLlNum,
            FieldClass::IfeLllNum,
            FieldClass::IfeLlChar,
            FieldClass::IfeLllChar,
        ]
    }

    /// What stands before its values.
    pub(crate) fn lead(self) -> Lead
        ensures { result ≡ shapes.lead_of self }
    {
        match self {
            FieldClass::IfaLlNum | FieldClass::IfaLlChar | FieldClass::IfaLlBinary => {
                Lead::Ascii(2)
            }
            FieldClass::IfaLllNum | FieldClass::IfaLllChar | FieldClass::IfaLllBinary => {
                Lead::Ascii(3)
            }
            FieldClass::IfbLlNum | FieldClass::IfbLlChar | FieldClass::IfbLlBinary => {
                Lead::Packed(2)
            }
            FieldClass::IfbLllNum | FieldClass::IfbLllChar | FieldClass::IfbLllBinary => {
                Lead::Packed(3)
            }
            FieldClass::IfbLlhNum
            | FieldClass::IfbLlhChar
            | FieldClass::IfbLlhEchar
            | FieldClass::IfbLlhBinary => Lead::Byte,
            FieldClass::IfbLllhChar | FieldClass::IfbLllhEchar | FieldClass::IfbLllhBinary => {
                Lead::TwoBytes
            }
            FieldClass::IfeLlNum | FieldClass::IfeLlChar => Lead::Ebcdic(2),
            FieldClass::IfeLllNum | FieldClass::IfeLllChar => Lead::Ebcdic(3),
            _ => Lead::Nothing,
        }
    }

    /// How its values are written.
    pub(crate) fn kind(self) -> Kind
        ensures { result ≡ shapes.kind_of self }
    {
        match self {
            FieldClass::IfeChar
            | FieldClass::IfeNumeric
            | FieldClass::IfeLlNum
            | FieldClass::IfeLllNum
            | FieldClass::IfeLlChar
            | FieldClass::IfeLllChar
            | FieldClass::IfbLlhEchar
            | FieldClass::IfbLllhEchar => Kind::Ebcdic,
            FieldClass::IfbNumeric
            | FieldClass::IfbLlNum
            | FieldClass::IfbLllNum
            | FieldClass::IfbLlhNum => Kind::Packed,
            FieldClass::IfbBinary
            | FieldClass::IfaLlBinary
            | FieldClass::IfaLllBinary
            | FieldClass::IfbLlBinary
            | FieldClass::IfbLllBinary
            | FieldClass::IfbLlhBinary
            | FieldClass::IfbLllhBinary => Kind::Octets,
            FieldClass::IfaBinary => Kind::Hex,
            FieldClass::IfaAmount => Kind::SignedAscii,
            FieldClass::IfbAmount => Kind::SignedPacked,
            _ => Kind::Ascii,
        }
    }
}

impl AsStr for FrameLength {
    ghost use Rattle.dialect_toml.specs.Words.{frame_length};

    ghost text = { frame_length };

    fn as_str(&self) -> &str {
        match self {
            FrameLength::Ascii4 => "ascii4",
            FrameLength::Binary2 => "binary2",
            FrameLength::Binary4 => "binary4",
            FrameLength::Packed2 => "packed2",
        }
    }
}

impl AsStr for MtiClass {
    ghost use Rattle.dialect_toml.specs.Words.{mti_class};

    ghost text = { mti_class };

    fn as_str(&self) -> &str {
        match self {
            MtiClass::IfaNumeric => "IFA_NUMERIC",
            MtiClass::IfbNumeric => "IFB_NUMERIC",
            MtiClass::IfeNumeric => "IFE_NUMERIC",
        }
    }
}

impl AsStr for BitmapClass {
    ghost use Rattle.dialect_toml.specs.Words.{bitmap_class};

    ghost text = { bitmap_class };

    fn as_str(&self) -> &str {
        match self {
            BitmapClass::IfaBitmap => "IFA_BITMAP",
            BitmapClass::IfbBitmap => "IFB_BITMAP",
            BitmapClass::IfeBitmap => "IFE_BITMAP",
        }
    }
}

impl AsStr for PageName {
    ghost use Rattle.dialect_toml.specs.Words.{page_name};

    ghost text = { page_name };

    fn as_str(&self) -> &str {
        match self {
            PageName::Cp037 => "cp037",
            PageName::Cp1047 => "cp1047",
        }
    }
}

impl AsStr for Side {
    ghost use Rattle.dialect_toml.specs.Words.{side};

    ghost text = { side };

    fn as_str(&self) -> &str {
        match self {
            Side::Left => "left",
            Side::Right => "right",
        }
    }
}

impl AsStr for FieldClass {
    ghost use Rattle.dialect_toml.specs.Words.{field_class};

    ghost text = { field_class };

    fn as_str(&self) -> &str {
        match self {
            FieldClass::IfChar => "IF_CHAR",
            FieldClass::IfaNumeric => "IFA_NUMERIC",
            FieldClass::IfaLlNum => "IFA_LLNUM",
            FieldClass::IfaLllNum => "IFA_LLLNUM",
            FieldClass::IfaLlChar => "IFA_LLCHAR",
            FieldClass::IfaLllChar => "IFA_LLLCHAR",
            FieldClass::IfaBinary => "IFA_BINARY",
            FieldClass::IfaLlBinary => "IFA_LLBINARY",
            FieldClass::IfaLllBinary => "IFA_LLLBINARY",
            FieldClass::IfaAmount => "IFA_AMOUNT",
            FieldClass::IfbNumeric => "IFB_NUMERIC",
            FieldClass::IfbLlNum => "IFB_LLNUM",
            FieldClass::IfbLllNum => "IFB_LLLNUM",
            FieldClass::IfbLlChar => "IFB_LLCHAR",
            FieldClass::IfbLllChar => "IFB_LLLCHAR",
            FieldClass::IfbLlhNum => "IFB_LLHNUM",
            FieldClass::IfbLlhChar => "IFB_LLHCHAR",
            FieldClass::IfbLlhEchar => "IFB_LLHECHAR",
            FieldClass::IfbLlhBinary => "IFB_LLHBINARY",
            FieldClass::IfbLllhChar => "IFB_LLLHCHAR",
            FieldClass::IfbLllhEchar => "IFB_LLLHECHAR",
            FieldClass::IfbLllhBinary => "IFB_LLLHBINARY",
            FieldClass::IfbBinary => "IFB_BINARY",
            FieldClass::IfbLlBinary => "IFB_LLBINARY",
            FieldClass::IfbLllBinary => "IFB_LLLBINARY",
            FieldClass::IfbAmount => "IFB_AMOUNT",
            FieldClass::IfeChar => "IFE_CHAR",
            FieldClass::IfeNumeric => "IFE_NUMERIC",
            FieldClass::IfeLlNum => "IFE_LLNUM",
            FieldClass::IfeLllNum => "IFE_LLLNUM",
            FieldClass::IfeLlChar => "IFE_LLCHAR",
            FieldClass::IfeLllChar => "IFE_LLLCHAR",
        }
    }
}

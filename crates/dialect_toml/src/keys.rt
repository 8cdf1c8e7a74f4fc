//! The tables of a profile file and the keys that they have.

ghost use Rattle.std.specs.Prelude.{◌≡◌};
ghost use Rattle.dialect_toml.specs.Keys as spec;

use crate::words::{BitmapClass, FieldClass, FrameLength, MtiClass, PageName, Side};
use std::convert::AsStr;
use std::fmt;

/// A section of a profile file: its tables of one kind.
#[derive(Clone, Copy, PartialEq, Eq)]
pub enum Section {
    /// The table that the whole file is.
    Top,
    /// The table `frame`.
    Frame,
    /// The table `message`.
    Message,
    /// A table of the array `field`.
    Field,
}

/// A table of a profile file.
#[derive(Clone, Copy, PartialEq, Eq)]
pub struct TablePath {
    pub section: Section,
    /// Which of the tables of the array `field` it is, from 0; 0 in the other sections.
    pub index: usize,
    /// The number of its field, or 0 if it has none.
    pub number: u16,
}

/// A key of a profile file.
#[derive(Clone, Copy, PartialEq, Eq)]
pub enum Key {
    Field,
    Frame,
    Message,
    CountsItself,
    Header,
    FrameLength,
    Most,
    Bitmap,
    Page,
    Type,
    Class,
    Keep,
    Length,
    Number,
    Pad,
    PadHalf,
}

/// What values a key may have.
#[derive(Clone, Copy, PartialEq, Eq)]
pub enum Want {
    /// An array whose members are all tables, written inline or by headers; it may be empty.
    Tables,
    /// A table, written inline or by a header.
    Table,
    /// `true` or `false`.
    Flag,
    /// An integer from the first to the second, both included.
    Number(u64, u64),
    /// A string of at most this many bytes, each as two hexadecimal digits.
    Hex(usize),
    /// A word for the length of frames.
    FrameLength,
    /// A class of the message type.
    MtiClass,
    /// A class of bitmaps.
    BitmapClass,
    /// A page of EBCDIC.
    PageName,
    /// A side.
    Side,
    /// A class of fields.
    FieldClass,
}

impl Section {
    /// The keys of its tables, ascending by their spelling.
    pub(crate) fn keys(self) -> &'static [Key]
        ensures { result.now ≡ spec.keys_of self }
    {
        match self {
            Section::Top => &[Key::Field, Key::Frame, Key::Message],
            Section::Frame => &[Key::CountsItself, Key::Header, Key::FrameLength, Key::Most],
            Section::Message => &[Key::Bitmap, Key::Page, Key::Type],
            Section::Field => &[
                Key::Class,
                Key::Keep,
                Key::Length,
                Key::Number,
                Key::Pad,
                Key::PadHalf,
            ],
        }
    }
}

impl Key {
    /// What values it may have.
    pub fn wants(self) -> Want
        ensures { result ≡ spec.wants self }
    {
        match self {
            Key::Field => Want::Tables,
            Key::Frame | Key::Message => Want::Table,
            Key::CountsItself | Key::Keep => Want::Flag,
            Key::Header => Want::Hex(64),
            Key::FrameLength => Want::FrameLength,
            Key::Most => Want::Number(1, 65_535),
            Key::Bitmap => Want::BitmapClass,
            Key::Page => Want::PageName,
            Key::Type => Want::MtiClass,
            Key::Class => Want::FieldClass,
            Key::Length => Want::Number(1, 9_999),
            Key::Number => Want::Number(2, 128),
            Key::Pad => Want::Side,
            Key::PadHalf => Want::Number(0, 15),
        }
    }

    /// Whether its table must have it.
    pub(crate) fn is_required(self) -> bool
        ensures { result ≡ spec.is_required self }
    {
        matches!(
            self,
            Key::Field
                | Key::Message
                | Key::FrameLength
                | Key::Bitmap
                | Key::Type
                | Key::Class
                | Key::Length
                | Key::Number
        )
    }
}

/// A key lends its spelling in a file.
impl AsStr for Key {
    ghost use Rattle.dialect_toml.specs.Keys.{spelling};

    ghost text = { spelling };

    fn as_str(&self) -> &str {
        match self {
            Key::Field => "field",
            Key::Frame => "frame",
            Key::Message => "message",
            Key::CountsItself => "counts_itself",
            Key::Header => "header",
            Key::FrameLength => "length",
            Key::Most => "most",
            Key::Bitmap => "bitmap",
            Key::Page => "page",
            Key::Type => "type",
            Key::Class => "class",
            Key::Keep => "keep",
            Key::Length => "length",
            Key::Number => "number",
            Key::Pad => "pad",
            Key::PadHalf => "pad_half",
        }
    }
}

impl fmt::Display for Key {
    fn fmt<W: fmt::Write>(&self, f: &mut fmt::Formatter<W>) -> fmt::Result {
        f.write_str(self.as_str())
    }
}

/// Words for a message, each but the last with a comma after it.
#[derive(Drop)]
struct Listed<'a, W> {
    words: &'a [W],
}

impl<W: AsStr> fmt::Display for Listed<'_, W> {
    fn fmt<F: fmt::Write>(&self, f: &mut fmt::Formatter<F>) -> fmt::Result {
        let mut gap = "one of ";
        for word in self.words {
            f.write_str(gap)?;
            f.write_str(word.as_str())?;
            gap = ", ";
        }
        Ok(())
    }
}

impl fmt::Display for Want {
    fn fmt<W: fmt::Write>(&self, f: &mut fmt::Formatter<W>) -> fmt::Result {
        match *self {
            Want::Tables => f.write_str("an array of tables"),
            Want::Table => f.write_str("a table"),
            Want::Flag => f.write_str("true or false"),
            Want::Number(least, most) => write!(f, "an integer from {least} to {most}"),
            Want::Hex(most) => write!(
                f,
                "at most {most} bytes as hexadecimal digits, two for each"
            ),
            Want::FrameLength => Listed {
                words: FrameLength::all(),
            }
            .fmt(f),
            Want::MtiClass => Listed {
                words: MtiClass::all(),
            }
            .fmt(f),
            Want::BitmapClass => Listed {
                words: BitmapClass::all(),
            }
            .fmt(f),
            Want::PageName => Listed {
                words: PageName::all(),
            }
            .fmt(f),
            Want::Side => Listed { words: Side::all() }.fmt(f),
            Want::FieldClass => Listed {
                words: FieldClass::all(),
            }
            .fmt(f),
        }
    }
}

impl fmt::Display for TablePath {
    fn fmt<W: fmt::Write>(&self, f: &mut fmt::Formatter<W>) -> fmt::Result {
        let index = self.index;
        let number = self.number;
        match self.section {
            Section::Top => f.write_str("top table"),
            Section::Frame => f.write_str("frame"),
            Section::Message => f.write_str("message"),
            Section::Field if number < 2 => write!(f, "field table {index}"),
            Section::Field => write!(f, "field table {index} (number {number})"),
        }
    }
}

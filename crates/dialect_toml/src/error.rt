//! Why a profile file is refused.

use crate::keys::{Key, Section, TablePath};
use crate::words::FieldClass;
use cli_io::Quoted;
use iso_dialect::ProfileError;
use iso_msg::{ExpectedValue, FieldLabel};
use std::alloc::AllocError;
use std::convert::AsStr;
use std::fmt;
use sw_participant::Text;
use thiserror::Error;

/// The first fault of a profile file.
#[derive(Drop, Error)]
pub enum ProfileFileError {
    /// An allocation failed, which says nothing of the file.
    #[error("out of memory")]
    OutOfMemory,
    /// The text is not TOML; the reason has its line and column, both from 1.
    #[error("{0}")]
    Toml(toml::de::Error),
    /// A table has a fault.
    #[error("{0}")]
    Table(TableError),
    /// The file states a draft that the check of profiles refuses.
    #[error("{}", in_file_words(*.0))]
    Profile(ProfileError),
}

/// The first fault of the tables of a profile file.
#[derive(Drop, Error)]
pub enum TableError {
    /// The table has a key that is not one of its keys; of several the least, by its bytes.
    #[error("{}: unknown key: expected one of {}; found {}", .1, keys_in(.1.section), quoted(.0))]
    Unknown(Text, TablePath),
    /// The table lacks the key; of several the least.
    #[error("{}: key {} is missing: expected {}", .1, .0, .0.wants())]
    Missing(Key, TablePath),
    /// The key has a value that it may not have; of several such keys the least.
    #[error("{}: key {} has a bad value: expected {}; found {}", .1, .0, .0.wants(), .2)]
    BadValue(Key, TablePath, FoundValue),
    /// The key tells of a pad, and no digits of the class are packed.
    #[error("{}: key {} has no meaning: expected it beside a class of packed digits; found class {}", .2, .0, .1)]
    Unpadded(Key, FieldClass, TablePath),
    /// The class is of amounts with a sign, which the switch does not have, and the field is kept.
    #[error("{}: an amount with a sign cannot be kept: expected keep = false; found class {}", .1, .0)]
    Signed(FieldClass, TablePath),
    /// An earlier table of the array is of the same field.
    #[error("{}: an earlier field table has the same number: expected another", .0)]
    Double(TablePath),
}

/// What was found at a key: a string, an integer or a boolean itself, or the kind of any other value.
#[derive(Drop)]
pub enum FoundValue {
    Text(Text),
    Integer(i64),
    Flag(bool),
    Float,
    Date,
    Array,
    Table,
}

fn quoted(text: &Text) -> Quoted {
    Quoted::of(text.as_str().as_bytes())
}

/// The keys of a section, for a message.
#[derive(Drop)]
struct Known {
    section: Section,
}

fn keys_in(section: Section) -> Known {
    Known { section }
}

/// The refusal of a draft, in the words of the file.
#[derive(Drop)]
struct InFileWords {
    refusal: ProfileError,
}

fn in_file_words(refusal: ProfileError) -> InFileWords {
    InFileWords { refusal }
}

impl fmt::Display for FieldClass {
    fn fmt<W: fmt::Write>(&self, f: &mut fmt::Formatter<W>) -> fmt::Result {
        f.write_str(self.as_str())
    }
}

impl fmt::Display for FoundValue {
    fn fmt<W: fmt::Write>(&self, f: &mut fmt::Formatter<W>) -> fmt::Result {
        match self {
            FoundValue::Text(text) => write!(f, "{}", quoted(text)),
            FoundValue::Integer(number) => write!(f, "{number}"),
            FoundValue::Flag(flag) => write!(f, "{flag}"),
            FoundValue::Float => f.write_str("a float"),
            FoundValue::Date => f.write_str("a date or a time"),
            FoundValue::Array => f.write_str("an array"),
            FoundValue::Table => f.write_str("a table"),
        }
    }
}

impl fmt::Display for Known {
    fn fmt<W: fmt::Write>(&self, f: &mut fmt::Formatter<W>) -> fmt::Result {
        let mut gap = "";
        for key in self.section.keys() {
            write!(f, "{gap}{key}")?;
            gap = ", ";
        }
        Ok(())
    }
}

// What a file cannot state, as a count in octets, has the words of `ProfileError`.
impl fmt::Display for InFileWords {
    fn fmt<W: fmt::Write>(&self, f: &mut fmt::Formatter<W>) -> fmt::Result {
        match self.refusal {
            ProfileError::NotInTable(n) => write!(
                f,
                "{}: the switch does not have the field: expected keep = false",
                FieldLabel(n)
            ),
            ProfileError::NeverFits(n) => write!(
                f,
                "{}: no value of this class and length fits the field: expected {}",
                FieldLabel(n),
                ExpectedValue(n)
            ),
            ProfileError::CountTooSmall(n) => write!(
                f,
                "{}: the class cannot count up to this length: expected a lower length or another class",
                FieldLabel(n)
            ),
            ProfileError::NotKept(n) => write!(
                f,
                "{}: the switch needs the field: expected a field table with number = {n} that is kept",
                FieldLabel(n)
            ),
            other => write!(f, "{other}"),
        }
    }
}

// By hand: a person is shown the same text, and a derived `fmt` is slow to prove.
impl fmt::Debug for TableError {
    fn fmt<W: fmt::Write>(&self, f: &mut fmt::Formatter<W>) -> fmt::Result {
        fmt::Display::fmt(self, f)
    }
}

// By hand, as that of `TableError`.
impl fmt::Debug for ProfileFileError {
    fn fmt<W: fmt::Write>(&self, f: &mut fmt::Formatter<W>) -> fmt::Result {
        fmt::Display::fmt(self, f)
    }
}

impl From<AllocError> for ProfileFileError {
    ghost use Rattle.std.specs.Prelude.{◌≡◌};
    ghost use Rattle.dialect_toml.specs.declared.error.ProfileFileError.TheVariants.{OutOfMemory};

    ghost from_gives = { λ _ e. e ≡ OutOfMemory };

    fn from(_e: AllocError) -> ProfileFileError {
        ProfileFileError::OutOfMemory
    }
}

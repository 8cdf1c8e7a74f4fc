//! Why a configuration file is refused.

use crate::keys::{Key, Section, TablePath};
use cli_io::Quoted;
use std::alloc::AllocError;
use std::fmt;
use sw_participant::Text;
use thiserror::Error;

/// The first fault of a configuration file.
#[derive(Drop, Error)]
pub enum ConfigError {
    /// An allocation failed, which says nothing of the file.
    #[error("out of memory")]
    OutOfMemory,
    /// The text is not TOML; the reason has its line and column, both from 1.
    #[error("{0}")]
    Toml(toml::de::Error),
    /// A table has a fault.
    #[error("{0}")]
    Table(TableError),
}

/// The first fault of the tables of a configuration file.
#[derive(Drop, Error)]
pub enum TableError {
    /// The table has a key that is not one of its keys; of several the least, by its bytes.
    #[error("{}: unknown key: expected one of {}; found {}", .1, keys_in(.1.section), quoted(.0))]
    Unknown(Text, TablePath),
    /// The table lacks the key; of several the least.
    #[error("{}: key {} is missing: expected {}{}", .1, .0, .0.wants(), or_excluded(*.0))]
    Missing(Key, TablePath),
    /// The key has a value that it may not have; of several such keys the least.
    #[error("{}: key {} has a bad value: expected {}; found {}", .1, .0, .0.wants(), .2)]
    BadValue(Key, TablePath, FoundValue),
    /// The first key excludes the second, and both are there; of several such keys the least.
    #[error("{}: key {} excludes {}: expected one of them", .2, .0, .1)]
    Excludes(Key, Key, TablePath),
    /// An earlier table of the array has the same string at the key.
    #[error("{}: an earlier table has the same {}: expected another; found {}", .1, .0, quoted(.2))]
    Double(Key, TablePath, Text),
}

/// What was found at a key: a string, an integer or a boolean itself, or the kind of any other value.
#[derive(Drop)]
pub enum FoundValue {
    Text(Text),
    Integer(i64),
    Flag(bool),
    Float,
    Date,
    Array,
    Table,
}

fn quoted(text: &Text) -> Quoted {
    Quoted::of(text.as_str().as_bytes())
}

/// The keys of a section, for a message.
#[derive(Drop)]
struct Known {
    section: Section,
}

fn keys_in(section: Section) -> Known {
    Known { section }
}

/// For a message, the key that a table may have in place of one that is missing.
#[derive(Drop)]
struct Instead {
    key: Key,
}

fn or_excluded(key: Key) -> Instead {
    Instead { key }
}

impl fmt::Display for FoundValue {
    fn fmt<W: fmt::Write>(&self, f: &mut fmt::Formatter<W>) -> fmt::Result {
        match self {
            FoundValue::Text(text) => write!(f, "{}", quoted(text)),
            FoundValue::Integer(number) => write!(f, "{number}"),
            FoundValue::Flag(flag) => write!(f, "{flag}"),
            FoundValue::Float => f.write_str("a float"),
            FoundValue::Date => f.write_str("a date or a time"),
            FoundValue::Array => f.write_str("an array"),
            FoundValue::Table => f.write_str("a table"),
        }
    }
}

impl fmt::Display for Known {
    fn fmt<W: fmt::Write>(&self, f: &mut fmt::Formatter<W>) -> fmt::Result {
        let mut gap = "";
        for key in self.section.keys() {
            write!(f, "{gap}{key}")?;
            gap = ", ";
        }
        Ok(())
    }
}

impl fmt::Display for Instead {
    fn fmt<W: fmt::Write>(&self, f: &mut fmt::Formatter<W>) -> fmt::Result {
        match self.key.excluded() {
            Some(other) => write!(f, ", or key {other}"),
            None => Ok(()),
        }
    }
}

// By hand: a person is shown the same text, and a derived `fmt` is slow to prove.
impl fmt::Debug for TableError {
    fn fmt<W: fmt::Write>(&self, f: &mut fmt::Formatter<W>) -> fmt::Result {
        fmt::Display::fmt(self, f)
    }
}

// By hand, as that of `TableError`.
impl fmt::Debug for ConfigError {
    fn fmt<W: fmt::Write>(&self, f: &mut fmt::Formatter<W>) -> fmt::Result {
        fmt::Display::fmt(self, f)
    }
}

impl From<AllocError> for ConfigError {
    ghost use Rattle.std.specs.Prelude.{◌≡◌};
    ghost use Rattle.cli_config.specs.declared.error.ConfigError.TheVariants.{OutOfMemory};

    ghost from_gives = { λ _ e. e ≡ OutOfMemory };

    fn from(_e: AllocError) -> ConfigError {
        ConfigError::OutOfMemory
    }
}

//! The tables of a flow file and the keys in them.

ghost use Rattle.std.specs.Prelude.{◌≡◌};
ghost use Rattle.flow_toml.specs.Keys as spec;

use std::convert::AsStr;
use std::fmt;

/// A table of a flow file. Groups, and the entries of a group, are numbered from 0.
#[derive(Clone, Copy, PartialEq, Eq)]
pub enum TablePath {
    /// The table that the whole file is.
    Top,
    /// The group of this number.
    Group(usize),
    /// In the group of the first number, the entry of the second.
    Entry(usize, usize),
}

/// A key of a flow file.
#[derive(Clone, Copy, PartialEq, Eq)]
pub enum Key {
    Group,
    Retries,
    Entry,
    Name,
    AbortAware,
    Participant,
    Recovers,
    Selector,
}

/// What kind of value a key has.
#[derive(Clone, Copy, PartialEq, Eq)]
pub(crate) enum Want {
    /// An array whose members are all tables, written inline or by headers; it may be empty.
    Tables,
    Text,
    Integer,
    Flag,
}

/// The keys of a table, ascending by their spelling.
pub(crate) fn keys_of(path: TablePath) -> &'static [Key]
    ensures { result.now ≡ spec.keys_of path }
{
    match path {
        TablePath::Top => &[Key::Group, Key::Retries],
        TablePath::Group(_) => &[Key::Entry, Key::Name],
        TablePath::Entry(_, _) => &[
            Key::AbortAware,
            Key::Participant,
            Key::Recovers,
            Key::Selector,
        ],
    }
}

impl Key {
    /// Whether its table must have it.
    pub(crate) fn is_required(self) -> bool
        ensures { result ≡ spec.is_required self }
    {
        matches!(self, Key::Group | Key::Name | Key::Participant)
    }

    /// What kind of value it has.
    pub(crate) fn wants(self) -> Want
        ensures { result ≡ spec.wants self }
    {
        match self {
            Key::Group | Key::Entry => Want::Tables,
            Key::Name | Key::Participant => Want::Text,
            Key::Retries => Want::Integer,
            Key::AbortAware | Key::Recovers | Key::Selector => Want::Flag,
        }
    }
}

/// A key lends its spelling in a file.
impl AsStr for Key {
    ghost use Rattle.flow_toml.specs.Keys.{spelling};

    ghost text = { spelling };

    fn as_str(&self) -> &str {
        match self {
            Key::Group => "group",
            Key::Retries => "retries",
            Key::Entry => "entry",
            Key::Name => "name",
            Key::AbortAware => "abort_aware",
            Key::Participant => "participant",
            Key::Recovers => "recovers",
            Key::Selector => "selector",
        }
    }
}

impl fmt::Display for Key {
    fn fmt<W: fmt::Write>(&self, f: &mut fmt::Formatter<W>) -> fmt::Result {
        f.write_str(self.as_str())
    }
}

impl fmt::Display for Want {
    fn fmt<W: fmt::Write>(&self, f: &mut fmt::Formatter<W>) -> fmt::Result {
        f.write_str(match self {
            Want::Tables => "an array of tables",
            Want::Text => "a string",
            Want::Integer => "an integer",
            Want::Flag => "true or false",
        })
    }
}

impl fmt::Display for TablePath {
    fn fmt<W: fmt::Write>(&self, f: &mut fmt::Formatter<W>) -> fmt::Result {
        match *self {
            TablePath::Top => f.write_str("top table"),
            TablePath::Group(group) => write!(f, "group {group}"),
            TablePath::Entry(group, index) => write!(f, "group {group}, entry {index}"),
        }
    }
}

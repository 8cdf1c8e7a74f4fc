//! Why a flow is refused.

use std::fmt;
use thiserror::Error;

/// The first fault of a flow, its kinds in the order of their numbers, from 1. Groups and entries are
/// numbered from 0.
#[derive(Clone, Copy, PartialEq, Eq, Error)]
pub enum FlowError {
    /// No group is named `main`.
    #[error("no group is named main: expected one, with which a transaction starts")]
    NoMain,
    /// The group has the name of an earlier one.
    #[error("group {0}: an earlier group has the same name: expected distinct names")]
    DoubleGroup(usize),
    /// The name of a group, or of the participant of an entry of it, breaks the name rule.
    #[error("{}: bad name: expected 1 to 32 of a-z A-Z 0-9 _ - .", name_path(*.0, *.1))]
    BadName(usize, Option<usize>),
    /// The participant of the entry has marks other than those at its first place.
    #[error("group {0}, entry {1}: the participant has other marks at its first place: expected the same")]
    KindClash(usize, usize),
    /// More than 256 groups, 256 entries in a group or 16,384 entries in all.
    #[error("the flow is too large: expected at most 256 groups, \
         256 entries in a group, 16384 entries in all")]
    TooLarge,
    /// `retries` is over 100.
    #[error("retries is too large: expected 0 to 100")]
    BadRetries,
}

// By hand: a person is shown the same text, and a derived `fmt` of so many variants is slow to prove.
impl fmt::Debug for FlowError {
    fn fmt<W: fmt::Write>(&self, f: &mut fmt::Formatter<W>) -> fmt::Result {
        fmt::Display::fmt(self, f)
    }
}

/// `group G` or `group G, entry I`.
#[derive(Drop)]
struct EntryPath {
    group: usize,
    index: Option<usize>,
}

fn name_path(group: usize, index: Option<usize>) -> EntryPath {
    EntryPath { group, index }
}

impl fmt::Display for EntryPath {
    fn fmt<W: fmt::Write>(&self, f: &mut fmt::Formatter<W>) -> fmt::Result {
        let group = self.group;
        match self.index {
            Some(index) => write!(f, "group {group}, entry {index}"),
            None => write!(f, "group {group}"),
        }
    }
}

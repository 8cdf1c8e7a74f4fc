//! A rule that is broken, and where.

use crate::rule::Rule;

/// Where a rule is broken. Groups, entries and routes are numbered from 0.
#[derive(Clone, Copy)]
pub enum At {
    /// At the entry of this index (second) in the group of this number (first) of the flow.
    Entry(usize, usize),
    /// In the group of this number.
    Group(usize),
    /// At the route of this number of the configuration.
    Route(usize),
}

/// A rule that is broken at a place.
#[derive(Clone, Copy)]
pub struct Breach {
    pub rule: Rule,
    pub at: At,
}

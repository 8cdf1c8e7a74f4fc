//! What the lines of an image say.

use flow_asm::{GroupStart, Step};
use flow_model::Part;
use sw_participant::{Kind, Sequence};

/// The first line.
#[derive(Clone, Copy)]
pub(crate) struct ImageHeader {
    /// 1, or 2 if a participant recovers.
    pub version: usize,
    pub retries: usize,
    /// How many participants there are; likewise groups and steps.
    pub parts: usize,
    pub groups: usize,
    pub steps: usize,
}

/// The words of a participant's line.
#[derive(Clone, Copy)]
pub(crate) struct PartWords<'a> {
    /// The line's own number.
    pub number: usize,
    pub name: &'a str,
    pub kind: Kind,
}

/// The words of a group's line.
#[derive(Clone, Copy)]
pub(crate) struct GroupWords<'a> {
    /// The line's own number.
    pub number: usize,
    pub name: &'a str,
    /// The step that it starts with.
    pub first: usize,
}

/// The lines of an image, before they are known to be a flow's.
#[derive(Drop)]
pub(crate) struct Lines {
    pub version: usize,
    pub retries: u8,
    pub parts: Sequence<Part>,
    pub starts: Sequence<GroupStart>,
    pub steps: Sequence<Step>,
}

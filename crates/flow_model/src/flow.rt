//! What a flow is made of (jPOS: the groups of a transaction manager's configuration).

ghost use Rattle.std.specs.Prelude.{◌≡◌, IfOk, map};
ghost use Rattle.flow_model.specs.Groups.{entry_of};

use std::alloc::{AllocError, Global};
use sw_participant::{Kind, Sequence, Text};

/// One entry of a group: a participant that is prepared there.
pub struct Entry {
    /// The participant's name; in a checked flow it is 1 to 32 bytes of `a-z A-Z 0-9 _ - .`.
    pub participant: Text,
    /// The participant's marks, the same at each of its places in a checked flow.
    pub kind: Kind,
}

// Written out, so that no caller proves again how its parts are dropped.
impl Drop for Entry {
    fn drop(self) {
        let Entry {
            participant: _,
            kind: _,
        } = self;
    }
}

/// A named list of entries. It may be empty.
pub struct Group {
    pub name: Text,
    pub entries: Sequence<Entry>,
}

// Written out, so that no caller proves again how its parts are dropped.
impl Drop for Group {
    fn drop(self) {
        let Group {
            name: _,
            entries: _,
        } = self;
    }
}

impl Group {
    /// The group of this name with these entries, each a participant's name and marks. The only
    /// refusal is out of memory.
    pub fn of(alloc: Global, name: &str, entries: &[(&str, Kind)]) -> Result<Group, AllocError>
        ensures name { IfOk result (λ g. g.name ≡ name.now) }
        ensures entries { IfOk result (λ g.
            g.entries ≡ map (λ e. entry_of e.0.now e.1) entries.now) }
    {
        let mut made = Vec::new(alloc);
        for (participant, kind) in entries {
            made.push(Entry {
                participant: Text::from_str(alloc, participant)?,
                kind: *kind,
            })?;
        }
        Ok(Group {
            name: Text::from_str(alloc, name)?,
            entries: Sequence::new(made),
        })
    }
}

/// A flow. A transaction starts with the entries of the group `main`; a selector names further
/// groups.
#[derive(Drop)]
pub struct Flow {
    /// How often a transaction that aborts with RETRY is tried again; at most 100 in a checked flow.
    pub retries: u8,
    /// The groups, numbered from 0; a checked flow has at most 256, of at most 256 entries each and
    /// at most 16,384 in all.
    pub groups: Sequence<Group>,
}

/// An entry at its place: the entry `index` of the group `group`, both from 0.
#[derive(Clone, Copy, PartialEq, Eq)]
pub struct PlacedEntry {
    pub group: usize,
    pub index: usize,
    /// The participant's number, by first appearance in the flow.
    pub participant: usize,
    pub kind: Kind,
}

//! The numbered steps of a flow.

ghost use Rattle.std.specs.Prelude.{◌≡◌, IfOk};

use flow_model::Part;
use std::alloc::{AllocError, Global};
use std::marker::Model;
use sw_participant::{Sequence, Text};

/// One step. Participants are numbered by first appearance in the flow.
#[derive(Clone, Copy)]
pub enum Step {
    /// The participant of this number is prepared: an entry of a group.
    Call(usize),
    /// The selector of this number, which the step before calls, selects groups.
    Pick(usize),
    /// The end of a group.
    Return,
}

/// A group of the flow.
pub struct GroupStart {
    pub name: Text,
    /// The number of the group's first step: the call of its first entry, or its `Return` if it has no
    /// entry.
    pub first: usize,
}

// Written out, so that no caller proves again how its parts are dropped.
impl Drop for GroupStart {
    fn drop(self) {
        let GroupStart { name: _, first: _ } = self;
    }
}

/// The steps of a checked flow, numbered from 0: for each group in the flow's order, a `Call` for
/// each entry, with a `Pick` after the `Call` of a selector, and a `Return` at the end. At most
/// 33,024 steps. Contracts see the flow.
pub struct Code {
    pub(crate) retries: u8,
    pub(crate) parts: Sequence<Part>,
    pub(crate) starts: Sequence<GroupStart>,
    pub(crate) steps: Sequence<Step>,
}

// Written out, so that no caller proves again how its parts are dropped.
impl Drop for Code {
    fn drop(self) {
        let Code {
            retries: _,
            parts: _,
            starts: _,
            steps: _,
        } = self;
    }
}

impl Model for Code {
    ghost use Rattle.flow_model.specs.declared.flow.Flow.{Flow};

    ghost Value = { Flow };

    ghost use Rattle.flow_asm.specs.Listing.{listed, IsAssembly};

    ghost view = { listed };

    ghost invariant = { IsAssembly };
}

fn copy_parts(alloc: Global, parts: &[Part]) -> Result<Vec<Part>, AllocError>
    ensures { IfOk result (λ copy. copy.items ≡ parts.now) }
{
    let mut copy = Vec::new(alloc);
    for part in parts {
        let name = part.name.copy()?;
        copy.push(Part {
            name,
            kind: part.kind,
        })?;
    }
    Ok(copy)
}

fn copy_starts(alloc: Global, starts: &[GroupStart]) -> Result<Vec<GroupStart>, AllocError>
    ensures { IfOk result (λ copy. copy.items ≡ starts.now) }
{
    let mut copy = Vec::new(alloc);
    for start in starts {
        let name = start.name.copy()?;
        copy.push(GroupStart {
            name,
            first: start.first,
        })?;
    }
    Ok(copy)
}

impl Code {
    ghost use Rattle.std.specs.Prelude.{◌≡◌, ◌≤◌, length, IfOk};
    ghost use Rattle.flow_model.specs.Check.{IsChecked};
    ghost use Rattle.flow_model.specs.Places.{parts_of};
    ghost use Rattle.flow_asm.specs.Steps.{starts_of, steps_of};

    /// How often a transaction that aborts with RETRY is tried again; at most 100.
    pub fn retries(&self) -> u8
        ensures retries { result ≡ self.now.retries }
        ensures checked { IsChecked self.now }
    {
        self.retries
    }

    /// States that the code is of a checked flow, for the proofs of its callers. It does nothing.
    pub fn is_checked(&self)
        ensures { IsChecked self.now }
    {
        let _ = self.retries();
    }

    /// The participants, each at its number.
    pub fn participants(&self) -> &[Part]
        ensures participants { result.now ≡ parts_of self.now }
        ensures few { length result.now ≤ 16384 }
    {
        self.parts.as_slice()
    }

    /// The groups in the flow's order, each with its first step.
    pub fn groups(&self) -> &[GroupStart]
        ensures { result.now ≡ starts_of self.now }
    {
        self.starts.as_slice()
    }

    /// The steps.
    pub fn steps(&self) -> &[Step]
        ensures { result.now ≡ steps_of self.now }
    {
        self.steps.as_slice()
    }

    /// A copy of the steps. The only refusal is out of memory.
    pub fn copy(&self, alloc: Global) -> Result<Code, AllocError>
        ensures { IfOk result (λ copy. copy ≡ self.now) }
    {
        let parts = copy_parts(alloc, self.parts.as_slice())?;
        let starts = copy_starts(alloc, self.starts.as_slice())?;
        let steps = Vec::from_slice(alloc, self.steps.as_slice())?;
        Ok(Code {
            retries: self.retries,
            parts: Sequence::new(parts),
            starts: Sequence::new(starts),
            steps: Sequence::new(steps),
        })
    }
}

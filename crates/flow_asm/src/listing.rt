//! From the steps back to the flow.

ghost use Rattle.std.specs.Prelude.{◌≡◌, map, drop, slice_get, IfOk, OnErr, OnOk};
ghost use Rattle.flow_model.specs.Check.{IsChecked};
ghost use Rattle.flow_asm.specs.Listing.{AddsEntry, entries_from, group_of};

use crate::code::{Code, GroupStart, Step};
use flow_model::{Entry, Flow, Group, Part};
use std::alloc::{AllocError, Global};
use sw_participant::Sequence;

// The steps from a number on.
pub(crate) fn steps_from(steps: &[Step], first: usize) -> &[Step]
    ensures { result.now ≡ drop first steps.now }
{
    if first <= steps.len() {
        &steps[first..]
    } else {
        &[]
    }
}

/// Adds the entry of the participant of this number; none if no participant has it. The only
/// refusal is out of memory.
pub fn add_entry(entries: &mut Vec<Entry>, parts: &[Part], number: usize) -> Result<(), AllocError>
    ensures ok { OnOk result (AddsEntry entries.old.items entries.new.items
        (slice_get parts.now number)) }
    ensures err { OnErr result (entries.new.items ≡ entries.old.items) }
{
    if let Some(part) = parts.get(number) {
        let participant = part.name.copy()?;
        entries.push(Entry {
            participant,
            kind: part.kind,
        })?;
    }
    Ok(())
}

fn list_entries(alloc: Global, parts: &[Part], steps: &[Step]) -> Result<Vec<Entry>, AllocError>
    ensures { IfOk result (λ entries. entries.items ≡ entries_from parts.now steps.now) }
{
    let mut entries = Vec::new(alloc);
    for step in steps {
        match step {
            Step::Call(number) => add_entry(&mut entries, parts, *number)?,
            Step::Pick(_) => {}
            Step::Return => return Ok(entries),
        }
    }
    Ok(entries)
}

fn list_group(
    alloc: Global,
    parts: &[Part],
    steps: &[Step],
    start: &GroupStart,
) -> Result<Group, AllocError>
    ensures { IfOk result (λ group. group ≡ group_of parts.now steps.now start.now) }
{
    let name = start.name.copy()?;
    let entries = list_entries(alloc, parts, steps_from(steps, start.first))?;
    Ok(Group {
        name,
        entries: Sequence::new(entries),
    })
}

fn list_groups(
    alloc: Global,
    parts: &[Part],
    steps: &[Step],
    starts: &[GroupStart],
) -> Result<Vec<Group>, AllocError>
    ensures { IfOk result
        (λ groups. groups.items ≡ map (group_of parts.now steps.now) starts.now) }
{
    let mut groups = Vec::new(alloc);
    for start in starts {
        groups.push(list_group(alloc, parts, steps, start)?)?;
    }
    Ok(groups)
}

/// The flow that the steps were assembled from. The only refusal is out of memory.
pub fn list(alloc: Global, code: &Code) -> Result<Flow, AllocError>
    ensures flow { IfOk result (λ flow. flow ≡ code.now) }
    ensures checked { IfOk result (λ flow. IsChecked flow) }
{
    let groups = list_groups(
        alloc,
        code.parts.as_slice(),
        code.steps.as_slice(),
        code.starts.as_slice(),
    )?;
    Ok(Flow {
        retries: code.retries,
        groups: Sequence::new(groups),
    })
}

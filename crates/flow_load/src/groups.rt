//! From the lines of an image to the flow that they lay out.

ghost use Rattle.std.specs.Prelude.{◌≡◌, ◌≤◌, ◌<◌, ◌+◌, ◌^◌, length, slice_get, IfOk, IfSome, OnOk, None};
ghost use Rattle.flow_load.specs.Reads.{GivesImage};
ghost use Rattle.sw_base.specs.Refusals.{refused};
ghost use Rattle.flow_load.specs.Groups as spec;
ghost use Rattle.flow_load.specs.Bounds.{IsCallBelow, IsSmall};

use crate::error::LoadError;
use crate::lines::Lines;
use flow_asm::{GroupStart, Step, add_entry};
use flow_model::{Entry, Flow, Group, Part};
use std::alloc::{AllocError, Global};
use std::collections::BTreeMap;
use sw_participant::Sequence;

/// What a step is in its group.
#[derive(Clone, Copy)]
pub(crate) enum StepRole {
    /// The next entry: a call of the participant of this number.
    Calls(usize),
    /// The pick after a selector's call.
    Picks,
    /// The end of the group.
    Returns,
}

// The number of the first participant whose name an earlier one has.
fn first_double(alloc: Global, parts: &[Part]) -> Result<Option<usize>, AllocError>
    ensures read { IfOk result (λ number. number ≡ spec.double_from parts.now 0 parts.now) }
    ensures within { IfOk result (λ number. IfSome number (λ n. n < length parts.now)) }
{
    let mut seen = BTreeMap::new(alloc);
    for (number, part) in parts.iter().enumerate() {
        let name = part.name.as_str();
        if seen.contains_key(name) {
            return Ok(Some(number));
        }
        seen.insert(name, number)?;
    }
    Ok(None)
}

fn check_distinct(alloc: Global, parts: &[Part]) -> Result<(), LoadError>
    requires { length parts.now < 2 ^ 32 }
    ensures { GivesImage (λ u. u) result (refused (spec.double_fault parts.now)) }
{
    match first_double(alloc, parts)? {
        Some(number) => Err(LoadError::BadTarget(2 + number)),
        None => Ok(()),
    }
}

// What the step on the line `here` is.
fn role_of(
    parts: &[Part],
    here: usize,
    select_due: Option<usize>,
    seen: usize,
    step: Step,
) -> Result<StepRole, LoadError>
    requires { 1 ≤ here }
    ensures read { GivesImage (λ t. t) result (spec.role_of parts.now here select_due seen step) }
    ensures known { IfOk result (IsCallBelow (length parts.now)) }
{
    match select_due {
        None => match step {
            Step::Call(number) => {
                if number < parts.len() && number <= seen {
                    Ok(StepRole::Calls(number))
                } else {
                    Err(LoadError::BadTarget(here))
                }
            }
            Step::Pick(_) => Err(LoadError::BadTarget(here)),
            Step::Return => Ok(StepRole::Returns),
        },
        Some(called) => match step {
            Step::Call(_) => Err(LoadError::BadTarget(here - 1)),
            Step::Pick(number) => {
                if number == called {
                    Ok(StepRole::Picks)
                } else {
                    Err(LoadError::BadTarget(here - 1))
                }
            }
            Step::Return => Err(LoadError::BadTarget(here - 1)),
        },
    }
}

// The pick that has to follow a call.
fn wanted(parts: &[Part], number: usize) -> Option<usize>
    ensures { result ≡ spec.wanted number (slice_get parts.now number) }
{
    match parts.get(number) {
        Some(part) => {
            if part.kind.selector {
                Some(number)
            } else {
                None
            }
        }
        None => None,
    }
}

fn cut_off(group: usize, here: usize, select_due: Option<usize>) -> LoadError
    requires { 1 ≤ here }
    ensures { result ≡ spec.cut_off group here select_due }
{
    match select_due {
        None => LoadError::NoReturn(group),
        Some(_) => LoadError::BadTarget(here - 1),
    }
}

// The steps that are yet to be read, the number of the first of them, and how many participants were
// seen before it.
#[derive(Clone, Copy)]
struct Left<'a> {
    at: usize,
    seen: usize,
    steps: &'a [Step],
}

// A group, and what is left after its return.
#[derive(Drop)]
struct GroupRead<'a> {
    entries: Vec<Entry>,
    left: Left<'a>,
}

// The group of this number, which begins what is left; `line` is that of step 0.
fn read_group<'a>(
    alloc: Global,
    parts: &[Part],
    line: usize,
    group: usize,
    left: Left<'a>,
) -> Result<GroupRead<'a>, LoadError>
    requires line { 2 ≤ line }
    requires few { line + left.at + length left.steps.now < 2 ^ 32 }
    ensures read { GivesImage spec.walk_of result (spec.walk parts.now line group None
        left.entry.at left.entry.seen left.entry.steps.now) }
    ensures within { IfOk result (λ w. w.left.at + length w.left.steps.now
        ≤ left.entry.at + length left.entry.steps.now) }
{
    let Left { at, seen, steps } = left;
    let mut entries = Vec::new(alloc);
    let mut select_due = None;
    let mut seen = seen;
    for (k, step) in steps.iter().enumerate() {
        match role_of(parts, line + at + k, select_due, seen, *step)? {
            StepRole::Calls(number) => {
                add_entry(&mut entries, parts, number)?;
                select_due = wanted(parts, number);
                seen = seen.max(number + 1);
            }
            StepRole::Picks => select_due = None,
            StepRole::Returns => {
                let left = Left {
                    at: at + k + 1,
                    seen,
                    steps: &steps[k + 1..],
                };
                return Ok(GroupRead { entries, left });
            }
        }
    }
    Err(cut_off(group, line + at + steps.len(), select_due))
}

// The groups in their order, and what is left after them.
#[derive(Drop)]
struct GroupsRead<'a> {
    groups: Vec<Group>,
    left: Left<'a>,
}

fn read_groups<'a>(
    alloc: Global,
    parts: &[Part],
    line: usize,
    starts: &[GroupStart],
    steps: &'a [Step],
) -> Result<GroupsRead<'a>, LoadError>
    requires line { 2 ≤ line }
    requires few { line + length parts.now + length starts.now + length steps.now < 2 ^ 32 }
    ensures read { GivesImage spec.walks_of result
        (spec.walks parts.now line 0 0 0 steps.now starts.now) }
    ensures within { IfOk result (λ w. w.left.at ≤ length steps.now) }
{
    let mut groups = Vec::new(alloc);
    let mut left = Left {
        at: 0,
        seen: 0,
        steps,
    };
    for (number, start) in starts.iter().enumerate() {
        if start.first != left.at {
            return Err(LoadError::BadTarget(2 + parts.len() + number));
        }
        let walked = read_group(alloc, parts, line, number, left)?;
        let name = start.name.copy()?;
        groups.push(Group {
            name,
            entries: Sequence::new(walked.entries),
        })?;
        left = walked.left;
    }
    Ok(GroupsRead { groups, left })
}

// Refuses a step that no group has, and a participant that is not called.
fn check_end(parts: &[Part], line: usize, walked: &GroupsRead<'_>) -> Result<(), LoadError>
    requires { line + walked.now.left.at < 2 ^ 32 }
    ensures { GivesImage (λ u. u) result (refused
        (spec.end_fault parts.now line (spec.walks_of walked.now))) }
{
    let left = walked.left;
    if !left.steps.is_empty() {
        return Err(LoadError::BadTarget(line + left.at));
    }
    if left.seen < parts.len() {
        return Err(LoadError::BadTarget(2 + left.seen));
    }
    Ok(())
}

/// The flow that the lines lay out, or the first line that does not fit those before it.
#[tactic(auto, unfolding(crate::specs::Groups::flow_in))]
pub fn read_flow(alloc: Global, lines: &Lines) -> Result<Flow, LoadError>
    requires { IsSmall lines.now }
    ensures { GivesImage (λ f. f) result (spec.flow_in lines.now) }
{
    let parts = lines.parts.as_slice();
    let starts = lines.starts.as_slice();
    check_distinct(alloc, parts)?;
    let line = 2 + parts.len() + starts.len();
    let walked = read_groups(alloc, parts, line, starts, lines.steps.as_slice())?;
    check_end(parts, line, &walked)?;
    Ok(Flow {
        retries: lines.retries,
        groups: Sequence::new(walked.groups),
    })
}

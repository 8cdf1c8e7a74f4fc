//! Which entry a step belongs to, and which step calls an entry.

ghost use Rattle.std.specs.Prelude.{◌≡◌, ◌<◌, ◌≤◌, length, Some, IfSome};
ghost use Rattle.flow_asm.specs.Steps.{first_step, layout};
ghost use Rattle.flow_asm.specs.Places.{IsStepOf, call_of, place_of};
ghost use Rattle.flow_asm.specs.CallSearch.{call_from};

use crate::code::{Code, Step};
use crate::listing::steps_from;

// The last group that begins at or before a step, with its first step; group 0 with step 0 if there
// is none.
#[derive(Clone, Copy)]
struct Before {
    group: usize,
    first: usize,
}

fn last_before(code: &Code, step: usize) -> Before
    ensures first { result.first ≡ first_step code.now result.group }
    ensures within { result.group ≤ length (layout code.now) }
    ensures before { result.first ≤ step }
{
    let mut last = Before { group: 0, first: 0 };
    for (group, start) in code.groups().iter().enumerate() {
        if start.first > step {
            return last;
        }
        last = Before {
            group,
            first: start.first,
        };
    }
    last
}

/// The place (group, index) of the entry that a step calls or, for a selector, asks; `None` for the
/// end of a group and for a number that no step has. Looks at the groups up to the step's, and at
/// the steps of that group.
pub fn place(code: &Code, step: usize) -> Option<(usize, usize)>
    ensures value { result ≡ place_of code.now step }
    ensures entry { IfSome result (λ at. IsStepOf code.now at.0 at.1 step) }
{
    let before = last_before(code, step);
    let mut group = before.group;
    // The next entry of the group.
    let mut next = 0;
    let all = code.steps();
    for number in before.first..all.len() {
        match all[number] {
            Step::Call(_) => {
                if number == step {
                    return Some((group, next));
                }
                next += 1;
            }
            Step::Pick(_) => {
                if number == step {
                    return Some((group, next - 1));
                }
            }
            Step::Return => {
                if number == step {
                    return None;
                }
                group += 1;
                next = 0;
            }
        }
    }
    None
}

// How many steps come before the call of this index; `None` if the group ends before it.
fn nth_call(steps: &[Step], index: usize) -> Option<usize>
    ensures value { result ≡ call_from 0 index steps.now }
    ensures within { IfSome result (λ number. number < length steps.now) }
{
    let mut left = index;
    for (number, step) in steps.iter().enumerate() {
        match step {
            Step::Call(_) => {
                if left == 0 {
                    return Some(number);
                }
                left -= 1;
            }
            Step::Pick(_) => {}
            Step::Return => return None,
        }
    }
    None
}

/// The step that calls the entry at this place; `None` if the flow has no such entry.
pub fn step_at(code: &Code, group: usize, index: usize) -> Option<usize>
    ensures value { result ≡ call_of code.now group index }
    ensures place { IfSome result (λ step. place_of code.now step ≡ Some (group, index)) }
{
    let Some(start) = code.groups().get(group) else {
        return None;
    };
    let Some(before) = nth_call(steps_from(code.steps(), start.first), index) else {
        return None;
    };
    Some(start.first + before)
}

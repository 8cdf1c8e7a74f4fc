//! From a flow to its steps.

ghost use Rattle.std.specs.Prelude.{◌≡◌, ◌++◌, IfOk, OnOk};
ghost use Rattle.flow_model.specs.Check.{IsChecked};
ghost use Rattle.flow_model.specs.Places.{parts_of};
ghost use Rattle.flow_asm.specs.Emit.{entry_steps, group_steps};
ghost use Rattle.flow_asm.specs.Numbering.{IsNumbering};
ghost use Rattle.flow_asm.specs.Steps.{starts_of, steps_of};

use crate::code::{Code, GroupStart, Step};
use crate::numbering::{number_groups, number_of};
use flow_model::{Entry, Flow, Group, Part};
use std::alloc::{AllocError, Global};
use std::collections::BTreeMap;
use sw_participant::Sequence;

fn emit_entry(
    steps: &mut Vec<Step>,
    parts: &[Part],
    numbers: &BTreeMap<&str, usize>,
    entry: &Entry,
) -> Result<(), AllocError>
    requires { IsNumbering parts.now numbers.now }
    ensures { OnOk result (steps.new.items ≡ steps.old.items ++ entry_steps parts.now entry.now) }
{
    let number = number_of(parts, numbers, entry.participant.as_str());
    steps.push(Step::Call(number))?;
    if entry.kind.selector {
        steps.push(Step::Pick(number))?;
    }
    Ok(())
}

fn emit_group(
    steps: &mut Vec<Step>,
    parts: &[Part],
    numbers: &BTreeMap<&str, usize>,
    group: &Group,
) -> Result<(), AllocError>
    requires { IsNumbering parts.now numbers.now }
    ensures { OnOk result (steps.new.items ≡ steps.old.items ++ group_steps parts.now group.now) }
{
    for entry in group.entries.as_slice() {
        emit_entry(steps, parts, numbers, entry)?;
    }
    steps.push(Step::Return)?;
    Ok(())
}

// The steps of a flow, with the groups' first steps.
#[derive(Drop)]
struct Layout {
    starts: Vec<GroupStart>,
    steps: Vec<Step>,
}

fn lay_out(
    alloc: Global,
    parts: &[Part],
    numbers: &BTreeMap<&str, usize>,
    flow: &Flow,
) -> Result<Layout, AllocError>
    requires parts { parts.now ≡ parts_of flow.now }
    requires numbers { IsNumbering parts.now numbers.now }
    ensures starts { IfOk result (λ laid. laid.starts.items ≡ starts_of flow.now) }
    ensures steps { IfOk result (λ laid. laid.steps.items ≡ steps_of flow.now) }
{
    let mut starts = Vec::new(alloc);
    let mut steps = Vec::new(alloc);
    for group in flow.groups.as_slice() {
        let name = group.name.copy()?;
        starts.push(GroupStart {
            name,
            first: steps.len(),
        })?;
        emit_group(&mut steps, parts, numbers, group)?;
    }
    Ok(Layout { starts, steps })
}

/// The steps of a checked flow. The only refusal is out of memory.
pub fn assemble(alloc: Global, flow: &Flow) -> Result<Code, AllocError>
    requires { IsChecked flow.now }
    ensures { IfOk result (λ code. code ≡ flow.now) }
{
    let mut parts = Vec::new(alloc);
    let mut numbers = BTreeMap::new(alloc);
    number_groups(&mut parts, &mut numbers, flow.groups.as_slice())?;
    let laid = lay_out(alloc, parts.as_slice(), &numbers, flow)?;
    Ok(Code {
        retries: flow.retries,
        parts: Sequence::new(parts),
        starts: Sequence::new(laid.starts),
        steps: Sequence::new(laid.steps),
    })
}

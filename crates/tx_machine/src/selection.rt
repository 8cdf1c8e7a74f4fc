//! The groups that a text names.

ghost use Rattle.std.specs.Prelude.{◌≡◌, ◌<◌, [], ◌++◌, length, map, IfSome, IfNone, IfOk, OnOk, codes, false};
ghost use Rattle.std.specs.List.{All};
ghost use Rattle.flow_model.specs.Check.{is_named};
ghost use Rattle.flow_model.specs.Places.{entries_named};
ghost use Rattle.flow_asm.specs.Steps.{layout, stages};
ghost use Rattle.flow_asm.specs.Places.{group_at};
ghost use Rattle.tx_machine.specs.Table.{Prepare, chosen};
ghost use Rattle.tx_machine.specs.Position.{IsReturn, upcoming_at, entries_in};

use crate::names::first_names;
use crate::walk::group_step;
use flow_asm::Code;
use std::alloc::{AllocError, Global};

// Adds the group of this name, if there is one.
fn add_group(groups: &mut Vec<usize>, code: &Code, name: &[u8]) -> Result<(), AllocError>
    requires { All (λ g. g < length (layout code.now)) groups.old.items }
    ensures placed_entries { OnOk result (entries_in code.now groups.new.items
        ≡ entries_in code.now groups.old.items ++ entries_named code.now name.now) }
    ensures within { OnOk result (All (λ g. g < length (layout code.now)) groups.new.items) }
{
    if let Some(group) = code.find_group(name) {
        groups.push(group)?;
    }
    Ok(())
}

/// The groups that the first names of a selection name.
pub(crate) fn chosen_groups(
    alloc: Global,
    code: &Code,
    text: &str,
) -> Result<Vec<usize>, AllocError>
    ensures placed_entries { IfOk result (λ groups.
        entries_in code.now groups.items ≡ chosen code.now text.now) }
    ensures within { IfOk result (λ groups. All (λ g. g < length (layout code.now)) groups.items) }
{
    let mut groups = Vec::new(alloc);
    for name in first_names(text) {
        add_group(&mut groups, code, name)?;
    }
    Ok(groups)
}

/// The first step of the group that a transaction starts with.
pub(crate) fn main_step(code: &Code) -> usize
    ensures within { result < length (stages code.now) }
    ensures upcoming { upcoming_at code.now result
        ≡ map Prepare (entries_named code.now (codes "main")) }
{
    code.is_checked();
    let Some(number) = code.find_group("main".as_bytes()) else {
        unreachable!();
    };
    group_step(code, number)
}

/// The last step, a return.
pub(crate) fn end_step(code: &Code) -> usize
    ensures last { IsReturn code.now result }
    ensures within { result < length (stages code.now) }
{
    // A flow that is checked has a step, since it has a group `main`.
    let _first = main_step(code);
    code.steps().len() - 1
}

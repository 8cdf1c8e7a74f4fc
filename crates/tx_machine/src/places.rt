//! The entries to which steps belong.

ghost use Rattle.std.specs.Prelude.{◌≡◌, ◌++◌, map, OnOk, Some, slice_get};
ghost use Rattle.std.specs.Option.{option_to_list};
ghost use Rattle.flow_model.specs.declared.flow.PlacedEntry.{PlacedEntry};
ghost use Rattle.flow_asm.specs.Steps.{AtCall, AtPick, layout, stages};
ghost use Rattle.flow_asm.specs.Places.{group_at};
ghost use Rattle.tx_machine.specs.Due.{select_spot, places_of, spot_of};
ghost use Rattle.tx_machine.specs.Position.{upcoming_at, entries_in, stack_upcoming};
ghost use Rattle.tx_machine.specs.Table.{Prepare};

use crate::values::Spot;
use crate::walk::StackFrame;
use flow_asm::{Code, Step, place};
use std::alloc::AllocError;

/// The spot of the entry whose participant a step calls or asks to select.
pub(crate) fn spot(code: &Code, step: usize, participant: usize) -> Spot
    ensures call { (e : PlacedEntry)
        → slice_get (stages code.now) step ≡ Some (AtCall e) → e.participant ≡ participant
        → result ≡ spot_of code.now e }
    ensures pick { (e : PlacedEntry)
        → slice_get (stages code.now) step ≡ Some (AtPick e) → e.participant ≡ participant
        → result ≡ select_spot code.now e }
    ensures same { result.participant ≡ participant }
{
    let (group, index) = place(code, step).unwrap_or((0, 0));
    Spot {
        step,
        group,
        index,
        participant,
    }
}

fn add_place(
    places: &mut Vec<(usize, usize)>,
    place: Option<(usize, usize)>,
) -> Result<(), AllocError>
    ensures { OnOk result (places.new.items ≡ places.old.items ++ option_to_list place) }
{
    if let Some(place) = place {
        places.push(place)?;
    }
    Ok(())
}

/// Adds the places of the entries that are called from a step on, up to the end of its group.
pub(crate) fn add_steps(
    places: &mut Vec<(usize, usize)>,
    code: &Code,
    from: usize,
) -> Result<(), AllocError>
    ensures { OnOk result
        (places.new.items ≡ places.old.items ++ places_of (upcoming_at code.now from)) }
{
    let all = code.steps();
    for step in from..all.len() {
        match all[step] {
            Step::Call(_) => add_place(places, place(code, step))?,
            Step::Pick(_) => {}
            Step::Return => return Ok(()),
        }
    }
    Ok(())
}

fn add_group(places: &mut Vec<(usize, usize)>, code: &Code, group: usize) -> Result<(), AllocError>
    ensures { OnOk result (places.new.items
        ≡ places.old.items ++ places_of (map Prepare (group_at (layout code.now) group))) }
{
    match code.groups().get(group) {
        Some(start) => add_steps(places, code, start.first),
        None => Ok(()),
    }
}

fn add_groups(
    places: &mut Vec<(usize, usize)>,
    code: &Code,
    groups: &[usize],
) -> Result<(), AllocError>
    ensures { OnOk result (places.new.items
        ≡ places.old.items ++ places_of (map Prepare (entries_in code.now groups.now))) }
{
    for group in groups {
        add_group(places, code, *group)?;
    }
    Ok(())
}

/// Adds the places of the entries to which the selections under way lead, the latest one first.
pub(crate) fn add_frames(
    places: &mut Vec<(usize, usize)>,
    code: &Code,
    stack: &[StackFrame],
) -> Result<(), AllocError>
    ensures { OnOk result (places.new.items
        ≡ places.old.items ++ places_of (stack_upcoming code.now stack.now)) }
{
    let mut rest = stack;
    while let Some((top, below)) = rest.split_last() {
        add_groups(places, code, top.pending.as_slice())?;
        add_steps(places, code, top.back)?;
        rest = below;
    }
    Ok(())
}

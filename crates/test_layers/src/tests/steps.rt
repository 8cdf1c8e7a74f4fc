//! Machines by their list of items, and the lines of single steps, which no subcommand makes: a worked transaction
//! item by item, and items that are not due.

ghost use Rattle.std.specs.Prelude.{IfOk};
ghost use Rattle.tx_machine.specs.Contract.{IsSound};

use crate::tests::flows::picking;
use flow_asm::Code;
use std::alloc::{AllocError, Global};
use std::test::Fail;
use sw_participant::{Bytes, Text};
use tx_history::Event;
use tx_machine::{Item, Machine, MachineError};
use tx_trace::step_line;

/// The lines of the worked selection, written by hand from `docs/use/TRACE.md`; the first five are those of
/// `tests/step/debugger.cases`, but for an answer of 81.
const LINES: [&str; 9] = [
    "1 P prepare pick main/0 01 join ctx -> select pick main/0",
    "1 P select pick main/0 [b,a] -> prepare pb b/0",
    "1 P prepare pb b/0 01 join ctx -> prepare pa a/0",
    "1 P prepare pa a/0 81 join noctx -> prepare last main/1",
    "1 P prepare last main/1 01 join ctx -> commit pick",
    "1 C commit pick -> commit pb",
    "1 C commit pb -> commit pa",
    "1 C commit pa -> commit last",
    "1 C commit last -> done",
];

/// What `pick` selects; there is no group x.
const SELECTED: &str = "b,a  x";

fn bytes(alloc: Global) -> Result<Vec<u8>, AllocError> {
    Vec::from_slice(alloc, &[0])
}

fn answer(alloc: Global, byte: u8) -> Result<Item, AllocError> {
    Ok(Item::Answer(byte, Bytes::new(bytes(alloc)?)))
}

/// The item of this number: `pick` is prepared and selects; then pb, pa and last are prepared, and all are notified.
fn item(alloc: Global, number: usize) -> Result<Item, AllocError> {
    match number {
        0 | 2 | 4 => answer(alloc, 0x01),
        1 => Ok(Item::Choice(Text::from_str(alloc, SELECTED)?)),
        3 => answer(alloc, 0x81),
        _ => Ok(Item::Told(None)),
    }
}

fn items(alloc: Global, from: usize, to: usize) -> Result<Vec<Item>, AllocError> {
    let mut items = Vec::new(alloc);
    for number in from..to {
        items.push(item(alloc, number)?)?;
    }
    Ok(items)
}

/// A new machine that has taken these items of the selection.
fn after(alloc: Global, code: &Code, from: usize, to: usize) -> Result<Machine, MachineError>
    ensures { IfOk result (IsSound code.now) }
{
    let saved = bytes(alloc)?;
    let items = items(alloc, from, to)?;
    Machine::after_items(alloc, code, 3, saved, &items)
}

fn answered(alloc: Global, byte: u8) -> Result<Event, AllocError> {
    Ok(Event::Answered {
        session: 0,
        byte,
        context: Bytes::new(bytes(alloc)?),
    })
}

/// The event of this item.
fn event(alloc: Global, number: usize) -> Result<Event, AllocError> {
    match number {
        0 | 2 | 4 => answered(alloc, 0x01),
        1 => Ok(Event::Chose {
            session: 0,
            text: Text::from_str(alloc, SELECTED)?,
        }),
        3 => answered(alloc, 0x81),
        _ => Ok(Event::Told {
            session: 0,
            advice: None,
        }),
    }
}

fn line(alloc: Global, code: &Code, number: usize) -> Result<String, MachineError> {
    let event = event(alloc, number)?;
    let before = after(alloc, code, 0, number)?;
    let then = after(alloc, code, 0, number.saturating_add(1))?;
    Ok(step_line(alloc, 1, code, &before, &event, &then)?)
}

fn is_line(alloc: Global, code: &Code, number: usize, wanted: &str) -> bool {
    match line(alloc, code, number) {
        Ok(text) => text.as_str() == wanted,
        Err(_) => false,
    }
}

#[test]
fn a_worked_selection(rt: HostRuntime) -> Result<(), Fail> {
    let code = picking(rt.alloc())?;
    for (number, wanted) in LINES.into_iter().enumerate() {
        assert!(rt; is_line(rt.alloc(), &code, number, wanted), "{wanted}");
    }
    Ok(())
}

fn is_not_due(alloc: Global, code: &Code, from: usize, to: usize) -> bool {
    matches!(after(alloc, code, from, to), Err(MachineError::NotDue))
}

#[test]
fn items_of_another_kind_are_not_due(rt: HostRuntime) -> Result<(), Fail> {
    let code = picking(rt.alloc())?;
    // A choice first, a told first, two answers.
    for (from, to) in [(1, 2), (5, 6), (2, 4)] {
        assert!(rt; is_not_due(rt.alloc(), &code, from, to), "item {from}");
    }
    Ok(())
}

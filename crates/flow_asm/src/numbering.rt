//! The participants of a flow and their numbers, found by name.

ghost use Rattle.std.specs.Prelude.{◌≡◌, OnOk};
ghost use Rattle.flow_model.specs.Places.{add_new, entries_of, number_in, parts_from};
ghost use Rattle.flow_asm.specs.Numbering.{IsNumbering};

use flow_model::{Entry, Group, Part};
use std::alloc::AllocError;
use std::collections::BTreeMap;

/// The number of the participant of this name, or how many participants there are.
pub fn number_of(parts: &[Part], numbers: &BTreeMap<&str, usize>, name: &str) -> usize
    requires { IsNumbering parts.now numbers.now }
    ensures { result ≡ number_in parts.now name.now }
{
    match numbers.get(name) {
        Some(number) => *number,
        None => parts.len(),
    }
}

fn number_entry<'a>(
    parts: &mut Vec<Part>,
    numbers: &mut BTreeMap<&'a str, usize>,
    entry: &'a Entry,
) -> Result<(), AllocError>
    requires { IsNumbering parts.old.items numbers.old }
    ensures parts { OnOk result (parts.new.items ≡ add_new parts.old.items entry.now) }
    ensures numbers { OnOk result (IsNumbering parts.new.items numbers.new) }
{
    let name = entry.participant.as_str();
    if numbers.contains_key(name) {
        return Ok(());
    }
    let kept = entry.participant.copy()?;
    numbers.insert(name, parts.len())?;
    parts.push(Part {
        name: kept,
        kind: entry.kind,
    })?;
    Ok(())
}

fn number_entries<'a>(
    parts: &mut Vec<Part>,
    numbers: &mut BTreeMap<&'a str, usize>,
    entries: &'a [Entry],
) -> Result<(), AllocError>
    requires { IsNumbering parts.old.items numbers.old }
    ensures parts { OnOk result (parts.new.items ≡ parts_from parts.old.items entries.now) }
    ensures numbers { OnOk result (IsNumbering parts.new.items numbers.new) }
{
    for entry in entries {
        number_entry(parts, numbers, entry)?;
    }
    Ok(())
}

/// Numbers the participants of the groups after those that have a number, in the order of first
/// appearance.
pub fn number_groups<'a>(
    parts: &mut Vec<Part>,
    numbers: &mut BTreeMap<&'a str, usize>,
    groups: &'a [Group],
) -> Result<(), AllocError>
    requires { IsNumbering parts.old.items numbers.old }
    ensures parts { OnOk result (parts.new.items
        ≡ parts_from parts.old.items (entries_of groups.now)) }
    ensures numbers { OnOk result (IsNumbering parts.new.items numbers.new) }
{
    for group in groups {
        number_entries(parts, numbers, group.entries.as_slice())?;
    }
    Ok(())
}

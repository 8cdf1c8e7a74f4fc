//! From a text to the flow that it states.

ghost use Rattle.std.specs.Prelude.{◌≡◌, Some, find, IfOk, IfErr};
ghost use Rattle.flow_model.specs.Check.{IsChecked};
ghost use Rattle.toml.specs.View.{view, table_view, array_view};
ghost use Rattle.toml_tables.specs.Tables.{text_at};
ghost use Rattle.flow_toml.specs.Reads.{GivesFlow, each};
ghost use Rattle.sw_base.specs.Refusals.{refused};
ghost use Rattle.flow_toml.specs.Keys as keys;
ghost use Rattle.flow_toml.specs.Faults as faults;
ghost use Rattle.flow_toml.specs.FlowFile as spec;
ghost use Rattle.flow_toml.specs.declared.keys.Key.TheVariants as key;

use crate::error::FlowTomlError;
use crate::keys::{Key, TablePath, Want, keys_of};
use flow_model::{Entry, Flow, Group};
use std::alloc::{AllocError, Global};
use sw_participant::{Kind, Sequence, Text};
use toml::value::Array;
use toml::{Table, Value};
use toml_tables::{are_tables, flag_at, text_at, unknown_key, value_at};

fn fits(want: Want, value: &Value) -> bool
    ensures { result ≡ faults.fits want (view value.now) }
{
    match want {
        Want::Tables => match value {
            Value::Array(array) => are_tables(array),
            _ => false,
        },
        Want::Text => value.is_str(),
        Want::Integer => value.is_integer(),
        Want::Flag => value.is_bool(),
    }
}

fn is_missing(table: &Table, key: Key) -> bool
    ensures { result ≡ faults.is_missing (table_view table.now) key }
{
    key.is_required() && value_at(table, key).is_none()
}

fn is_wrong(table: &Table, key: Key) -> bool
    ensures { result ≡ faults.is_wrong (table_view table.now) key }
{
    match value_at(table, key) {
        Some(value) => !fits(key.wants(), value),
        None => false,
    }
}

fn missing_key(path: TablePath, table: &Table) -> Option<Key>
    ensures { result ≡ find (faults.is_missing (table_view table.now)) (keys.keys_of path) }
{
    let keys = keys_of(path);
    for key in keys {
        if is_missing(table, *key) {
            return Some(*key);
        }
    }
    None
}

fn wrong_key(path: TablePath, table: &Table) -> Option<Key>
    ensures { result ≡ find (faults.is_wrong (table_view table.now)) (keys.keys_of path) }
{
    let keys = keys_of(path);
    for key in keys {
        if is_wrong(table, *key) {
            return Some(*key);
        }
    }
    None
}

// A table by itself, without the tables in it.
fn check_table(alloc: Global, path: TablePath, table: &Table) -> Result<(), FlowTomlError>
    ensures { GivesFlow (λ u. u) result (refused (faults.table_fault path (table_view table.now))) }
{
    if let Some(name) = unknown_key(keys_of(path), table) {
        let name = Text::from_str(alloc, name.as_str())?;
        return Err(FlowTomlError::Unknown(name, path));
    }
    if let Some(key) = missing_key(path, table) {
        return Err(FlowTomlError::Missing(key, path));
    }
    match wrong_key(path, table) {
        Some(key) => Err(FlowTomlError::WrongKind(key, path)),
        None => Ok(()),
    }
}

fn text_of(alloc: Global, table: &Table, key: Key) -> Result<Text, AllocError>
    ensures { IfOk result (λ t. t ≡ text_at (keys.spelling key) (table_view table.now)) }
{
    Text::from_str(alloc, text_at(table, key))
}

fn mark_at(table: &Table, key: Key) -> bool
    ensures { result ≡ spec.mark_at key (table_view table.now) }
{
    flag_at(table, key).unwrap_or(false)
}

// 101, which no checked flow has, represents each integer out of range.
fn in_range(retries: i64) -> u8
    ensures { result ≡ spec.retries_of (Some retries) }
{
    if 0 <= retries && retries <= 100 {
        retries as u8
    } else {
        101
    }
}

fn retries_at(table: &Table) -> u8
    ensures { result ≡ spec.retries_at (table_view table.now) }
{
    match value_at(table, Key::Retries) {
        Some(value) => match value.as_integer() {
            Some(retries) => in_range(retries),
            None => 0,
        },
        None => 0,
    }
}

fn read_entry(alloc: Global, path: TablePath, table: &Table) -> Result<Entry, FlowTomlError>
    ensures { GivesFlow (λ e. e) result (spec.entry_at path (table_view table.now)) }
{
    check_table(alloc, path, table)?;
    let participant = text_of(alloc, table, Key::Participant)?;
    let kind = Kind {
        selector: mark_at(table, Key::Selector),
        abort_aware: mark_at(table, Key::AbortAware),
        recovers: mark_at(table, Key::Recovers),
    };
    Ok(Entry { participant, kind })
}

fn read_entries(alloc: Global, group: usize, array: &Array) -> Result<Vec<Entry>, FlowTomlError>
    ensures { GivesFlow (λ es. es.items) result (spec.entries_in group (array_view array.now)) }
{
    let mut entries = Vec::new(alloc);
    for value in array {
        if let Some(table) = value.as_table() {
            let path = TablePath::Entry(group, entries.len());
            entries.push(read_entry(alloc, path, table)?)?;
        }
    }
    Ok(entries)
}

fn entries_at(alloc: Global, group: usize, table: &Table) -> Result<Vec<Entry>, FlowTomlError>
    ensures { GivesFlow (λ es. es.items) result (spec.entries_at group (table_view table.now)) }
{
    match value_at(table, Key::Entry) {
        Some(value) => match value.as_array() {
            Some(array) => read_entries(alloc, group, array),
            None => Ok(Vec::new(alloc)),
        },
        None => Ok(Vec::new(alloc)),
    }
}

fn read_group(alloc: Global, number: usize, table: &Table) -> Result<Group, FlowTomlError>
    ensures { GivesFlow (λ g. g) result (spec.group_of number (table_view table.now)) }
{
    check_table(alloc, TablePath::Group(number), table)?;
    let entries = entries_at(alloc, number, table)?;
    let name = text_of(alloc, table, Key::Name)?;
    Ok(Group {
        name,
        entries: Sequence::new(entries),
    })
}

fn read_groups(alloc: Global, array: &Array) -> Result<Vec<Group>, FlowTomlError>
    ensures { GivesFlow (λ gs. gs.items) result (spec.groups_in (array_view array.now)) }
{
    let mut groups = Vec::new(alloc);
    for value in array {
        if let Some(table) = value.as_table() {
            groups.push(read_group(alloc, groups.len(), table)?)?;
        }
    }
    Ok(groups)
}

fn groups_at(alloc: Global, table: &Table) -> Result<Vec<Group>, FlowTomlError>
    ensures { GivesFlow (λ gs. gs.items) result (spec.groups_at (table_view table.now)) }
{
    match value_at(table, Key::Group) {
        Some(value) => match value.as_array() {
            Some(array) => read_groups(alloc, array),
            None => Ok(Vec::new(alloc)),
        },
        None => Ok(Vec::new(alloc)),
    }
}

fn read_tables(alloc: Global, table: &Table) -> Result<Flow, FlowTomlError>
    ensures { GivesFlow (λ f. f) result (spec.flow_of (table_view table.now)) }
{
    check_table(alloc, TablePath::Top, table)?;
    let groups = groups_at(alloc, table)?;
    Ok(Flow {
        retries: retries_at(table),
        groups: Sequence::new(groups),
    })
}

fn read_document(alloc: Global, table: &Table) -> Result<Flow, FlowTomlError>
    ensures flow { GivesFlow (λ f. f) result (spec.checked_flow_of (table_view table.now)) }
    ensures checked { IfOk result (λ f. IsChecked f) }
{
    let flow = read_tables(alloc, table)?;
    match flow.check_by_map(alloc)? {
        Ok(()) => Ok(flow),
        Err(fault) => Err(FlowTomlError::Flow(fault)),
    }
}

/// The flow that a flow file states.
///
/// The refusals are tested in this order: a text that is not TOML; the top table, then each group,
/// each followed by its entries in order; then the flow's own check. In each table the least unknown
/// key comes first, then the least missing one, then the least whose value is of the wrong kind. An
/// integer outside 0 to 100 for `retries` is the check's `BadRetries`; one of more than 64 bits is
/// not TOML. `OutOfMemory` is reported only if an allocation failed before a fault was found.
#[tactic(auto, unfolding(crate::specs::FlowFile::reading))]
pub fn read_flow(alloc: Global, text: &str) -> Result<Flow, FlowTomlError>
    ensures flow { IfOk result (λ f. spec.IsFlowFile f text.now) }
    ensures checked { IfOk result (λ f. IsChecked f) }
    ensures refused { IfErr result (spec.Refuses text.now) }
{
    match toml::table_from_str(alloc, text) {
        Ok(table) => read_document(alloc, &table),
        Err(e) => {
            if e.is_memory() {
                Err(FlowTomlError::OutOfMemory)
            } else {
                Err(FlowTomlError::Toml(e))
            }
        }
    }
}

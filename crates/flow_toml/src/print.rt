//! From a flow to a text that states it.

ghost use Rattle.std.specs.Prelude.{◌≡◌, ◌≤◌, Some, IfOk, OnOk, string_bytes, map, true};
ghost use Rattle.toml.specs.Data.{members_depth, members_have_valid_dates};
ghost use Rattle.toml.specs.Parse.{parse_document};
ghost use Rattle.toml.specs.View.{view, table_view};
ghost use Rattle.flow_model.specs.Check.{IsChecked};
ghost use Rattle.flow_toml.specs.Keys.{spelling};
ghost use Rattle.flow_toml.specs.FlowFile.{IsFlowFile};
ghost use Rattle.flow_toml.specs.Document.{Puts, ReadsBack, document_of, entry_data, group_data};

use crate::keys::Key;
use flow_model::{Entry, Flow, Group};
use std::alloc::{AllocError, Global};
use std::convert::AsStr;
use toml::value::Array;
use toml::{Table, Value};

fn put(alloc: Global, table: &mut Table, key: Key, value: Value) -> Result<(), AllocError>
    ensures { OnOk result (Puts (table_view table.old) (table_view table.new)
        (spelling key) (view value)) }
{
    let name = String::from_str(alloc, key.as_str())?;
    table.insert(name, value)?;
    Ok(())
}

fn entry_value(alloc: Global, entry: &Entry) -> Result<Value, AllocError>
    ensures { IfOk result (λ v. view v ≡ entry_data entry.now) }
{
    let mut table = Table::new(alloc);
    put(
        alloc,
        &mut table,
        Key::AbortAware,
        Value::from(entry.kind.abort_aware),
    )?;
    let participant = Value::string(alloc, entry.participant.as_str())?;
    put(alloc, &mut table, Key::Participant, participant)?;
    put(
        alloc,
        &mut table,
        Key::Recovers,
        Value::from(entry.kind.recovers),
    )?;
    put(
        alloc,
        &mut table,
        Key::Selector,
        Value::from(entry.kind.selector),
    )?;
    Ok(Value::Table(table))
}

fn entry_values(alloc: Global, entries: &[Entry]) -> Result<Array, AllocError>
    ensures { IfOk result (λ v. map view v.items ≡ map entry_data entries.now) }
{
    let mut values = Vec::new(alloc);
    for entry in entries {
        values.push(entry_value(alloc, entry)?)?;
    }
    Ok(values)
}

fn group_value(alloc: Global, group: &Group) -> Result<Value, AllocError>
    ensures { IfOk result (λ v. view v ≡ group_data group.now) }
{
    let mut table = Table::new(alloc);
    let entries = entry_values(alloc, group.entries.as_slice())?;
    put(alloc, &mut table, Key::Entry, Value::Array(entries))?;
    put(
        alloc,
        &mut table,
        Key::Name,
        Value::string(alloc, group.name.as_str())?,
    )?;
    Ok(Value::Table(table))
}

fn group_values(alloc: Global, groups: &[Group]) -> Result<Array, AllocError>
    ensures { IfOk result (λ v. map view v.items ≡ map group_data groups.now) }
{
    let mut values = Vec::new(alloc);
    for group in groups {
        values.push(group_value(alloc, group)?)?;
    }
    Ok(values)
}

fn document(alloc: Global, flow: &Flow) -> Result<Table, AllocError>
    ensures { IfOk result (λ t. table_view t ≡ document_of flow.now) }
{
    let mut table = Table::new(alloc);
    let groups = group_values(alloc, flow.groups.as_slice())?;
    put(alloc, &mut table, Key::Group, Value::Array(groups))?;
    put(alloc, &mut table, Key::Retries, Value::from(flow.retries))?;
    Ok(table)
}

// `toml` reads back what nests at most 80 deep; a flow's document has no date.
fn print_table(alloc: Global, table: &Table) -> Result<String, AllocError>
    requires { members_have_valid_dates (table_view table.now) ≡ true }
    ensures { IfOk result (λ s. ReadsBack (table_view table.now) (string_bytes s)) }
{
    match toml::table_to_string(alloc, table) {
        Ok(text) => Ok(text),
        Err(toml::ser::Error::OutOfMemory) => Err(AllocError),
        Err(toml::ser::Error::DateInvalid) => {
            prove!(false);
            Err(AllocError)
        }
    }
}

/// A flow file of the flow, with every key written out and the tables under headers. The only
/// refusal is out of memory.
pub fn print_flow(alloc: Global, flow: &Flow) -> Result<String, AllocError>
    requires { IsChecked flow.now }
    ensures { IfOk result (λ s. IsFlowFile flow.now (string_bytes s)) }
{
    let table = document(alloc, flow)?;
    print_table(alloc, &table)
}

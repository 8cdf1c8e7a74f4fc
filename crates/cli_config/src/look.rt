//! What stands in the tables of a document.

ghost use Rattle.std.specs.Prelude.{◌≡◌, Some, option_map, option_copied, [], ◌∷◌, IfOk, find};
ghost use Rattle.toml.specs.View.{view, table_view, array_view};
ghost use Rattle.toml_tables.specs.Tables.{views};
ghost use Rattle.cli_config.specs.Tables as spec;

use crate::keys::{Key, Section};
use std::alloc::{AllocError, Global};
use sw_participant::{Sequence, Text};
use toml::value::Array;
use toml::{Table, Value};
use toml_tables::{tables_in, value_at};

fn whole(number: i64) -> Option<u64>
    ensures { result ≡ spec.whole number }
{
    if number < 0 {
        None
    } else {
        Some(number as u64)
    }
}

/// The number at a key, or `None` if there is no number or a negative one.
pub(crate) fn number_at(table: &Table, key: Key) -> Option<u64>
    ensures { result ≡ spec.number_at key (table_view table.now) }
{
    match value_at(table, key) {
        Some(value) => match value.as_integer() {
            Some(number) => whole(number),
            None => None,
        },
        None => None,
    }
}

fn names_in(alloc: Global, array: &Array) -> Result<Vec<Text>, AllocError>
    ensures { IfOk result (λ names. names.items ≡ spec.names_in (array_view array.now)) }
{
    let mut names = Vec::new(alloc);
    for value in array {
        if let Some(text) = value.as_str() {
            names.push(Text::from_str(alloc, text)?)?;
        }
    }
    Ok(names)
}

fn names_below(alloc: Global, value: &Value) -> Result<Vec<Text>, AllocError>
    ensures { IfOk result (λ names. names.items ≡ spec.names_below (view value.now)) }
{
    match value.as_array() {
        Some(array) => names_in(alloc, array),
        None => Ok(Vec::new(alloc)),
    }
}

/// The strings of the array at a key, if there is a value.
pub(crate) fn names_at(
    alloc: Global,
    table: &Table,
    key: Key,
) -> Result<Option<Sequence<Text>>, AllocError>
    ensures { IfOk result (λ names. names ≡ spec.names_at key (table_view table.now)) }
{
    match value_at(table, key) {
        Some(value) => Ok(Some(Sequence::new(names_below(alloc, value)?))),
        None => Ok(None),
    }
}

fn one(alloc: Global, table: &Table) -> Result<Vec<&Table>, AllocError>
    ensures { IfOk result (λ ts. views ts.items ≡ table_view table.now ∷ []) }
{
    let mut tables = Vec::new(alloc);
    tables.push(table)?;
    Ok(tables)
}

fn tables_below(alloc: Global, value: &Value) -> Result<Vec<&Table>, AllocError>
    ensures { IfOk result (λ ts. views ts.items ≡ spec.tables_below (view value.now)) }
{
    if let Some(table) = value.as_table() {
        return one(alloc, table);
    }
    match value.as_array() {
        Some(array) => tables_in(alloc, array),
        None => Ok(Vec::new(alloc)),
    }
}

fn tables_at(alloc: Global, top: &Table, key: Key) -> Result<Vec<&Table>, AllocError>
    ensures { IfOk result (λ ts. views ts.items ≡ spec.tables_at key (table_view top.now)) }
{
    match value_at(top, key) {
        Some(value) => tables_below(alloc, value),
        None => Ok(Vec::new(alloc)),
    }
}

/// The tables of a section, in the order of the document.
pub(crate) fn tables_of(
    alloc: Global,
    section: Section,
    top: &Table,
) -> Result<Vec<&Table>, AllocError>
    ensures { IfOk result (λ ts.
        views ts.items ≡ spec.tables_of section (table_view top.now)) }
{
    match section.key() {
        Some(key) => tables_at(alloc, top, key),
        None => one(alloc, top),
    }
}

//! The value at a key of a flow file, as a message quotes it.

use crate::keys::{Key, TablePath};
use std::alloc::{AllocError, Global};
use std::convert::AsStr;
use toml::{Table, Value};

// The table of this number in the array at a key.
fn table_at(table: &Table, key: Key, number: usize) -> Option<&Table> {
    let value = table.get(key.as_str())?;
    let array = value.as_array()?;
    array.get(number)?.as_table()
}

fn table_of(top: &Table, path: TablePath) -> Option<&Table> {
    match path {
        TablePath::Top => Some(top),
        TablePath::Group(group) => table_at(top, Key::Group, group),
        TablePath::Entry(group, index) => {
            table_at(table_at(top, Key::Group, group)?, Key::Entry, index)
        }
    }
}

// A string's own text, and any other value as TOML writes it.
fn text_of(alloc: Global, value: &Value) -> Result<String, AllocError> {
    match value.as_str() {
        Some(text) => text.to_string(alloc),
        None => value.to_string(alloc),
    }
}

/// The value at a key of a table of a flow file: a string's own text, or any other value as TOML
/// writes it. `None` if there is no such table or key, if the text is not TOML, or if memory is
/// refused: it is for a message that can do without.
pub fn value_at(alloc: Global, text: &str, path: TablePath, key: Key) -> Option<String> {
    let top = toml::table_from_str(alloc, text).ok()?;
    let table = table_of(&top, path)?;
    let value = table.get(key.as_str())?;
    text_of(alloc, value).ok()
}

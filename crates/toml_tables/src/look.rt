//! What stands at the keys of a table, and the tables in an array.

ghost use Rattle.std.specs.Prelude.{◌≡◌, option_map, IfOk};
ghost use Rattle.toml.specs.Data.{get_member};
ghost use Rattle.toml.specs.Text.{are_tables};
ghost use Rattle.toml.specs.View.{view, table_view, array_view};
ghost use Rattle.toml_tables.specs.Tables as spec;

use std::alloc::{AllocError, Global};
use std::convert::AsStr;
use toml::value::Array;
use toml::{Table, Value};

/// The value at a key.
pub fn value_at<K: AsStr + Copy>(table: &Table, key: K) -> Option<&Value>
    ensures { option_map (λ v. view v.now) result
        ≡ get_member (K.text key) (table_view table.now) }
{
    table.get(key.as_str())
}

/// The string at a key, or an empty one if there is no string.
pub fn text_at<K: AsStr + Copy>(table: &Table, key: K) -> &str
    ensures { result.now ≡ spec.text_at (K.text key) (table_view table.now) }
{
    match value_at(table, key) {
        Some(value) => match value.as_str() {
            Some(text) => text,
            None => "",
        },
        None => "",
    }
}

/// The flag at a key.
pub fn flag_at<K: AsStr + Copy>(table: &Table, key: K) -> Option<bool>
    ensures { result ≡ spec.flag_at (K.text key) (table_view table.now) }
{
    match value_at(table, key) {
        Some(value) => value.as_bool(),
        None => None,
    }
}

/// The table at a key.
pub fn table_at<K: AsStr + Copy>(table: &Table, key: K) -> Option<&Table>
    ensures { option_map (λ t. table_view t.now) result
        ≡ spec.table_at (K.text key) (table_view table.now) }
{
    match value_at(table, key) {
        Some(value) => value.as_table(),
        None => None,
    }
}

/// Whether each item of an array is a table, as in an array that is written `[[KEY]]`.
pub fn are_tables(array: &Array) -> bool
    ensures { result ≡ are_tables (array_view array.now) }
{
    for item in array {
        if !item.is_table() {
            return false;
        }
    }
    true
}

/// The tables among the items of an array.
pub fn tables_in(alloc: Global, array: &Array) -> Result<Vec<&Table>, AllocError>
    ensures { IfOk result (λ ts. spec.views ts.items ≡ spec.tables_in (array_view array.now)) }
{
    let mut tables = Vec::new(alloc);
    for value in array {
        if let Some(table) = value.as_table() {
            tables.push(table)?;
        }
    }
    Ok(tables)
}

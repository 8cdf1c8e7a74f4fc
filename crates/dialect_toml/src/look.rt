//! What stands in the tables of a document.

ghost use Rattle.std.specs.Prelude.{◌≡◌, ◌≤◌, IfOk, IfSome};
ghost use Rattle.toml.specs.View.{table_view};
ghost use Rattle.toml_tables.specs.Tables.{views};
ghost use Rattle.dialect_toml.specs.Tables as spec;

use crate::keys::Key;
use crate::words::{FieldClass, word_in};
use std::alloc::{AllocError, Global};
use toml::Table;
use toml_tables::{flag_at, tables_in, text_at, value_at};

/// Whether a table has a value at a key.
pub(crate) fn stands(table: &Table, key: Key) -> bool
    ensures { result ≡ spec.stands (table_view table.now) key }
{
    value_at(table, key).is_some()
}

fn within(most: u16, number: i64) -> Option<u16>
    ensures within { result ≡ spec.within most number }
    ensures most { IfSome result (λ n. n ≤ most) }
{
    if 0 <= number && number <= most as i64 {
        Some(number as u16)
    } else {
        None
    }
}

/// The number at a key, or `None` if there is no number or one that is out of range.
pub(crate) fn number_at(table: &Table, key: Key, most: u16) -> Option<u16>
    ensures number { result ≡ spec.number_at most key (table_view table.now) }
    ensures most { IfSome result (λ n. n ≤ most) }
{
    match value_at(table, key) {
        Some(value) => match value.as_integer() {
            Some(number) => within(most, number),
            None => None,
        },
        None => None,
    }
}

/// The number of a field's table.
pub(crate) fn number_of(table: &Table) -> u16
    ensures { result ≡ spec.number_of (table_view table.now) }
{
    number_at(table, Key::Number, 128).unwrap_or(0)
}

/// The length of a field's table.
pub(crate) fn length_of(table: &Table) -> u16
    ensures length { result ≡ spec.length_of (table_view table.now) }
    ensures most { result ≤ 9999 }
{
    match number_at(table, Key::Length, 9_999) {
        Some(length) => length,
        None => 0,
    }
}

/// Whether the field of a table is kept.
pub(crate) fn is_kept(table: &Table) -> bool
    ensures { result ≡ spec.is_kept (table_view table.now) }
{
    flag_at(table, Key::Keep).unwrap_or(true)
}

/// The class of a field's table.
pub(crate) fn class_of(table: &Table) -> FieldClass
    ensures { result ≡ spec.class_of (table_view table.now) }
{
    word_in(FieldClass::all(), text_at(table, Key::Class)).unwrap_or(FieldClass::IfChar)
}

/// The tables of the fields, in the order of the file.
pub(crate) fn fields_of(alloc: Global, top: &Table) -> Result<Vec<&Table>, AllocError>
    ensures { IfOk result (λ ts. views ts.items ≡ spec.fields_of (table_view top.now)) }
{
    match value_at(top, Key::Field) {
        Some(value) => match value.as_array() {
            Some(array) => tables_in(alloc, array),
            None => Ok(Vec::new(alloc)),
        },
        None => Ok(Vec::new(alloc)),
    }
}

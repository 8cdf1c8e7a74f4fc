//! The first fault of the tables of a document.

ghost use Rattle.std.specs.Prelude.{◌≡◌, option_map, IfOk};
ghost use Rattle.std.specs.Char.{is_ascii_hexdigit};
ghost use Rattle.std.specs.List.{list_all};
ghost use Rattle.sw_base.specs.Refusals.{first_at};
ghost use Rattle.toml.specs.View.{view, table_view, array_view};
ghost use Rattle.toml_tables.specs.Tables.{views};
ghost use Rattle.dialect_toml.specs.Faults as spec;

use crate::error::{FoundValue, TableError};
use crate::keys::{Key, Section, TablePath, Want};
use crate::look::{class_of, fields_of, is_kept, number_of, stands};
use crate::words::{BitmapClass, FieldClass, FrameLength, MtiClass, PageName, Side, word_in};
use std::alloc::{AllocError, Global};
use sw_participant::Text;
use toml::value::Array;
use toml::{Table, Value};
use toml_tables::{are_tables, table_at, unknown_key, value_at};

fn are_hex_digits(text: &str) -> bool
    ensures { result ≡ list_all is_ascii_hexdigit text.now }
{
    text.as_bytes().iter().all(|byte| byte.is_ascii_hexdigit())
}

fn fits_text(want: Want, text: &str) -> bool
    ensures { result ≡ spec.fits_text want text.now }
{
    match want {
        Want::Hex(most) => { text.len() % 2 == 0 && text.len() / 2 <= most && are_hex_digits(text) }
        Want::FrameLength => word_in(FrameLength::all(), text).is_some(),
        Want::MtiClass => word_in(MtiClass::all(), text).is_some(),
        Want::BitmapClass => word_in(BitmapClass::all(), text).is_some(),
        Want::PageName => word_in(PageName::all(), text).is_some(),
        Want::Side => word_in(Side::all(), text).is_some(),
        Want::FieldClass => word_in(FieldClass::all(), text).is_some(),
        _ => false,
    }
}

fn fits_integer(want: Want, number: i64) -> bool
    ensures { result ≡ spec.fits_integer want number }
{
    match want {
        Want::Number(least, most) => {
            0 <= number && least <= number as u64 && number as u64 <= most
        }
        _ => false,
    }
}

fn fits_array(want: Want, array: &Array) -> bool
    ensures { result ≡ spec.fits_array want (array_view array.now) }
{
    match want {
        Want::Tables => are_tables(array),
        _ => false,
    }
}

fn fits(want: Want, value: &Value) -> bool
    ensures { result ≡ spec.fits want (view value.now) }
{
    match value {
        Value::String(text) => fits_text(want, text.as_str()),
        Value::Integer(number) => fits_integer(want, *number),
        Value::Boolean(_) => want == Want::Flag,
        Value::Array(array) => fits_array(want, array),
        Value::Table(_) => want == Want::Table,
        Value::Float(_) | Value::Datetime(_) => false,
    }
}

fn found(alloc: Global, value: &Value) -> Result<FoundValue, AllocError>
    ensures { IfOk result (λ f. f ≡ spec.found_of (view value.now)) }
{
    match value {
        Value::String(text) => Ok(FoundValue::Text(Text::from_str(alloc, text.as_str())?)),
        Value::Integer(number) => Ok(FoundValue::Integer(*number)),
        Value::Float(_) => Ok(FoundValue::Float),
        Value::Boolean(flag) => Ok(FoundValue::Flag(*flag)),
        Value::Datetime(_) => Ok(FoundValue::Date),
        Value::Array(_) => Ok(FoundValue::Array),
        Value::Table(_) => Ok(FoundValue::Table),
    }
}

fn bad_value(table: &Table, key: Key) -> Option<&Value>
    ensures { option_map (λ v. view v.now) result ≡ spec.bad_value (table_view table.now) key }
{
    let value = value_at(table, key)?;
    if fits(key.wants(), value) {
        None
    } else {
        Some(value)
    }
}

fn missing(path: TablePath, table: &Table) -> Option<TableError>
    ensures { result ≡ spec.missing_in path (table_view table.now) }
{
    for key in path.section.keys() {
        if key.is_required() && !stands(table, *key) {
            return Some(TableError::Missing(*key, path));
        }
    }
    None
}

fn bad(alloc: Global, path: TablePath, table: &Table) -> Result<Option<TableError>, AllocError>
    ensures { IfOk result (λ f. f ≡ spec.bad_in path (table_view table.now)) }
{
    for key in path.section.keys() {
        if let Some(value) = bad_value(table, *key) {
            return Ok(Some(TableError::BadValue(*key, path, found(alloc, value)?)));
        }
    }
    Ok(None)
}

fn unknown(alloc: Global, path: TablePath, table: &Table) -> Result<Option<TableError>, AllocError>
    ensures { IfOk result (λ f. f ≡ spec.unknown_in path (table_view table.now)) }
{
    match unknown_key(path.section.keys(), table) {
        Some(name) => {
            let name = Text::from_str(alloc, name.as_str())?;
            Ok(Some(TableError::Unknown(name, path)))
        }
        None => Ok(None),
    }
}

fn unpadded(path: TablePath, table: &Table, key: Key) -> Option<TableError>
    ensures { result ≡ spec.unpadded path (table_view table.now) key }
{
    let class = class_of(table);
    if stands(table, key) && !class.kind().is_padded() {
        Some(TableError::Unpadded(key, class, path))
    } else {
        None
    }
}

// What the class of a field excludes.
fn excluded(path: TablePath, table: &Table) -> Option<TableError>
    ensures { result ≡ spec.excluded_in path (table_view table.now) }
{
    let fault = unpadded(path, table, Key::Pad);
    if fault.is_some() {
        return fault;
    }
    let fault = unpadded(path, table, Key::PadHalf);
    if fault.is_some() {
        return fault;
    }
    let class = class_of(table);
    if class.kind().is_signed() && is_kept(table) {
        Some(TableError::Signed(class, path))
    } else {
        None
    }
}

// A table by itself, without the tables in it.
fn table_fault(
    alloc: Global,
    path: TablePath,
    table: &Table,
) -> Result<Option<TableError>, AllocError>
    ensures { IfOk result (λ f. f ≡ spec.table_fault path (table_view table.now)) }
{
    let fault = unknown(alloc, path, table)?;
    if fault.is_some() {
        return Ok(fault);
    }
    let fault = missing(path, table);
    if fault.is_some() {
        return Ok(fault);
    }
    bad(alloc, path, table)
}

fn path_of(section: Section, index: usize, table: &Table) -> TablePath
    ensures { result ≡ spec.path_of section index (table_view table.now) }
{
    TablePath {
        section,
        index,
        number: number_of(table),
    }
}

fn field_fault(alloc: Global, index: usize, table: &Table) -> Result<Option<TableError>, AllocError>
    ensures { IfOk result (λ f. f ≡ spec.field_fault index (table_view table.now)) }
{
    let path = path_of(Section::Field, index, table);
    let fault = table_fault(alloc, path, table)?;
    if fault.is_some() {
        return Ok(fault);
    }
    Ok(excluded(path, table))
}

// The fault of the table at a key of the top table.
fn fault_below(
    alloc: Global,
    section: Section,
    key: Key,
    top: &Table,
) -> Result<Option<TableError>, AllocError>
    ensures { IfOk result (λ f. f ≡ spec.fault_below section key (table_view top.now)) }
{
    match table_at(top, key) {
        Some(table) => table_fault(alloc, path_of(section, 0, table), table),
        None => Ok(None),
    }
}

fn fields_fault(alloc: Global, fields: &[&Table]) -> Result<Option<TableError>, AllocError>
    ensures { IfOk result (λ f. f ≡ first_at spec.field_fault 0 (views fields.now)) }
{
    for (index, table) in fields.iter().enumerate() {
        let fault = field_fault(alloc, index, table)?;
        if fault.is_some() {
            return Ok(fault);
        }
    }
    Ok(None)
}

fn is_taken(fields: &[&Table], number: u16) -> bool
    ensures { result ≡ spec.is_taken (views fields.now) number }
{
    for table in fields {
        if number_of(table) == number {
            return true;
        }
    }
    false
}

// Of 129 fields two have the same number, so that this ends soon.
fn double(fields: &[&Table]) -> Option<TableError>
    ensures { result ≡ first_at (spec.double (views fields.now)) 0 (views fields.now) }
{
    for (index, table) in fields.iter().enumerate() {
        if is_taken(&fields[..index], number_of(table)) {
            return Some(TableError::Double(path_of(Section::Field, index, table)));
        }
    }
    None
}

/// The first fault of a document.
#[tactic(auto, unfolding(crate::specs::Faults::first_fault))]
pub(crate) fn first_fault(alloc: Global, top: &Table) -> Result<Option<TableError>, AllocError>
    ensures { IfOk result (λ f. f ≡ spec.first_fault (table_view top.now)) }
{
    let fault = table_fault(alloc, path_of(Section::Top, 0, top), top)?;
    if fault.is_some() {
        return Ok(fault);
    }
    let fault = fault_below(alloc, Section::Frame, Key::Frame, top)?;
    if fault.is_some() {
        return Ok(fault);
    }
    let fault = fault_below(alloc, Section::Message, Key::Message, top)?;
    if fault.is_some() {
        return Ok(fault);
    }
    let fields = fields_of(alloc, top)?;
    let fault = fields_fault(alloc, fields.as_slice())?;
    if fault.is_some() {
        return Ok(fault);
    }
    Ok(double(fields.as_slice()))
}

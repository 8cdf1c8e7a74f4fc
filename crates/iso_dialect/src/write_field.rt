//! The bytes that a field is written as.

ghost use Rattle.std.specs.Prelude.{◌≡◌, ◌<◌, ◌≤◌, ◌^◌, ◌++◌, ◌∷◌, [], length, drop, true, None, Some, OnOk};
ghost use Rattle.iso_msg.specs.Table.{form_of};
ghost use Rattle.iso_msg.specs.Values.{refusal};
ghost use Rattle.iso_dialect.specs.Profiles.{has_room, is_count, is_count_pad};
ghost use Rattle.iso_dialect.specs.Writings.{can_write, count_of, decimals, field_bytes, has_bytes, has_value_bytes};
ghost use Rattle.iso_dialect.specs.Writings.{is_size, is_sound, is_sound_at, number_bytes, size_bytes, text_bytes, text_for, value_bytes};

use crate::coding::Coding;
use crate::read::push_hex;
use crate::refuse::scale_of;
use crate::row::{Count, Row, Size};
use crate::text::Text;
use crate::write_text::{can_code, push_coded};
use iso_msg::{FieldForm, form_at};
use std::alloc::AllocError;

fn fits_size(size: Size, count: usize) -> bool
    ensures { result ≡ is_size size count }
{
    match size {
        Size::Exact(exact) => count == exact as usize,
        Size::Counted { most, .. } => count <= most as usize,
    }
}

/// How many are counted of a text.
fn count(coding: Coding, text: &[u8]) -> usize
    ensures { result ≡ count_of coding text.now }
{
    text.len() / scale_of(coding)
}

/// Whether a row has bytes for this text.
fn takes_text(row: Row, text: &[u8]) -> bool
    ensures { result ≡ has_bytes row text.now }
{
    can_code(row.coding, text) && fits_size(row.size, count(row.coding, text))
}

fn takes_value(row: Row, form: FieldForm, value: &[u8]) -> bool
    requires { length (text_for form value.now) ≤ 999 }
    ensures { result ≡ has_value_bytes row (Some form) value.now }
{
    match form {
        FieldForm::Fixed { .. } | FieldForm::Variable { .. } => takes_text(row, value),
        FieldForm::Binary => {
            let mut text = Text::new();
            push_hex(&mut text, value);
            takes_text(row, text.as_slice())
        }
    }
}

/// Whether a field that the switch has in this form can be written, or is left out.
pub fn takes_form(row: Option<Row>, form: FieldForm, value: &[u8]) -> bool
    requires { length (text_for form value.now) ≤ 999 }
    ensures { result ≡ can_write row (Some form) value.now }
{
    match row {
        Some(row) => !row.is_kept || takes_value(row, form, value),
        None => false,
    }
}

/// Whether a field can be written, or is left out.
pub fn takes_field(row: Option<Row>, number: u8, value: &[u8]) -> bool
    requires { refusal number value.now ≡ None }
    ensures { result ≡ can_write row (form_of number) value.now }
{
    match form_at(number) {
        Some(form) => takes_form(row, form, value),
        None => false,
    }
}

/// Writes a number in this many decimal digits.
fn push_decimals(
    out: &mut Vec<u8>,
    coding: Coding,
    digits: u16,
    number: usize,
) -> Result<(), AllocError>
    requires count { is_count (Size.Counted (Count.Digits coding digits) 0) ≡ true }
    requires pad { is_count_pad (Size.Counted (Count.Digits coding digits) 0) ≡ true }
    ensures { OnOk result (out.new.items
        ≡ out.old.items ++ number_bytes (Count.Digits coding digits) number) }
{
    let all = [
        b'0' + (number / 1000 % 10) as u8,
        b'0' + (number / 100 % 10) as u8,
        b'0' + (number / 10 % 10) as u8,
        b'0' + (number % 10) as u8,
    ];
    push_coded(out, coding, &all[4 - digits as usize..])
}

fn push_number(out: &mut Vec<u8>, count: Count, number: usize) -> Result<(), AllocError>
    requires count { is_count (Size.Counted count 0) ≡ true }
    requires pad { is_count_pad (Size.Counted count 0) ≡ true }
    requires room { has_room (Size.Counted count number) ≡ true }
    ensures { OnOk result (out.new.items ≡ out.old.items ++ number_bytes count number) }
{
    match count {
        Count::Digits { coding, digits } => push_decimals(out, coding, digits, number),
        Count::Byte => {
            out.push(number as u8)?;
            Ok(())
        }
        Count::TwoBytes => {
            out.push((number / 256) as u8)?;
            out.push((number % 256) as u8)?;
            Ok(())
        }
    }
}

/// Writes how many are counted.
fn push_size(out: &mut Vec<u8>, size: Size, number: usize) -> Result<(), AllocError>
    requires count { is_count size ≡ true }
    requires pad { is_count_pad size ≡ true }
    requires room { has_room size ≡ true }
    requires fits { is_size size number ≡ true }
    ensures { OnOk result (out.new.items ≡ out.old.items ++ size_bytes size number) }
{
    match size {
        Size::Exact(_) => Ok(()),
        Size::Counted { count, .. } => push_number(out, count, number),
    }
}

fn push_text(out: &mut Vec<u8>, row: Row, text: &[u8]) -> Result<(), AllocError>
    requires sound { is_sound row ≡ true }
    requires can { has_bytes row text.now ≡ true }
    requires small { length text.now ≤ 999 }
    ensures { OnOk result (out.new.items ≡ out.old.items ++ text_bytes row text.now) }
{
    push_size(out, row.size, count(row.coding, text))?;
    push_coded(out, row.coding, text)
}

fn push_value(out: &mut Vec<u8>, row: Row, form: FieldForm, value: &[u8]) -> Result<(), AllocError>
    requires sound { is_sound row ≡ true }
    requires can { has_value_bytes row (Some form) value.now ≡ true }
    requires small { length (text_for form value.now) ≤ 999 }
    ensures { OnOk result (out.new.items
        ≡ out.old.items ++ value_bytes row (Some form) value.now) }
{
    match form {
        FieldForm::Fixed { .. } | FieldForm::Variable { .. } => push_text(out, row, value),
        FieldForm::Binary => {
            let mut text = Text::new();
            push_hex(&mut text, value);
            push_text(out, row, text.as_slice())
        }
    }
}

/// Writes a field by its row; one that is left out has no bytes.
pub fn push_field(
    out: &mut Vec<u8>,
    row: Option<Row>,
    number: u8,
    value: &[u8],
) -> Result<(), AllocError>
    requires sound { is_sound_at row ≡ true }
    requires can { can_write row (form_of number) value.now ≡ true }
    requires valid { refusal number value.now ≡ None }
    ensures { OnOk result (out.new.items
        ≡ out.old.items ++ field_bytes row (form_of number) value.now) }
{
    let Some(row) = row else {
        return Ok(());
    };
    if !row.is_kept {
        return Ok(());
    }
    match form_at(number) {
        Some(form) => push_value(out, row, form, value),
        None => Ok(()),
    }
}

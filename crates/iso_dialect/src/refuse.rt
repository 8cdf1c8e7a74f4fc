//! What is wrong with a draft.

ghost use Rattle.std.specs.Prelude.{◌≡◌, ◌≤◌, ◌<◌, ◌^◌, true};
ghost use Rattle.sw_base.specs.Refusals.{first_at, first_of};
ghost use Rattle.iso_msg.specs.Table.{form_of};
ghost use Rattle.iso_dialect.specs.Profiles.{first_refusal, fits_table, has_room, has_text_length, is_count};
ghost use Rattle.iso_dialect.specs.Profiles.{is_count_pad, is_field, is_kept_at, is_pad, least_length};
ghost use Rattle.iso_dialect.specs.Profiles.{missing_in, needed, refusal_at, refusal_in, row_of, row_refusal};
ghost use Rattle.iso_dialect.specs.Profiles.{scale, some_fits, takes_digits, takes_hex};

use crate::coding::Coding;
use crate::error::ProfileError;
use crate::profile::{Draft, Peer};
use crate::row::{Count, Row, Size};
use iso_msg::{FieldForm, form_at};

/// How many characters stand for one that is counted.
pub fn scale_of(coding: Coding) -> usize
    ensures scale { result ≡ scale coding }
    ensures one { 1 ≤ result }
    ensures two { result ≤ 2 }
{
    match coding {
        Coding::Octets => 2,
        _ => 1,
    }
}

fn has_digits(coding: Coding) -> bool
    ensures { result ≡ takes_digits coding }
{
    !matches!(coding, Coding::Octets)
}

fn has_hex(coding: Coding) -> bool
    ensures { result ≡ takes_hex coding }
{
    !matches!(coding, Coding::Packed { .. })
}

fn has_pad(coding: Coding) -> bool
    ensures { result ≡ is_pad coding }
{
    match coding {
        Coding::Packed { pad, .. } => pad < 16,
        _ => true,
    }
}

/// Whether the text of a field's value in the switch may have this many characters.
pub fn fits_length(form: FieldForm, length: usize) -> bool
    ensures { result ≡ has_text_length form length }
{
    match form {
        FieldForm::Fixed { length: exact, .. } => length == exact as usize,
        FieldForm::Variable { max_length, .. } => length <= max_length as usize,
        FieldForm::Binary => length == 16,
    }
}

fn least_of(form: FieldForm) -> usize
    ensures least { result ≡ least_length form }
    ensures small { result < 65536 }
{
    match form {
        FieldForm::Fixed { length, .. } => length as usize,
        FieldForm::Variable { .. } => 0,
        FieldForm::Binary => 16,
    }
}

fn some_text_fits(size: Size, each: usize, form: FieldForm) -> bool
    requires one { 1 ≤ each }
    requires two { each ≤ 2 }
    ensures { result ≡ some_fits size each form }
{
    match size {
        Size::Exact(exact) => fits_length(form, each * exact as usize),
        Size::Counted { most, .. } => {
            let least = least_of(form);
            each * (least / each) == least && least / each <= most as usize
        }
    }
}

fn fits(row: Row, form: Option<FieldForm>) -> bool
    ensures { result ≡ fits_table row form }
{
    match form {
        Some(form) => some_text_fits(row.size, scale_of(row.coding), form),
        None => false,
    }
}

fn counts(size: Size) -> bool
    ensures { result ≡ is_count size }
{
    match size {
        Size::Counted {
            count: Count::Digits { coding, digits },
            ..
        } => { has_digits(coding) && 1 <= digits && digits <= 4 }
        _ => true,
    }
}

fn counts_enough(size: Size) -> bool
    requires { is_count size ≡ true }
    ensures { result ≡ has_room size }
{
    match size {
        Size::Counted {
            count: Count::Digits { digits, .. },
            most,
        } => { (most as u32) < 10u32.pow(digits as u32) }
        Size::Counted {
            count: Count::Byte,
            most,
        } => most < 256,
        _ => true,
    }
}

fn pads(size: Size) -> bool
    ensures { result ≡ is_count_pad size }
{
    match size {
        Size::Counted {
            count: Count::Digits { coding, .. },
            ..
        } => has_pad(coding),
        _ => true,
    }
}

fn refuse_row(number: u8, row: Row) -> Option<ProfileError>
    ensures { result ≡ row_refusal number row }
{
    let form = form_at(number);
    if number < 2 || number == 65 {
        return Some(ProfileError::NoField(number));
    }
    if row.is_kept && form.is_none() {
        return Some(ProfileError::NotInTable(number));
    }
    if row.is_kept && !fits(row, form) {
        return Some(ProfileError::NeverFits(number));
    }
    if !counts(row.size) {
        return Some(ProfileError::BadCount(number));
    }
    if !counts_enough(row.size) {
        return Some(ProfileError::CountTooSmall(number));
    }
    if !(pads(row.size) && has_pad(row.coding)) {
        return Some(ProfileError::BadPad(number));
    }
    None
}

fn refuse_at(number: u8, row: Option<Row>) -> Option<ProfileError>
    ensures { result ≡ refusal_at number row }
{
    match row {
        Some(row) => refuse_row(number, row),
        None => None,
    }
}

fn refuse_rows(rows: &[Option<Row>; 129]) -> Option<ProfileError>
    ensures { result ≡ first_at refusal_at 0 rows.now }
{
    for number in 0..129u8 {
        if let Some(e) = refuse_at(number, rows[number as usize]) {
            return Some(e);
        }
    }
    None
}

#[tactic(auto, unfolding(crate::specs::Profiles::refusal_in))]
fn refuse_draft(draft: &Draft) -> Option<ProfileError>
    ensures { result ≡ refusal_in draft.now }
{
    if !(has_digits(draft.mti) && has_pad(draft.mti)) {
        return Some(ProfileError::BadMtiCoding);
    }
    if !has_hex(draft.bitmap) {
        return Some(ProfileError::BadBitmapCoding);
    }
    refuse_rows(&draft.rows)
}

fn needed_by(peer: Peer) -> &'static [u8]
    ensures { result.now ≡ needed peer }
{
    match peer {
        Peer::Acquirer => &[2, 3, 4, 7, 11, 39, 41],
        Peer::Host => &[2, 4, 7, 11, 39, 41, 70, 90],
    }
}

/// The row of a number.
pub fn row_at(rows: &[Option<Row>; 129], number: u8) -> Option<Row>
    ensures { result ≡ row_of rows.now number }
{
    if number < 129 {
        rows[number as usize]
    } else {
        None
    }
}

fn keeps(rows: &[Option<Row>; 129], number: u8) -> bool
    ensures { result ≡ is_kept_at rows.now number }
{
    match row_at(rows, number) {
        Some(row) => row.is_kept,
        None => false,
    }
}

fn refuse_missing(rows: &[Option<Row>; 129], numbers: &[u8]) -> Option<ProfileError>
    ensures { result ≡ missing_in rows.now numbers.now }
{
    for number in numbers {
        if !keeps(rows, *number) {
            return Some(ProfileError::NotKept(*number));
        }
    }
    None
}

/// What is wrong with a draft first.
pub fn refuse(draft: &Draft, peer: Peer) -> Option<ProfileError>
    ensures { result ≡ first_refusal peer draft.now }
{
    match refuse_draft(draft) {
        Some(e) => Some(e),
        None => refuse_missing(&draft.rows, needed_by(peer)),
    }
}

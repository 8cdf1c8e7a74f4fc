//! From the tables of a document to the draft of a profile.

ghost use Rattle.std.specs.Prelude.{◌≡◌, ◌≤◌, option_map, IfOk};
ghost use Rattle.toml.specs.View.{table_view};
ghost use Rattle.toml_tables.specs.Tables.{views};
ghost use Rattle.dialect_toml.specs.Shapes as shapes;
ghost use Rattle.dialect_toml.specs.Rows as spec;

use crate::keys::Key;
use crate::look::{class_of, fields_of, is_kept, length_of, number_at, number_of};
use crate::words::{BitmapClass, FieldClass, Kind, Lead, MtiClass, PageName, Side, word_in};
use iso_dialect::{Coding, Count, Draft, Page, Row, Size};
use std::alloc::{AllocError, Global};
use toml::Table;
use toml_tables::{table_at, text_at};

fn is_on_right(table: &Table) -> bool
    ensures { result ≡ spec.is_on_right (table_view table.now) }
{
    matches!(
        word_in(Side::all(), text_at(table, Key::Pad)),
        Some(Side::Right)
    )
}

fn half_of(table: &Table) -> u8
    ensures { result ≡ spec.half_of (table_view table.now) }
{
    match number_at(table, Key::PadHalf, 15) {
        Some(half) => half as u8,
        None => 0,
    }
}

fn coding_by(kind: Kind, page: Page, on_right: bool, pad: u8) -> Coding
    ensures { result ≡ shapes.coding_by kind page on_right pad }
{
    match kind {
        Kind::Ascii | Kind::Hex | Kind::SignedAscii => Coding::Ascii,
        Kind::Ebcdic => Coding::Ebcdic(page),
        Kind::Packed => Coding::Packed { on_right, pad },
        Kind::Octets | Kind::SignedPacked => Coding::Octets,
    }
}

fn units(kind: Kind, length: u16) -> u16
    requires { length ≤ 9999 }
    ensures { result ≡ shapes.units kind length }
{
    match kind {
        Kind::Hex => 2 * length,
        Kind::SignedPacked => 1 + length / 2,
        _ => length,
    }
}

fn digits(coding: Coding, digits: u16, most: u16) -> Size
    ensures { result ≡ spec.counted coding digits most }
{
    Size::Counted {
        count: Count::Digits { coding, digits },
        most,
    }
}

fn size_by(lead: Lead, page: Page, most: u16) -> Size
    ensures { result ≡ shapes.size_by lead page most }
{
    match lead {
        Lead::Nothing => Size::Exact(most),
        Lead::Ascii(count) => digits(Coding::Ascii, count, most),
        Lead::Ebcdic(count) => digits(Coding::Ebcdic(page), count, most),
        Lead::Packed(count) => digits(
            Coding::Packed {
                on_right: false,
                pad: 0,
            },
            count,
            most,
        ),
        Lead::Byte => Size::Counted {
            count: Count::Byte,
            most,
        },
        Lead::TwoBytes => Size::Counted {
            count: Count::TwoBytes,
            most,
        },
    }
}

fn row_in(page: Page, table: &Table) -> Row
    ensures { result ≡ spec.row_in page (table_view table.now) }
{
    let class = class_of(table);
    Row {
        size: size_by(class.lead(), page, units(class.kind(), length_of(table))),
        coding: coding_by(class.kind(), page, is_on_right(table), half_of(table)),
        is_kept: is_kept(table),
    }
}

// The row of the field of this number.
fn row_of(page: Page, fields: &[&Table], number: u16) -> Option<Row>
    ensures { result ≡ spec.row_at page (views fields.now) number }
{
    for table in fields {
        if number_of(table) == number {
            return Some(row_in(page, table));
        }
    }
    None
}

#[tactic(auto, unfolding(crate::specs::Rows::rows_of))]
fn rows_of(page: Page, fields: &[&Table]) -> [Option<Row>; 129]
    ensures { result ≡ spec.rows_of page (views fields.now) }
{
    let mut rows: [Option<Row>; 129] = [None; 129];
    for number in 0..129u16 {
        rows[number as usize] = row_of(page, fields, number);
    }
    rows
}

/// The string at a key of the table `message`, or an empty one.
fn message_text<'a>(top: &'a Table, key: Key) -> &'a str
    ensures { result.now ≡ spec.message_text key (table_view top.now) }
{
    match table_at(top, Key::Message) {
        Some(table) => text_at(table, key),
        None => "",
    }
}

fn page_of(top: &Table) -> Page
    ensures { result ≡ spec.page_of (table_view top.now) }
{
    let name = word_in(PageName::all(), message_text(top, Key::Page));
    name.unwrap_or(PageName::Cp1047).page()
}

fn mti_of(top: &Table) -> Coding
    ensures { result ≡ spec.mti_of (table_view top.now) }
{
    let class = word_in(MtiClass::all(), message_text(top, Key::Type));
    class.unwrap_or(MtiClass::IfaNumeric).coding(page_of(top))
}

fn bitmap_of(top: &Table) -> Coding
    ensures { result ≡ spec.bitmap_of (table_view top.now) }
{
    let class = word_in(BitmapClass::all(), message_text(top, Key::Bitmap));
    class.unwrap_or(BitmapClass::IfaBitmap).coding(page_of(top))
}

/// The draft of a document.
#[tactic(auto, unfolding(crate::specs::Rows::draft_of))]
pub(crate) fn draft_of(alloc: Global, top: &Table) -> Result<Draft, AllocError>
    ensures { IfOk result (λ d. d ≡ spec.draft_of (table_view top.now)) }
{
    let fields = fields_of(alloc, top)?;
    Ok(Draft {
        mti: mti_of(top),
        bitmap: bitmap_of(top),
        rows: rows_of(page_of(top), fields.as_slice()),
    })
}

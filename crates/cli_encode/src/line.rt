//! One line of a text.

ghost use Rattle.std.specs.Prelude.{◌≡◌, false, MatchOption, Some};
ghost use Rattle.iso_msg.specs.Table.{form_of};
ghost use Rattle.cli_encode.specs.Lines as spec;

use crate::cut::{after, cut_at};
use iso_codec::read_binary;
use iso_msg::{FieldForm, Mti, form_at};
use itoa::Buffer;
use sw_base::decimal;

/// The value on a field's line.
#[derive(Clone, Copy)]
pub enum Value<'a> {
    /// The bytes as they are.
    Text(&'a [u8]),
    /// The bytes of a binary field, from their hexadecimal digits.
    Octets([u8; 8]),
}

impl Value<'_> {
    pub fn as_slice(&self) -> &[u8]
        ensures { result.now ≡ spec.value_of self.now }
    {
        match self {
            Value::Text(text) => text,
            Value::Octets(octets) => octets,
        }
    }
}

/// What a line says.
#[derive(Clone, Copy)]
pub enum Line<'a> {
    /// `message` and a word.
    Heading(&'a [u8]),
    /// `header` and a word.
    Header(&'a [u8]),
    /// `mti` and four digits.
    MessageType(Mti),
    /// A field's number and its value, of which only the form on the line is known: eight bytes in a binary field,
    /// and no line feed in any other.
    Field(u8, Value<'a>),
}

/// The number below 256 of which a word is the decimal digits, without leading zeros.
pub fn number_in(word: &[u8]) -> Option<u8>
    ensures { MatchOption result (spec.IsNoNumber word.now) (spec.IsNumberOf word.now) }
{
    if 3 < word.len() {
        return None;
    }
    let number = decimal(word)?;
    if 255 < number {
        return None;
    }
    let mut buffer = Buffer::new();
    if buffer.format(number).as_bytes() == word {
        Some(number as u8)
    } else {
        None
    }
}

// Whether any hexadecimal digit is in lower case.
fn has_lower(text: &[u8]) -> bool
    ensures { result ≡ spec.has_lower text.now }
{
    text.iter().any(|byte| b'a' <= *byte)
}

// The bytes of sixteen hexadecimal digits in upper case.
fn read_octets(number: u8, text: &[u8]) -> Option<[u8; 8]>
    ensures { MatchOption result (spec.IsNoValueOf (Some FieldForm.Binary) text.now)
        (spec.AreOctetsOf text.now) }
{
    if text.len() != 16 {
        return None;
    }
    if has_lower(text) {
        return None;
    }
    match read_binary(number, text) {
        Ok(parts) => {
            let octets = parts.0;
            Some(octets)
        }
        Err(_) => None,
    }
}

fn read_value(number: u8, text: &[u8]) -> Option<Value<'_>>
    requires { spec.has_byte 10 text.now ≡ false }
    ensures { MatchOption result (spec.IsNoValueOf (form_of number) text.entry.now)
        (spec.IsValueOf (form_of number) text.entry.now) }
{
    match form_at(number) {
        Some(FieldForm::Binary) => Some(Value::Octets(read_octets(number, text)?)),
        _ => Some(Value::Text(text)),
    }
}

fn read_type(digits: &[u8]) -> Option<Mti>
    ensures { MatchOption result (spec.IsNoType digits.now) (spec.IsTypeOf digits.now) }
{
    match Mti::new(digits) {
        Ok(mti) => Some(mti),
        Err(_) => None,
    }
}

fn read_field(line: &[u8]) -> Option<Line<'_>>
    requires { spec.has_byte 10 line.now ≡ false }
    ensures { MatchOption result (spec.SaysNoField line.entry.now) (spec.Says line.entry.now) }
{
    let (word, text) = cut_at(line, b' ')?;
    let number = number_in(word)?;
    let value = read_value(number, text)?;
    Some(Line::Field(number, value))
}

/// What a line says, which is given without its line feed; `None` if it has none of the four forms.
pub fn read_line(line: &[u8]) -> Option<Line<'_>>
    requires { spec.has_byte 10 line.now ≡ false }
    ensures { MatchOption result (spec.SaysNothing line.entry.now) (spec.Says line.entry.now) }
{
    if let Some(word) = after(line, b"message ") {
        return Some(Line::Heading(word));
    }
    if let Some(digits) = after(line, b"header ") {
        return Some(Line::Header(digits));
    }
    if let Some(digits) = after(line, b"mti ") {
        let mti = read_type(digits)?;
        return Some(Line::MessageType(mti));
    }
    read_field(line)
}

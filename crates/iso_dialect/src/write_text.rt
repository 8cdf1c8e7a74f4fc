//! The bytes that a text is written as.

ghost use Rattle.std.specs.Prelude.{◌≡◌, ◌≤◌, ◌+◌, ◌%◌, ◌++◌, [], length, map, true, OnOk};
ghost use Rattle.std.specs.List.{list_all};
ghost use Rattle.iso_msg.specs.Values.{is_text};
ghost use Rattle.iso_dialect.specs.Codings.{coded, half_of, hex_half, is_half, is_packed, is_upper_hex, is_writable, packed, padded};
ghost use Rattle.iso_dialect.specs.Pages.{code_in};

use crate::coding::{Coding, Page};
use crate::page::code_at;
use crate::text::Text;
use std::alloc::AllocError;

fn are_printable(text: &[u8]) -> bool
    ensures { result ≡ list_all is_text text.now }
{
    text.iter().all(|c| b' ' <= *c && *c <= b'~')
}

fn are_packed(text: &[u8]) -> bool
    ensures { result ≡ list_all is_packed text.now }
{
    text.iter().all(|c| b'0' <= *c && *c <= b'9' || *c == b'=')
}

fn are_upper_hex(text: &[u8]) -> bool
    ensures { result ≡ list_all is_upper_hex text.now }
{
    text.iter()
        .all(|c| b'0' <= *c && *c <= b'9' || b'A' <= *c && *c <= b'F')
}

/// Whether a coding has bytes for this text.
pub fn can_code(coding: Coding, text: &[u8]) -> bool
    ensures { result ≡ is_writable coding text.now }
{
    match coding {
        Coding::Ascii => true,
        Coding::Ebcdic(_) => are_printable(text),
        Coding::Packed { pad, .. } => pad < 16 && are_packed(text),
        Coding::Octets => text.len() % 2 == 0 && are_upper_hex(text),
    }
}

fn push_codes(out: &mut Vec<u8>, page: Page, text: &[u8]) -> Result<(), AllocError>
    ensures { OnOk result (out.new.items ≡ out.old.items ++ map (code_in page) text.now) }
{
    for c in text {
        out.push(code_at(page, *c))?;
    }
    Ok(())
}

/// The half of a byte for a character of packed digits.
fn packed_half(c: u8) -> u8
    ensures { result ≡ half_of c }
{
    if c == b'=' {
        13
    } else {
        c.saturating_sub(b'0')
    }
}

/// The half of a byte for an upper case hexadecimal digit.
fn octet_half(c: u8) -> u8
    ensures { result ≡ hex_half c }
{
    if c < 58 {
        c.saturating_sub(b'0')
    } else {
        c - 55
    }
}

fn push_packed_halves(list: &mut Text, text: &[u8])
    requires { length list.old + length text.now ≤ 1000 }
    ensures { list.new ≡ list.old ++ map half_of text.now }
{
    for c in text {
        list.push(packed_half(*c));
    }
}

fn push_octet_halves(list: &mut Text, text: &[u8])
    requires { length list.old + length text.now ≤ 1000 }
    ensures { list.new ≡ list.old ++ map hex_half text.now }
{
    for c in text {
        list.push(octet_half(*c));
    }
}

/// Adds the halves of digits, with the pad if their number is odd.
fn push_padded(list: &mut Text, on_right: bool, pad: u8, text: &[u8])
    requires empty { list.old ≡ [] }
    requires small { length text.now ≤ 999 }
    ensures { list.new ≡ padded on_right pad (map half_of text.now) }
{
    let is_odd = text.len() % 2 == 1;
    if is_odd && !on_right {
        list.push(pad);
    }
    push_packed_halves(list, text);
    if is_odd && on_right {
        list.push(pad);
    }
}

/// Writes a byte for each two halves.
fn push_pairs(out: &mut Vec<u8>, list: &[u8]) -> Result<(), AllocError>
    requires even { length list.now % 2 ≡ 0 }
    requires halves { list_all is_half list.now ≡ true }
    ensures { OnOk result (out.new.items ≡ out.old.items ++ packed list.now) }
{
    for i in 0..list.len() / 2 {
        out.push(16 * list[2 * i] + list[2 * i + 1])?;
    }
    Ok(())
}

fn push_packed(out: &mut Vec<u8>, on_right: bool, pad: u8, text: &[u8]) -> Result<(), AllocError>
    requires digits { is_writable (Coding.Packed on_right pad) text.now ≡ true }
    requires small { length text.now ≤ 999 }
    ensures { OnOk result (out.new.items
        ≡ out.old.items ++ coded (Coding.Packed on_right pad) text.now) }
{
    let mut list = Text::new();
    push_padded(&mut list, on_right, pad, text);
    push_pairs(out, list.as_slice())
}

fn push_octets(out: &mut Vec<u8>, text: &[u8]) -> Result<(), AllocError>
    requires digits { is_writable Coding.Octets text.now ≡ true }
    requires small { length text.now ≤ 999 }
    ensures { OnOk result (out.new.items ≡ out.old.items ++ coded Coding.Octets text.now) }
{
    let mut list = Text::new();
    push_octet_halves(&mut list, text);
    push_pairs(out, list.as_slice())
}

/// Writes a text that the coding has bytes for.
pub fn push_coded(out: &mut Vec<u8>, coding: Coding, text: &[u8]) -> Result<(), AllocError>
    requires can { is_writable coding text.now ≡ true }
    requires small { length text.now ≤ 999 }
    ensures { OnOk result (out.new.items ≡ out.old.items ++ coded coding text.now) }
{
    match coding {
        Coding::Ascii => {
            out.extend_from_slice(text)?;
            Ok(())
        }
        Coding::Ebcdic(page) => push_codes(out, page, text),
        Coding::Packed { on_right, pad } => push_packed(out, on_right, pad, text),
        Coding::Octets => push_octets(out, text),
    }
}

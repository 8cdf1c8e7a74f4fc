//! The text that bytes stand for.

ghost use Rattle.std.specs.Prelude.{◌≡◌, ◌<◌, ◌≤◌, ◌+◌, ◌*◌, ◌++◌, [], length, option_map};
ghost use Rattle.std.specs.List.{flat_map};
ghost use Rattle.iso_codec.specs.Reads.{put_before};
ghost use Rattle.iso_codec.specs.Spelling.{hex, upper};
ghost use Rattle.iso_dialect.specs.Codings.{byte_count, each, text_of};
ghost use Rattle.iso_dialect.specs.Pages.{char_in};

use crate::coding::{Coding, Page};
use crate::packed::{push_digits, push_halves, without_pad};
use crate::page::char_at;
use crate::text::Text;

pub fn upper_digit(d: u8) -> u8
    requires { d < 16 }
    ensures { result ≡ upper d }
{
    if d < 10 { b'0' + d } else { b'A' + (d - 10) }
}

fn push_bytes(text: &mut Text, bytes: &[u8])
    requires { length text.old + length bytes.now ≤ 1000 }
    ensures { text.new ≡ text.old ++ bytes.now }
{
    for b in bytes {
        text.push(*b);
    }
}

fn push_chars(text: &mut Text, page: Page, bytes: &[u8]) -> Option<()>
    requires { length text.old + length bytes.now ≤ 1000 }
    ensures { option_map (λ _. text.new) result
        ≡ put_before text.old (each (char_in page) bytes.now) }
{
    for b in bytes {
        let Some(c) = char_at(page, *b) else {
            return None;
        };
        text.push(c);
    }
    Some(())
}

/// Adds the text of octets.
pub fn push_hex(text: &mut Text, bytes: &[u8])
    requires { length text.old + 2 * length bytes.now ≤ 1000 }
    ensures { text.new ≡ text.old ++ flat_map hex bytes.now }
{
    for b in bytes {
        text.push(upper_digit(*b / 16));
        text.push(upper_digit(*b % 16));
    }
}

fn read_packed(text: &mut Text, on_right: bool, pad: u8, count: usize, bytes: &[u8]) -> Option<()>
    requires empty { text.old ≡ [] }
    requires small { count ≤ 999 }
    requires whole { length bytes.now ≡ byte_count (Coding.Packed on_right pad) count }
    ensures { option_map (λ _. text.new) result
        ≡ text_of (Coding.Packed on_right pad) count bytes.now }
{
    let mut list = Text::new();
    push_halves(&mut list, bytes);
    match without_pad(on_right, pad, count, list.as_slice()) {
        Some(digits) => push_digits(text, digits),
        None => None,
    }
}

/// Reads the text of this length that the bytes stand for, exactly if they stand for one.
pub fn read_text(text: &mut Text, coding: Coding, count: usize, bytes: &[u8]) -> Option<()>
    requires empty { text.old ≡ [] }
    requires small { count ≤ 999 }
    requires whole { length bytes.now ≡ byte_count coding count }
    ensures { option_map (λ _. text.new) result ≡ text_of coding count bytes.now }
{
    match coding {
        Coding::Ascii => {
            push_bytes(text, bytes);
            Some(())
        }
        Coding::Ebcdic(page) => push_chars(text, page, bytes),
        Coding::Packed { on_right, pad } => read_packed(text, on_right, pad, count, bytes),
        Coding::Octets => {
            push_hex(text, bytes);
            Some(())
        }
    }
}

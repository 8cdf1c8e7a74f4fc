//! Digits in the halves of bytes.

ghost use Rattle.std.specs.Prelude.{◌≡◌, ◌<◌, ◌≤◌, ◌+◌, ◌*◌, ◌/◌, ◌++◌, length, option_map, [], IfSome};
ghost use Rattle.std.specs.List.{flat_map};
ghost use Rattle.iso_codec.specs.Reads.{put_before};
ghost use Rattle.iso_dialect.specs.Codings.{char_of, each, halves, unpadded};

use crate::text::Text;

/// The character of a half of a byte.
fn char_at(half: u8) -> Option<u8>
    ensures { result ≡ char_of half }
{
    if half < 10 {
        return Some(b'0' + half);
    }
    if half == 13 { Some(b'=') } else { None }
}

/// Adds the halves of bytes, the high one of each first.
pub fn push_halves(list: &mut Text, bytes: &[u8])
    requires { length list.old + 2 * length bytes.now ≤ 1000 }
    ensures { list.new ≡ list.old ++ flat_map halves bytes.now }
{
    for b in bytes {
        list.push(*b / 16);
        list.push(*b % 16);
    }
}

/// The halves without the pad; `None` if another half stands in its place.
pub fn without_pad(on_right: bool, pad: u8, count: usize, list: &[u8]) -> Option<&[u8]>
    requires { length list.now ≡ 2 * ((count + 1) / 2) }
    ensures digits { option_map (λ s. s.now) result ≡ unpadded on_right pad count list.now }
    ensures short { IfSome result (λ s. length s.now ≤ length list.now) }
{
    if count % 2 == 0 {
        return Some(list);
    }
    if on_right {
        if list[count] == pad {
            Some(&list[..count])
        } else {
            None
        }
    } else {
        if list[0] == pad {
            Some(&list[1..])
        } else {
            None
        }
    }
}

/// Adds the characters of halves, if each of them has one.
pub fn push_digits(text: &mut Text, list: &[u8]) -> Option<()>
    requires { length text.old + length list.now ≤ 1000 }
    ensures { option_map (λ _. text.new) result
        ≡ put_before text.old (each char_of list.now) }
{
    for half in list {
        let Some(c) = char_at(*half) else {
            return None;
        };
        text.push(c);
    }
    Some(())
}

//! The strings and numbers of JSON.

ghost use Rattle.std.specs.Prelude.{◌≡◌, ◌<◌, ◌++◌, OnOk, map};
ghost use Rattle.std.specs.Fmt.{decimal};
ghost use Rattle.std.specs.List.{flat_map};
ghost use Rattle.sw_json.specs.Json as spec;

use itoa::Buffer;
use std::alloc::AllocError;

/// Whether a byte is printable ASCII.
pub fn is_printable(byte: u8) -> bool
    ensures { result ≡ spec.is_printable byte }
{
    32 <= byte && byte <= 126
}

fn hex_digit(value: u8) -> u8
    requires { value < 16 }
    ensures { result ≡ spec.hex_digit value }
{
    if value < 10 {
        b'0' + value
    } else {
        b'A' + (value - 10)
    }
}

fn push_escaped(text: &mut Vec<u8>, byte: u8) -> Result<(), AllocError>
    ensures { OnOk result (text.new.items ≡ text.old.items ++ spec.escaped byte) }
{
    match byte {
        34 => text.extend_from_slice(b"\\\""),
        92 => text.extend_from_slice(b"\\\\"),
        10 => text.extend_from_slice(b"\\n"),
        _ if is_printable(byte) => Ok(text.push(byte)?),
        _ => {
            text.extend_from_slice(b"\\u00")?;
            text.extend_from_slice(&[hex_digit(byte / 16), hex_digit(byte % 16)])
        }
    }
}

fn push_all_escaped(text: &mut Vec<u8>, bytes: &[u8]) -> Result<(), AllocError>
    ensures { OnOk result (text.new.items ≡ text.old.items ++ flat_map spec.escaped bytes.now) }
{
    for byte in bytes {
        push_escaped(text, *byte)?;
    }
    Ok(())
}

/// Adds a string. A byte that is not printable ASCII is escaped, as the character with that number.
#[tactic(auto, unfolding(crate::specs::Json::string))]
pub fn push_string(text: &mut Vec<u8>, value: &[u8]) -> Result<(), AllocError>
    ensures { OnOk result (text.new.items ≡ text.old.items ++ spec.string value.now) }
{
    text.extend_from_slice(b"\"")?;
    push_all_escaped(text, value)?;
    text.extend_from_slice(b"\"")
}

/// Adds a comma and a string.
pub fn push_next_string(text: &mut Vec<u8>, value: &[u8]) -> Result<(), AllocError>
    ensures { OnOk result (text.new.items ≡ text.old.items ++ spec.next_string value.now) }
{
    text.extend_from_slice(b",")?;
    push_string(text, value)
}

fn push_rest(text: &mut Vec<u8>, values: &[&str]) -> Result<(), AllocError>
    ensures { OnOk result (text.new.items
        ≡ text.old.items ++ flat_map spec.next_string (map (λ v. v.now) values.now)) }
{
    for value in values {
        push_next_string(text, value.as_bytes())?;
    }
    Ok(())
}

/// Adds strings, separated by commas.
#[tactic(auto, unfolding(crate::specs::Json::strings))]
pub(crate) fn push_strings(text: &mut Vec<u8>, values: &[&str]) -> Result<(), AllocError>
    ensures { OnOk result (text.new.items
        ≡ text.old.items ++ spec.strings (map (λ v. v.now) values.now)) }
{
    match values.split_first() {
        Some((first, rest)) => {
            push_string(text, first.as_bytes())?;
            push_rest(text, rest)
        }
        None => Ok(()),
    }
}

/// Adds a number's decimal digits.
pub(crate) fn push_number(text: &mut Vec<u8>, number: u64) -> Result<(), AllocError>
    ensures { OnOk result (text.new.items ≡ text.old.items ++ decimal number) }
{
    let mut buffer = Buffer::new();
    text.extend_from_slice(buffer.format(number).as_bytes())
}

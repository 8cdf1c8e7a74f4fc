//! Bytes in hexadecimal digits, each digit in either case.
ghost use Rattle.std.specs.Prelude.{◌≡◌, IfOk, is_some, option_map};
ghost use Rattle.std.specs.Char.{is_ascii_hexdigit};
ghost use Rattle.std.specs.List.{list_all};
ghost use Rattle.cli_script.specs.Bytes.{byte_spelled, hex_spelled};

use hex::{FromHexError, decode, decode_to_slice};
use std::alloc::{AllocError, Global};

/// `HH`: a byte as just two hexadecimal digits.
pub fn read_byte(word: &str) -> Option<u8>
    ensures { result ≡ byte_spelled word.now }
{
    let mut byte = [0u8; 1];
    match decode_to_slice(word.as_bytes(), &mut byte) {
        Ok(()) => Some(byte[0]),
        Err(_) => None,
    }
}

fn has_hex_digits(word: &str) -> bool
    ensures { result ≡ list_all is_ascii_hexdigit word.now }
{
    word.as_bytes()
        .iter()
        .all(|digit| digit.is_ascii_hexdigit())
}

/// Whether a word is bytes of two hexadecimal digits each.
#[tactic(auto, using(crate::proofs::HexDigits::spells_bytes, crate::proofs::HexDigits::odd_spells_none))]
pub fn is_hex(word: &str) -> bool
    ensures { result ≡ is_some (hex_spelled word.now) }
{
    word.len() % 2 == 0 && has_hex_digits(word)
}

/// `HEX`: bytes of two hexadecimal digits each; `None` if the word is anything else.
pub fn read_hex(alloc: Global, word: &str) -> Result<Option<Vec<u8>>, AllocError>
    ensures { IfOk result (λ o. option_map (λ v. v.items) o ≡ hex_spelled word.now) }
{
    match decode(alloc, word.as_bytes()) {
        Ok(bytes) => Ok(Some(bytes)),
        Err(FromHexError::OutOfMemory) => Err(AllocError),
        Err(_) => Ok(None),
    }
}

//! The header on a line.

ghost use Rattle.std.specs.Prelude.{◌≡◌, IfOk, option_map};
ghost use Rattle.cli_encode.specs.Headers as spec;

use hex::{FromHexError, decode};
use iso_codec::push_hex;
use std::alloc::{AllocError, Global};

// Whether a header of this many bytes, at least 1 and at most 64, may stand on a line.
fn has_size(size: usize, header: &[u8]) -> bool
    ensures { result ≡ spec.has_size size header.now }
{
    header.len() == size && 0 < size && size <= 64
}

// Whether these are the upper case hexadecimal digits of a header.
fn is_spelled(alloc: Global, header: &[u8], digits: &[u8]) -> Result<bool, AllocError>
    ensures { IfOk result (λ b. b ≡ spec.is_spelled header.now digits.now) }
{
    let mut spelled = Vec::with_capacity(alloc, digits.len())?;
    push_hex(&mut spelled, header)?;
    Ok(spelled.as_slice() == digits)
}

/// The header of this many bytes whose upper case hexadecimal digits these are.
#[tactic(auto, unfolding(crate::specs::Headers::header_from))]
pub fn read_header(alloc: Global, size: usize, digits: &[u8]) -> Result<Option<Vec<u8>>, AllocError>
    ensures { IfOk result (λ header.
        option_map (λ bytes. bytes.items) header ≡ spec.header_from size digits.now) }
{
    let header = match decode(alloc, digits) {
        Ok(header) => header,
        Err(FromHexError::OutOfMemory) => return Err(AllocError),
        Err(_) => return Ok(None),
    };
    if has_size(size, &header) && is_spelled(alloc, &header, digits)? {
        Ok(Some(header))
    } else {
        Ok(None)
    }
}

//! A whole input.
ghost use Rattle.std.specs.Prelude.{◌≡◌, IfErr, IfOk, IfSome};
ghost use Rattle.cli_io.specs.Errors.{IsOfReading};
ghost use Rattle.cli_io.specs.Inputs.{IsSpentAt, reads_made, unread};

use crate::error::IoError;
use crate::input::Input;
use std::alloc::Global;
use std::io::Read;

/// How many bytes are read at once.
const PIECE: usize = 4096;

/// All the bytes that an input has still to give.
pub fn read_input<R: Read>(alloc: Global, input: &mut Input<R>) -> Result<Vec<u8>, IoError>
    ensures bytes { IfOk result (λ v. IfSome (unread R.remaining input.old) (λ xs. v.items ≡ xs)) }
    ensures reading { IfErr result IsOfReading }
    ensures too_many { IfErr result (IsSpentAt (reads_made input.new)) }
{
    let mut bytes = Vec::new(alloc);
    let mut buf = [0u8; PIECE];
    loop {
        let count = input.read_piece(&mut buf)?;
        if count == 0 {
            return Ok(bytes);
        }
        bytes.extend_from_slice(&buf[..count])?;
    }
}

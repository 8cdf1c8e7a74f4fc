//! A whole text, line by line.

ghost use Rattle.std.specs.Prelude.{◌≡◌, ◌<◌, ◌≤◌, ◌+◌, ◌^◌, false, length, IfErr, IfOk};
ghost use Rattle.cli_io.specs.declared.error.IoError.TheVariants.{OutOfMemory};
ghost use Rattle.cli_encode.specs.Lines.{has_byte};
ghost use Rattle.cli_encode.specs.Reading as spec;

use crate::cut::cut_at;
use crate::encoder::Encoder;
use crate::error::{Fault, TextError};
use crate::explain::{end_fault, fault_of};
use crate::line::read_line;
use cli_io::IoError;
use std::alloc::{AllocError, Global};

// Takes a line, and answers whether it is allowed there.
fn take_bytes(alloc: Global, encoder: &mut Encoder, line: &[u8]) -> Result<bool, AllocError>
    requires clean { has_byte 10 line.now ≡ false }
    requires room { encoder.old.count < 2 ^ 63 }
    requires short { length encoder.old.header.items ≤ 64 }
    ensures taken { IfOk result (spec.TakesBytes encoder.old line.now encoder.new) }
    ensures counted { encoder.new.count ≤ encoder.old.count + 1 }
    ensures short { length encoder.new.header.items ≤ 64 }
{
    match read_line(line) {
        Some(meaning) => encoder.take(alloc, &meaning),
        None => Ok(false),
    }
}

// Reads the lines of a text until one is refused, which is then reported.
fn read_text(
    alloc: Global,
    encoder: &mut Encoder,
    text: &[u8],
) -> Result<Option<TextError>, AllocError>
    requires blank { spec.IsBlank encoder.old.size encoder.old }
    requires small { length text.now < 2 ^ 63 }
    ensures { IfOk result (spec.IsReading encoder.old.size text.now encoder.new) }
{
    let mut rest = text;
    let mut lines = 0usize;
    while !rest.is_empty() {
        let Some((line, after)) = cut_at(rest, b'\n') else {
            return Ok(Some(TextError {
                line: lines + 1,
                fault: Fault::NoLineFeed,
            }));
        };
        if !take_bytes(alloc, encoder, line)? {
            return Ok(Some(TextError {
                line: lines + 1,
                fault: fault_of(encoder, line),
            }));
        }
        rest = after;
        lines += 1;
    }
    if encoder.finish(alloc)? {
        Ok(None)
    } else {
        Ok(Some(TextError {
            line: lines + 1,
            fault: end_fault(encoder),
        }))
    }
}

/// What the lines of a text make, until one is refused, which is then reported. Messages have headers of `size` bytes.
pub fn encoder_of(
    alloc: Global,
    size: usize,
    text: &[u8],
) -> Result<(Encoder, Option<TextError>), IoError>
    requires { length text.now < 2 ^ 63 }
    ensures read { IfOk result (λ read. spec.IsReading size text.now read.0 read.1) }
    ensures memory { IfErr result (λ e. e ≡ OutOfMemory) }
{
    let mut encoder = Encoder::new(alloc, size);
    let refusal = read_text(alloc, &mut encoder, text)?;
    Ok((encoder, refusal))
}

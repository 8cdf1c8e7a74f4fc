//! Writes to an output.
ghost use Rattle.std.specs.Prelude.{◌≤◌, IfErr, IfOk, OnErr, OnOk, length, take};
ghost use Rattle.std.specs.Io.KnownBytes.{Appends, Keeps};
ghost use Rattle.cli_io.specs.Errors.{IsOfWriting};
ghost use Rattle.cli_io.specs.Written.{AppendsBeginning};

use crate::error::IoError;
use std::io::{self, ErrorKind, Write};

// After this many writes a writer that keeps being interrupted is given up.
const MOST_WRITES: u64 = u64::MAX;

// Writes some of the bytes, none if it was interrupted; how many.
fn write_some<W: Write>(out: &mut W, bytes: &[u8]) -> Result<usize, IoError>
    ensures within { IfOk result (λ n. n ≤ length bytes.now) }
    ensures written { IfOk result (λ n.
        Appends (W.contents out.old) (W.contents out.new) (take n bytes.now)) }
    ensures writing { IfErr result IsOfWriting }
    ensures failed { OnErr result (Keeps (W.contents out.old) (W.contents out.new)) }
{
    match out.write(bytes) {
        Ok(0) => Err(IoError::from_write(io::Error::from(ErrorKind::WriteZero))),
        Ok(count) => Ok(count),
        Err(error) if error.kind() == ErrorKind::Interrupted => Ok(0),
        Err(error) => Err(IoError::from_write(error)),
    }
}

/// Writes all bytes. After an error a beginning of them was written. (The library's `write_all` does
/// not say what was written then.)
pub fn write_whole<W: Write>(out: &mut W, bytes: &[u8]) -> Result<(), IoError>
    ensures written { OnOk result (Appends (W.contents out.old) (W.contents out.new) bytes.now) }
    ensures writing { IfErr result IsOfWriting }
    ensures beginning { AppendsBeginning (W.contents out.old) (W.contents out.new) bytes.now }
{
    let mut done = 0;
    for _ in 0..MOST_WRITES {
        if done == bytes.len() {
            return Ok(());
        }
        done += write_some(out, &bytes[done..])?;
    }
    Err(IoError::from_write(io::Error::from(ErrorKind::TimedOut)))
}

/// Writes all bytes, and what the writer has kept back. After an error a beginning of the bytes was
/// written.
pub fn write_out<W: Write>(out: &mut W, bytes: &[u8]) -> Result<(), IoError>
    ensures written { OnOk result (Appends (W.contents out.old) (W.contents out.new) bytes.now) }
    ensures writing { IfErr result IsOfWriting }
    ensures beginning { AppendsBeginning (W.contents out.old) (W.contents out.new) bytes.now }
{
    write_whole(out, bytes)?;
    out.flush().map_err(IoError::from_write)
}

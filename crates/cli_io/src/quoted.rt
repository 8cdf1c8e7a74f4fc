//! Some bytes between quotation marks.

ghost use Rattle.std.specs.Prelude.{◌≡◌, ◌≤◌, length, Some};
ghost use Rattle.std.specs.List.{All};
ghost use Rattle.cli_io.specs.Quoting.{IsPrintable, quoted, shown};

use std::fmt;
use std::marker::Model;

const MAX_BYTES: usize = 40;

/// Some bytes between quotation marks: the first 40, each that is not printable ASCII as a full stop,
/// and ` ..` after the marks if some were left out. Takes no memory. Contracts see what is printed.
#[derive(Debug, Drop)]
pub struct Quoted {
    kept: [u8; 40],
    len: usize,
    is_cut: bool,
}

impl Model for Quoted {
    ghost use Rattle.std.specs.Prelude.{ℕ, List};

    ghost Value = { List ℕ };

    ghost use Rattle.cli_io.specs.Kept.{IsKept, printed};

    ghost view = { printed };

    ghost invariant = { IsKept };
}

fn shown(byte: u8) -> u8
    ensures { result ≡ shown byte }
{
    if b' ' <= byte && byte <= b'~' {
        byte
    } else {
        b'.'
    }
}

impl Quoted {
    ghost use Rattle.std.specs.Prelude.{◌≡◌};
    ghost use Rattle.cli_io.specs.Quoting.{quoted};

    /// These bytes for a message.
    pub fn of(bytes: &[u8]) -> Quoted
        ensures { result ≡ quoted bytes.now }
    {
        let mut kept = [b'.'; 40];
        let len = bytes.len().min(MAX_BYTES);
        for index in 0..len {
            kept[index] = shown(bytes[index]);
        }
        Quoted {
            kept,
            len,
            is_cut: bytes.len() > MAX_BYTES,
        }
    }
}

impl fmt::Display for Quoted {
    ghost output = { λ q. Some q };

    fn fmt<W: fmt::Write>(&self, f: &mut fmt::Formatter<W>) -> fmt::Result {
        let Ok(text) = str::from_utf8(&self.kept[..self.len]) else {
            unreachable!();
        };
        let end = if self.is_cut { " .." } else { "" };
        write!(f, "\"{text}\"{end}")
    }
}

/// What is printed of any bytes is printable ASCII of at most 45 characters: a law, and the function
/// does nothing.
pub fn quotations_are_short(bytes: &[u8])
    ensures printable { All IsPrintable (quoted bytes.now) }
    ensures short { length (quoted bytes.now) ≤ 45 }
{
    let _bytes = bytes;
}

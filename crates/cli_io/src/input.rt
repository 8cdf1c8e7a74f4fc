//! An input, read piece by piece with a bounded number of reads.
ghost use Rattle.std.specs.Prelude.{◌≤◌};

use crate::error::IoError;
use std::io::{self, ErrorKind, Read};

/// How many reads an input is given. One that has not ended by then may never end.
pub const MAX_READS: u32 = 1_048_576;

/// A reader whose reads are counted and bounded.
#[derive(Drop)]
pub struct Input<R> {
    reader: R,
    reads: u32,
    ghost bounded: { reads ≤ 1048576 },
}

impl<R: Read> Input<R> {
    ghost use Rattle.std.specs.Prelude.{◌≡◌, ◌≤◌, ◌<◌, ◌+◌, Err, IfErr, IfOk, length, take};
    ghost use Rattle.std.specs.Io.{ReadsAtMost};
    ghost use Rattle.std.specs.Io.KnownBytes.{Consumes, IsAtEnd, ReadConsumes};
    ghost use Rattle.cli_io.specs.Errors.{IsOfReading};
    ghost use Rattle.cli_io.specs.Inputs.{IsSpentAt, reads_made, unread};
    ghost use Rattle.cli_io.specs.declared.error.IoError.TheVariants.{TooManyReads};

    /// An input of which nothing is read yet.
    pub fn new(reader: R) -> Input<R>
        ensures unread { unread R.remaining result ≡ R.remaining reader }
        ensures reads { reads_made result ≡ 0 }
    {
        Input { reader, reads: 0 }
    }

    // The only code that reads: each read counts.
    fn read_once(&mut self, buf: &mut [u8]) -> io::Result<usize>
        requires { reads_made self.old < 1048576 }
        ensures counted { reads_made self.new ≡ reads_made self.old + 1 }
        ensures bound { ReadsAtMost result buf.new }
        ensures bytes { ReadConsumes (unread R.remaining self.old) (unread R.remaining self.new)
            result buf.new }
    {
        self.reads += 1;
        self.reader.read(buf)
    }

    /// Reads the next bytes into `buf`, and returns their number, which is 0 only at the end of the
    /// input. A read that was interrupted is made again, and counts.
    ///
    /// `TooManyReads` is reported at once if the reads are used up; what was read before stays
    /// valid.
    pub fn read_piece(&mut self, buf: &mut [u8]) -> Result<usize, IoError>
        requires { 0 < length buf.old }
        ensures piece { IfOk result (λ n. Consumes (unread R.remaining self.old)
            (unread R.remaining self.new) (take n buf.new)) }
        ensures bound { IfOk result (λ n. n ≤ length buf.new) }
        ensures end { IfOk result (λ n. n ≡ 0 → IsAtEnd (unread R.remaining self.new)) }
        ensures counted { IfOk result (λ n. reads_made self.old < reads_made self.new) }
        ensures reading { IfErr result IsOfReading }
        ensures too_many { IfErr result (IsSpentAt (reads_made self.new)) }
        ensures spent { reads_made self.old ≡ 1048576 → result ≡ Err TooManyReads }
    {
        while self.reads < MAX_READS {
            match self.read_once(buf) {
                Ok(count) => return Ok(count),
                Err(error) => {
                    if error.kind() != ErrorKind::Interrupted {
                        return Err(IoError::from_read(error));
                    }
                }
            }
        }
        Err(IoError::TooManyReads)
    }
}

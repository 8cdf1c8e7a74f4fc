//! The lines of an input, one after the other.
ghost use Rattle.std.specs.Prelude.{◌+◌, ◌*◌, ◌≤◌, drop, length};

use crate::piece::Piece;
use cli_io::{Input, IoError, MAX_READS};
use std::alloc::Global;
use std::io::Read;

/// How many bytes are read at once.
const PIECE: usize = 4096;

/// The lines of an input. Each is given as soon as it was read, before any byte after it is waited for.
#[derive(Drop)]
pub struct Lines<R> {
    input: Input<R>,
    /// What was read and not given yet.
    piece: Piece,
    /// How many pieces were read.
    pieces: u32,
    /// How many lines were given. Each has a byte, and a piece has at most `PIECE` of them.
    count: usize,
    ghost bounded: { pieces ≤ 1048576 },
    ghost counted: { count + length (drop piece.given piece.bytes.items) ≤ 4096 * pieces },
}

impl<R: Read> Lines<R> {
    ghost use Rattle.std.specs.Prelude.{◌≡◌, ◌≢◌, ◌+◌, ◌*◌, ◌≤◌, ◌<◌, ◌^◌, [], false, true};
    ghost use Rattle.std.specs.Prelude.{IfErr, IfOk, IfSome, MatchOption};
    ghost use Rattle.std.specs.Prelude.{length, option_map};
    ghost use Rattle.std.specs.Io.KnownBytes.{Keeps, IsAtEnd};
    ghost use Rattle.cli_io.specs.Errors.{IsOfReading};
    ghost use Rattle.cli_io.specs.Inputs.{unread};
    ghost use Rattle.cli_lines.specs.Lines.{IsNextLine, IsSpent, has_line, lines_given};
    ghost use Rattle.cli_lines.specs.Lines.{reads_for, room, to_come};
    ghost use Rattle.cli_lines.specs.Pieces.{left};

    /// The lines of an input, of which none was given yet.
    pub fn new(alloc: Global, input: Input<R>) -> Lines<R>
        ensures to_come { to_come R.remaining result ≡ unread R.remaining input }
        ensures count { lines_given result ≡ 0 }
    {
        Lines {
            input,
            piece: Piece::new(Vec::new(alloc)),
            pieces: 0,
            count: 0,
        }
    }

    /// How many lines were given.
    pub fn count(&self) -> usize
        ensures count { result ≡ lines_given self.now }
        ensures few { result ≤ 2 ^ 32 }
    {
        self.count
    }

    // Reads the next piece, when nothing is left of the last one; whether there is one.
    fn read_more(&mut self, alloc: Global) -> Result<bool, IoError>
        requires { left self.old.piece ≡ [] }
        ensures same { IfOk result (λ _. Keeps (to_come R.remaining self.old)
            (to_come R.remaining self.new)) }
        ensures end { IfOk result (λ more. more ≡ false → IsAtEnd (to_come R.remaining self.new)) }
        ensures some { IfOk result (λ more. more ≡ true → left self.new.piece ≢ []) }
        ensures count { lines_given self.new ≡ lines_given self.old }
        ensures pieces { IfOk result (λ _. self.new.pieces ≡ self.old.pieces + 1) }
        ensures few { length (left self.new.piece) ≤ 4096 }
        ensures reading { IfErr result IsOfReading }
        ensures too_many { IfErr result (IsSpent self.new) }
    {
        if self.pieces == MAX_READS {
            return Err(IoError::TooManyReads);
        }
        let mut bytes = [0u8; PIECE];
        let count = self.input.read_piece(&mut bytes)?;
        self.pieces += 1;
        self.piece = Piece::new(bytes[..count].to_vec(alloc)?);
        Ok(count > 0)
    }

    // Counts a line that has bytes, and gives it.
    fn counted(&mut self, line: Vec<u8>) -> Option<Vec<u8>>
        requires { lines_given self.old + length line.items + length (left self.old.piece)
            ≤ 4096 * self.old.pieces }
        ensures line { MatchOption result (line.items ≡ [])
            (λ given. (line.items ≢ []) × (given.items ≡ line.items)) }
        ensures count { MatchOption result (lines_given self.new ≡ lines_given self.old)
            (λ _. lines_given self.new ≡ lines_given self.old + 1) }
        ensures piece { self.new.piece ≡ self.old.piece }
        ensures pieces { self.new.pieces ≡ self.old.pieces }
        ensures input { self.new.input ≡ self.old.input }
    {
        if line.is_empty() {
            return None;
        }
        self.count += 1;
        Some(line)
    }

    /// The next line, with its line feed, which the last one may lack; `None` at the end of the input. A line
    /// that was read already is given without a read.
    ///
    /// After an error the line that was begun is lost.
    pub fn next(&mut self, alloc: Global) -> Result<Option<Vec<u8>>, IoError>
        ensures next { IfOk result (λ o. IsNextLine (to_come R.remaining self.old)
            (to_come R.remaining self.new) (option_map (λ line. line.items) o)) }
        ensures some { IfOk result (λ o. IfSome o (λ line. line.items ≢ [])) }
        ensures count { IfOk result (λ o. MatchOption o
            (lines_given self.new ≡ lines_given self.old)
            (λ _. lines_given self.new ≡ lines_given self.old + 1)) }
        ensures few { IfOk result (λ o. IfSome o (λ line.
            lines_given self.new + length line.items ≤ 2 ^ 32 + 1)) }
        ensures room { IfOk result (λ o. IfSome o (λ line.
            room self.new + length line.items ≤ room self.old)) }
        ensures small { room self.old ≤ 2 ^ 32 }
        ensures at_once { has_line self.old ≡ true → reads_for self.new ≡ reads_for self.old }
        ensures reading { IfErr result IsOfReading }
        ensures too_many { IfErr result (IsSpent self.new) }
    {
        let mut line = Vec::new(alloc);
        while !self.piece.give(&mut line)? {
            if !self.read_more(alloc)? {
                return Ok(self.counted(line));
            }
        }
        Ok(self.counted(line))
    }
}

//! The frames of a stream, read piece by piece.

ghost use Rattle.std.specs.Prelude.{◌≡◌, ◌<◌, ℕ, false, List, [], IfNone, IfOk, IfSome, Option, Some};
ghost use Rattle.std.specs.Prelude.{◌+◌, length, min};
ghost use Rattle.std.specs.Io.KnownBytes.{IsAtEnd};
ghost use Rattle.cli_io.specs.declared.error.IoError.{IoError};
ghost use Rattle.sw_frame.specs.Feeds.{messages};
ghost use Rattle.sw_frame.specs.Stream.{blank};
ghost use Rattle.run_input.specs.Requests.{EndsAs, FramesIn, ReadsOn};
ghost use Rattle.run_input.specs.declared.frames.StreamEnd.TheVariants.{BadLength, Unread};

use cli_io::IoError;
use std::alloc::Global;
use std::io::{self, ErrorKind, Read};
use sw_frame::{FrameError, Framer};
use sw_participant::NoMemory;

/// How many bytes are read at once.
pub const PIECE: usize = 65_536;

/// How a stream of frames ended. What came before is answered.
#[derive(Drop)]
pub enum StreamEnd {
    /// After a whole frame, or before the first.
    Whole,
    /// Where the frame of this number would begin, from 1, there are no four digits of length.
    BadLength(u64),
    /// Within a frame, of which this many bytes came.
    Truncated(usize),
    /// It could not be read any further.
    Unread(IoError),
}

/// What one read of a stream gave.
pub struct Piece {
    /// The messages that it completed.
    pub messages: Vec<Vec<u8>>,
    /// How the stream ended, if it did.
    pub end: Option<StreamEnd>,
}

/// The messages of a stream, and how many came.
pub struct Frames {
    framer: Framer,
    pub count: u64,
}

// Written out, so that no caller proves again how its parts are dropped.
impl Drop for Frames {
    fn drop(self) {
        let Frames {
            framer: _,
            count: _,
        } = self;
    }
}

impl Frames {
    pub fn new(alloc: Global) -> Frames
        ensures { result.framer ≡ blank }
    {
        Frames {
            framer: Framer::new(alloc),
            count: 0,
        }
    }

    // The messages that a piece completes.
    fn feed(&mut self, alloc: Global, piece: &[u8]) -> Result<Vec<Vec<u8>>, NoMemory>
        ensures { IfOk result (λ list.
            FramesIn piece.now (messages list.items) self.old.framer self.new.framer) }
    {
        match self.framer.feed(piece) {
            Ok(list) => Ok(list),
            Err(FrameError::OutOfMemory) => Err(NoMemory),
            // The framer has failed, and says so.
            Err(_) => Ok(Vec::new(alloc)),
        }
    }

    // How the stream ended, if it did, after a read that gave `count` bytes and completed `frames` frames.
    fn end_after(&self, count: usize, frames: usize) -> Option<StreamEnd>
        ensures number { (n : ℕ) → result ≡ Some (BadLength n)
            → n ≡ min (self.now.count + frames + 1) 18446744073709551615 }
        ensures ends { (left : Option (List ℕ)) → (count ≡ 0 → IsAtEnd left)
            → IfSome result (λ end. EndsAs end self.now.framer left) }
        ensures goes_on { IfNone result (self.now.framer.failed ≡ false) }
    {
        if self.framer.failed() {
            let before = self.count.saturating_add(frames as u64);
            return Some(StreamEnd::BadLength(before.saturating_add(1)));
        }
        if count > 0 {
            return None;
        }
        match self.framer.pending().len() {
            0 => Some(StreamEnd::Whole),
            bytes => Some(StreamEnd::Truncated(bytes)),
        }
    }

    /// Reads once. Refuses only for want of memory.
    pub fn read<R: Read>(
        &mut self,
        alloc: Global,
        input: &mut R,
        buf: &mut [u8],
    ) -> Result<Piece, NoMemory>
        requires room { 0 < length buf.old }
        requires sound { self.old.framer.failed ≡ false }
        ensures room { length buf.new ≡ length buf.old }
        ensures goes_on { IfOk result (λ piece.
            IfNone piece.end (self.new.framer.failed ≡ false)) }
        ensures reads { IfOk result (λ piece.
            ReadsOn (R.remaining input.old) self.old.framer (messages piece.messages.items)
            (R.remaining input.new) self.new.framer) }
        ensures ends { IfOk result (λ piece.
            IfSome piece.end (λ e. EndsAs e self.new.framer (R.remaining input.new))) }
    {
        let count = match input.read(buf) {
            Ok(count) => count,
            Err(error) if error.kind() == ErrorKind::Interrupted => {
                return Ok(Piece {
                    messages: Vec::new(alloc),
                    end: None,
                });
            }
            Err(error) => return unread(alloc, error),
        };
        let messages = self.feed(alloc, &buf[..count])?;
        let end = self.end_after(count, messages.len());
        Ok(Piece { messages, end })
    }
}

// A read failed. Out of memory ends the run, any other error the stream.
fn unread(alloc: Global, error: io::Error) -> Result<Piece, NoMemory>
    ensures none { IfOk result (λ piece. messages piece.messages.items ≡ []) }
    ensures unread { IfOk result (λ piece. (e : IoError) × (piece.end ≡ Some (Unread e))) }
{
    match IoError::from_read(error) {
        IoError::OutOfMemory => Err(NoMemory),
        other => Ok(Piece {
            messages: Vec::new(alloc),
            end: Some(StreamEnd::Unread(other)),
        }),
    }
}

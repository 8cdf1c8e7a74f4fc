//! Frames out of a stream that comes in pieces.

ghost use Rattle.std.specs.Prelude.{◌≡◌, ◌<◌, ◌≤◌, ◌+◌, ℕ, List, [], ◌++◌, length, take, drop, IfOk, true, false};
ghost use Rattle.sw_frame.specs.Stream.{IsPartial, State, Stream, blank};
ghost use Rattle.sw_frame.specs.Feeds.{messages, IsHeld, IsAnswer, MakesWhole, StreamGoesOnFrom};

use crate::digits::{LengthHeader, joined_header};
use crate::error::FrameError;
use crate::walk::take_frames;
use std::alloc::{AllocError, Global};
use std::marker::Model;

/// The message of a frame that lies in held bytes and the first bytes of a piece.
fn first_message(alloc: Global, held: &[u8], first: &[u8]) -> Result<Vec<u8>, AllocError>
    requires { 4 ≤ length (held.now ++ first.now) }
    ensures { IfOk result (λ v. v.items ≡ drop 4 (held.now ++ first.now)) }
{
    let digits = held.len().min(4);
    let (_, front) = held.split_at(digits);
    let (_, back) = first.split_at(4 - digits);
    let mut message = Vec::with_capacity(alloc, front.len() + back.len())?;
    message.extend_from_slice(front)?;
    message.extend_from_slice(back)?;
    Ok(message)
}

/// What a feed finds: messages, and what the framer is left with.
#[derive(Drop)]
struct FoundFrames {
    messages: Vec<Vec<u8>>,
    held: Vec<u8>,
    failed: bool,
}

/// The messages of the frame that the first bytes of a piece make whole, and of those that follow it.
fn finish(
    alloc: Global,
    held: &[u8],
    piece: &[u8],
    missing: usize,
) -> Result<FoundFrames, AllocError>
    requires within { missing ≤ length piece.now }
    requires whole { MakesWhole held.now piece.now missing }
    ensures { IfOk result (λ f. Stream (held.now ++ piece.now) (messages f.messages.items)
        (record { pending = f.held.items; failed = f.failed })) }
{
    let (first, rest) = piece.split_at(missing);
    let mut messages = Vec::new(alloc);
    messages.push(first_message(alloc, held, first)?)?;
    let walk = take_frames(alloc, messages, rest)?;
    let (_, pending) = rest.split_at(walk.taken);
    let held = if walk.bad {
        Vec::new(alloc)
    } else {
        Vec::from_slice(alloc, pending)?
    };
    Ok(FoundFrames {
        messages: walk.messages,
        held,
        failed: walk.bad,
    })
}

/// Finds the frames of a stream that comes in pieces. It holds the bytes of the frame that isn't whole yet.
pub struct Framer {
    held: Vec<u8>,
    failed: bool,
}

// Written out, so that no caller proves again how its parts are dropped.
impl Drop for Framer {
    fn drop(self) {
        let Framer { held: _, failed: _ } = self;
    }
}

impl Model for Framer {
    ghost Value = { State };

    ghost view = { λ f. record { pending = f.held.items; failed = f.failed } };

    ghost invariant = { λ f. IsHeld f.failed f.held.items };
}

impl Framer {
    /// A framer that was fed nothing yet. It takes no memory: `alloc` is where later bytes go.
    pub fn new(alloc: Global) -> Framer
        ensures { result ≡ blank }
    {
        Framer {
            held: Vec::new(alloc),
            failed: false,
        }
    }

    /// Whether it has met a length that isn't four digits.
    pub fn failed(&self) -> bool
        ensures failed { result ≡ self.now.failed }
        ensures held { IsHeld self.now.failed self.now.pending }
    {
        self.failed
    }

    /// The bytes of the unfinished frame: none once the framer has failed.
    pub fn pending(&self) -> &[u8]
        ensures { result.now ≡ self.now.pending }
    {
        &self.held
    }

    /// Takes the next piece of the stream, and returns the messages of the frames that are now whole.
    ///
    /// `BadLength` if the next frame's length isn't four digits, and for every piece after that. A piece with
    /// whole frames before such a length returns their messages; the pieces after it are refused.
    /// `OutOfMemory` comes last, and changes nothing.
    pub fn feed(&mut self, piece: &[u8]) -> Result<Vec<Vec<u8>>, FrameError>
        ensures answer { IsAnswer self.old piece.now result self.new }
        // However the stream was cut: the frames that were answered so far are those of the pieces joined.
        ensures so_far { StreamGoesOnFrom piece.now result self.old self.new }
    {
        self.advance(piece)
    }

    fn advance(&mut self, piece: &[u8]) -> Result<Vec<Vec<u8>>, FrameError>
        ensures answer { IsAnswer self.old piece.now result self.new }
    {
        if self.failed {
            return Err(FrameError::BadLength);
        }
        match joined_header(&self.held, piece) {
            LengthHeader::Short => self.hold(piece),
            LengthHeader::Bad => {
                self.held.clear();
                self.failed = true;
                Err(FrameError::BadLength)
            }
            LengthHeader::Length(length) => {
                let missing = 4 + length as usize - self.held.len();
                if piece.len() < missing {
                    self.hold(piece)
                } else {
                    self.take(piece, missing)
                }
            }
        }
    }

    /// Holds a piece that ends within the first frame.
    fn hold(&mut self, piece: &[u8]) -> Result<Vec<Vec<u8>>, FrameError>
        requires open { self.old.failed ≡ false }
        requires partial { IsPartial (self.old.pending ++ piece.now) }
        ensures { IsAnswer self.old piece.now result self.new }
    {
        self.held.extend_from_slice(piece)?;
        Ok(Vec::new(*self.held.allocator()))
    }

    /// Takes the frame that the first bytes of a piece make whole, and those that follow it.
    fn take(&mut self, piece: &[u8], missing: usize) -> Result<Vec<Vec<u8>>, FrameError>
        requires open { self.old.failed ≡ false }
        requires within { missing ≤ length piece.now }
        requires whole { MakesWhole self.old.pending piece.now missing }
        ensures { IsAnswer self.old piece.now result self.new }
    {
        let found = finish(*self.held.allocator(), &self.held, piece, missing)?;
        self.held = found.held;
        self.failed = found.failed;
        Ok(found.messages)
    }
}

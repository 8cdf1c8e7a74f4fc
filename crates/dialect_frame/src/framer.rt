//! Frames out of a stream that comes in pieces.

ghost use Rattle.std.specs.Prelude.{◌≡◌, ◌≤◌, ◌++◌, length, drop, IfOk, false};
ghost use Rattle.sw_frame.specs.Feeds.{messages};
ghost use Rattle.dialect_frame.specs.Feeds.{IsAnswer, IsHeld, MakesWhole, StreamGoesOnFrom};
ghost use Rattle.dialect_frame.specs.Forms.{IsPartial, start as start_of};
ghost use Rattle.dialect_frame.specs.Stream.{Stream, begun};

use crate::error::StreamError;
use crate::form::start;
use crate::lead::{Lead, lead_at};
use crate::walk::take_frames;
use dialect_toml::Frame;
use std::alloc::{AllocError, Global};
use std::marker::Model;

/// The message of a frame that lies in held bytes and the first bytes of a piece, after this many bytes.
fn first_message(
    alloc: Global,
    start: usize,
    held: &[u8],
    first: &[u8],
) -> Result<Vec<u8>, AllocError>
    requires { start ≤ length (held.now ++ first.now) }
    ensures { IfOk result (λ v. v.items ≡ drop start (held.now ++ first.now)) }
{
    let before = held.len().min(start);
    let (_, front) = held.split_at(before);
    let (_, back) = first.split_at(start - before);
    let mut message = Vec::with_capacity(alloc, front.len() + back.len())?;
    message.extend_from_slice(front)?;
    message.extend_from_slice(back)?;
    Ok(message)
}

/// What a feed finds: messages, and what the framer is left with.
#[derive(Drop)]
struct FoundFrames {
    messages: Vec<Vec<u8>>,
    held: Vec<u8>,
    failed: bool,
}

/// The messages of the frame that the first bytes of a piece make whole, and of those that follow it.
fn finish(
    alloc: Global,
    form: &Frame,
    held: &[u8],
    piece: &[u8],
    missing: usize,
) -> Result<FoundFrames, AllocError>
    requires within { missing ≤ length piece.now }
    requires whole { MakesWhole form.now held.now piece.now missing }
    ensures { IfOk result (λ f. Stream form.now (held.now ++ piece.now) (messages f.messages.items)
        (record { pending = f.held.items; failed = f.failed })) }
{
    let (first, rest) = piece.split_at(missing);
    let mut messages = Vec::new(alloc);
    messages.push(first_message(alloc, start(form), held, first)?)?;
    let walk = take_frames(alloc, form, messages, rest)?;
    let (_, pending) = rest.split_at(walk.taken);
    let held = if walk.bad {
        Vec::new(alloc)
    } else {
        Vec::from_slice(alloc, pending)?
    };
    Ok(FoundFrames {
        messages: walk.messages,
        held,
        failed: walk.bad,
    })
}

/// Finds the frames of a stream that comes in pieces. It holds the bytes of the frame that isn't whole yet.
pub struct Framer {
    form: Frame,
    held: Vec<u8>,
    failed: bool,
}

// Written out, so that no caller proves again how its parts are dropped.
impl Drop for Framer {
    fn drop(self) {
        let Framer {
            form: _,
            held: _,
            failed: _,
        } = self;
    }
}

impl Model for Framer {
    ghost use Rattle.dialect_frame.specs.Feeds.{IsHeld};
    ghost use Rattle.dialect_frame.specs.Stream.{Framing};

    ghost Value = { Framing };

    ghost view = { λ f. record {
      form = f.form;
      has = record { pending = f.held.items; failed = f.failed };
    } };

    ghost invariant = { λ f. IsHeld f.form f.failed f.held.items };
}

impl Framer {
    /// A framer of frames of this form, that was fed nothing yet. It takes no memory: `alloc` is where
    /// later bytes go.
    pub fn new(alloc: Global, form: Frame) -> Framer
        ensures { result ≡ begun form }
    {
        Framer {
            form,
            held: Vec::new(alloc),
            failed: false,
        }
    }

    /// Whether it has met bytes that are no length.
    pub fn failed(&self) -> bool
        ensures failed { result ≡ self.now.has.failed }
        ensures held { IsHeld self.now.form self.now.has.failed self.now.has.pending }
    {
        self.failed
    }

    /// The bytes of the unfinished frame: none once the framer has failed.
    pub fn pending(&self) -> &[u8]
        ensures { result.now ≡ self.now.has.pending }
    {
        &self.held
    }

    /// Takes the next piece of the stream, and returns the messages of the frames that are now whole.
    ///
    /// `BadLength` if the next bytes are the length of no message that may come, and for every piece after
    /// that. A piece with whole frames before such a length returns their messages; the pieces after it are
    /// refused. `OutOfMemory` comes last, and changes nothing.
    pub fn feed(&mut self, piece: &[u8]) -> Result<Vec<Vec<u8>>, StreamError>
        ensures answer { IsAnswer self.old piece.now result self.new }
        // However the stream was cut: the messages that were answered so far are those of the pieces joined.
        ensures so_far { StreamGoesOnFrom piece.now result self.old self.new }
    {
        self.advance(piece)
    }

    fn advance(&mut self, piece: &[u8]) -> Result<Vec<Vec<u8>>, StreamError>
        ensures { IsAnswer self.old piece.now result self.new }
    {
        if self.failed {
            return Err(StreamError::BadLength);
        }
        match lead_at(&self.form, &self.held, piece) {
            Lead::Short => self.hold(piece),
            Lead::Bad => {
                self.held.clear();
                self.failed = true;
                Err(StreamError::BadLength)
            }
            Lead::Message(length) => {
                let missing = start(&self.form) + usize::from(length) - self.held.len();
                if piece.len() < missing {
                    self.hold(piece)
                } else {
                    self.take(piece, missing)
                }
            }
        }
    }

    /// Holds a piece that ends within the first frame.
    fn hold(&mut self, piece: &[u8]) -> Result<Vec<Vec<u8>>, StreamError>
        requires open { self.old.has.failed ≡ false }
        requires partial { IsPartial self.old.form (self.old.has.pending ++ piece.now) }
        ensures { IsAnswer self.old piece.now result self.new }
    {
        self.held.extend_from_slice(piece)?;
        Ok(Vec::new(*self.held.allocator()))
    }

    /// Takes the frame that the first bytes of a piece make whole, and those that follow it.
    fn take(&mut self, piece: &[u8], missing: usize) -> Result<Vec<Vec<u8>>, StreamError>
        requires open { self.old.has.failed ≡ false }
        requires within { missing ≤ length piece.now }
        requires whole { MakesWhole self.old.form self.old.has.pending piece.now missing }
        ensures { IsAnswer self.old piece.now result self.new }
    {
        let alloc = *self.held.allocator();
        let found = finish(alloc, &self.form, &self.held, piece, missing)?;
        self.held = found.held;
        self.failed = found.failed;
        Ok(found.messages)
    }
}

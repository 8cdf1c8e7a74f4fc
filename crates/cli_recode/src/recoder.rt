//! Messages of a stream that comes in pieces.

ghost use Rattle.std.specs.Prelude.{◌≡◌, ◌||◌, IfOk, OnOk, false};
ghost use Rattle.sw_frame.specs.Feeds.{messages as messages_of};
ghost use Rattle.dialect_frame.specs.Stream.{begun};
ghost use Rattle.cli_recode.specs.Progress.{IsQuiet, IsQuietStep, RecodesPiece};
ghost use Rattle.cli_recode.specs.Recodings.{AreWritten, IsReason, IsWritten};
ghost use Rattle.cli_recode.specs.Streams.{is_cut};

use crate::error::RecodeError;
use crate::instead::instead_of;
use crate::message::{Recoding, recode_message};
use dialect_frame::{Framer, StreamError};
use dialect_toml::Frame;
use std::alloc::{AllocError, Global};
use std::io::Write;
use sw_participant::Text;

/// What becomes of messages: the frames that are written, and whether one was not recoded.
#[derive(Drop)]
struct Recoded {
    frames: Vec<u8>,
    refused: bool,
}

/// What is kept of one stream between the pieces.
#[derive(Drop)]
pub struct Recoder {
    framer: Framer,
    /// How many messages came, those that were not recoded included.
    count: u64,
    /// Whether a message was not recoded.
    refused: bool,
}

fn either(one: bool, other: bool) -> bool
    ensures { result ≡ (one || other) }
{
    one || other
}

// Reports why a message is not recoded; out of memory is no reason for that. If standard error takes nothing,
// the answer still says that something was refused.
fn report<E: Write>(
    err: &mut E,
    place: &Text,
    number: u64,
    error: &RecodeError,
) -> Result<(), AllocError>
    ensures { OnOk result (IsReason error.now) }
{
    if let RecodeError::OutOfMemory = error {
        return Err(AllocError);
    }
    let place = place.as_str();
    let _ = writeln!(err, "cardswitch: {place}message {number}: {error}");
    Ok(())
}

// What is written for one message, and whether it is not recoded, which is reported.
fn recode_one<E: Write>(
    alloc: Global,
    recoding: &Recoding,
    number: u64,
    message: &[u8],
    err: &mut E,
) -> Result<Recoded, AllocError>
    ensures written { IfOk result (λ r.
        IsWritten recoding.now message.now r.frames.items r.refused) }
    ensures quiet { IfOk result (λ r. IsQuiet r.refused (E.contents err.old)
        (E.contents err.new)) }
{
    match recode_message(alloc, recoding, message) {
        Ok(frames) => Ok(Recoded {
            frames,
            refused: false,
        }),
        Err(error) => {
            report(err, &recoding.place, number, &error)?;
            Ok(Recoded {
                frames: instead_of(alloc, recoding, message)?,
                refused: true,
            })
        }
    }
}

// What is written for messages, the first with number `first`. Those that are not recoded are reported.
fn recode_messages<E: Write>(
    alloc: Global,
    recoding: &Recoding,
    first: u64,
    messages: &[Vec<u8>],
    err: &mut E,
) -> Result<Recoded, AllocError>
    ensures written { IfOk result (λ r. AreWritten recoding.now (messages_of messages.now)
        r.frames.items r.refused) }
    ensures quiet { IfOk result (λ r. IsQuiet r.refused (E.contents err.old)
        (E.contents err.new)) }
{
    let mut recoded = Recoded {
        frames: Vec::new(alloc),
        refused: false,
    };
    let mut number = first;
    for message in messages {
        let one = recode_one(alloc, recoding, number, message, err)?;
        recoded.frames.extend_from_slice(&one.frames)?;
        recoded.refused = either(recoded.refused, one.refused);
        number = number.saturating_add(1);
    }
    Ok(recoded)
}

impl Recoder {
    ghost use Rattle.std.specs.Prelude.{◌≡◌, ◌||◌, [], IfOk, false, length};
    ghost use Rattle.cli_recode.specs.declared.message.Recoding.{Recoding};
    ghost use Rattle.dialect_frame.specs.Stream.{begun};
    ghost use Rattle.cli_recode.specs.Progress.{IsAfter, IsQuiet, IsQuietStep, RecodesPiece};
    ghost use Rattle.cli_recode.specs.Streams.{is_cut};

    /// A recoder of a stream with frames of this form, of which nothing has come yet.
    pub fn new(alloc: Global, form: Frame) -> Recoder
        ensures framer { result.framer ≡ begun form }
        ensures refused { result.refused ≡ false }
        ensures begun { (job : Recoding) → IsAfter form job [] [] [] result }
    {
        Recoder {
            framer: Framer::new(alloc, form),
            count: 0,
            refused: false,
        }
    }

    /// Whether a bad length was met: nothing more is recoded then.
    pub fn failed(&self) -> bool
        ensures { result ≡ self.now.framer.has.failed }
    {
        self.framer.failed()
    }

    /// Takes the next piece of the stream, and gives the frames of what its messages are recoded to.
    /// Messages that are not recoded are reported. The only refusal is out of memory, after which the rest
    /// of the stream cannot be recoded.
    pub fn piece<E: Write>(
        &mut self,
        alloc: Global,
        recoding: &Recoding,
        piece: &[u8],
        err: &mut E,
    ) -> Result<Vec<u8>, AllocError>
        ensures recoded { IfOk result (λ v. RecodesPiece recoding.now self.old piece.now
            self.new v.items) }
        ensures quiet { IfOk result (λ v. IsQuietStep self.old.refused self.new.refused
            (E.contents err.old) (E.contents err.new)) }
    {
        match self.framer.feed(piece) {
            Ok(messages) => {
                let first = self.count.saturating_add(1);
                let recoded = recode_messages(alloc, recoding, first, &messages, err)?;
                self.count = self.count.saturating_add(messages.len() as u64);
                self.refused = either(self.refused, recoded.refused);
                Ok(recoded.frames)
            }
            Err(StreamError::BadLength) => Ok(Vec::new(alloc)),
            Err(StreamError::OutOfMemory) => Err(AllocError),
        }
    }

    /// How many bytes of an unfinished frame came: none after a bad length.
    pub fn pending(&self) -> usize
        ensures { result ≡ length self.now.framer.has.pending }
    {
        self.framer.pending().len()
    }

    /// Reports the end of the stream, if it has a bad length or ends within a frame, and answers whether
    /// anything in the stream was refused.
    pub fn finish<E: Write>(&self, place: &Text, err: &mut E) -> bool
        ensures refused { result ≡ (self.now.refused || is_cut self.now.framer.has) }
        ensures quiet { IsQuiet result (E.contents err.old) (E.contents err.new) }
    {
        let pending = self.framer.pending().len();
        let (place, count) = (place.as_str(), self.count);
        if self.framer.failed() {
            let error = StreamError::BadLength;
            let _ = writeln!(err, "cardswitch: {place}after message {count}: {error}");
            return true;
        }
        if pending == 0 {
            return self.refused;
        }
        let _ = writeln!(
            err,
            "cardswitch: {place}after message {count}: found {pending} bytes; expected a whole frame"
        );
        true
    }
}

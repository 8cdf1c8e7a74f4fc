//! A stream that is recoded.

ghost use Rattle.std.specs.Prelude.{◌≡◌, [], OnErr, OnOk, false, length, true};
ghost use Rattle.std.specs.Io.KnownBytes.{Keeps};
ghost use Rattle.dialect_frame.specs.Stream.{begun};
ghost use Rattle.cli_recode.specs.Progress.{IsQuietStep};
ghost use Rattle.run_recode.specs.Flows.{FeedsOn, IsHandedOn, tail_at};

use crate::queue::Queue;
use cli_io::write_whole;
use cli_recode::{Recoder, Recoding};
use dialect_toml::Frame;
use std::alloc::{AllocError, Global};
use std::io::Write;

/// A stream that is recoded piece by piece, and what is still to be handed on of it.
pub struct Flow {
    pub recoder: Recoder,
    pub queue: Queue,
    /// Whether memory ran out, so that messages are missing.
    pub broken: bool,
}

// Written out, so that no caller proves again how its parts are dropped.
impl Drop for Flow {
    fn drop(self) {
        let Flow {
            recoder: _,
            queue: _,
            broken: _,
        } = self;
    }
}

// Writes lines at once, if there are any. If nothing takes them, they are lost.
fn tell<E: Write>(told: &mut E, lines: &[u8])
    ensures { lines.now ≡ [] → Keeps (E.contents told.old) (E.contents told.new) }
{
    if !lines.is_empty() {
        let _ = write_whole(told, lines);
    }
}

impl Flow {
    ghost use Rattle.std.specs.Prelude.{◌≡◌, [], OnErr, OnOk, false, length, true};
    ghost use Rattle.cli_recode.specs.Progress.{IsQuietStep};
    ghost use Rattle.run_recode.specs.Flows.{FeedsOn, IsHandedOn, tail_at};

    /// A stream with frames of this form, of which nothing has come yet.
    pub fn new(alloc: Global, form: Frame) -> Flow
        ensures sound { result.broken ≡ false }
        ensures begun { (job : Recoding) → IsHandedOn form job [] [] [] result }
    {
        Flow {
            recoder: Recoder::new(alloc, form),
            queue: Queue::new(alloc),
            broken: false,
        }
    }

    /// Takes the next piece of the stream, where nothing waits. Messages that are not recoded are told. The only
    /// refusal is out of memory, after which the stream is broken.
    pub fn feed<E: Write>(
        &mut self,
        alloc: Global,
        recoding: &Recoding,
        piece: &[u8],
        told: &mut E,
    ) -> Result<(), AllocError>
        requires { self.old.queue ≡ [] }
        ensures goes_on { OnOk result (FeedsOn recoding.now self.old piece.now self.new) }
        ensures sound { OnOk result (self.new.broken ≡ false) }
        ensures broken { OnErr result (self.new.broken ≡ true) }
        ensures quiet { OnOk result (IsQuietStep self.old.recoder.refused self.new.recoder.refused
            (E.contents told.old) (E.contents told.new)) }
    {
        self.broken = true;
        let mut lines = Vec::new(alloc);
        let recoded = self.recoder.piece(alloc, recoding, piece, &mut lines);
        tell(told, &lines);
        self.queue.put(recoded?);
        self.broken = false;
        Ok(())
    }

    /// Has the tail of a stream that has ended wait, where nothing does, and tells what is wrong at its end, if
    /// anything is. The only refusal is out of memory, which changes nothing.
    pub fn end<E: Write>(
        &mut self,
        alloc: Global,
        recoding: &Recoding,
        told: &mut E,
    ) -> Result<(), AllocError>
        requires { self.old.queue ≡ [] }
        ensures ends { OnOk result (self.new ≡ record self.old {
          queue = tail_at true self.old.recoder.framer.has;
        }) }
        ensures same { OnErr result (self.new ≡ self.old) }
    {
        let tail: &[u8] = if self.recoder.failed() {
            b"----"
        } else if self.recoder.pending() > 0 {
            b"0"
        } else {
            b""
        };
        let tail = Vec::from_slice(alloc, tail)?;
        if !tail.is_empty() {
            let mut lines = Vec::new(alloc);
            let _ = self.recoder.finish(&recoding.place, &mut lines);
            tell(told, &lines);
        }
        self.queue.put(tail);
        Ok(())
    }
}

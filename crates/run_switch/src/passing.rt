//! Messages that are passed over, since they cannot be read.

ghost use Rattle.std.specs.Prelude.{◌≡◌, ◌⊎◌, ◌∷◌, [], ℕ, List, IfOk, OnErr, OnOk, map};
ghost use Rattle.std.specs.Io.KnownBytes.{Appends};
ghost use Rattle.cli_io.specs.Written.{AppendsBeginning};
ghost use Rattle.sw_frame.specs.Stream.{AreFramed};
ghost use Rattle.run_switch.specs.Points.{Point};
ghost use Rattle.run_switch.specs.Rounds.{if_header, returning};
ghost use Rattle.run_switch.specs.Stopped.{Halts};
ghost use Rattle.run_switch.specs.Traces.{PassesOver, log_of};

use crate::edge::Edge;
use crate::error::ServeError;
use cli_io::write_out;
use run_input::PassedOver;
use std::alloc::Global;
use std::io::Write;
use std::time::Clock;
use sw_context::ContextError;
use sw_frame::{FrameError, frame};

// The frame of a header. A header is a part of a frame, so no header is too long for one.
fn framed(alloc: Global, number: u64, header: &[u8]) -> Result<Vec<u8>, ServeError>
    ensures { IfOk result (λ text. AreFramed text.items (header.now ∷ [])) }
{
    match frame(alloc, header) {
        Ok(text) => Ok(text),
        Err(FrameError::OutOfMemory) => Err(ServeError::OutOfMemory),
        Err(_) => Err(ServeError::Request(number, ContextError::ValueTooLong)),
    }
}

// Gives back the header of the message of this number, in a frame of its own. So who sent the message need not wait for a
// response. A header without bytes is not given back.
fn give_back<O: Write>(
    alloc: Global,
    number: u64,
    header: &[u8],
    out: &mut O,
) -> Result<(), ServeError>
    ensures gives { OnOk result ((text : List ℕ) × AreFramed text (if_header header.now)
        × Appends (O.contents out.old) (O.contents out.new) text) }
    ensures stops { OnErr result ((text : List ℕ)
        × ((text ≡ []) ⊎ AreFramed text (if_header header.now))
        × AppendsBeginning (O.contents out.old) (O.contents out.new) text) }
{
    if header.is_empty() {
        return Ok(());
    }
    let text = framed(alloc, number, header)?;
    Ok(write_out(out, &text)?)
}

/// Writes the line of a message that is passed over, and gives its header back.
pub(crate) fn pass_one<T: Clock, O: Write, E: Write>(
    edge: &mut Edge<'_, T, E>,
    message: &PassedOver,
    out: &mut O,
) -> Result<(), ServeError>
    ensures passes { OnOk result (PassesOver (message.now.header.items ∷ [])
        (O.contents out.old) (log_of E.contents edge.old.stderr)
        (O.contents out.new) (log_of E.contents edge.new.stderr)) }
    ensures halts { OnErr result ((p : Point) → Halts (returning (message.now.header.items ∷ []))
        p (O.contents out.old) (O.contents out.new)) }
{
    edge.stderr
        .pass_over(edge.alloc, message.number, &message.error)?;
    give_back(edge.alloc, message.number, &message.header, out)
}

/// Writes a line for each of these messages, and gives its header back.
pub(crate) fn pass_over<T: Clock, O: Write, E: Write>(
    edge: &mut Edge<'_, T, E>,
    list: &[PassedOver],
    out: &mut O,
) -> Result<(), ServeError>
    ensures passes { OnOk result (PassesOver (map (λ m. m.header.items) list.now)
        (O.contents out.old) (log_of E.contents edge.old.stderr)
        (O.contents out.new) (log_of E.contents edge.new.stderr)) }
    ensures halts { OnErr result ((p : Point)
        → Halts (returning (map (λ m. m.header.items) list.now))
        p (O.contents out.old) (O.contents out.new)) }
{
    for message in list {
        pass_one(edge, message, out)?;
    }
    Ok(())
}

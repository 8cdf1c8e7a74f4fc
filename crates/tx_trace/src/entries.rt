//! The line of an entry by its number, and what is to come for a session.

ghost use Rattle.std.specs.Prelude.{◌≡◌, IfOk, option_map, string_bytes};
ghost use Rattle.tx_engine.specs.Calls.{rest_of};
ghost use Rattle.tx_trace.specs.Lines.{line_in};

use crate::tracer::Tracer;
use std::alloc::{AllocError, Global};
use tx_engine::Engine;

/// The line of the entry of this number, without a line feed; none if there is no such entry.
/// The only refusal is out of memory.
///
/// It goes through all entries before that one; for all lines in turn, use a [`Tracer`].
pub fn line(alloc: Global, engine: &Engine, number: usize) -> Result<Option<String>, AllocError>
    ensures { IfOk result (λ line. option_map string_bytes line ≡ line_in engine.now number) }
{
    if number == 0 {
        return Ok(None);
    }
    Tracer::new(alloc, engine).line_at(alloc, engine, number)
}

/// The places (group, index) of the entries that are still to come in the session's transaction, the
/// next one first; none for an idle or unknown session. The only refusal is out of memory.
pub fn rest(alloc: Global, engine: &Engine, s: usize) -> Result<Vec<(usize, usize)>, AllocError>
    ensures { IfOk result (λ places. places.items ≡ rest_of engine.now s) }
{
    engine.rest(alloc, s)
}

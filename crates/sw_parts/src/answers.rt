//! What the participants answer to a preparation: bytes of the bits of `sw_participant::Answer`.

ghost use Rattle.std.specs.Prelude.{◌≡◌, IfOk, OnErr};
ghost use Rattle.sw_parts.specs.Checks.{Decided};

use sw_context::Context;
use sw_messages::{ResponseCode, note_code};
use sw_participant::{NO_JOIN, NoMemory, PREPARED, READONLY};

/// PREPARED, NO_JOIN and READONLY: the participant is ready without joining, and has nothing to save.
pub const PASSES: u8 = PREPARED | NO_JOIN | READONLY;

/// Only NO_JOIN: the participant refuses without joining.
pub const REFUSES: u8 = NO_JOIN;

/// PREPARED and NO_JOIN: the participant is ready without joining.
pub const LEAVES_NOTES: u8 = PREPARED | NO_JOIN;

/// PREPARED and READONLY: the participant is ready, wants to be notified of the outcome, and has nothing to
/// save.
pub const JOINS: u8 = PREPARED | READONLY;

/// The answer to a request with this fault, if it has one. The fault's response code is noted.
pub fn decide(fault: Option<ResponseCode>, context: &mut Context) -> Result<u8, NoMemory>
    ensures decided { IfOk result (λ byte. Decided fault context.old byte context.new) }
    ensures kept { OnErr result (context.new ≡ context.old) }
{
    let Some(code) = fault else {
        return Ok(PASSES);
    };
    note_code(context, code)?;
    Ok(REFUSES)
}

//! Whose participants a script runs.

ghost use Rattle.std.specs.Prelude.{IfErr};
ghost use Rattle.cli_step.specs.Prompts.{IsFaultOf, SomeIsMade};

use crate::error::StepError;
use std::alloc::Global;
use sw_participant::Text;
use sw_simulated::{Simulated, SimulatedSetup};

/// Whose participants a flow has.
#[derive(Drop)]
pub enum Cast {
    /// Each replies as the script's settings say.
    Scripted,
    /// They are the switch's own, over simulated issuers. The settings `answer`, `choose`, `advice` and `restore` have
    /// no effect.
    Switch(SimulatedSetup),
}

/// The switch's participant of a name.
pub fn own_participant(
    alloc: Global,
    setup: &SimulatedSetup,
    name: &str,
) -> Result<Simulated, StepError>
    ensures { IfErr result (IsFaultOf SomeIsMade) }
{
    match setup.participant(alloc, name)? {
        Some(participant) => Ok(participant),
        None => Err(StepError::NoParticipant(Text::from_str(alloc, name)?)),
    }
}

//! `auto`: one transaction with an empty context.

ghost use Rattle.std.specs.Prelude.{◌≡◌, ⊤, IfOk, OnErr, OnOk, string_bytes};
ghost use Rattle.tx_plant.specs.declared.turn.Outcome.{Outcome as AnOutcome};
ghost use Rattle.tx_plant.specs.Wholes.{engine_of};
ghost use Rattle.tx_trace.specs.Follow.{Follows};
ghost use Rattle.cli_step.specs.Auto.{Autos, Quietly, Round, ToEnd, is_accepted, is_idle, is_refused};
ghost use Rattle.cli_step.specs.Doing.{Adds, point_of};

use crate::error::ActionError;
use crate::turn_lines::push_turn;
use crate::turns::do_turn;
use sqlite::Alter;
use std::alloc::Global;
use sw_context::Context;
use tx_plant::{Outcome, Plant, Turn};
use tx_trace::Tracer;

/// More steps than a history can have entries, so that each `auto` ends by itself.
const MOST_STEPS: u32 = 1_048_577;

fn is_refused(outcome: &Outcome) -> bool
    ensures { result ≡ is_refused outcome.now }
{
    matches!(outcome, Outcome::Refused(_))
}

fn is_idle(outcome: &Outcome) -> bool
    ensures { result ≡ is_idle outcome.now }
{
    matches!(outcome, Outcome::Idle)
}

fn is_accepted(outcome: &Outcome) -> bool
    ensures { result ≡ is_accepted outcome.now }
{
    matches!(outcome, Outcome::Accepted(_))
}

// Does a turn, and adds its line only if it is refused.
fn quiet_turn<S: Alter>(
    alloc: Global,
    plant: &mut Plant<S>,
    tracer: &mut Tracer,
    turn: Turn,
    text: &mut String,
) -> Result<(), ActionError>
    requires { Follows (engine_of plant.old) tracer.old }
    ensures quietly { OnOk result (Adds (λ more. Quietly turn
        (point_of S.Store plant.old) more (point_of S.Store plant.new))
        (string_bytes text.old) (string_bytes text.new)) }
    ensures failed { OnErr result (string_bytes text.new ≡ string_bytes text.old) }
    ensures follows { OnOk result (Follows (engine_of plant.new) tracer.new) }
{
    let outcome = do_turn(alloc, plant, tracer, turn)?;
    if !is_refused(&outcome) {
        return Ok(());
    }
    push_turn(alloc, plant.engine(), tracer, 0, &outcome, text)
}

// Writes everything, and makes the due call of session 0. Answers whether there may be more to do.
fn auto_step<S: Alter>(
    alloc: Global,
    plant: &mut Plant<S>,
    tracer: &mut Tracer,
    text: &mut String,
) -> Result<bool, ActionError>
    requires { Follows (engine_of plant.old) tracer.old }
    ensures round { IfOk result (λ more. (o : AnOutcome) × (is_accepted o ≡ more)
        × Adds (λ t. Round o (point_of S.Store plant.old) t (point_of S.Store plant.new))
        (string_bytes text.old) (string_bytes text.new)) }
    ensures failed { OnErr result
        (Adds (λ more. ⊤) (string_bytes text.old) (string_bytes text.new)) }
    ensures follows { OnOk result (Follows (engine_of plant.new) tracer.new) }
{
    quiet_turn(alloc, plant, tracer, Turn::Write(None), text)?;
    let outcome = do_turn(alloc, plant, tracer, Turn::Step(0))?;
    if is_idle(&outcome) {
        return Ok(false);
    }
    push_turn(alloc, plant.engine(), tracer, 0, &outcome, text)?;
    Ok(is_accepted(&outcome))
}

/// Offers an empty context, takes with session 0, and makes that session's due calls until one is not
/// accepted, as when the session is idle or its call is held. All entries are written before each call and
/// at the end. Adds the lines of these calls, of refusals, and of a held call.
pub fn auto<S: Alter>(
    alloc: Global,
    plant: &mut Plant<S>,
    tracer: &mut Tracer,
    text: &mut String,
) -> Result<(), ActionError>
    requires { Follows (engine_of plant.old) tracer.old }
    ensures autos { OnOk result (Adds (λ more.
        Autos (point_of S.Store plant.old) more (point_of S.Store plant.new))
        (string_bytes text.old) (string_bytes text.new)) }
    ensures failed { OnErr result
        (Adds (λ more. ⊤) (string_bytes text.old) (string_bytes text.new)) }
    ensures follows { OnOk result (Follows (engine_of plant.new) tracer.new) }
{
    let context = Context::new(alloc);
    quiet_turn(alloc, plant, tracer, Turn::Offer(context), text)?;
    quiet_turn(alloc, plant, tracer, Turn::Take(0), text)?;
    for _ in 0..MOST_STEPS {
        if !auto_step(alloc, plant, tracer, text)? {
            break;
        }
    }
    quiet_turn(alloc, plant, tracer, Turn::Write(None), text)
}

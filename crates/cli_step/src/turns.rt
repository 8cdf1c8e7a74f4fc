//! Turns of a plant, with a tracer of its history.

ghost use Rattle.std.specs.Prelude.{◌≡◌, IfOk, OnOk, false};
ghost use Rattle.tx_trace.specs.Follow.{Follows};
ghost use Rattle.cli_step.specs.Doing.{Does, IsAhead, is_fresh, point_of};
ghost use Rattle.tx_plant.specs.Wholes.{engine_of};

use sqlite::Alter;
use std::alloc::Global;
use tx_plant::{Outcome, Plant, PlantError, Turn};
use tx_trace::{Tracer, tracers_go_on};

// Does a turn. The tracer still follows the plant's history, unless that began anew.
fn drive_one<S: Alter>(
    alloc: Global,
    plant: &mut Plant<S>,
    tracer: &Tracer,
    turn: Turn,
) -> Result<Outcome, PlantError>
    requires { Follows (engine_of plant.old) tracer.now }
    ensures does { IfOk result (λ o.
        Does turn o (point_of S.Store plant.old) (point_of S.Store plant.new)) }
    ensures follows { IfOk result (λ o.
        is_fresh o ≡ false → Follows (engine_of plant.new) tracer.now) }
    ensures ahead { IfOk result (λ o. IsAhead tracer.now o) }
{
    tracers_go_on();
    let turns = [turn];
    match plant.drive(alloc, turns.as_slice()) {
        Ok(mut outcomes) => match outcomes.pop() {
            Some(outcome) => Ok(outcome),
            None => unreachable!(),
        },
        Err(fault) => Err(fault.cause),
    }
}

fn is_fresh(outcome: &Outcome) -> bool
    ensures { result ≡ is_fresh outcome.now }
{
    matches!(outcome, Outcome::Restarted(_) | Outcome::Cut(_))
}

/// Does a turn. If it begins the history anew, the tracer begins anew too.
pub fn do_turn<S: Alter>(
    alloc: Global,
    plant: &mut Plant<S>,
    tracer: &mut Tracer,
    turn: Turn,
) -> Result<Outcome, PlantError>
    requires { Follows (engine_of plant.old) tracer.old }
    ensures does { IfOk result (λ o.
        Does turn o (point_of S.Store plant.old) (point_of S.Store plant.new)) }
    ensures follows { OnOk result (Follows (engine_of plant.new) tracer.new) }
    ensures ahead { IfOk result (λ o. IsAhead tracer.new o) }
{
    let outcome = drive_one(alloc, plant, tracer, turn)?;
    if is_fresh(&outcome) {
        *tracer = Tracer::new(alloc, plant.engine());
    }
    Ok(outcome)
}

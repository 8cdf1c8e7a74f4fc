//! What the lines of a script do.

ghost use Rattle.std.specs.Prelude.{◌≡◌, IfOk, OnErr, OnOk, string_bytes};
ghost use Rattle.tx_trace.specs.Follow.{Follows};
ghost use Rattle.cli_step.specs.Doing.{Adds, Says, offer_of, point_of, session_of, turn_of};
ghost use Rattle.cli_step.specs.Runs.{Acts, IsLeft};
ghost use Rattle.tx_plant.specs.Wholes.{engine_of};

use crate::auto::auto;
use crate::error::ActionError;
use crate::shown::show;
use crate::turn_lines::push_turn;
use crate::turns::do_turn;
use cli_script::Action;
use sqlite::Alter;
use std::alloc::Global;
use sw_context::Context;
use sw_participant::{NoMemory, Sequence};
use sw_scripted::{Put, put_all};
use tx_plant::{Plant, Turn};
use tx_trace::Tracer;

// The offer of a context with these entries.
fn offer_of(alloc: Global, puts: &Sequence<Put>) -> Result<Turn, NoMemory>
    ensures { IfOk result (λ t. t ≡ offer_of puts.now) }
{
    let mut context = Context::new(alloc);
    put_all(&mut context, puts.as_slice())?;
    Ok(Turn::Offer(context))
}

/// The turn that a line is; `None` if it only shows something, or is `auto`. Out of memory is the only
/// refusal.
pub fn turn_of(alloc: Global, action: &Action) -> Result<Option<Turn>, NoMemory>
    ensures { IfOk result (λ t. t ≡ turn_of action.now) }
{
    let turn = match action {
        Action::Offer(puts) => offer_of(alloc, puts)?,
        Action::Take(s) => Turn::Take(*s as usize),
        Action::Release => Turn::Release,
        Action::Ack { id, place } => Turn::Ack(*id, *place as usize),
        Action::Break(name) => Turn::Break(name.copy()?),
        Action::Clear(name) => Turn::Clear(name.copy()?),
        Action::Go(s) => Turn::LetGo(*s as usize),
        Action::Call(s) => Turn::Step(*s as usize),
        Action::Write(None) => Turn::Write(None),
        Action::Write(Some(most)) => Turn::Write(Some(*most as usize)),
        Action::Stop => Turn::Stop,
        Action::Cut => Turn::Cut,
        _ => return Ok(None),
    };
    Ok(Some(turn))
}

// The session that a `call` line names; 0 for any other line.
fn session_of(action: &Action) -> usize
    ensures { result ≡ session_of action.now }
{
    match action {
        Action::Call(s) => *s as usize,
        _ => 0,
    }
}

// Does a turn of this session, and adds the line of what came of it.
fn run_turn<S: Alter>(
    alloc: Global,
    plant: &mut Plant<S>,
    tracer: &mut Tracer,
    turn: Turn,
    s: usize,
    text: &mut String,
) -> Result<(), ActionError>
    requires { Follows (engine_of plant.old) tracer.old }
    ensures says { OnOk result (Adds (λ more. Says turn s
        (point_of S.Store plant.old) more (point_of S.Store plant.new))
        (string_bytes text.old) (string_bytes text.new)) }
    ensures failed { OnErr result (string_bytes text.new ≡ string_bytes text.old) }
    ensures follows { OnOk result (Follows (engine_of plant.new) tracer.new) }
{
    let outcome = do_turn(alloc, plant, tracer, turn)?;
    push_turn(alloc, plant.engine(), tracer, s, &outcome, text)
}

/// Runs a line, and adds what it prints. A line that is a turn does that turn, and the line of what came
/// of it is added. If it fails, nothing is added, except what `auto` printed before.
pub fn run_action<S: Alter>(
    alloc: Global,
    plant: &mut Plant<S>,
    tracer: &mut Tracer,
    action: &Action,
    text: &mut String,
) -> Result<(), ActionError>
    requires { Follows (engine_of plant.old) tracer.old }
    ensures acts { OnOk result (Adds (λ more. Acts action.now
        (point_of S.Store plant.old) more (point_of S.Store plant.new))
        (string_bytes text.old) (string_bytes text.new)) }
    ensures failed { OnErr result (Adds (IsLeft action.now)
        (string_bytes text.old) (string_bytes text.new)) }
    ensures follows { OnOk result (Follows (engine_of plant.new) tracer.new) }
{
    match turn_of(alloc, action)? {
        Some(turn) => run_turn(alloc, plant, tracer, turn, session_of(action), text),
        None => match action {
            Action::Auto => auto(alloc, plant, tracer, text),
            other => show(alloc, plant, other, text),
        },
    }
}

//! The lines of what came of turns.

ghost use Rattle.std.specs.Prelude.{◌≡◌, ◌++◌, IfOk, OnErr, OnOk, option_map, string_bytes};
ghost use Rattle.tx_trace.specs.Follow.{Follows};
ghost use Rattle.cli_step.specs.Doing.{IsAhead};
ghost use Rattle.cli_step.specs.TurnLines.{held_line, outcome_line, refusal_name, turn_line};
ghost use Rattle.cli_step.specs.TurnLines.{where_line, whole_line};

use crate::error::ActionError;
use crate::places::{HeldText, WhereText};
use crate::shown::push_line;
use std::alloc::{AllocError, Global};
use tx_engine::{Engine, EngineError};
use tx_plant::Outcome;
use tx_trace::{Names, Tracer, whereis};

/// The name of a refusal.
pub fn refusal_name(error: &EngineError) -> &'static str
    ensures { result.now ≡ refusal_name error.now }
{
    match error {
        EngineError::UnknownParticipant { .. } => "UnknownParticipant",
        EngineError::BadSessions => "BadSessions",
        EngineError::Busy => "Busy",
        EngineError::Empty => "Empty",
        EngineError::Recovering => "Recovering",
        EngineError::IdsSpent => "IdsSpent",
        EngineError::NotDue => "NotDue",
        EngineError::NoAdvice => "NoAdvice",
        EngineError::NoParticipant => "NoParticipant",
        EngineError::NotHeld => "NotHeld",
        EngineError::BadMark => "BadMark",
        EngineError::NoSession => "NoSession",
        EngineError::HistoryFull => "HistoryFull",
        EngineError::OutOfMemory => "OutOfMemory",
        EngineError::InUse => "InUse",
        EngineError::NotWritten => "NotWritten",
    }
}

// The line of the session's held call.
fn held_line(alloc: Global, engine: &Engine, s: usize) -> Result<String, AllocError>
    ensures { IfOk result (λ line. string_bytes line ≡ held_line engine.now s) }
{
    let names = Names {
        code: engine.code(),
    };
    match whereis(engine, s) {
        Some(place) => {
            let held = HeldText {
                names,
                session: s,
                place,
            };
            format!(in alloc; "{held}")
        }
        None => format!(in alloc; "idle {s}"),
    }
}

/// The line of `where S`: where the session's transaction stands.
pub fn where_line(alloc: Global, engine: &Engine, s: usize) -> Result<String, AllocError>
    ensures { IfOk result (λ line. string_bytes line ≡ where_line engine.now s) }
{
    let names = Names {
        code: engine.code(),
    };
    match whereis(engine, s) {
        Some(place) => {
            let text = WhereText { names, place };
            format!(in alloc; "{text}")
        }
        None => format!(in alloc; "idle {s}"),
    }
}

/// What `step` prints for a turn of this session that made no entry: a refusal, `idle S`, `unwritten S`,
/// `held S NEXT`, `written MARK`, `restart UNFINISHED`, `cut NEXTID`. Empty for an entry, whose line is that of the
/// trace.
pub fn outcome_line(
    alloc: Global,
    engine: &Engine,
    s: usize,
    outcome: &Outcome,
) -> Result<String, AllocError>
    ensures { IfOk result (λ line. string_bytes line ≡ outcome_line engine.now s outcome.now) }
{
    match outcome {
        Outcome::Accepted(_) => Ok(String::new(alloc)),
        Outcome::Refused(error) => {
            let name = refusal_name(error);
            format!(in alloc; "refused {name}")
        }
        Outcome::Idle => format!(in alloc; "idle {s}"),
        Outcome::Unwritten => format!(in alloc; "unwritten {s}"),
        Outcome::Held(_) => held_line(alloc, engine, s),
        Outcome::Written(mark) => {
            let mark = *mark;
            format!(in alloc; "written {mark}")
        }
        Outcome::Restarted(unfinished) => {
            let unfinished = *unfinished;
            format!(in alloc; "restart {unfinished}")
        }
        Outcome::Cut(next_id) => {
            let next_id = *next_id;
            format!(in alloc; "cut {next_id}")
        }
    }
}

// The line of what came of a turn of this session, without a line feed: for an entry, its line in the
// trace.
fn turn_line(
    alloc: Global,
    engine: &Engine,
    tracer: &mut Tracer,
    s: usize,
    outcome: &Outcome,
) -> Result<Option<String>, AllocError>
    requires follows { Follows engine.now tracer.old }
    requires ahead { IsAhead tracer.old outcome.now }
    ensures line { IfOk result (λ line.
        option_map string_bytes line ≡ turn_line engine.now s outcome.now) }
    ensures follows { OnOk result (Follows engine.now tracer.new) }
{
    match outcome {
        Outcome::Accepted(number) => tracer.line_at(alloc, engine, *number),
        other => Ok(Some(outcome_line(alloc, engine, s, other)?)),
    }
}

/// Adds the line of what came of a turn of this session to a text.
pub fn push_turn(
    alloc: Global,
    engine: &Engine,
    tracer: &mut Tracer,
    s: usize,
    outcome: &Outcome,
    text: &mut String,
) -> Result<(), ActionError>
    requires follows { Follows engine.now tracer.old }
    requires ahead { IsAhead tracer.old outcome.now }
    ensures line { OnOk result (string_bytes text.new
        ≡ string_bytes text.old ++ whole_line (turn_line engine.now s outcome.now)) }
    ensures refused { OnErr result (string_bytes text.new ≡ string_bytes text.old) }
    ensures follows { OnOk result (Follows engine.now tracer.new) }
{
    let line = turn_line(alloc, engine, tracer, s, outcome)?;
    Ok(push_line(text, line)?)
}

//! The lines of actions.
ghost use Rattle.std.specs.Prelude.{◌≡◌};
ghost use Rattle.cli_script.specs.Forms.{ack_line, bare_line, offer_line, write_line};
ghost use Rattle.cli_script.specs.Grammar.{Answers, action_rows, meaning_at, query_rows, whole_rows};
ghost use Rattle.cli_script.specs.Words.{cut_at};

use crate::error::LineError;
use crate::line::{Action, ScriptLine};
use crate::puts::read_puts;
use crate::setting_lines::{name_or, number_or};
use crate::words::cut_at;
use std::alloc::Global;

/// A line that is its first word and nothing else.
fn bare(action: Action, error: LineError, rest: &str) -> Result<ScriptLine, LineError>
    ensures { result ≡ bare_line action error rest.now }
{
    if rest.is_empty() {
        Ok(ScriptLine::Action(action))
    } else {
        Err(error)
    }
}

#[tactic(auto, using(crate::proofs::Meant::parts_of_lines))]
fn read_offer(alloc: Global, rest: &str) -> Result<ScriptLine, LineError>
    ensures { Answers (offer_line rest.now) result }
{
    let puts = read_puts(alloc, rest)?;
    Ok(ScriptLine::Action(Action::Offer(puts)))
}

fn read_ack(rest: &str) -> Result<ScriptLine, LineError>
    ensures { result ≡ ack_line (cut_at 32 rest.now) }
{
    let Some((id, place)) = cut_at(rest, ' ') else {
        return Err(LineError::Ack);
    };
    let id = number_or(LineError::Ack, id)?;
    let place = number_or(LineError::Ack, place)?;
    Ok(ScriptLine::Action(Action::Ack { id, place }))
}

fn read_write(rest: &str) -> Result<ScriptLine, LineError>
    ensures { result ≡ write_line rest.now }
{
    if rest.is_empty() {
        return Ok(ScriptLine::Action(Action::Write(None)));
    }
    let count = number_or(LineError::Write, rest)?;
    Ok(ScriptLine::Action(Action::Write(Some(count))))
}

/// A line that acts on the shelf, the journal or the whole plant.
fn read_whole(word: &str, rest: &str) -> Result<ScriptLine, LineError>
    ensures { result ≡ meaning_at whole_rows word.now rest.now }
{
    match word {
        "release" => bare(Action::Release, LineError::Release, rest),
        "ack" => read_ack(rest),
        "write" => read_write(rest),
        "stop" => bare(Action::Stop, LineError::Stop, rest),
        "cut" => bare(Action::Cut, LineError::Cut, rest),
        "auto" => bare(Action::Auto, LineError::Auto, rest),
        _ => Err(LineError::Command),
    }
}

/// A line that shows something, or one that acts on the shelf, the journal or the whole plant.
#[tactic(auto, using(crate::proofs::Meant::parts_of_lines))]
fn read_query(alloc: Global, word: &str, rest: &str) -> Result<ScriptLine, LineError>
    ensures { Answers (meaning_at query_rows word.now rest.now) result }
{
    let action = match word {
        "where" => Action::Where(number_or(LineError::Where, rest)?),
        "rest" => Action::Rest(number_or(LineError::Rest, rest)?),
        "saved" => Action::Saved(number_or(LineError::Saved, rest)?),
        "calls" => Action::Calls(name_or(alloc, LineError::Calls, rest)?),
        _ => return read_whole(word, rest),
    };
    Ok(ScriptLine::Action(action))
}

/// A line that runs something: what it means, by its first word and the text after the word's space.
#[tactic(auto, using(crate::proofs::Meant::parts_of_lines))]
pub fn read_action(alloc: Global, word: &str, rest: &str) -> Result<ScriptLine, LineError>
    ensures { Answers (meaning_at action_rows word.now rest.now) result }
{
    let action = match word {
        "take" => Action::Take(number_or(LineError::Take, rest)?),
        "call" => Action::Call(number_or(LineError::Call, rest)?),
        "go" => Action::Go(number_or(LineError::Go, rest)?),
        "break" => Action::Break(name_or(alloc, LineError::Break, rest)?),
        "clear" => Action::Clear(name_or(alloc, LineError::Clear, rest)?),
        "offer" => return read_offer(alloc, rest),
        _ => return read_query(alloc, word, rest),
    };
    Ok(ScriptLine::Action(action))
}

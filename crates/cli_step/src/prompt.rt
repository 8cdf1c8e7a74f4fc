//! A session at a prompt, over a plant.

ghost use Rattle.std.specs.Prelude.{◌≡◌, ◌≢◌, ◌+◌, ◌≤◌, ◌<◌, ◌^◌, ◌∷◌, ⊤, [], IfErr, IfOk, IfSome, MatchOption};
ghost use Rattle.std.specs.Prelude.{OnOk, length, option_map};
ghost use Rattle.std.specs.Io.KnownBytes.{Appends};
ghost use Rattle.cli_lines.specs.Lines.{IsNextLine, lines_given, room, to_come};
ghost use Rattle.tx_trace.specs.Follow.{Follows};
ghost use Rattle.cli_step.specs.Doing.{point_of, world_of};
ghost use Rattle.cli_step.specs.Prompts.{Answers, IsFaultOf, IsReported, SomeIsMade};
ghost use Rattle.cli_step.specs.Prompts.{Talked, prompt, saved_session, scene};
ghost use Rattle.cli_step.specs.Shown.{IsReadableLine};
ghost use Rattle.tx_trace.specs.Trace.{Text};
ghost use Rattle.cli_script.specs.declared.error.ScriptError.TheVariants as script;
ghost use Rattle.cli_step.specs.PromptWords.{prompt_word_text};
ghost use Rattle.cli_step.specs.Runs.{Grows};
ghost use Rattle.tx_plant.specs.Wholes.{engine_of};

use crate::error::StepError;
use crate::prompt_words::{PromptWord, prompt_word_at, prompt_word_text};
use crate::script::run_line;
use crate::shown::readable_line;
use crate::typed::{Typed, keep};
use cli_io::{IoError, write_out, write_whole};
use cli_lines::Lines;
use cli_script::{Action, Actions, LineError, ScriptError};
use sqlite::Alter;
use std::alloc::Global;
use std::fmt;
use std::io::{Read, Write};
use tx_plant::Plant;
use tx_trace::Tracer;

/// Writes the prompt, and reads the next line; `None` at the end of the input.
pub fn ask<R: Read, W: Write>(
    alloc: Global,
    lines: &mut Lines<R>,
    out: &mut W,
) -> Result<Option<Vec<u8>>, StepError>
    ensures asked { IfOk result (λ _. Appends (W.contents out.old) (W.contents out.new) prompt) }
    ensures grows { Grows (W.contents out.old) (W.contents out.new) }
    ensures next { IfOk result (λ o. IsNextLine (to_come R.remaining lines.old)
        (to_come R.remaining lines.new) (option_map (λ line. line.items) o)) }
    ensures some { IfOk result (λ o. IfSome o (λ line. line.items ≢ [])) }
    ensures count { IfOk result (λ o. MatchOption o (lines_given lines.new ≡ lines_given lines.old)
        (λ _. lines_given lines.new ≡ lines_given lines.old + 1)) }
    ensures few { IfOk result (λ o. IfSome o (λ line.
        lines_given lines.new + length line.items < 2 ^ 64)) }
    ensures room { IfOk result (λ o. IfSome o (λ line.
        room lines.new + length line.items ≤ room lines.old)) }
    ensures fault { IfErr result (IsFaultOf ⊤) }
    ensures head_fault { IfErr result (IsFaultOf SomeIsMade) }
{
    write_out(out, b"cardswitch> ")?;
    Ok(lines.next(alloc)?)
}

/// Ends the last prompt's line, at the end of the input.
pub fn leave<W: Write>(out: &mut W) -> Result<(), StepError>
    ensures left { OnOk result (Appends (W.contents out.old) (W.contents out.new) (10 ∷ [])) }
    ensures grows { Grows (W.contents out.old) (W.contents out.new) }
    ensures fault { IfErr result (IsFaultOf ⊤) }
    ensures head_fault { IfErr result (IsFaultOf SomeIsMade) }
{
    Ok(write_out(out, b"\n")?)
}

/// Why a line is refused, at a prompt: the line stands right above, so its number and its words are left out.
#[derive(Drop)]
struct Brief<'a>(&'a StepError);

impl fmt::Display for Brief<'_> {
    fn fmt<W: fmt::Write>(&self, f: &mut fmt::Formatter<W>) -> fmt::Result {
        let StepError::Script(refusal) = self.0 else {
            let cause = self.0;
            return write!(f, "{cause}");
        };
        match refusal {
            ScriptError::Line {
                cause: LineError::Command,
                found,
                ..
            } => write!(f, "unknown command {found}; try help"),
            ScriptError::Line { cause, .. } => write!(f, "{cause}"),
            ScriptError::FlowBesideFile { .. } => f.write_str("the flow is that of the flow file"),
            ScriptError::LateSetting { .. } => f.write_str("settings come before all other lines"),
            ScriptError::Crowded { .. } => f.write_str("a context has at most 64 names"),
            ScriptError::Flow { cause, .. } => write!(f, "the flow is refused: {cause}"),
            ScriptError::OutOfMemory => f.write_str("out of memory"),
        }
    }
}

/// Reports why a line is refused.
pub fn report<E: Write>(alloc: Global, cause: &StepError, err: &mut E) -> Result<(), StepError>
    ensures reported { OnOk result (IsReported (E.contents err.old) (E.contents err.new)) }
    ensures grows { Grows (E.contents err.old) (E.contents err.new) }
    ensures fault { IfErr result (IsFaultOf ⊤) }
    ensures head_fault { IfErr result (IsFaultOf SomeIsMade) }
{
    let brief = Brief(cause);
    let text = format!(in alloc; "{brief}\n")?;
    write_whole(err, b"cardswitch: ")?;
    Ok(write_out(err, text.as_bytes())?)
}

// Shows what a word of the prompt asks for.
fn show_word<S: Alter, W: Write>(
    alloc: Global,
    plant: &Plant<S>,
    word: PromptWord,
    out: &mut W,
) -> Result<(), StepError>
    ensures shown { OnOk result (Appends (W.contents out.old) (W.contents out.new)
        (prompt_word_text word (world_of (point_of S.Store plant.now)))) }
    ensures grows { Grows (W.contents out.old) (W.contents out.new) }
    ensures fault { IfErr result (IsFaultOf ⊤) }
{
    let text = prompt_word_text(alloc, plant.engine(), word)?;
    Ok(write_out(out, text.as_slice())?)
}

// The session whose saved context an action shows.
fn saved_session(action: &Action) -> Option<u64>
    ensures { result ≡ saved_session action.now }
{
    match action {
        Action::Saved(s) => Some(*s),
        _ => None,
    }
}

// Shows the saved context of a session's transaction.
fn show_saved<S: Alter, W: Write>(
    alloc: Global,
    plant: &Plant<S>,
    s: u64,
    out: &mut W,
) -> Result<(), StepError>
    ensures shown { OnOk result ((text : Text)
        × IsReadableLine (world_of (point_of S.Store plant.now)) s text
        × Appends (W.contents out.old) (W.contents out.new) text) }
    ensures grows { Grows (W.contents out.old) (W.contents out.new) }
    ensures fault { IfErr result (IsFaultOf ⊤) }
{
    let line = readable_line(alloc, plant.engine(), s as usize)?;
    Ok(write_out(out, line.as_bytes())?)
}

/// The refusal of a line. Out of memory is not one, and ends the session.
pub fn refusal(error: ScriptError) -> Result<ScriptError, StepError>
    ensures same { IfOk result (λ e. e ≡ error) }
    ensures refused { IfOk result (λ _. error ≢ script.OutOfMemory) }
    ensures fault { IfErr result (IsFaultOf ⊤) }
    ensures head_fault { IfErr result (IsFaultOf SomeIsMade) }
{
    match error {
        ScriptError::OutOfMemory => Err(StepError::Io(IoError::OutOfMemory)),
        refusal => Ok(refusal),
    }
}

/// A plant, and what traces its engine.
pub struct TracedPlant<S: Alter> {
    pub plant: Plant<S>,
    pub tracer: Tracer,
}

// Written out, so that no caller proves again how its parts are dropped.
impl<S: Alter + Drop> Drop for TracedPlant<S> {
    fn drop(self) {
        let TracedPlant {
            plant: _,
            tracer: _,
        } = self;
    }
}

/// Answers a line: shows what it asks for, runs it, or reports why it is refused. `before` lines came before it.
pub fn answer<S: Alter, W: Write, E: Write>(
    alloc: Global,
    traced: &mut TracedPlant<S>,
    line: &[u8],
    before: usize,
    out: &mut W,
    err: &mut E,
) -> Result<(), StepError>
    requires follows { Follows (engine_of traced.old.plant) traced.old.tracer }
    requires some { line.now ≢ [] }
    requires few { before + length line.now < 2 ^ 64 }
    ensures answers { OnOk result (Answers line.now
        (scene (point_of S.Store traced.old.plant) (W.contents out.old) (E.contents err.old))
        (scene (point_of S.Store traced.new.plant) (W.contents out.new) (E.contents err.new))) }
    ensures follows { OnOk result (Follows (engine_of traced.new.plant) traced.new.tracer) }
    ensures grows_out { Grows (W.contents out.old) (W.contents out.new) }
    ensures grows_err { Grows (E.contents err.old) (E.contents err.new) }
    ensures fault { IfErr result (IsFaultOf ⊤) }
{
    if let Some(word) = prompt_word_at(line) {
        return show_word(alloc, &traced.plant, word, out);
    }
    let mut actions = Actions::new(line, before);
    match actions.next(alloc) {
        Ok(Some(action)) => match saved_session(&action) {
            Some(s) => show_saved(alloc, &traced.plant, s, out),
            None => {
                let (plant, tracer) = (&mut traced.plant, &mut traced.tracer);
                run_line(alloc, plant, tracer, action, before + 1, out)
            }
        },
        Ok(None) => unreachable!(),
        Err(error) => report(alloc, &StepError::Script(refusal(error)?), err),
    }
}

/// Asks for the lines that are still to come, and answers each, up to the end of the input or to `quit`. `last` is
/// the line that an empty one repeats.
pub fn talk<R: Read, S: Alter, W: Write, E: Write>(
    alloc: Global,
    traced: &mut TracedPlant<S>,
    last: Vec<u8>,
    lines: &mut Lines<R>,
    out: &mut W,
    err: &mut E,
) -> Result<(), StepError>
    requires { Follows (engine_of traced.old.plant) traced.old.tracer }
    ensures talked { OnOk result (IfSome (to_come R.remaining lines.old) (λ input.
        Talked last.items input
        (scene (point_of S.Store traced.old.plant) (W.contents out.old) (E.contents err.old))
        (scene (point_of S.Store traced.new.plant) (W.contents out.new) (E.contents err.new)))) }
    ensures grows_out { Grows (W.contents out.old) (W.contents out.new) }
    ensures grows_err { Grows (E.contents err.old) (E.contents err.new) }
    ensures fault { IfErr result (IsFaultOf ⊤) }
{
    let mut last = last;
    while let Some(read) = ask(alloc, lines, out)? {
        match keep(alloc, &mut last, read.as_slice())? {
            Typed::Nothing => {}
            Typed::Quit => return Ok(()),
            Typed::Line => {
                let before = lines.count() - 1;
                answer(alloc, traced, last.as_slice(), before, out, err)?;
            }
        }
    }
    leave(out)
}

//! A session at a prompt: its settings, and the line at which a plant is made of them.

ghost use Rattle.std.specs.Prelude.{◌≡◌, ◌≢◌, ◌+◌, ◌<◌, ◌≤◌, ◌^◌, [], false, true, IfErr, IfOk, IfSome};
ghost use Rattle.std.specs.Prelude.{OnErr, OnOk, is_some, length};
ghost use Rattle.cli_lines.specs.Lines.{lines_given, to_come};
ghost use Rattle.flow_model.specs.Check.{IsChecked};
ghost use Rattle.cli_step.specs.Prompts.{AreSame, HasBadSessions, HeadAnswers, IsFaultOf};
ghost use Rattle.cli_step.specs.Prompts.{IsHeadLine, IsMade, IsPrompted, IsReported, IsUnopened};
ghost use Rattle.cli_step.specs.Prompts.{OpenedAt, OpenedOver, SomeIsMade, TalkedOver, heading};
ghost use Rattle.cli_step.specs.declared.opening.HeadLine.TheVariants as head;
ghost use Rattle.cli_step.specs.Runs.{Grows};

use crate::cast::{Cast, own_participant};
use crate::error::StepError;
use crate::prompt::{TracedPlant, answer, ask, leave, refusal, report, talk};
use crate::prompt_words::{HELP, PromptWord, prompt_word_at};
use crate::script::{PlantPlan, memory_journal, plant_refused};
use crate::typed::{Typed, keep};
use cli_io::write_out;
use cli_lines::Lines;
use cli_script::{Opening, ScriptError, next_setting, open_settings};
use flow_asm::{Code, assemble, list};
use flow_model::Flow;
use std::alloc::{AllocError, Global};
use std::io::{Read, Write};
use sw_participant::{Participant, Station};
use sw_scripted::Scripted;
use tx_plant::Plant;
use tx_trace::Tracer;

/// What a session at a prompt has from its start.
#[derive(Drop)]
struct Stage<'a> {
    alloc: Global,
    /// Whose participants a flow has.
    cast: &'a Cast,
    /// The steps of the flow of a flow file, if there is one.
    file: Option<Code>,
}

/// What a line is before a flow is opened.
#[derive(Drop)]
enum HeadLine {
    /// `help`.
    Help,
    /// A setting that is allowed there.
    Setting,
    /// An action, `list` or `info`: the flow is opened for it.
    Opens,
    /// It is refused.
    Refused(ScriptError),
}

// What a line is before a flow is opened. `before` lines came before it.
fn head_line(
    alloc: Global,
    has_file: bool,
    before: usize,
    line: &[u8],
) -> Result<HeadLine, StepError>
    requires { before + length line.now < 2 ^ 64 }
    ensures is { IfOk result (IsHeadLine has_file line.now) }
    ensures fault { IfErr result (IsFaultOf SomeIsMade) }
{
    match prompt_word_at(line) {
        Some(PromptWord::Help) => Ok(HeadLine::Help),
        Some(PromptWord::List | PromptWord::Info) => Ok(HeadLine::Opens),
        None => match next_setting(alloc, has_file, before, line) {
            Ok(Some(_)) => Ok(HeadLine::Setting),
            Ok(None) => Ok(HeadLine::Opens),
            Err(error) => Ok(HeadLine::Refused(refusal(error)?)),
        },
    }
}

// The steps of the flow of a flow file, if there is one.
fn code_of(alloc: Global, file: Option<Flow>) -> Result<Option<Code>, AllocError>
    requires { IfSome file IsChecked }
    ensures { IfOk result (λ code. code ≡ file) }
{
    match file {
        Some(flow) => Ok(Some(assemble(alloc, &flow)?)),
        None => Ok(None),
    }
}

// The flow of these steps.
fn flow_of(alloc: Global, file: &Option<Code>) -> Result<Option<Flow>, AllocError>
    ensures { IfOk result (λ flow. flow ≡ file.now) }
{
    match file {
        Some(code) => Ok(Some(list(alloc, code)?)),
        None => Ok(None),
    }
}

// Answers a line over a plant of this plan with a journal in memory, and then all that are still to come; or
// returns why no plant is made. (Apart from `open_over`, so that its proof does not carry how the stations are
// made.)
fn talk_over<R: Read, W: Write, E: Write>(
    alloc: Global,
    plan: PlantPlan,
    line: &[u8],
    lines: &mut Lines<R>,
    out: &mut W,
    err: &mut E,
) -> Result<Result<(), StepError>, StepError>
    requires some { line.now ≢ [] }
    requires few { length line.now < 2 ^ 63 }
    requires given { lines_given lines.old ≢ 0 }
    ensures talked { IfOk result (λ r. OnOk r (IfSome (to_come R.remaining lines.old) (λ others.
        TalkedOver plan.code plan.sessions line.now others
        (W.contents out.old) (E.contents err.old) (W.contents out.new) (E.contents err.new)))) }
    ensures refused { IfOk result (λ r. OnErr r (HasBadSessions plan.code plan.sessions)) }
    ensures stays { IfOk result (λ r. OnErr r
        (AreSame lines.old lines.new out.old out.new err.old err.new)) }
    ensures grows_out { Grows (W.contents out.old) (W.contents out.new) }
    ensures grows_err { Grows (E.contents err.old) (E.contents err.new) }
    ensures fault { IfErr result (IsFaultOf (IsMade plan.code plan.sessions)) }
{
    let PlantPlan {
        code,
        stations,
        sessions,
    } = plan;
    let before = lines.count() - 1;
    let journal = match memory_journal(alloc) {
        Ok(journal) => journal,
        Err(error) => return Err(error.at_line(before + 1)),
    };
    let plant = match Plant::new(alloc, &code, journal, stations, sessions) {
        Ok(plant) => plant,
        Err((cause, _, _)) => return Ok(Err(plant_refused(alloc, cause, before + 1, sessions)?)),
    };
    let tracer = Tracer::new(alloc, plant.engine());
    let mut traced = TracedPlant { plant, tracer };
    let last = Vec::from_slice(alloc, line)?;
    answer(alloc, &mut traced, line, before, out, err)?;
    talk(alloc, &mut traced, last, lines, out, err)?;
    Ok(Ok(()))
}

// Makes the participants of the flow, as `play` does, and answers a line over their plant, and then all that are still to
// come; or returns why no plant is made. (It hands no station out either.)
fn open_over<R: Read, W: Write, E: Write>(
    stage: &Stage<'_>,
    opening: Opening,
    line: &[u8],
    lines: &mut Lines<R>,
    out: &mut W,
    err: &mut E,
) -> Result<Result<(), StepError>, StepError>
    requires checked { IsChecked opening.flow }
    requires some { line.now ≢ [] }
    requires few { length line.now < 2 ^ 63 }
    requires given { lines_given lines.old ≢ 0 }
    ensures talked { IfOk result (λ r. OnOk r (IfSome (to_come R.remaining lines.old) (λ others.
        TalkedOver opening.flow opening.sessions line.now others
        (W.contents out.old) (E.contents err.old) (W.contents out.new) (E.contents err.new)))) }
    ensures refused { IfOk result (λ r. OnErr r (HasBadSessions opening.flow opening.sessions)) }
    ensures stays { IfOk result (λ r. OnErr r
        (AreSame lines.old lines.new out.old out.new err.old err.new)) }
    ensures grows_out { Grows (W.contents out.old) (W.contents out.new) }
    ensures grows_err { Grows (E.contents err.old) (E.contents err.new) }
    ensures fault { IfErr result (IsFaultOf SomeIsMade) }
{
    let alloc = stage.alloc;
    let code = assemble(alloc, &opening.flow)?;
    let Opening {
        flow: _,
        sessions,
        replies: mut replies,
    } = opening;
    let mut stations = Vec::new(alloc);
    for part in code.participants() {
        let name = part.name.as_str();
        let participant: Box<dyn Participant + Send + Sync> = match stage.cast {
            Cast::Scripted => Box::new(alloc, Scripted::new(alloc, replies.take(alloc, name)))?,
            Cast::Switch(setup) => Box::new(alloc, own_participant(alloc, setup, name)?)?,
        };
        stations.push(Station::from_parts(part.name.copy()?, participant, 0))?;
    }
    let plan = PlantPlan {
        code,
        stations,
        sessions: sessions as usize,
    };
    talk_over(alloc, plan, line, lines, out, err)
}

// Opens the flow that the settings state, and answers a line and then all that are still to come; or reports why the
// flow is not opened. Returns whether it is.
fn open_or_report<R: Read, W: Write, E: Write>(
    stage: &Stage<'_>,
    settings: &[u8],
    line: &[u8],
    lines: &mut Lines<R>,
    out: &mut W,
    err: &mut E,
) -> Result<bool, StepError>
    requires some { line.now ≢ [] }
    requires few { length line.now < 2 ^ 63 }
    requires given { lines_given lines.old ≢ 0 }
    ensures opened { IfOk result (λ opened. opened ≡ true →
        IfSome (to_come R.remaining lines.old) (λ others.
        OpenedOver stage.now.file settings.now line.now others
        (W.contents out.old) (E.contents err.old) (W.contents out.new) (E.contents err.new))) }
    ensures refused { IfOk result (λ opened. opened ≡ false →
        IsUnopened stage.now.file settings.now) }
    ensures reported { IfOk result (λ opened. opened ≡ false →
        IsReported (E.contents err.old) (E.contents err.new)) }
    ensures stays { IfOk result (λ opened. opened ≡ false →
        (lines.new ≡ lines.old) × (out.new ≡ out.old)) }
    ensures grows_out { Grows (W.contents out.old) (W.contents out.new) }
    ensures grows_err { Grows (E.contents err.old) (E.contents err.new) }
    ensures fault { IfErr result (IsFaultOf SomeIsMade) }
{
    let alloc = stage.alloc;
    let flow = flow_of(alloc, &stage.file)?;
    match open_settings(alloc, flow, settings, lines.count()) {
        Ok(opening) => match open_over(stage, opening, line, lines, out, err)? {
            Ok(()) => Ok(true),
            Err(cause) => {
                report(alloc, &cause, err)?;
                Ok(false)
            }
        },
        Err(error) => {
            report(alloc, &StepError::Script(refusal(error)?), err)?;
            Ok(false)
        }
    }
}

// Answers a line before a flow is opened, unless the flow is to be opened for it. Returns whether it is. `before`
// lines came before the line.
fn answer_head<W: Write, E: Write>(
    stage: &Stage<'_>,
    settings: &mut Vec<u8>,
    line: &[u8],
    before: usize,
    out: &mut W,
    err: &mut E,
) -> Result<bool, StepError>
    requires { before + length line.now < 2 ^ 64 }
    ensures head { IfOk result (λ opens. opens ≡ false → HeadAnswers stage.now.file line.now
        (heading settings.old.items (W.contents out.old) (E.contents err.old))
        (heading settings.new.items (W.contents out.new) (E.contents err.new))) }
    ensures opens { IfOk result (λ opens. opens ≡ true →
        IsHeadLine (is_some stage.now.file) line.now head.Opens) }
    ensures stays { IfOk result (λ opens. opens ≡ true →
        AreSame settings.old settings.new out.old out.new err.old err.new) }
    ensures grows_out { Grows (W.contents out.old) (W.contents out.new) }
    ensures grows_err { Grows (E.contents err.old) (E.contents err.new) }
    ensures fault { IfErr result (IsFaultOf SomeIsMade) }
{
    match head_line(stage.alloc, stage.file.is_some(), before, line)? {
        HeadLine::Help => {
            write_out(out, HELP.as_bytes())?;
            Ok(false)
        }
        HeadLine::Setting => {
            settings.extend_from_slice(line)?;
            Ok(false)
        }
        HeadLine::Opens => Ok(true),
        HeadLine::Refused(cause) => {
            report(stage.alloc, &StepError::Script(cause), err)?;
            Ok(false)
        }
    }
}

// Answers a line that was typed before a flow is opened, and, if the flow is opened for it, all lines that are still to
// come. Returns whether the session has ended.
fn answer_or_open<R: Read, W: Write, E: Write>(
    stage: &Stage<'_>,
    settings: &mut Vec<u8>,
    line: &[u8],
    lines: &mut Lines<R>,
    out: &mut W,
    err: &mut E,
) -> Result<bool, StepError>
    requires some { line.now ≢ [] }
    requires few { length line.now < 2 ^ 63 }
    requires given { lines_given lines.old ≢ 0 }
    ensures opened { IfOk result (λ ended. ended ≡ true →
        IfSome (to_come R.remaining lines.old) (λ others.
        OpenedAt stage.now.file settings.old.items line.now others
        (W.contents out.old) (E.contents err.old) (W.contents out.new) (E.contents err.new))) }
    ensures answered { IfOk result (λ ended. ended ≡ false → HeadAnswers stage.now.file line.now
        (heading settings.old.items (W.contents out.old) (E.contents err.old))
        (heading settings.new.items (W.contents out.new) (E.contents err.new))) }
    ensures stays { IfOk result (λ ended. ended ≡ false → lines.new ≡ lines.old) }
    ensures grows_out { Grows (W.contents out.old) (W.contents out.new) }
    ensures grows_err { Grows (E.contents err.old) (E.contents err.new) }
    ensures fault { IfErr result (IsFaultOf SomeIsMade) }
{
    let before = lines.count() - 1;
    if !answer_head(stage, settings, line, before, out, err)? {
        return Ok(false);
    }
    open_or_report(stage, settings.as_slice(), line, lines, out, err)
}

/// Runs a session at a prompt: writes the prompt, reads a line, and answers it before the next prompt, up to `quit` or
/// to the end of the input, where it ends the last prompt's line. The settings come first. At the first line that
/// needs a plant, the flow that they state is opened, over that of a flow file if there is one.
///
/// Any number of spaces may separate words, and a line that begins with # is a comment. Once the flow is opened, an
/// empty line repeats the line before it.
///
/// A line that is refused is reported on `err` and changes nothing, and the session goes on. If the flow or the
/// number of sessions is refused, the settings stay, and more may follow.
pub fn run_prompted<R: Read, W: Write, E: Write>(
    alloc: Global,
    cast: &Cast,
    file: Option<Flow>,
    lines: &mut Lines<R>,
    out: &mut W,
    err: &mut E,
) -> Result<(), StepError>
    requires { IfSome file IsChecked }
    ensures prompted { OnOk result (IfSome (to_come R.remaining lines.old) (λ input.
        IsPrompted file input (W.contents out.old) (E.contents err.old)
        (W.contents out.new) (E.contents err.new))) }
    ensures grows_out { Grows (W.contents out.old) (W.contents out.new) }
    ensures grows_err { Grows (E.contents err.old) (E.contents err.new) }
    ensures fault { IfErr result (IsFaultOf SomeIsMade) }
{
    let steps = code_of(alloc, file)?;
    let stage = Stage {
        alloc,
        cast,
        file: steps,
    };
    let mut settings = Vec::new(alloc);
    while let Some(read) = ask(alloc, lines, out)? {
        // No setting is repeated by an empty line: one that is given twice may be refused.
        let mut line = Vec::new(alloc);
        match keep(alloc, &mut line, read.as_slice())? {
            Typed::Nothing => {}
            Typed::Quit => return Ok(()),
            Typed::Line => {
                let line = line.as_slice();
                if answer_or_open(&stage, &mut settings, line, lines, out, err)? {
                    return Ok(());
                }
            }
        }
    }
    leave(out)
}

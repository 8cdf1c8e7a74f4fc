//! The run of a script.

ghost use Rattle.std.specs.Prelude.{◌≡◌, ◌≤◌, [], IfErr, IfOk, IfSome, Ok, OnErr, OnOk, false};
ghost use Rattle.std.specs.Prelude.{length, true};
ghost use Rattle.std.specs.Io.KnownBytes.{Appends, Keeps};
ghost use Rattle.cli_lines.specs.Lines.{room, to_come};
ghost use Rattle.flow_model.specs.Check.{IsChecked};
ghost use Rattle.tx_trace.specs.Follow.{Follows};
ghost use Rattle.cli_step.specs.Doing.{point_of};
ghost use Rattle.cli_step.specs.Prompts.{IsFaultOf, is_of_sessions};
ghost use Rattle.cli_step.specs.Runs.{Grows, IsLineFailed, IsOfJournal, IsRun, IsUnwritten, IsWriting, PlayedOn};
ghost use Rattle.cli_step.specs.Runs.{Ran, RanAll, RunsLine, Stopped};
ghost use Rattle.tx_plant.specs.Wholes.{engine_of};

use crate::actions::run_action;
use crate::cast::{Cast, own_participant};
use crate::error::{ActionError, StepError};
use crate::head::read_head;
use cli_io::{IoError, Quoted, write_whole};
use cli_lines::Lines;
use cli_script::{Action, Actions, LineError, Script, ScriptError, open_script};
use flow_asm::{Code, assemble};
use flow_model::Flow;
use journal_store::Journal;
use sqlite::{Alter, Connection, MemStore};
use std::alloc::Global;
use std::io::{Read, Write};
use sw_participant::{Participant, Station};
use sw_scripted::Scripted;
use tx_engine::EngineError;
use tx_plant::{Plant, PlantError};
use tx_trace::Tracer;

// Writes what the writer has kept back.
fn flush<W: Write>(out: &mut W) -> Result<(), StepError>
    ensures kept { Keeps (W.contents out.old) (W.contents out.new) }
    ensures refused { IfErr result IsWriting }
{
    Ok(out.flush().map_err(IoError::from_write)?)
}

// Writes what the line of this number printed, and says whether it ran.
fn put_out<W: Write>(
    out: &mut W,
    text: &str,
    ran: Result<(), ActionError>,
    line: usize,
) -> Result<(), StepError>
    ensures ran { OnOk result (ran ≡ Ok tt) }
    ensures written { OnOk result (Appends (W.contents out.old) (W.contents out.new) text.now) }
    ensures refused { IfErr result (IsUnwritten
        (W.contents out.old) (W.contents out.new) text.now ran line) }
{
    write_whole(out, text.as_bytes())?;
    match ran {
        Ok(()) => Ok(()),
        Err(error) => Err(error.at_line(line)),
    }
}

/// Runs the line of this number, and writes what it prints.
pub fn run_line<S: Alter, W: Write>(
    alloc: Global,
    plant: &mut Plant<S>,
    tracer: &mut Tracer,
    action: Action,
    line: usize,
    out: &mut W,
) -> Result<(), StepError>
    requires { Follows (engine_of plant.old) tracer.old }
    ensures ran { OnOk result (RunsLine action
        (point_of S.Store plant.old) (W.contents out.old)
        (point_of S.Store plant.new) (W.contents out.new)) }
    ensures failed { IfErr result (IsLineFailed action
        (point_of S.Store plant.old) (W.contents out.old) (W.contents out.new) line) }
    ensures follows { OnOk result (Follows (engine_of plant.new) tracer.new) }
{
    let mut text = String::new(alloc);
    let ran = run_action(alloc, plant, tracer, &action, &mut text);
    put_out(out, text.as_str(), ran, line)
}

/// Runs the lines after the settings over a plant, and writes what each prints. If it ends early, what
/// was written is what the lines before printed, and a beginning of what the next one prints.
pub fn run_actions<S: Alter, W: Write>(
    alloc: Global,
    plant: &mut Plant<S>,
    tracer: &mut Tracer,
    actions: &mut Actions<'_>,
    out: &mut W,
) -> Result<(), StepError>
    requires { Follows (engine_of plant.old) tracer.old }
    ensures ran { OnOk result (Ran actions.old actions.new
        (point_of S.Store plant.old) (W.contents out.old)
        (point_of S.Store plant.new) (W.contents out.new)) }
    ensures all { OnOk result (actions.new.rest.now ≡ []) }
    ensures follows { OnOk result (Follows (engine_of plant.new) tracer.new) }
    ensures stopped { IfErr result (λ e. Stopped actions.old
        (point_of S.Store plant.old) (W.contents out.old) e (W.contents out.new)) }
{
    while let Some(action) = actions.next(alloc)? {
        run_line(alloc, plant, tracer, action, actions.lines(), out)?;
    }
    flush(out)
}

/// A journal in memory.
pub fn memory_journal(alloc: Global) -> Result<Journal<MemStore>, ActionError>
    ensures whole { IfOk result (λ journal. journal.failed ≡ false) }
    ensures refused { IfErr result IsOfJournal }
{
    match Journal::open(alloc, Connection::open_in_memory(alloc)?) {
        Ok(journal) => Ok(journal),
        Err((cause, _)) => Err(ActionError::Plant(PlantError::Journal(cause))),
    }
}

// Whether the number of sessions is refused.
fn is_of_sessions(cause: &PlantError) -> bool
    ensures { result ≡ is_of_sessions cause.now }
{
    matches!(cause, PlantError::Engine(EngineError::BadSessions))
}

/// The refusal of this number of sessions, at the first line that is not a setting; any other error ends the run.
pub fn plant_refused(
    alloc: Global,
    cause: PlantError,
    line: usize,
    sessions: usize,
) -> Result<StepError, StepError>
    ensures refused { IfOk result (λ _. is_of_sessions cause ≡ true) }
    ensures fault { IfErr result (IsFaultOf ⊥) }
{
    if !is_of_sessions(&cause) {
        return Err(ActionError::Plant(cause).at_line(line));
    }
    let found = format!(in alloc; "{sessions}")?;
    Ok(StepError::Script(ScriptError::Line {
        line,
        cause: LineError::BadSessions,
        found: Quoted::of(found.as_bytes()),
    }))
}

// Runs the lines that are still to come, each before the next one is read.
fn run_rest<R: Read, S: Alter, W: Write>(
    alloc: Global,
    plant: &mut Plant<S>,
    tracer: &mut Tracer,
    lines: &mut Lines<R>,
    out: &mut W,
) -> Result<(), StepError>
    requires { Follows (engine_of plant.old) tracer.old }
    ensures ran { OnOk result (IfSome (to_come R.remaining lines.old) (λ bytes. RanAll bytes
        (point_of S.Store plant.old) (W.contents out.old)
        (point_of S.Store plant.new) (W.contents out.new))) }
    ensures few { OnOk result (IfSome (to_come R.remaining lines.old)
        (λ bytes. length bytes ≤ room lines.old)) }
    ensures grown { OnErr result (Grows (W.contents out.old) (W.contents out.new)) }
{
    while let Some(line) = lines.next(alloc)? {
        let mut actions = Actions::new(line.as_slice(), lines.count() - 1);
        run_actions(alloc, plant, tracer, &mut actions, out)?;
    }
    Ok(())
}

/// What a plant is made of, besides its journal.
#[derive(Drop)]
pub struct PlantPlan {
    /// The steps of the flow.
    pub code: Code,
    /// A station for each participant of the flow, in their order.
    pub stations: Vec<Station>,
    pub sessions: usize,
}

// Runs these lines, and then those that are still to come, over a plant of this plan with a journal in memory.
// (Apart from `play`, so that its proof does not carry how the stations are made.)
fn play_over<R: Read, W: Write>(
    alloc: Global,
    plan: PlantPlan,
    actions: &mut Actions<'_>,
    lines: &mut Lines<R>,
    out: &mut W,
) -> Result<(), StepError>
    ensures played { OnOk result (IfSome (to_come R.remaining lines.old) (λ others.
        PlayedOn plan.code plan.sessions actions.old others
        (W.contents out.old) (W.contents out.new))) }
    ensures few { OnOk result (IfSome (to_come R.remaining lines.old)
        (λ bytes. length bytes ≤ room lines.old)) }
    ensures grown { OnErr result (Grows (W.contents out.old) (W.contents out.new)) }
{
    let PlantPlan {
        code,
        stations,
        sessions,
    } = plan;
    let first = actions.lines().saturating_add(1);
    let journal = match memory_journal(alloc) {
        Ok(journal) => journal,
        Err(error) => return Err(error.at_line(first)),
    };
    let mut plant = match Plant::new(alloc, &code, journal, stations, sessions) {
        Ok(plant) => plant,
        Err((cause, _, _)) => return Err(plant_refused(alloc, cause, first, sessions)?),
    };
    let mut tracer = Tracer::new(alloc, plant.engine());
    run_actions(alloc, &mut plant, &mut tracer, actions, out)?;
    run_rest(alloc, &mut plant, &mut tracer, lines, out)
}

// Makes the participants of the flow, each of which replies as the script says or is the switch's own, and runs the lines
// after the settings: those of the script and those that are still to come. (It hands no station out, so that
// contracts know whose each participant is.)
fn play<R: Read, W: Write>(
    alloc: Global,
    cast: &Cast,
    script: Script<'_>,
    lines: &mut Lines<R>,
    out: &mut W,
) -> Result<(), StepError>
    requires { IsChecked script.flow }
    ensures played { OnOk result (IfSome (to_come R.remaining lines.old) (λ others.
        PlayedOn script.entry.flow script.entry.sessions script.entry.actions others
        (W.contents out.old) (W.contents out.new))) }
    ensures few { OnOk result (IfSome (to_come R.remaining lines.old)
        (λ bytes. length bytes ≤ room lines.old)) }
    ensures grown { OnErr result (Grows (W.contents out.old) (W.contents out.new)) }
{
    let code = assemble(alloc, &script.flow)?;
    let Script {
        flow: _,
        sessions,
        replies: mut replies,
        actions: mut actions,
    } = script;
    let mut stations = Vec::new(alloc);
    for part in code.participants() {
        let name = part.name.as_str();
        let participant: Box<dyn Participant + Send + Sync> = match cast {
            Cast::Scripted => Box::new(alloc, Scripted::new(alloc, replies.take(alloc, name)))?,
            Cast::Switch(setup) => Box::new(alloc, own_participant(alloc, setup, name)?)?,
        };
        stations.push(Station::from_parts(part.name.copy()?, participant, 0))?;
    }
    let plan = PlantPlan {
        code,
        stations,
        sessions: sessions as usize,
    };
    play_over(alloc, plan, &mut actions, lines, out)
}

/// Runs the lines of a script in their order over a plant with a journal in memory, and writes what each
/// prints before the next one is read. The flow is the one that its settings state, over that of a flow file if
/// there is one; its participants reply as the settings say, or are the switch's own.
///
/// A line that is refused ends the run, and what the lines before it printed remains. What an engine
/// refuses is printed, and the run goes on.
pub fn run_lines<R: Read, W: Write>(
    alloc: Global,
    cast: &Cast,
    file: Option<Flow>,
    lines: &mut Lines<R>,
    out: &mut W,
) -> Result<(), StepError>
    ensures ran { OnOk result (IfSome (to_come R.remaining lines.old) (λ script.
        IsRun file script (W.contents out.old) (W.contents out.new))) }
    ensures grown { OnErr result (Grows (W.contents out.old) (W.contents out.new)) }
{
    let head = read_head(alloc, file.is_some(), lines)?;
    match open_script(alloc, file, head.as_slice())? {
        Some(script) => play(alloc, cast, script, lines, out),
        None => flush(out),
    }
}

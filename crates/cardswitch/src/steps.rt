//! The subcommand `step`: a script, over the flow of its own lines or of a flow file.

ghost use Rattle.std.specs.Prelude.{◌≡◌, IfErr, IfOk, IfSome, OnOk, false};
ghost use Rattle.std.specs.Io.KnownBytes.{Keeps};
ghost use Rattle.flow_model.specs.Check.{IsChecked};
ghost use Rattle.cardswitch.specs.Steps.{IsCastBy, IsFileFlow, IsFileFlowFault, IsPromptFault, IsPromptedStep};
ghost use Rattle.cardswitch.specs.Steps.{IsScriptFault, IsSessionFault, IsStepFault, IsStepFaultBy};
ghost use Rattle.cardswitch.specs.Steps.{IsStepped, IsSteppedBy, PromptsOver, RunsScript};
ghost use Rattle.cardswitch.specs.declared.error.RunError.TheVariants as error;

use crate::error::RunError;
use crate::flow_file::flow_at;
use crate::machine::Machine;
use cli_io::Input;
use cli_lines::Lines;
use cli_options::choice::StepOptions;
use cli_step::{Cast, run_lines, run_prompted};
use flow_model::Flow;
use run_setup::simulated;
use std::alloc::Global;
use std::io::{Read, Write};

// The flow of the flow file that the options name, if they name one.
fn file_flow(alloc: Global, rt: &HostRuntime, path: Option<&str>) -> Result<Option<Flow>, RunError>
    ensures flow { IfOk result (IsFileFlow path.entry) }
    ensures failed { IfErr result (IsFileFlowFault path.entry) }
{
    match path {
        Some(path) => Ok(Some(flow_at(alloc, rt, path)?)),
        None => Ok(None),
    }
}

// Runs the script of an input, each line before the next one is read. (The flow is given as the result of reading
// its file, so that contracts can say that its fault is reported first.)
fn step_over<R: Read + Drop, O: Write>(
    alloc: Global,
    cast: &Cast,
    file: Result<Option<Flow>, RunError>,
    input: R,
    out: &mut O,
) -> Result<(), RunError>
    ensures no_flow { IfErr file (λ e. (result ≡ Err e)
        × (O.contents out.new ≡ O.contents out.old)) }
    ensures ran { IfOk file (λ flow. OnOk result (RunsScript flow
        (R.remaining input) (O.contents out.old) (O.contents out.new))) }
    ensures failed { IfOk file (λ _. IfErr result
        (IsScriptFault (O.contents out.old) (O.contents out.new))) }
{
    let flow = file?;
    let mut lines = Lines::new(alloc, Input::new(input));
    Ok(run_lines(alloc, cast, flow, &mut lines, out)?)
}

// Runs the script of an input over the flow of its own lines, or over that of the flow file at a path.
fn step_script<T, R: Read + Drop, O: Write>(
    machine: &Machine<'_, T>,
    cast: &Cast,
    path: Option<&str>,
    input: R,
    out: &mut O,
) -> Result<(), RunError>
    ensures stepped { OnOk result (IsStepped path.entry
        (R.remaining input) (O.contents out.old) (O.contents out.new)) }
    ensures failed { IfErr result
        (IsStepFault path.entry (O.contents out.old) (O.contents out.new)) }
{
    let file = file_flow(machine.alloc, machine.rt, path);
    step_over(machine.alloc, cast, file, input, out)
}

// Answers the lines of an input at a prompt. (The flow is given as the result of reading its file, as in
// `step_over`.)
fn prompt_over<R: Read + Drop, O: Write, E: Write>(
    alloc: Global,
    cast: &Cast,
    file: Result<Option<Flow>, RunError>,
    input: R,
    out: &mut O,
    err: &mut E,
) -> Result<(), RunError>
    requires { IfOk file (λ flow. IfSome flow IsChecked) }
    ensures no_flow { IfErr file (λ e. (result ≡ Err e)
        × (O.contents out.new ≡ O.contents out.old)) }
    ensures prompted { IfOk file (λ flow. OnOk result (PromptsOver flow (R.remaining input)
        (O.contents out.old) (E.contents err.old) (O.contents out.new) (E.contents err.new))) }
    ensures failed { IfOk file (λ _. IfErr result
        (IsScriptFault (O.contents out.old) (O.contents out.new))) }
    ensures session { IfOk file (λ _. IfErr result IsSessionFault) }
{
    let taken = file?;
    let mut lines = Lines::new(alloc, Input::new(input));
    Ok(run_prompted(alloc, cast, taken, &mut lines, out, err)?)
}

// Answers the lines of an input at a prompt, over the flow of its own lines, or over that of the flow file at a path.
fn step_prompted<T, R: Read + Drop, O: Write, E: Write>(
    machine: &Machine<'_, T>,
    cast: &Cast,
    path: Option<&str>,
    input: R,
    out: &mut O,
    err: &mut E,
) -> Result<(), RunError>
    ensures prompted { OnOk result (IsPromptedStep path.entry (R.remaining input)
        (O.contents out.old) (E.contents err.old) (O.contents out.new) (E.contents err.new)) }
    ensures failed { IfErr result
        (IsPromptFault path.entry (O.contents out.old) (O.contents out.new)) }
{
    let file = file_flow(machine.alloc, machine.rt, path);
    prompt_over(machine.alloc, cast, file, input, out, err)
}

// Whose participants a script's flow has.
fn cast(alloc: Global, switch: bool) -> Result<Cast, RunError>
    ensures cast { IfOk result (IsCastBy switch) }
    ensures failed { IfErr result (λ e. e ≡ error.OutOfMemory) }
{
    if switch {
        return Ok(Cast::Switch(simulated(alloc)?));
    }
    Ok(Cast::Scripted)
}

/// Runs the script of an input over the flow of its own lines, or over that of the flow file that the options name. Its
/// participants reply as the script says, or are the switch's own. What a line prints is written before the next one
/// is read. With a prompt each line is asked for, and one that is refused is reported on `err` and passed over.
pub fn step<T, R: Read + Drop, O: Write, E: Write>(
    machine: &Machine<'_, T>,
    options: &StepOptions<'_>,
    input: R,
    out: &mut O,
    err: &mut E,
) -> Result<(), RunError>
    ensures stepped { OnOk result (IsSteppedBy options.now.prompt options.now.flow
        (R.remaining input) (O.contents out.old) (O.contents out.new)) }
    ensures failed { IfErr result (IsStepFaultBy options.now.prompt options.now.flow
        (O.contents out.old) (O.contents out.new)) }
    ensures quiet { options.now.prompt ≡ false → Keeps (E.contents err.old) (E.contents err.new) }
{
    let cast = cast(machine.alloc, options.switch)?;
    if options.prompt {
        return step_prompted(machine, &cast, options.flow, input, out, err);
    }
    step_script(machine, &cast, options.flow, input, out)
}

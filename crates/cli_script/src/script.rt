//! A script: the settings at its head, and the lines after them.
ghost use Rattle.std.specs.Prelude.{◌≡◌, ◌+◌, ◌<◌, ◌≤◌, ◌^◌, IfErr, IfOk, length};
ghost use Rattle.cli_script.specs.Scripts.{HasNoSetting, IsHeadRead, IsHeadRefused, IsNextSetting};
ghost use Rattle.cli_script.specs.Scripts.{IsOpenedAs, IsScriptRefused, IsStated, IsUnstated, is_misplaced};

use crate::actions::Actions;
use crate::error::{ScriptError, error_at};
use crate::line::{ScriptLine, Setting};
use crate::read::read_line;
use crate::replies::Replies;
use crate::settings::Settings;
use crate::words::split_line;
use cli_io::Quoted;
use flow_model::Flow;
use std::alloc::Global;

/// Whether a setting gives a group beside a flow file.
fn is_misplaced(has_file: bool, setting: &Setting) -> bool
    ensures { result ≡ is_misplaced has_file setting.now }
{
    has_file && matches!(setting, Setting::Flow(_))
}

/// The next setting and what follows its line; `None` at the end of the script, or if the line is
/// an action. `lines` lines come before it.
pub fn next_setting(
    alloc: Global,
    has_file: bool,
    lines: usize,
    rest: &[u8],
) -> Result<Option<(Setting, &[u8])>, ScriptError>
    requires { lines + length rest.now < 2 ^ 64 }
    ensures { IsNextSetting has_file lines rest.entry.now result }
{
    let Some((text, others)) = split_line(rest) else {
        return Ok(None);
    };
    let line = lines + 1;
    let meaning = match read_line(alloc, text) {
        Ok(meaning) => meaning,
        Err(cause) => return Err(error_at(line, text, cause)),
    };
    match meaning {
        ScriptLine::Setting(setting) => {
            if is_misplaced(has_file, &setting) {
                let found = Quoted::of(text);
                return Err(ScriptError::FlowBesideFile { line, found });
            }
            Ok(Some((setting, others)))
        }
        ScriptLine::Action(_) => Ok(None),
    }
}

/// The settings at the head of a script, and what comes after them.
#[derive(Drop)]
struct Head<'a> {
    settings: Settings,
    rest: &'a [u8],
    /// How many lines are settings.
    lines: usize,
}

/// Keeps the settings at the head of a script, up to the first line that is not a setting.
fn read_head(alloc: Global, has_file: bool, script: &[u8]) -> Result<Head<'_>, ScriptError>
    ensures head { IfOk result (λ h. IsHeadRead has_file script.entry.now h.settings
        h.rest.now h.lines) }
    ensures all { IfOk result (λ h. HasNoSetting h.rest.now) }
    ensures few { IfOk result (λ h. h.lines + length h.rest.now ≤ length script.entry.now) }
    ensures refused { IfErr result (IsHeadRefused has_file script.entry.now) }
{
    let mut settings = Settings::new(alloc);
    let mut rest = script;
    let mut lines = 0;
    while let Some((setting, others)) = next_setting(alloc, has_file, lines, rest)? {
        settings.add(setting)?;
        rest = others;
        lines += 1;
    }
    Ok(Head {
        settings,
        rest,
        lines,
    })
}

/// A script that was read up to its first line that is not a setting.
#[derive(Drop)]
pub struct Script<'a> {
    /// The flow that the settings state. It is checked.
    pub flow: Flow,
    /// The number of sessions that the settings state.
    pub sessions: u64,
    /// The replies that the settings queue.
    pub replies: Replies,
    /// The lines that are still to come.
    pub actions: Actions<'a>,
}

/// Opens a script over the flow of a flow file, if there is one: reads its settings and checks the flow
/// that they state. `None` if it has nothing but settings, whose flow is then not checked.
///
/// Refuses the first line that is malformed or not allowed where it is, up to the first that is not a
/// setting, and at that one a flow that does not pass the check.
pub fn open_script(
    alloc: Global,
    file: Option<Flow>,
    script: &[u8],
) -> Result<Option<Script<'_>>, ScriptError>
    ensures opened { IfOk result (IsOpenedAs file script.entry.now) }
    ensures refused { IfErr result (IsScriptRefused file script.entry.now) }
{
    let Head {
        settings,
        rest,
        lines,
    } = read_head(alloc, file.is_some(), script)?;
    if rest.is_empty() {
        return Ok(None);
    }
    let sessions = settings.sessions();
    let (flow, replies) = settings.into_parts(file);
    if let Err(cause) = flow.check_by_map(alloc)? {
        return Err(ScriptError::Flow {
            line: lines + 1,
            cause,
        });
    }
    let actions = Actions::new(rest, lines);
    Ok(Some(Script {
        flow,
        sessions,
        replies,
        actions,
    }))
}

/// What settings state.
#[derive(Drop)]
pub struct Opening {
    /// The flow. It is checked.
    pub flow: Flow,
    /// The number of sessions.
    pub sessions: u64,
    /// The replies that are queued.
    pub replies: Replies,
}

/// Opens the settings of a prompt over the flow of a flow file, if there is one: checks the flow that they state.
/// `line` is the number of the line at which this is done: the error of a refused flow names it.
pub fn open_settings(
    alloc: Global,
    file: Option<Flow>,
    settings: &[u8],
    line: usize,
) -> Result<Opening, ScriptError>
    ensures stated { IfOk result (IsStated file settings.entry.now) }
    ensures refused { IfErr result (IsUnstated file settings.entry.now line) }
{
    let Head {
        settings,
        rest: _,
        lines: _,
    } = read_head(alloc, file.is_some(), settings)?;
    let sessions = settings.sessions();
    let (flow, replies) = settings.into_parts(file);
    match flow.check_by_map(alloc)? {
        Ok(()) => Ok(Opening {
            flow,
            sessions,
            replies,
        }),
        Err(cause) => Err(ScriptError::Flow { line, cause }),
    }
}

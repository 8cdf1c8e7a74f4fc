//! The lines of a script after its settings.
ghost use Rattle.std.specs.Prelude.{◌≡◌, ◌+◌, ◌<◌, ◌^◌, IfOk, MatchOption, OnSome, length};
ghost use Rattle.cli_script.specs.declared.line.ScriptLine.TheVariants.{Action as Acts, Setting as Stated};
ghost use Rattle.cli_script.specs.declared.line.Setting.{Setting};

use crate::error::{ScriptError, error_at};
use crate::line::{Action, ScriptLine};
use crate::puts::crowds;
use crate::read::read_line;
use crate::words::split_line;
use cli_io::Quoted;
use std::alloc::Global;

/// The lines of a script that are still to come, and how many came before them.
#[derive(Drop)]
pub struct Actions<'a> {
    rest: &'a [u8],
    lines: usize,
    ghost numbered: { lines + length rest.now < 2 ^ 64 },
}

impl<'a> Actions<'a> {
    ghost use Rattle.cli_script.specs.Scripts.{IsNextAction, bytes_left};

    /// The lines of `rest`, which come after `lines` others.
    pub fn new(rest: &'a [u8], lines: usize) -> Actions<'a>
        requires { lines + length rest.now < 2 ^ 64 }
        ensures rest { result.rest.now ≡ rest.entry.now }
        ensures lines { result.lines ≡ lines }
    {
        Actions { rest, lines }
    }

    /// How many lines were read, including the settings.
    pub fn lines(&self) -> usize
        ensures { result ≡ self.now.lines }
    {
        self.lines
    }

    /// The next action; `None` at the end of the script. `None` and an error change nothing: the next
    /// call reads the same line again.
    pub fn next(&mut self, alloc: Global) -> Result<Option<Action>, ScriptError>
        ensures next { IsNextAction self.old self.new result }
        ensures fewer { IfOk result (λ o. OnSome o (bytes_left self.new < bytes_left self.old)) }
    {
        let Some((text, others)) = split_line(self.rest) else {
            return Ok(None);
        };
        let line = self.lines + 1;
        let meaning = match read_line(alloc, text) {
            Ok(meaning) => meaning,
            Err(cause) => return Err(error_at(line, text, cause)),
        };
        let Some(action) = action_of(meaning) else {
            let found = Quoted::of(text);
            return Err(ScriptError::LateSetting { line, found });
        };
        if crowds(alloc, &action)? {
            let found = Quoted::of(text);
            return Err(ScriptError::Crowded { line, found });
        }
        self.rest = others;
        self.lines = line;
        Ok(Some(action))
    }
}

/// The action that a line is; `None` if it is a setting.
fn action_of(line: ScriptLine) -> Option<Action>
    ensures { MatchOption result ((s : Setting) × (line ≡ Stated s)) (λ a. line ≡ Acts a) }
{
    match line {
        ScriptLine::Action(action) => Some(action),
        ScriptLine::Setting(_) => None,
    }
}

//! The lines of all settings but `flow`.
ghost use Rattle.std.specs.Prelude.{◌≡◌, Some};
ghost use Rattle.cli_script.specs.Bytes.{hex_spelled};
ghost use Rattle.cli_script.specs.Forms.{advice_line, answer_line, choose_line, meant, name_or};
ghost use Rattle.cli_script.specs.Forms.{number_or, or_refuse, restore_line};
ghost use Rattle.cli_script.specs.Grammar.{Answers};
ghost use Rattle.cli_script.specs.Words.{cut_at};
ghost use Rattle.cli_script.specs.declared.error.LineError.TheVariants as refusal;
ghost use Rattle.cli_script.specs.declared.line.ScriptLine.TheVariants as line;
ghost use Rattle.cli_script.specs.declared.line.Setting.TheVariants as setting;

use crate::error::LineError;
use crate::hexadecimal::{is_hex, read_byte, read_hex};
use crate::line::{ScriptLine, Setting};
use crate::puts::read_puts;
use crate::words::{cut_at, first_and_rest};
use std::alloc::Global;
use sw_base::read_number;
use sw_context::is_name;
use sw_participant::{Bytes, Text};
use sw_scripted::QueuedAnswer;

/// A number, or the refusal of its line.
pub fn number_or(error: LineError, word: &str) -> Result<u64, LineError>
    ensures { result ≡ number_or error word.now }
{
    match read_number(word) {
        Some(number) => Ok(number),
        None => Err(error),
    }
}

/// A name, or the refusal of its line.
pub fn name_or(alloc: Global, error: LineError, word: &str) -> Result<Text, LineError>
    ensures { Answers (name_or error word.now) result }
{
    if !is_name(word) {
        return Err(error);
    }
    Ok(Text::from_str(alloc, word)?)
}

pub fn read_retries(rest: &str) -> Result<ScriptLine, LineError>
    ensures { result
        ≡ meant (λ n. line.Setting (setting.Retries n)) (number_or refusal.Retries rest.now) }
{
    let retries = number_or(LineError::Retries, rest)?;
    Ok(ScriptLine::Setting(Setting::Retries(retries)))
}

pub fn read_sessions(rest: &str) -> Result<ScriptLine, LineError>
    ensures { result
        ≡ meant (λ n. line.Setting (setting.Sessions n)) (number_or refusal.Sessions rest.now) }
{
    let sessions = number_or(LineError::Sessions, rest)?;
    Ok(ScriptLine::Setting(Setting::Sessions(sessions)))
}

#[tactic(auto, using(crate::proofs::Meant::parts_of_lines))]
pub fn read_answer(alloc: Global, rest: &str) -> Result<ScriptLine, LineError>
    ensures { Answers (answer_line (cut_at 32 rest.now)) result }
{
    let Some((name, more)) = cut_at(rest, ' ') else {
        return Err(LineError::Answer);
    };
    if !is_name(name) {
        return Err(LineError::Answer);
    }
    let (word, entries) = first_and_rest(more);
    let Some(byte) = read_byte(word) else {
        return Err(LineError::Answer);
    };
    let puts = read_puts(alloc, entries)?;
    let participant = Text::from_str(alloc, name)?;
    Ok(ScriptLine::Setting(Setting::Answer {
        participant,
        answer: QueuedAnswer { byte, puts },
    }))
}

pub fn read_choose(alloc: Global, rest: &str) -> Result<ScriptLine, LineError>
    ensures { Answers (choose_line (cut_at 32 rest.now)) result }
{
    let Some((name, text)) = cut_at(rest, ' ') else {
        return Err(LineError::Choose);
    };
    if !is_name(name) {
        return Err(LineError::Choose);
    }
    let participant = Text::from_str(alloc, name)?;
    let text = Text::from_str(alloc, text)?;
    Ok(ScriptLine::Setting(Setting::Choose { participant, text }))
}

/// The bytes of an advice. An invalid word is reported before out of memory.
fn read_body(alloc: Global, word: &str) -> Result<Bytes, LineError>
    ensures { Answers (or_refuse refusal.Advice (hex_spelled word.now)) result }
{
    match read_hex(alloc, word) {
        Ok(Some(body)) => Ok(Bytes::new(body)),
        Ok(None) => Err(LineError::Advice),
        Err(_) if is_hex(word) => Err(LineError::OutOfMemory),
        Err(_) => Err(LineError::Advice),
    }
}

#[tactic(auto, using(crate::proofs::Meant::parts_of_lines))]
pub fn read_advice(alloc: Global, rest: &str) -> Result<ScriptLine, LineError>
    ensures { Answers (advice_line (cut_at 32 rest.now)) result }
{
    let Some((name, word)) = cut_at(rest, ' ') else {
        return Err(LineError::Advice);
    };
    if !is_name(name) {
        return Err(LineError::Advice);
    }
    let body = read_body(alloc, word)?;
    let participant = Text::from_str(alloc, name)?;
    Ok(ScriptLine::Setting(Setting::Advice { participant, body }))
}

#[tactic(auto, using(crate::proofs::Meant::parts_of_lines))]
pub fn read_restore(alloc: Global, rest: &str) -> Result<ScriptLine, LineError>
    ensures { Answers (restore_line rest.now) result }
{
    let (name, entries) = first_and_rest(rest);
    if !is_name(name) {
        return Err(LineError::Restore);
    }
    let puts = read_puts(alloc, entries)?;
    let participant = Text::from_str(alloc, name)?;
    Ok(ScriptLine::Setting(Setting::Restore { participant, puts }))
}

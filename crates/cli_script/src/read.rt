//! Reads one line of a script.
ghost use Rattle.std.specs.Prelude.{◌≡◌};
ghost use Rattle.cli_script.specs.Grammar.{Answers, IsText, has_stray_space, meaning_at, meaning_of, rows};

use crate::action_lines::read_action;
use crate::error::LineError;
use crate::group::read_flow;
use crate::line::ScriptLine;
use crate::setting_lines::{
    read_advice, read_answer, read_choose, read_restore, read_retries, read_sessions,
};
use crate::words::{first_and_rest, has_control, has_empty_word};
use std::alloc::Global;

/// What a line with this first word means, by the text after the word's space.
fn read_row(alloc: Global, word: &str, rest: &str) -> Result<ScriptLine, LineError>
    ensures { Answers (meaning_at rows word.now rest.now) result }
{
    match word {
        "retries" => read_retries(rest),
        "sessions" => read_sessions(rest),
        "flow" => read_flow(alloc, rest),
        "answer" => read_answer(alloc, rest),
        "choose" => read_choose(alloc, rest),
        "advice" => read_advice(alloc, rest),
        "restore" => read_restore(alloc, rest),
        _ => read_action(alloc, word, rest),
    }
}

/// Whether a space is where none is allowed. The text of a `choose` line may have any spaces.
fn has_stray_space(text: &str) -> bool
    ensures { result ≡ has_stray_space text.now }
{
    let (word, _) = first_and_rest(text);
    word != "choose" && has_empty_word(text)
}

/// The line as text that has words.
fn text_of(line: &[u8]) -> Result<&str, LineError>
    ensures { IsText line.entry.now result }
{
    let Ok(text) = str::from_utf8(line) else {
        return Err(LineError::NotText);
    };
    if has_control(line) {
        return Err(LineError::Control);
    }
    if has_stray_space(text) {
        return Err(LineError::EmptyWord);
    }
    Ok(text)
}

/// What a line means, which is given without its line feed. It is refused exactly if the specified grammar
/// refuses it, and for the grammar's reason; out of memory is reported only for other lines.
pub fn read_line(alloc: Global, line: &[u8]) -> Result<ScriptLine, LineError>
    ensures { Answers (meaning_of line.now) result }
{
    let text = text_of(line)?;
    let (word, rest) = first_and_rest(text);
    read_row(alloc, word, rest)
}

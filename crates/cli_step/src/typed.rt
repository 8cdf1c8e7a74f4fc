//! What is typed at a prompt.

ghost use Rattle.std.specs.Prelude.{◌≡◌, ◌==◌, IfOk, map};
ghost use Rattle.std.specs.List.{slice_split};
ghost use Rattle.cli_step.specs.Typed.{kept, spaced, tidied, typed, typed_by};

use cli_lines::line_end;
use std::alloc::{AllocError, Global};

/// What a line is that is typed at a prompt.
#[derive(Clone, Copy)]
pub enum Typed {
    /// A comment, or an empty line that has nothing to repeat.
    Nothing,
    /// `quit`: the session ends.
    Quit,
    /// A line of a script, or a word of the prompt: the one that is kept.
    Line,
}

// The parts of a line between its spaces, empty ones too.
fn split_at_spaces(alloc: Global, line: &[u8]) -> Result<Vec<&[u8]>, AllocError>
    ensures { IfOk result (λ parts. map (λ p. p.now) parts.items
        ≡ slice_split (λ b. b == 32) line.entry.now) }
{
    line.split(|byte| *byte == b' ').collect(alloc)
}

// The parts that are not empty, each after a space.
fn spaced(alloc: Global, parts: &[&[u8]]) -> Result<Vec<u8>, AllocError>
    ensures { IfOk result (λ text. text.items ≡ spaced (map (λ p. p.now) parts.entry.now)) }
{
    let mut text = Vec::new(alloc);
    for part in parts {
        if !part.is_empty() {
            text.push(b' ')?;
            text.extend_from_slice(part)?;
        }
    }
    Ok(text)
}

// The line with one space between its words, and without its line feed.
#[tactic(auto, unfolding(crate::specs::Typed::tidied))]
fn tidied(alloc: Global, line: &[u8]) -> Result<Vec<u8>, AllocError>
    ensures { IfOk result (λ text. text.items ≡ tidied line.now) }
{
    let parts = split_at_spaces(alloc, &line[..line_end(line)])?;
    let mut text = spaced(alloc, parts.as_slice())?;
    if !text.is_empty() {
        text.remove(0);
    }
    Ok(text)
}

// What a line is, once it is tidied; `last` is the one that is kept.
fn typed_by(last: &[u8], text: &[u8]) -> Typed
    ensures { result ≡ typed_by last.now text.now }
{
    match text {
        [] if last.is_empty() => Typed::Nothing,
        [] => Typed::Line,
        [b'#', ..] => Typed::Nothing,
        b"quit" => Typed::Quit,
        _ => Typed::Line,
    }
}

/// What a line is that was read at a prompt. Any number of spaces may stand around and between its words. If it is a
/// line, it is kept in `last`, with a line feed; an empty line stands for the one that is kept already.
pub fn keep(alloc: Global, last: &mut Vec<u8>, read: &[u8]) -> Result<Typed, AllocError>
    ensures is { IfOk result (λ t. t ≡ typed last.old.items read.now) }
    ensures kept { IfOk result (λ _. last.new.items ≡ kept last.old.items read.now) }
{
    let mut text = tidied(alloc, read)?;
    let typed = typed_by(last.as_slice(), text.as_slice());
    if let Typed::Line = typed {
        if !text.is_empty() {
            text.push(b'\n')?;
            *last = text;
        }
    }
    Ok(typed)
}

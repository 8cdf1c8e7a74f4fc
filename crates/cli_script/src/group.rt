//! The line `flow GROUP ENTRY ..`.
ghost use Rattle.std.specs.Prelude.{◌≡◌, IfOk, Some, map, option_map};
ghost use Rattle.cli_script.specs.Forms.{flow_line, group_line, or_refuse};
ghost use Rattle.cli_script.specs.Grammar.{Answers};
ghost use Rattle.cli_script.specs.Groups.{entries_spelled, entry, entry_spelled, kind_marked};
ghost use Rattle.cli_script.specs.Words.{further_words, has_bad};
ghost use Rattle.cli_script.specs.declared.error.LineError.TheVariants.{Marks};

use crate::error::LineError;
use crate::line::{ScriptLine, Setting};
use crate::words::{cut_at, first_and_rest, further_words};
use flow_model::{Entry, Group};
use std::alloc::Global;
use sw_participant::{Kind, Sequence, Text};

/// The marks of an entry: `s` a selector, `a` abort-aware, `r` recovering.
fn kind_of(marks: &str) -> Option<Kind>
    ensures { result ≡ kind_marked marks.now }
{
    match marks {
        "s" => Some(Kind::SELECTOR),
        "a" => Some(Kind::ABORT_AWARE),
        "sa" => Some(Kind::SELECTOR_ABORT_AWARE),
        "r" => Some(Kind::RECOVERING),
        "sr" => Some(Kind::SELECTOR_RECOVERING),
        "ar" => Some(Kind::ABORT_AWARE_RECOVERING),
        "sar" => Some(Kind::SELECTOR_ABORT_AWARE_RECOVERING),
        _ => None,
    }
}

/// The name and the kind of `NAME` or `NAME:MARKS`.
fn entry_parts(word: &str) -> Option<(&str, Kind)>
    ensures { option_map (λ p. entry p.0.now p.1) result ≡ entry_spelled word.entry.now }
{
    match cut_at(word, ':') {
        None => Some((word, Kind::PLAIN)),
        Some((name, marks)) => Some((name, kind_of(marks)?)),
    }
}

/// The entries that words spell.
fn spelled_entries(alloc: Global, words: &[&str]) -> Result<Vec<Entry>, LineError>
    ensures { IfOk result (λ v. entries_spelled (map (λ w. w.now) words.now) ≡ Some v.items) }
{
    let mut entries = Vec::new(alloc);
    for word in words {
        let Some((name, kind)) = entry_parts(word) else {
            return Err(LineError::Marks);
        };
        let participant = Text::from_str(alloc, name)?;
        entries.push(Entry { participant, kind })?;
    }
    Ok(entries)
}

/// The entries of a text that may be empty.
fn further_entries(alloc: Global, text: &str) -> Result<Sequence<Entry>, LineError>
    ensures { IfOk result (λ entries. entries_spelled (further_words text.now) ≡ Some entries) }
{
    let words = further_words(alloc, text)?;
    Ok(Sequence::new(spelled_entries(alloc, words.as_slice())?))
}

/// Whether a word of the text spells no entry.
fn has_bad_entry(text: &str) -> bool
    ensures { result ≡ has_bad entry_spelled (further_words text.now) }
{
    !text.is_empty() && text.split(' ').any(|word| entry_parts(word).is_none())
}

/// The entries of a text that may be empty. They are read once, and looked over again if that
/// fails: unknown marks are reported before out of memory.
fn read_entries(alloc: Global, text: &str) -> Result<Sequence<Entry>, LineError>
    ensures { Answers (or_refuse Marks (entries_spelled (further_words text.now))) result }
{
    match further_entries(alloc, text) {
        Ok(entries) => Ok(entries),
        Err(_) if has_bad_entry(text) => Err(LineError::Marks),
        Err(_) => Err(LineError::OutOfMemory),
    }
}

/// The group of this name with the entries of a text that may be empty.
#[tactic(auto, using(crate::proofs::Meant::parts_of_lines))]
fn read_group(alloc: Global, name: &str, text: &str) -> Result<ScriptLine, LineError>
    ensures { Answers (group_line name.now (entries_spelled (further_words text.now))) result }
{
    let entries = read_entries(alloc, text)?;
    let name = Text::from_str(alloc, name)?;
    Ok(ScriptLine::Setting(Setting::Flow(Group { name, entries })))
}

/// `GROUP ENTRY ..`, after the first word.
pub fn read_flow(alloc: Global, rest: &str) -> Result<ScriptLine, LineError>
    ensures { Answers (flow_line rest.now) result }
{
    if rest.is_empty() {
        return Err(LineError::Flow);
    }
    let (name, text) = first_and_rest(rest);
    read_group(alloc, name, text)
}

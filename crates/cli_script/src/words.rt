//! The lines of a script, the words of a line, and what a word spells.
ghost use Rattle.std.specs.Prelude.{◌≡◌, ◌<◌, [], IfOk, MatchOption, map};
ghost use Rattle.cli_script.specs.Lines.{IsFirstLine};
ghost use Rattle.cli_script.specs.Words.{cut_at, first_word, further_words, has_control};
ghost use Rattle.cli_script.specs.Words.{has_empty_word, parts_shown, rest_of, words_of};

use cli_lines::line_end;
use std::alloc::{AllocError, Global};

/// The first line of a script and what follows it; `None` if the script is empty. A line ends in
/// a line feed, which is part of neither and which the last line may lack.
pub fn split_line(script: &[u8]) -> Option<(&[u8], &[u8])>
    ensures { MatchOption result (script.entry.now ≡ []) (IsFirstLine script.entry.now) }
{
    if script.is_empty() {
        return None;
    }
    let end = line_end(script);
    if end == script.len() {
        return Some((script, &[]));
    }
    Some((&script[..end], &script[end + 1..]))
}

/// Whether the line has a tab or a carriage return.
pub fn has_control(line: &[u8]) -> bool
    ensures { result ≡ has_control line.now }
{
    line.iter().any(|byte| *byte == b'\t' || *byte == b'\r')
}

/// Whether the line is empty, or has a leading, trailing or doubled space.
pub fn has_empty_word(line: &str) -> bool
    ensures { result ≡ has_empty_word line.now }
{
    line.split(' ').any(|word| word.is_empty())
}

/// What comes before and after the first `mark`; `None` if there is none.
pub fn cut_at(text: &str, mark: char) -> Option<(&str, &str)>
    requires { mark < 128 }
    ensures { parts_shown result ≡ cut_at mark text.entry.now }
{
    text.split_once(mark)
}

/// What comes before the first space, and what comes after it; if there is none, the whole text and nothing.
pub fn first_and_rest(text: &str) -> (&str, &str)
    ensures word { result.0.now ≡ first_word text.entry.now }
    ensures rest { result.1.now ≡ rest_of text.entry.now }
{
    cut_at(text, ' ').unwrap_or((text, ""))
}

/// The parts of a text between its spaces.
fn split_words(alloc: Global, text: &str) -> Result<Vec<&str>, AllocError>
    ensures { IfOk result (λ v. map (λ w. w.now) v.items ≡ words_of text.entry.now) }
{
    text.split(' ').collect(alloc)
}

/// The words of a text; none if it is empty.
pub fn further_words(alloc: Global, text: &str) -> Result<Vec<&str>, AllocError>
    ensures { IfOk result (λ v. map (λ w. w.now) v.items ≡ further_words text.entry.now) }
{
    if text.is_empty() {
        return Ok(Vec::new(alloc));
    }
    split_words(alloc, text)
}

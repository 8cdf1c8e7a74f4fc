//! The words of a line. If a word is not of its form, the line's fault is reported.

ghost use Rattle.std.specs.Prelude.{◌≡◌, option_map};
ghost use Rattle.flow_load.specs.Reads.{Exactly, found};
ghost use Rattle.flow_load.specs.Words as spec;

use crate::error::LoadError;
use crate::print::kind_word;
use sw_context::is_name;
use sw_participant::Kind;

/// The bytes before and after the first `byte` of the text; `None` if it has none.
pub fn cut(byte: u8, text: &[u8]) -> Option<(&[u8], &[u8])>
    ensures { option_map (λ p. (p.0.now, p.1.now)) result ≡ spec.cut byte text.now }
{
    for (index, x) in text.iter().enumerate() {
        if *x == byte {
            return Some((&text[..index], &text[index + 1..]));
        }
    }
    None
}

fn value(word: &[u8]) -> Option<usize>
    ensures { result ≡ spec.value_on 0 word.now }
{
    let mut value = 0;
    for c in word {
        if *c < b'0' || *c > b'9' {
            return None;
        }
        value = 10 * value + (*c - b'0') as usize;
        if value > 100_000 {
            return None;
        }
    }
    Some(value)
}

// A decimal number without leading zeros, at most 100,000.
fn number(word: &[u8]) -> Option<usize>
    ensures { result ≡ spec.number word.now }
{
    if word.is_empty() || (word.len() != 1 && word[0] == b'0') {
        return None;
    }
    value(word)
}

/// The first word, and what follows its space.
pub fn word_at(error: LoadError, text: &[u8]) -> Result<(&[u8], &[u8]), LoadError>
    ensures { Exactly (λ p. (p.0.now, p.1.now)) result (spec.word_at error text.now) }
{
    match cut(b' ', text) {
        Some(parts) => Ok(parts),
        None => Err(error),
    }
}

/// The number that the word is.
pub fn number_of(error: LoadError, word: &[u8]) -> Result<usize, LoadError>
    ensures { Exactly (λ n. n) result (spec.number_of error word.now) }
{
    match number(word) {
        Some(n) => Ok(n),
        None => Err(error),
    }
}

/// The number that the first word is, and what follows it.
pub fn number_at(error: LoadError, text: &[u8]) -> Result<(usize, &[u8]), LoadError>
    ensures { Exactly (λ p. (p.0, p.1.now)) result (spec.number_at error text.now) }
{
    let (word, rest) = word_at(error, text)?;
    let n = number_of(error, word)?;
    Ok((n, rest))
}

/// What follows the first word, which must be `word`.
pub fn word_is<'a>(error: LoadError, word: &[u8], text: &'a [u8]) -> Result<&'a [u8], LoadError>
    ensures { Exactly (λ r. r.now) result (spec.word_is error word.now text.now) }
{
    let (first, rest) = word_at(error, text)?;
    if first == word { Ok(rest) } else { Err(error) }
}

fn name_of(error: LoadError, word: &[u8]) -> Result<&str, LoadError>
    ensures { Exactly (λ t. t.now) result (spec.name_of error word.now) }
{
    match std::str::from_utf8(word) {
        Ok(text) => { if is_name(text) { Ok(text) } else { Err(error) } }
        Err(_) => Err(error),
    }
}

/// The name that the first word is, and what follows it.
pub fn name_at(error: LoadError, text: &[u8]) -> Result<(&str, &[u8]), LoadError>
    ensures { Exactly (λ p. (p.0.now, p.1.now)) result (spec.name_at error text.now) }
{
    let (word, rest) = word_at(error, text)?;
    let name = name_of(error, word)?;
    Ok((name, rest))
}

#[tactic(auto, unfolding(crate::specs::Words::kind_of))]
fn kind_of(word: &[u8]) -> Option<Kind>
    ensures { result ≡ spec.kind_of word.now }
{
    let kinds = Kind::ALL.as_slice();
    for kind in kinds {
        if kind_word(*kind).as_bytes() == word {
            return Some(*kind);
        }
    }
    None
}

/// The kind that the word spells.
pub fn kind_at(error: LoadError, word: &[u8]) -> Result<Kind, LoadError>
    ensures { Exactly (λ k. k) result (found error (spec.kind_of word.now)) }
{
    match kind_of(word) {
        Some(kind) => Ok(kind),
        None => Err(error),
    }
}

/// The bytes before and after the first line feed.
pub fn line_at(error: LoadError, text: &[u8]) -> Result<(&[u8], &[u8]), LoadError>
    ensures { Exactly (λ p. (p.0.now, p.1.now)) result (found error (spec.cut 10 text.now)) }
{
    match cut(b'\n', text) {
        Some(parts) => Ok(parts),
        None => Err(error),
    }
}

//! The entries of a context, `N=HEX ..`.
ghost use Rattle.std.specs.Prelude.{◌≡◌, IfOk, Some, is_some, map};
ghost use Rattle.cli_script.specs.Forms.{or_refuse};
ghost use Rattle.cli_script.specs.Grammar.{Answers};
ghost use Rattle.cli_script.specs.Puts.{put_cut, put_spelled, puts_spelled};
ghost use Rattle.cli_script.specs.Scripts.{crowds};
ghost use Rattle.cli_script.specs.Words.{further_words, has_bad};
ghost use Rattle.cli_script.specs.declared.error.LineError.TheVariants.{Entry};

use crate::error::LineError;
use crate::hexadecimal::{is_hex, read_hex};
use crate::line::Action;
use crate::words::{cut_at, further_words};
use std::alloc::Global;
use sw_context::is_name;
use sw_participant::{Bytes, NoMemory, Sequence, Text};
use sw_scripted::{Put, is_crowded};

/// The most digits of a value: two for each of 65,535 bytes.
const MOST_DIGITS: usize = 131_070;

/// Whether the two sides of a word's `=` are a name and the digits of a value.
fn is_pair(name: &str, digits: &str) -> bool
    ensures { result ≡ is_some (put_cut (Some (name.now, digits.now))) }
{
    is_name(name) && digits.len() <= MOST_DIGITS && is_hex(digits)
}

/// Whether a word is `N=HEX`. It takes no memory.
fn is_put(word: &str) -> bool
    ensures { result ≡ is_some (put_spelled word.now) }
{
    match cut_at(word, '=') {
        Some((name, digits)) => is_pair(name, digits),
        None => false,
    }
}

/// The entry of `N=HEX`.
fn read_put(alloc: Global, word: &str) -> Result<Put, LineError>
    ensures { IfOk result (λ put. put_spelled word.now ≡ Some put) }
{
    let Some((name, digits)) = cut_at(word, '=') else {
        return Err(LineError::Entry);
    };
    if !is_name(name) || digits.len() > MOST_DIGITS {
        return Err(LineError::Entry);
    }
    let Some(value) = read_hex(alloc, digits)? else {
        return Err(LineError::Entry);
    };
    Ok(Put {
        name: Text::from_str(alloc, name)?,
        value: Bytes::new(value),
    })
}

/// The entries that words spell.
fn spelled_puts(alloc: Global, words: &[&str]) -> Result<Vec<Put>, LineError>
    ensures { IfOk result (λ v. puts_spelled (map (λ w. w.now) words.now) ≡ Some v.items) }
{
    let mut puts = Vec::new(alloc);
    for word in words {
        puts.push(read_put(alloc, word)?)?;
    }
    Ok(puts)
}

/// The entries of a text that may be empty.
fn further_puts(alloc: Global, text: &str) -> Result<Sequence<Put>, LineError>
    ensures { IfOk result (λ puts. puts_spelled (further_words text.now) ≡ Some puts) }
{
    let words = further_words(alloc, text)?;
    Ok(Sequence::new(spelled_puts(alloc, words.as_slice())?))
}

/// Whether a word of the text is not an entry.
fn has_bad_put(text: &str) -> bool
    ensures { result ≡ has_bad put_spelled (further_words text.now) }
{
    !text.is_empty() && text.split(' ').any(|word| !is_put(word))
}

/// The entries of a text that may be empty. They are read once, and looked over again if that
/// fails: a word that is invalid is reported before out of memory.
pub fn read_puts(alloc: Global, text: &str) -> Result<Sequence<Put>, LineError>
    ensures { Answers (or_refuse Entry (puts_spelled (further_words text.now))) result }
{
    match further_puts(alloc, text) {
        Ok(puts) => Ok(puts),
        Err(_) if has_bad_put(text) => Err(LineError::Entry),
        Err(_) => Err(LineError::OutOfMemory),
    }
}

/// Whether the context that the line offers has too many names.
pub fn crowds(alloc: Global, action: &Action) -> Result<bool, NoMemory>
    ensures { IfOk result (λ b. b ≡ crowds action.now) }
{
    match action {
        Action::Offer(puts) => is_crowded(alloc, puts.as_slice()),
        _ => Ok(false),
    }
}

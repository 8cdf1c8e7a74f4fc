//! The lines that a prompt has besides those of a script, and what they show.

ghost use Rattle.std.specs.Prelude.{◌≡◌, ◌++◌, Some, IfOk, OnOk, option_map, string_bytes};
ghost use Rattle.cli_script.specs.Scripts.{line_of};
ghost use Rattle.cli_step.specs.PromptWords.{each_session, info_text, list_text, prompt_word_of};
ghost use Rattle.cli_step.specs.PromptWords.{prompt_word_text, session_line, step_line, totals_line};
ghost use Rattle.cli_step.specs.TurnLines.{whole_line};
ghost use Rattle.cli_step.specs.Totals.{entry_count, totals_text};

use crate::shown::push_line;
use crate::turn_lines::where_line;
use cli_lines::line_end;
use flow_load::image;
use std::alloc::{AllocError, Global};
use std::fmt;
use tx_engine::Engine;
use tx_trace::whereis;

/// A line that a prompt has besides those of a script: a word and nothing else.
#[derive(Clone, Copy)]
pub enum PromptWord {
    /// `help`: the lines, each with its meaning.
    Help,
    /// `list`: the numbered steps of the flow, and at which of them the sessions are.
    List,
    /// `info`: where each session stands, how many contexts wait, and how many entries are written.
    Info,
}

/// What `help` shows: each line with its meaning.
pub const HELP: &str = "\
Settings come first. The first other line, except help, opens the flow.
retries N                  how often a transaction that aborts with RETRY is tried again
sessions N                 the number of sessions, 1 to 16
flow GROUP [ENTRY ..]      adds a group to the flow; an entry is NAME or NAME:MARKS
answer NAME HH [N=HEX ..]  queues the answer of the participant's next preparation
choose NAME TEXT           queues the text of its next selection
advice NAME HEX            queues the advice of its next commit or abort
restore NAME [N=HEX ..]    queues what its next recover puts into the context

offer [N=HEX ..]           puts a context at the end of the queue
take S                     session S takes the first context of the queue
call S                     makes the due call of session S
go S                       lets the held call of session S go
break NAME                 holds the calls of the participant from now on
clear NAME                 holds them no longer
where S                    shows where the transaction of session S is
rest S                     shows its entries that are still to come
saved S                    shows its saved context
calls NAME                 shows how many calls of the participant were made
write [K]                  writes all entries, or the oldest K
release                    puts the shelf at the end of the queue
ack ID PLACE               reports that the advice of this place was forwarded
stop                       discards all but the journal and the participants
cut                        begins the history anew, without a stop
auto                       runs one transaction with an empty context to its end

list                       shows the steps of the flow, and where the sessions are
info                       shows each session, the queue, the shelf and what is written
help                       shows these lines
quit                       ends the session
An empty line repeats the line before, once the flow is open. A line that begins with # is a comment.
";

/// `queue Q, shelf H, written M of N`
#[derive(Drop)]
struct TotalsText {
    queue: usize,
    shelf: usize,
    written: usize,
    entries: usize,
}

impl fmt::Display for TotalsText {
    ghost output = { λ t. Some (totals_text t.queue t.shelf t.written t.entries) };

    fn fmt<W: fmt::Write>(&self, f: &mut fmt::Formatter<W>) -> fmt::Result {
        let (queue, shelf) = (self.queue, self.shelf);
        let (written, entries) = (self.written, self.entries);
        write!(
            f,
            "queue {queue}, shelf {shelf}, written {written} of {entries}"
        )
    }
}

// The word of the prompt that these bytes are, if they are one.
fn prompt_word_of(word: &[u8]) -> Option<PromptWord>
    ensures { result ≡ prompt_word_of word.now }
{
    if word == b"help".as_slice() {
        Some(PromptWord::Help)
    } else if word == b"list".as_slice() {
        Some(PromptWord::List)
    } else if word == b"info".as_slice() {
        Some(PromptWord::Info)
    } else {
        None
    }
}

/// The word of the prompt that a line is, without its line feed; `None` for any other line.
pub fn prompt_word_at(line: &[u8]) -> Option<PromptWord>
    ensures { result ≡ prompt_word_of (line_of line.now) }
{
    prompt_word_of(&line[..line_end(line)])
}

// The line of `list` for a session whose transaction is at a numbered step; `None` for any other.
fn step_line(alloc: Global, engine: &Engine, s: usize) -> Result<Option<String>, AllocError>
    ensures { IfOk result (λ line. option_map string_bytes line ≡ step_line engine.now s) }
{
    let Some(place) = whereis(engine, s) else {
        return Ok(None);
    };
    match place.step {
        Some(step) => Ok(Some(format!(in alloc; "session {s} at step {step}")?)),
        None => Ok(None),
    }
}

// The lines of `list` after the image.
fn step_lines(alloc: Global, engine: &Engine) -> Result<String, AllocError>
    ensures { IfOk result (λ text. string_bytes text
        ≡ each_session (λ s. whole_line (step_line engine.now s)) engine.now.sessions) }
{
    let mut text = String::new(alloc);
    for s in 0..engine.sessions() {
        push_line(&mut text, step_line(alloc, engine, s)?)?;
    }
    Ok(text)
}

// The text of `list`.
fn list_text(alloc: Global, engine: &Engine) -> Result<Vec<u8>, AllocError>
    ensures { IfOk result (λ text. text.items ≡ list_text engine.now) }
{
    let mut text = image(alloc, engine.code())?;
    text.extend_from_slice(step_lines(alloc, engine)?.as_bytes())?;
    Ok(text)
}

// The line of `info` for a session.
fn session_line(alloc: Global, engine: &Engine, s: usize) -> Result<String, AllocError>
    ensures { IfOk result (λ line. string_bytes line ≡ session_line engine.now s) }
{
    let mut line = format!(in alloc; "session {s}: ")?;
    line.push_str(where_line(alloc, engine, s)?.as_str())?;
    Ok(line)
}

// How many entries the history has.
fn entry_count(engine: &Engine) -> usize
    ensures { result ≡ entry_count engine.now }
{
    engine.history().len()
}

// The last line of `info`.
fn totals_line(alloc: Global, engine: &Engine) -> Result<String, AllocError>
    ensures { IfOk result (λ line. string_bytes line ≡ totals_line engine.now) }
{
    let totals = TotalsText {
        queue: engine.queued(),
        shelf: engine.shelved(),
        written: engine.mark(),
        entries: entry_count(engine),
    };
    format!(in alloc; "{totals}")
}

// The text of `info`.
fn info_text(alloc: Global, engine: &Engine) -> Result<String, AllocError>
    ensures { IfOk result (λ text. string_bytes text ≡ info_text engine.now) }
{
    let mut text = String::new(alloc);
    for s in 0..engine.sessions() {
        push_line(&mut text, Some(session_line(alloc, engine, s)?))?;
    }
    push_line(&mut text, Some(totals_line(alloc, engine)?))?;
    Ok(text)
}

/// What a word of the prompt shows.
pub fn prompt_word_text(
    alloc: Global,
    engine: &Engine,
    word: PromptWord,
) -> Result<Vec<u8>, AllocError>
    ensures { IfOk result (λ text. text.items ≡ prompt_word_text word engine.now) }
{
    match word {
        PromptWord::Help => HELP.as_bytes().to_vec(alloc),
        PromptWord::List => list_text(alloc, engine),
        PromptWord::Info => Ok(info_text(alloc, engine)?.into_bytes()),
    }
}

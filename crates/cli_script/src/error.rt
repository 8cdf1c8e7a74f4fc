//! Why a line of a script is refused.
ghost use Rattle.std.specs.Prelude.{◌≡◌};
ghost use Rattle.cli_script.specs.Scripts.{error_at};
ghost use Rattle.cli_script.specs.declared.error.LineError.TheVariants as line;
ghost use Rattle.cli_script.specs.declared.error.ScriptError.TheVariants as script;

use cli_io::Quoted;
use flow_model::FlowError;
use std::alloc::{AllocError, AllocFailed};
use std::fmt;
use sw_participant::NoMemory;

/// Why a line is refused: what is wrong with it, and what was expected. The first three are tried in
/// this order, before the line's form.
#[derive(Clone, Copy, PartialEq, Eq)]
pub enum LineError {
    /// The bytes are not UTF-8.
    NotText,
    /// The line has a tab or a carriage return.
    Control,
    /// The line is empty, or has a leading, trailing or doubled space.
    EmptyWord,
    /// The first word is not a command.
    Command,
    /// `retries` without a number below 2^64.
    Retries,
    /// `sessions` without a number below 2^64.
    Sessions,
    /// `flow` without a group's name.
    Flow,
    /// An entry of `flow` with a colon and no marks after it.
    Marks,
    /// `answer` without a name and a byte.
    Answer,
    /// A word after `answer`, `restore` or `offer` that is not a context entry.
    Entry,
    /// `choose` without a name and a space after it.
    Choose,
    /// `advice` without a name and bytes.
    Advice,
    /// `restore` without a name.
    Restore,
    /// `take` without one number.
    Take,
    /// `release` with more words.
    Release,
    /// `ack` without two numbers.
    Ack,
    /// `break` without one name.
    Break,
    /// `clear` without one name.
    Clear,
    /// `go` without one number.
    Go,
    /// `call` without one number.
    Call,
    /// `write` with words that are not one number.
    Write,
    /// `stop` with more words.
    Stop,
    /// `cut` with more words.
    Cut,
    /// `where` without one number.
    Where,
    /// `rest` without one number.
    Rest,
    /// `saved` without one number.
    Saved,
    /// `calls` without one name.
    Calls,
    /// `auto` with more words.
    Auto,
    /// An action after settings that state another number of sessions than 1 to 16.
    BadSessions,
    /// No memory was left for what the line means.
    OutOfMemory,
}

impl LineError {
    // What was wrong, and what was expected.
    fn text(self) -> &'static str {
        match self {
            LineError::NotText => "not UTF-8; expected words separated by single spaces",
            LineError::Control => {
                "contains a tab or a carriage return; expected words separated by single spaces"
            }
            LineError::EmptyWord => {
                "empty, or a leading, trailing or doubled space; expected words separated by single spaces"
            }
            LineError::Command => {
                "unknown command; expected retries, sessions, flow, answer, choose, advice, restore, offer, \
                take, release, ack, break, clear, go, call, write, stop, cut, where, rest, saved, calls or auto"
            }
            LineError::Retries => { "missing or invalid number; usage: retries N" }
            LineError::Sessions => { "missing or invalid number; usage: sessions N" }
            LineError::Flow => "missing group name; usage: flow GROUP [ENTRY ..]",
            LineError::Marks => {
                "unknown marks; expected NAME, or NAME with one of :s :a :sa :r :sr :ar :sar"
            }
            LineError::Answer => {
                "missing or invalid name or byte; usage: answer NAME HH [N=HEX ..]"
            }
            LineError::Entry => {
                "invalid context entry; expected N=HEX, N a name and HEX at most 65535 bytes in hexadecimal digits"
            }
            LineError::Choose => {
                "missing or invalid name, or missing text; usage: choose NAME TEXT"
            }
            LineError::Advice => { "missing or invalid name or advice; usage: advice NAME HEX" }
            LineError::Restore => "missing or invalid name; usage: restore NAME [N=HEX ..]",
            LineError::Take => "missing or invalid session; usage: take S",
            LineError::Release => "unexpected words; usage: release",
            LineError::Ack => { "missing or invalid id or place; usage: ack ID PLACE" }
            LineError::Break => "missing or invalid name; usage: break NAME",
            LineError::Clear => "missing or invalid name; usage: clear NAME",
            LineError::Go => "missing or invalid session; usage: go S",
            LineError::Call => "missing or invalid session; usage: call S",
            LineError::Write => "invalid count; usage: write [K]",
            LineError::Stop => "unexpected words; usage: stop",
            LineError::Cut => "unexpected words; usage: cut",
            LineError::Where => "missing or invalid session; usage: where S",
            LineError::Rest => "missing or invalid session; usage: rest S",
            LineError::Saved => "missing or invalid session; usage: saved S",
            LineError::Calls => "missing or invalid name; usage: calls NAME",
            LineError::Auto => "unexpected words; usage: auto",
            LineError::BadSessions => {
                "the settings before this line: bad number of sessions; expected 1 to 16"
            }
            LineError::OutOfMemory => "out of memory",
        }
    }
}

// By hand: the texts are constants, and a derived `fmt` of so many variants is slow to prove.
impl fmt::Display for LineError {
    fn fmt<W: fmt::Write>(&self, f: &mut fmt::Formatter<W>) -> fmt::Result {
        f.write_str(self.text())
    }
}

// A person is shown the same text.
impl fmt::Debug for LineError {
    fn fmt<W: fmt::Write>(&self, f: &mut fmt::Formatter<W>) -> fmt::Result {
        fmt::Display::fmt(self, f)
    }
}

impl std::error::Error for LineError {}

impl From<AllocError> for LineError {
    ghost from_gives = { λ _ r. r ≡ line.OutOfMemory };

    fn from(_error: AllocError) -> LineError {
        LineError::OutOfMemory
    }
}

impl<T: Drop> From<AllocFailed<T>> for LineError {
    ghost from_gives = { λ _ r. r ≡ line.OutOfMemory };

    fn from(_error: AllocFailed<T>) -> LineError {
        LineError::OutOfMemory
    }
}

/// Why a script is refused, and at which line, counted from 1. The lines before it have run.
#[derive(Drop)]
pub enum ScriptError {
    /// The line is malformed, or the settings before it state a number of sessions that no engine has.
    Line {
        line: usize,
        cause: LineError,
        found: Quoted,
    },
    /// A flow line beside a flow file.
    FlowBesideFile {
        line: usize,
        found: Quoted,
    },
    /// A setting after other lines.
    LateSetting {
        line: usize,
        found: Quoted,
    },
    /// A context that is offered has too many entries.
    Crowded {
        line: usize,
        found: Quoted,
    },
    /// The flow that the settings state is refused, at the first line that is not a setting.
    Flow {
        line: usize,
        cause: FlowError,
    },
    /// No memory was left for what the script says.
    OutOfMemory,
}

// By hand: most texts are built alike, and each text of a derived `fmt` is proved by itself.
impl fmt::Display for ScriptError {
    fn fmt<W: fmt::Write>(&self, f: &mut fmt::Formatter<W>) -> fmt::Result {
        let (line, fault, found) = match self {
            ScriptError::Line { line, cause, found } => (line, cause.text(), found),
            ScriptError::FlowBesideFile { line, found } => (
                line,
                "a flow line beside a flow file; expected no flow lines with --flow",
                found,
            ),
            ScriptError::LateSetting { line, found } => (
                line,
                "a setting after other lines; expected retries, sessions, flow, answer, choose, advice and restore first",
                found,
            ),
            ScriptError::Crowded { line, found } => (
                line,
                "too many names in a context; expected at most 64",
                found,
            ),
            ScriptError::Flow { line, cause } => {
                return write!(
                    f,
                    "line {line}: the settings before this line: the flow is refused: {cause}"
                );
            }
            ScriptError::OutOfMemory => return f.write_str("out of memory"),
        };
        write!(f, "line {line}: {fault}; found {found}")
    }
}

impl std::error::Error for ScriptError {}

// A person is shown the same text.
impl fmt::Debug for ScriptError {
    fn fmt<W: fmt::Write>(&self, f: &mut fmt::Formatter<W>) -> fmt::Result {
        fmt::Display::fmt(self, f)
    }
}

impl From<NoMemory> for ScriptError {
    ghost from_gives = { λ _ r. r ≡ script.OutOfMemory };

    fn from(_error: NoMemory) -> ScriptError {
        ScriptError::OutOfMemory
    }
}

impl From<AllocError> for ScriptError {
    ghost from_gives = { λ _ r. r ≡ script.OutOfMemory };

    fn from(_error: AllocError) -> ScriptError {
        ScriptError::OutOfMemory
    }
}

/// The refusal of a line for this cause.
pub fn error_at(line: usize, text: &[u8], cause: LineError) -> ScriptError
    ensures { result ≡ error_at line text.now cause }
{
    match cause {
        LineError::OutOfMemory => ScriptError::OutOfMemory,
        cause => ScriptError::Line {
            line,
            cause,
            found: Quoted::of(text),
        },
    }
}

//! What a refusal found in the bytes.

use cli_io::Quoted;
use flow_load::LoadError;
use flow_model::FlowError;
use flow_toml::{FlowTomlError, Key, TablePath, value_at};
use std::alloc::Global;
use std::fmt;

/// What a refusal quotes from the bytes, after the text of the fault; nothing if it quotes nothing.
#[derive(Drop)]
pub(crate) struct Finding<'a>(&'a Option<Quoted>);

pub(crate) fn found(quoted: &Option<Quoted>) -> Finding<'_> {
    Finding(quoted)
}

impl fmt::Display for Finding<'_> {
    fn fmt<W: fmt::Write>(&self, f: &mut fmt::Formatter<W>) -> fmt::Result {
        match self.0 {
            Some(quoted) => write!(f, "; found {quoted}"),
            None => Ok(()),
        }
    }
}

// Which value of a flow file its flow is refused for, if it is refused for one.
fn key_of(error: FlowError) -> Option<(TablePath, Key)> {
    match error {
        FlowError::BadRetries => Some((TablePath::Top, Key::Retries)),
        FlowError::DoubleGroup(group) | FlowError::BadName(group, None) => {
            Some((TablePath::Group(group), Key::Name))
        }
        FlowError::KindClash(group, index) | FlowError::BadName(group, Some(index)) => {
            Some((TablePath::Entry(group, index), Key::Participant))
        }
        FlowError::NoMain | FlowError::TooLarge => None,
    }
}

fn value_in(alloc: Global, text: &str, at: Option<(TablePath, Key)>) -> Option<Quoted> {
    let (path, key) = at?;
    let value = value_at(alloc, text, path, key)?;
    Some(Quoted::of(value.as_bytes()))
}

/// The key or the value of a flow file that is refused; nothing if the error names neither, or if
/// memory is refused.
pub(crate) fn refused_in(alloc: Global, error: &FlowTomlError, text: &str) -> Option<Quoted> {
    match error {
        FlowTomlError::Unknown(key, _path) => Some(Quoted::of(key.as_str().as_bytes())),
        FlowTomlError::WrongKind(key, path) => value_in(alloc, text, Some((*path, *key))),
        FlowTomlError::Flow(error) => value_in(alloc, text, key_of(*error)),
        _ => None,
    }
}

// The number of the line of an image that is at fault, from 1.
fn line_of(error: LoadError) -> Option<usize> {
    match error {
        LoadError::BadHeader => Some(1),
        LoadError::BadLine(line) => Some(line),
        LoadError::BadNumber(line) => Some(line),
        LoadError::BadTarget(line) => Some(line),
        _ => None,
    }
}

// The bytes from the line with this number on. Lines are counted from 1.
fn text_from(bytes: &[u8], line: usize) -> Option<&[u8]> {
    let mut rest = bytes;
    for _ in 1..line {
        let Some(end) = rest.iter().position(|byte| *byte == b'\n') else {
            return None;
        };
        rest = &rest[end + 1..];
    }
    Some(rest)
}

/// The line of an image that is at fault; nothing if the error names no line, or the image does not have it.
pub(crate) fn line_at(bytes: &[u8], error: LoadError) -> Option<Quoted> {
    let rest = text_from(bytes, line_of(error)?)?;
    if rest.is_empty() {
        return None;
    }
    let end = rest
        .iter()
        .position(|byte| *byte == b'\n')
        .unwrap_or(rest.len());
    Some(Quoted::of(&rest[..end]))
}

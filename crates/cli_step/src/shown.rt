//! The lines that show something.

ghost use Rattle.std.specs.Prelude.{◌≡◌, ◌++◌, [], IfOk, OnErr, OnOk, option_map, slice_get};
ghost use Rattle.std.specs.Prelude.{string_bytes, true};
ghost use Rattle.std.specs.List.{flat_map, list_all};
ghost use Rattle.std.specs.Option.{option_map_or};
ghost use Rattle.tx_engine.specs.Calls.{rest_of};
ghost use Rattle.tx_trace.specs.Trace.{hex_text};
ghost use Rattle.cli_step.specs.Doing.{Adds, point_of};
ghost use Rattle.cli_step.specs.Places.{calls_text, entry_text, is_readable, put_in};
ghost use Rattle.cli_step.specs.Places.{rest_text, saved_text};
ghost use Rattle.cli_step.specs.TurnLines.{whole_line};
ghost use Rattle.cli_step.specs.Shown.{IsReadableLine, IsSavedLine, IsShown, ShowsAction, calls_made};

use crate::error::ActionError;
use crate::places::CallsText;
use crate::turn_lines::{refusal_name, where_line};
use cli_script::Action;
use sqlite::Alter;
use std::alloc::{AllocError, Global};
use sw_context::Context;
use sw_json::is_printable;
use tx_engine::{Engine, EngineError};
use tx_plant::Plant;
use tx_trace::{Hex, Names, rest};

/// How the values of a context are shown.
#[derive(Clone, Copy)]
pub enum Values {
    /// In hexadecimal digits.
    Hexadecimal,
    /// As text between quotation marks where all bytes are printable, otherwise in hexadecimal digits.
    Readable,
}

/// Adds a line to a text, if there is one.
pub fn push_line(text: &mut String, line: Option<String>) -> Result<(), AllocError>
    ensures line { OnOk result (string_bytes text.new
        ≡ string_bytes text.old ++ whole_line (option_map string_bytes line)) }
    ensures refused { OnErr result (string_bytes text.new ≡ string_bytes text.old) }
{
    let Some(mut line) = line else {
        return Ok(());
    };
    line.push('\n')?;
    text.push_str(line.as_str())
}

// Adds ` GROUP/INDEX`.
fn push_entry(
    alloc: Global,
    text: &mut String,
    names: Names<'_>,
    group: usize,
    index: usize,
) -> Result<(), AllocError>
    ensures { OnOk result (string_bytes text.new
        ≡ string_bytes text.old ++ entry_text names.entry.code.now group index) }
{
    let group = names.group(group);
    let entry = format!(in alloc; " {group}/{index}")?;
    text.push_str(entry.as_str())
}

// The line of `rest S`: the entries that are to come.
fn rest_line(alloc: Global, engine: &Engine, s: usize) -> Result<String, AllocError>
    ensures { IfOk result (λ line.
        string_bytes line ≡ rest_text engine.now.flow (rest_of engine.now s)) }
{
    let names = Names {
        code: engine.code(),
    };
    let mut text = String::from_str(alloc, "rest")?;
    for (group, index) in rest(alloc, engine, s)?.as_slice() {
        push_entry(alloc, &mut text, names, *group, *index)?;
    }
    Ok(text)
}

// Adds bytes in hexadecimal digits.
fn push_hex(alloc: Global, text: &mut String, bytes: &[u8]) -> Result<(), AllocError>
    ensures { OnOk result (string_bytes text.new
        ≡ string_bytes text.old ++ flat_map hex_text bytes.now) }
{
    for byte in bytes {
        let digits = Hex(*byte);
        text.push_str(format!(in alloc; "{digits}")?.as_str())?;
    }
    Ok(())
}

fn is_readable(value: &[u8]) -> bool
    ensures { result ≡ list_all is_readable value.now }
{
    value
        .iter()
        .all(|byte| is_printable(*byte) && *byte != b'"')
}

// Adds bytes that are readable.
fn push_readable(text: &mut String, value: &[u8]) -> Result<(), AllocError>
    requires { list_all is_readable value.now ≡ true }
    ensures { OnOk result (string_bytes text.new ≡ string_bytes text.old ++ value.now) }
{
    for byte in value {
        text.push(char::from(*byte))?;
    }
    Ok(())
}

// Adds ` N=HEX` or ` N="TEXT"` for an entry of a context.
fn push_put(
    alloc: Global,
    text: &mut String,
    name: &str,
    value: &[u8],
    values: Values,
) -> Result<(), AllocError>
    ensures { OnOk result (string_bytes text.new
        ≡ string_bytes text.old ++ put_in values (name.now, value.now)) }
{
    text.push_str(format!(in alloc; " {name}=")?.as_str())?;
    match values {
        Values::Readable if is_readable(value) => {
            text.push('"')?;
            push_readable(text, value)?;
            text.push('"')
        }
        _ => push_hex(alloc, text, value),
    }
}

// The same for the entry of the context with this index.
fn push_put_at(
    alloc: Global,
    text: &mut String,
    context: &Context,
    index: usize,
    values: Values,
) -> Result<(), AllocError>
    ensures { OnOk result (string_bytes text.new ≡ string_bytes text.old
        ++ option_map_or (put_in values) (slice_get context.now index) []) }
{
    let Some(name) = context.name_at(index) else {
        return Ok(());
    };
    let Some(value) = context.value_at(index) else {
        return Ok(());
    };
    push_put(alloc, text, name, value, values)
}

// `saved ID[ N=HEX ..]`
fn saved_text(
    alloc: Global,
    id: u64,
    context: &Context,
    values: Values,
) -> Result<String, AllocError>
    ensures { IfOk result (λ line. string_bytes line ≡ saved_text (put_in values) id context.now) }
{
    let mut text = format!(in alloc; "saved {id}")?;
    for index in 0..context.len() {
        push_put_at(alloc, &mut text, context, index, values)?;
    }
    Ok(text)
}

// The line of `saved S`: the saved context of the session's transaction.
fn saved_line(
    alloc: Global,
    engine: &Engine,
    s: usize,
    values: Values,
) -> Result<String, AllocError>
    ensures { IfOk result (λ line.
        IsSavedLine (put_in values) engine.now s (string_bytes line)) }
{
    match engine.saved(alloc, s) {
        Ok(Some((id, context))) => saved_text(alloc, id, &context, values),
        Ok(None) => format!(in alloc; "idle {s}"),
        Err(EngineError::OutOfMemory) => Err(AllocError),
        Err(error) => {
            let name = refusal_name(&error);
            format!(in alloc; "refused {name}")
        }
    }
}

/// What `saved S` prints at a prompt: values are shown as text where they are printable.
pub fn readable_line(alloc: Global, engine: &Engine, s: usize) -> Result<String, AllocError>
    ensures { IfOk result (λ text. IsReadableLine engine.now s (string_bytes text)) }
{
    let mut line = saved_line(alloc, engine, s, Values::Readable)?;
    line.push('\n')?;
    Ok(line)
}

// How many calls were made of the station of this name; 0 if there is no such station.
fn calls_made<S: Alter>(plant: &Plant<S>, name: &str) -> u64
    ensures { result ≡ calls_made (point_of S.Store plant.now).names
        (point_of S.Store plant.now).calls name.now }
{
    plant.calls(name).unwrap_or(0)
}

// The line of `calls NAME`.
fn calls_line<S: Alter>(alloc: Global, plant: &Plant<S>, name: &str) -> Result<String, AllocError>
    ensures { IfOk result (λ line. string_bytes line ≡ calls_text name.now (calls_made
        (point_of S.Store plant.now).names (point_of S.Store plant.now).calls name.now)) }
{
    let calls = CallsText {
        name,
        count: calls_made(plant, name),
    };
    format!(in alloc; "{calls}")
}

// The line of an action that only shows something; `None` for any other action.
fn shown<S: Alter>(
    alloc: Global,
    plant: &Plant<S>,
    action: &Action,
) -> Result<Option<String>, AllocError>
    ensures { IfOk result (λ line.
        IsShown action.now (point_of S.Store plant.now) (option_map string_bytes line)) }
{
    let engine = plant.engine();
    match action {
        Action::Where(s) => where_line(alloc, engine, *s as usize).map(Some),
        Action::Rest(s) => rest_line(alloc, engine, *s as usize).map(Some),
        Action::Saved(s) => {
            saved_line(alloc, engine, *s as usize, Values::Hexadecimal).map(Some)
        }
        Action::Calls(name) => calls_line(alloc, plant, name.as_str()).map(Some),
        _ => Ok(None),
    }
}

/// Adds the line of an action that only shows something, and nothing for any other action.
pub fn show<S: Alter>(
    alloc: Global,
    plant: &Plant<S>,
    action: &Action,
    text: &mut String,
) -> Result<(), ActionError>
    ensures shows { OnOk result (Adds (ShowsAction action.now (point_of S.Store plant.now))
        (string_bytes text.old) (string_bytes text.new)) }
    ensures failed { OnErr result (string_bytes text.new ≡ string_bytes text.old) }
{
    let line = shown(alloc, plant, action)?;
    Ok(push_line(text, line)?)
}

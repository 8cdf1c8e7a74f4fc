//! The lines of an item of a journal.

ghost use Rattle.std.specs.Prelude.{◌≡◌, ◌++◌, ◌∷◌, [], codes, OnOk};
ghost use Rattle.std.specs.List.{flat_map};
ghost use Rattle.cli_journal.specs.Text as spec;

use crate::items::{phase_name, verdict_name};
use crate::words::{push_name, push_names, push_number_line};
use cli_decode::push_number;
use std::alloc::AllocError;
use sw_participant::Text;
use tx_history::{Row, WaitingContext};
use tx_machine::Phase;

/// Adds the layout and the next id.
pub fn push_head(text: &mut Vec<u8>, layout: u64, next_id: u64) -> Result<(), AllocError>
    ensures { OnOk result (text.new.items ≡ text.old.items ++ spec.head_text layout next_id) }
{
    push_number_line(text, "layout", layout)?;
    push_number_line(text, "next id", next_id)
}

// Adds `transaction ID PHASE`.
fn push_title(text: &mut Vec<u8>, id: u64, phase: Phase) -> Result<(), AllocError>
    ensures { OnOk result (text.new.items ≡ text.old.items ++ spec.title_line id phase) }
{
    text.extend_from_slice(b"transaction ")?;
    push_number(text, id)?;
    text.extend_from_slice(b" ")?;
    text.extend_from_slice(phase_name(phase).as_bytes())?;
    text.extend_from_slice(b"\n")
}

// Adds `joined NAME NAME ..`.
fn push_joined(text: &mut Vec<u8>, joined: &[Text]) -> Result<(), AllocError>
    ensures { OnOk result (text.new.items
        ≡ text.old.items ++ spec.names_line (codes "joined") joined.now) }
{
    text.extend_from_slice(b"joined")?;
    push_names(text, joined)?;
    text.extend_from_slice(b"\n")
}

// Adds `doing NAME`, if a participant was being prepared.
fn push_doing(text: &mut Vec<u8>, doing: &Option<Text>) -> Result<(), AllocError>
    ensures { OnOk result (text.new.items ≡ text.old.items ++ spec.doing_line doing.now) }
{
    match doing {
        Some(name) => {
            text.extend_from_slice(b"doing")?;
            push_name(text, name.as_str())?;
            text.extend_from_slice(b"\n")
        }
        None => Ok(()),
    }
}

// Adds the names of the participants that a recovery notifies.
fn push_notified(text: &mut Vec<u8>, row: &Row) -> Result<(), AllocError>
    ensures { OnOk result (text.new.items
        ≡ text.old.items ++ flat_map spec.spaced (spec.to_notify row.now)) }
{
    let joined = row.joined.as_slice();
    if row.told > joined.len() {
        return Ok(());
    }
    push_names(text, &joined[row.told..])?;
    match &row.doing {
        Some(name) => push_name(text, name.as_str()),
        None => Ok(()),
    }
}

// Adds what a recovery will do: `recovery commit NAME ..` or `recovery abort NAME ..`.
fn push_recovery(text: &mut Vec<u8>, row: &Row) -> Result<(), AllocError>
    ensures { OnOk result (text.new.items ≡ text.old.items ++ spec.recovery_line row.now) }
{
    text.extend_from_slice(b"recovery ")?;
    text.extend_from_slice(verdict_name(row.phase).as_bytes())?;
    push_notified(text, row)?;
    text.extend_from_slice(b"\n")
}

fn push_facts(text: &mut Vec<u8>, row: &Row) -> Result<(), AllocError>
    ensures { OnOk result (text.new.items ≡ text.old.items ++ spec.facts_text row.now) }
{
    push_joined(text, row.joined.as_slice())?;
    push_number_line(text, "told", row.told as u64)?;
    push_doing(text, &row.doing)?;
    push_number_line(text, "tries", u64::from(row.tries))?;
    push_recovery(text, row)
}

/// Adds the lines of a transaction that is not finished, but for its context.
pub fn push_row(text: &mut Vec<u8>, id: u64, row: &Row) -> Result<(), AllocError>
    ensures { OnOk result (text.new.items ≡ text.old.items ++ spec.row_text id row.now) }
{
    push_title(text, id, row.phase)?;
    push_facts(text, row)
}

/// Adds the lines of a context that waits to be tried again, but for the context.
pub fn push_waiting(text: &mut Vec<u8>, id: u64, waiting: &WaitingContext) -> Result<(), AllocError>
    ensures { OnOk result (text.new.items ≡ text.old.items ++ spec.waiting_text id waiting.now) }
{
    push_number_line(text, "shelf", id)?;
    push_number_line(text, "tries", u64::from(waiting.tries))
}

// Adds `advice ID PLACE`.
fn push_advice(text: &mut Vec<u8>, id: u64, place: usize) -> Result<(), AllocError>
    ensures { OnOk result (text.new.items ≡ text.old.items ++ spec.advice_line (id, place)) }
{
    text.extend_from_slice(b"advice ")?;
    push_number(text, id)?;
    text.extend_from_slice(b" ")?;
    push_number(text, place as u64)?;
    text.extend_from_slice(b"\n")
}

/// Adds the lines of an advice before its message.
pub fn push_place(text: &mut Vec<u8>, next_id: u64, place: (u64, usize)) -> Result<(), AllocError>
    ensures { OnOk result (text.new.items ≡ text.old.items ++ spec.place_text next_id place) }
{
    push_advice(text, place.0, place.1)?;
    push_number_line(text, "age", next_id.saturating_sub(place.0))
}

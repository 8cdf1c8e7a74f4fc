//! The line of JSON of an item of a journal.

ghost use Rattle.std.specs.Prelude.{◌≡◌, ◌++◌, OnOk};
ghost use Rattle.cli_journal.specs.Json as spec;

use crate::items::{phase_name, verdict_name};
use crate::json::push_strings;
use std::alloc::AllocError;
use sw_json::{push_number_member, push_opening, push_text_member};
use sw_participant::Text;
use tx_history::{Row, WaitingContext};

fn push_doing(text: &mut Vec<u8>, doing: &Option<Text>) -> Result<(), AllocError>
    ensures { OnOk result (text.new.items ≡ text.old.items ++ spec.doing_member doing.now) }
{
    match doing {
        Some(name) => push_text_member(text, "doing", name.as_str().as_bytes()),
        None => text.extend_from_slice(b",\"doing\":null"),
    }
}

#[tactic(auto, unfolding(crate::specs::Json::joined_member))]
fn push_joined(text: &mut Vec<u8>, joined: &[Text]) -> Result<(), AllocError>
    ensures { OnOk result (text.new.items ≡ text.old.items ++ spec.joined_member joined.now) }
{
    text.extend_from_slice(b",\"joined\":[")?;
    push_strings(text, joined)?;
    text.extend_from_slice(b"]")
}

fn push_told_members(text: &mut Vec<u8>, row: &Row) -> Result<(), AllocError>
    ensures { OnOk result (text.new.items ≡ text.old.items ++ spec.told_members row.now) }
{
    push_joined(text, row.joined.as_slice())?;
    push_number_member(text, "told", row.told as u64)?;
    push_doing(text, &row.doing)
}

fn push_row_members(text: &mut Vec<u8>, row: &Row) -> Result<(), AllocError>
    ensures { OnOk result (text.new.items ≡ text.old.items ++ spec.row_members row.now) }
{
    push_text_member(text, "phase", phase_name(row.phase).as_bytes())?;
    push_told_members(text, row)?;
    push_number_member(text, "tries", u64::from(row.tries))?;
    push_text_member(text, "recovery", verdict_name(row.phase).as_bytes())
}

/// Adds the line of a transaction that is not finished.
pub fn push_row(text: &mut Vec<u8>, id: u64, row: &Row) -> Result<(), AllocError>
    ensures { OnOk result (text.new.items ≡ text.old.items ++ spec.row_json id row.now) }
{
    push_opening(text, "transaction", id)?;
    push_row_members(text, row)?;
    text.extend_from_slice(b"}\n")
}

/// Adds the line of a context that waits to be tried again.
pub fn push_waiting(text: &mut Vec<u8>, id: u64, waiting: &WaitingContext) -> Result<(), AllocError>
    ensures { OnOk result (text.new.items ≡ text.old.items ++ spec.waiting_json id waiting.now) }
{
    push_opening(text, "shelf", id)?;
    push_number_member(text, "tries", u64::from(waiting.tries))?;
    text.extend_from_slice(b"}\n")
}

/// Adds the members of an advice before its message.
pub fn push_place(text: &mut Vec<u8>, next_id: u64, place: (u64, usize)) -> Result<(), AllocError>
    ensures { OnOk result (text.new.items ≡ text.old.items ++ spec.place_members next_id place) }
{
    push_opening(text, "advice", place.0)?;
    push_number_member(text, "place", place.1 as u64)?;
    push_number_member(text, "age", next_id.saturating_sub(place.0))
}

/// Adds the message of an advice, and the end of its line.
pub fn push_advised(text: &mut Vec<u8>, message: &[u8]) -> Result<(), AllocError>
    ensures { OnOk result (text.new.items ≡ text.old.items ++ spec.advised_json message.now) }
{
    push_text_member(text, "message", message)?;
    text.extend_from_slice(b"}\n")
}

/// Adds the line of the layout and the next id.
pub fn push_head(text: &mut Vec<u8>, layout: u64, next_id: u64) -> Result<(), AllocError>
    ensures { OnOk result (text.new.items ≡ text.old.items ++ spec.head_json layout next_id) }
{
    push_opening(text, "layout", layout)?;
    push_number_member(text, "next_id", next_id)?;
    text.extend_from_slice(b"}\n")
}

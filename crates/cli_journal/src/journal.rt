//! A whole journal, in either form.

ghost use Rattle.std.specs.Prelude.{◌≡◌, ◌++◌, OnOk, IfErr, IfOk};
ghost use Rattle.std.specs.List.{flat_map};
ghost use Rattle.std.specs.Io.KnownBytes.{Appends};
ghost use Rattle.cli_io.specs.Errors.{IsOfWriting};
ghost use Rattle.cli_io.specs.Written.{AppendsBeginning};
ghost use Rattle.cli_journal.specs.Shown as spec;

use crate::context::push_context;
use crate::entries::message_text;
use crate::left_out::push_left_out;
use crate::owner::Owner;
use crate::{json_items, text_items};
use cli_forms::{JournalForm, Style};
use cli_io::{IoError, write_out};
use journal_rows::BadRow;
use std::alloc::{AllocError, Global};
use std::io::Write;
use sw_participant::Bytes;
use tx_history::{JournalView, Row, WaitingContext};

fn push_head(
    text: &mut Vec<u8>,
    form: JournalForm,
    layout: u64,
    next_id: u64,
) -> Result<(), AllocError>
    ensures { OnOk result (text.new.items
        ≡ text.old.items ++ spec.head_as form layout next_id) }
{
    match form {
        JournalForm::Text => text_items::push_head(text, layout, next_id),
        JournalForm::Json => json_items::push_head(text, layout, next_id),
    }
}

fn push_row_facts(
    text: &mut Vec<u8>,
    form: JournalForm,
    id: u64,
    row: &Row,
) -> Result<(), AllocError>
    ensures { OnOk result (text.new.items ≡ text.old.items ++ spec.row_as form id row.now) }
{
    match form {
        JournalForm::Text => text_items::push_row(text, id, row),
        JournalForm::Json => json_items::push_row(text, id, row),
    }
}

fn push_row(
    alloc: Global,
    text: &mut Vec<u8>,
    style: Style,
    id: u64,
    row: &Row,
) -> Result<(), AllocError>
    ensures { OnOk result (text.new.items ≡ text.old.items ++ spec.row_in style (id, row.now)) }
{
    push_row_facts(text, style.form, id, row)?;
    let owner = Owner::Transaction(id);
    push_context(alloc, text, style, owner, row.context.as_slice())
}

// The transactions that are not finished.
fn push_rows(
    alloc: Global,
    text: &mut Vec<u8>,
    style: Style,
    rows: &[(u64, Row)],
) -> Result<(), AllocError>
    ensures { OnOk result (text.new.items
        ≡ text.old.items ++ flat_map (spec.row_in style) rows.now) }
{
    for row in rows {
        push_row(alloc, text, style, row.0, &row.1)?;
    }
    Ok(())
}

fn push_waiting_facts(
    text: &mut Vec<u8>,
    form: JournalForm,
    id: u64,
    waiting: &WaitingContext,
) -> Result<(), AllocError>
    ensures { OnOk result (text.new.items
        ≡ text.old.items ++ spec.waiting_as form id waiting.now) }
{
    match form {
        JournalForm::Text => text_items::push_waiting(text, id, waiting),
        JournalForm::Json => json_items::push_waiting(text, id, waiting),
    }
}

fn push_waiting(
    alloc: Global,
    text: &mut Vec<u8>,
    style: Style,
    id: u64,
    waiting: &WaitingContext,
) -> Result<(), AllocError>
    ensures { OnOk result (text.new.items
        ≡ text.old.items ++ spec.waiting_in style (id, waiting.now)) }
{
    push_waiting_facts(text, style.form, id, waiting)?;
    let owner = Owner::Shelf(id);
    push_context(alloc, text, style, owner, waiting.context.as_slice())
}

// The contexts that wait to be tried again.
fn push_shelf(
    alloc: Global,
    text: &mut Vec<u8>,
    style: Style,
    shelf: &[(u64, WaitingContext)],
) -> Result<(), AllocError>
    ensures { OnOk result (text.new.items
        ≡ text.old.items ++ flat_map (spec.waiting_in style) shelf.now) }
{
    for waiting in shelf {
        push_waiting(alloc, text, style, waiting.0, &waiting.1)?;
    }
    Ok(())
}

fn push_advice(
    alloc: Global,
    text: &mut Vec<u8>,
    style: Style,
    next_id: u64,
    place: (u64, usize),
    advice: &Bytes,
) -> Result<(), AllocError>
    ensures { OnOk result (text.new.items
        ≡ text.old.items ++ spec.advice_in style next_id (place, advice.now)) }
{
    let message = message_text(alloc, style.masking, place.0, advice.as_slice())?;
    match style.form {
        JournalForm::Text => {
            text_items::push_place(text, next_id, place)?;
            text.extend_from_slice(message.as_slice())
        }
        JournalForm::Json => {
            json_items::push_place(text, next_id, place)?;
            json_items::push_advised(text, message.as_slice())
        }
    }
}

fn push_advices(
    alloc: Global,
    text: &mut Vec<u8>,
    style: Style,
    next_id: u64,
    advices: &[((u64, usize), Bytes)],
) -> Result<(), AllocError>
    ensures { OnOk result (text.new.items
        ≡ text.old.items ++ flat_map (spec.advice_in style next_id) advices.now) }
{
    for advice in advices {
        push_advice(alloc, text, style, next_id, advice.0, &advice.1)?;
    }
    Ok(())
}

fn push_items(
    alloc: Global,
    text: &mut Vec<u8>,
    style: Style,
    view: &JournalView,
) -> Result<(), AllocError>
    ensures { OnOk result (text.new.items ≡ text.old.items ++ spec.items_in style view.now) }
{
    push_rows(alloc, text, style, view.rows.as_slice())?;
    push_shelf(alloc, text, style, view.shelf.as_slice())?;
    push_advices(alloc, text, style, view.next_id, view.advices.as_slice())
}

// The lines of a journal of this layout, without these rows at fault. The only refusal is out of
// memory.
fn journal_in(
    alloc: Global,
    style: Style,
    layout: u64,
    left_out: &[BadRow],
    view: &JournalView,
) -> Result<Vec<u8>, AllocError>
    ensures { IfOk result (λ text. text.items
        ≡ spec.journal_in style layout left_out.now view.now) }
{
    let mut text = Vec::new(alloc);
    push_head(&mut text, style.form, layout, view.next_id)?;
    push_left_out(alloc, &mut text, style.form, left_out)?;
    push_items(alloc, &mut text, style, view)?;
    Ok(text)
}

/// Writes the lines of a journal of this layout, without these rows at fault, to an output. After
/// an error, what was written is a beginning of them.
pub fn show<W: Write>(
    alloc: Global,
    style: Style,
    layout: u64,
    left_out: &[BadRow],
    view: &JournalView,
    out: &mut W,
) -> Result<(), IoError>
    ensures written { OnOk result (Appends (W.contents out.old) (W.contents out.new)
        (spec.journal_in style layout left_out.now view.now)) }
    ensures writing { IfErr result IsOfWriting }
    ensures beginning { AppendsBeginning (W.contents out.old) (W.contents out.new)
        (spec.journal_in style layout left_out.now view.now) }
{
    let text = journal_in(alloc, style, layout, left_out, view)?;
    write_out(out, text.as_slice())
}

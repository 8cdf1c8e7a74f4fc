//! The lines of a context: those of its entries, one after the other.

ghost use Rattle.std.specs.Prelude.{◌≡◌, ◌++◌, OnOk};
ghost use Rattle.std.specs.List.{flat_map};
ghost use Rattle.cli_journal.specs.Shown as spec;

use crate::owner::Owner;
use crate::{json_entries, text_entries};
use cli_forms::{JournalForm, Style};
use std::alloc::{AllocError, Global};
use sw_context::{Context, ContextError};

fn push_entry(
    alloc: Global,
    text: &mut Vec<u8>,
    style: Style,
    owner: Owner,
    name: &str,
    value: &[u8],
) -> Result<(), AllocError>
    ensures { OnOk result (text.new.items
        ≡ text.old.items ++ spec.entry_in style owner (name.now, value.now)) }
{
    match style.form {
        JournalForm::Text => text_entries::push_entry(
            alloc,
            text,
            style.masking,
            owner.id(),
            name,
            value,
        ),
        JournalForm::Json => json_entries::push_entry(
            alloc,
            text,
            style.masking,
            owner,
            name,
            value,
        ),
    }
}

fn push_entries(
    alloc: Global,
    text: &mut Vec<u8>,
    style: Style,
    owner: Owner,
    context: &Context,
) -> Result<(), AllocError>
    ensures { OnOk result (text.new.items
        ≡ text.old.items ++ flat_map (spec.entry_in style owner) context.now) }
{
    for index in 0..context.len() {
        let (Some(name), Some(value)) = (context.name_at(index), context.value_at(index)) else {
            unreachable!()
        };
        push_entry(alloc, text, style, owner, name, value)?;
    }
    Ok(())
}

fn push_refused(text: &mut Vec<u8>, form: JournalForm, owner: Owner) -> Result<(), AllocError>
    ensures { OnOk result (text.new.items ≡ text.old.items ++ spec.refused_as form owner) }
{
    match form {
        JournalForm::Text => text_entries::push_refused(text),
        JournalForm::Json => json_entries::push_refused(text, owner),
    }
}

/// Adds the lines of the context that bytes spell.
#[tactic(auto, unfolding(crate::specs::Shown::context_in))]
pub fn push_context(
    alloc: Global,
    text: &mut Vec<u8>,
    style: Style,
    owner: Owner,
    bytes: &[u8],
) -> Result<(), AllocError>
    ensures { OnOk result (text.new.items
        ≡ text.old.items ++ spec.context_in style owner bytes.now) }
{
    match Context::from_bytes(alloc, bytes) {
        Ok(context) => push_entries(alloc, text, style, owner, &context),
        Err(ContextError::BadBytes) => push_refused(text, style.form, owner),
        Err(ContextError::OutOfMemory) => Err(AllocError),
        Err(_) => unreachable!(),
    }
}

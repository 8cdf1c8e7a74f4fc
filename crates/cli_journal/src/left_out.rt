//! The lines of the rows at fault that are left out of what is shown.

ghost use Rattle.std.specs.Prelude.{◌≡◌, ◌++◌, OnOk};
ghost use Rattle.std.specs.List.{flat_map};
ghost use Rattle.cli_journal.specs.LeftOut as spec;

use cli_forms::JournalForm;
use journal_rows::{BadRow, JournalTable};
use std::alloc::{AllocError, Global};

fn table_name(table: JournalTable) -> &'static str
    ensures { result.now ≡ spec.table_name table }
{
    match table {
        JournalTable::Meta => "Meta",
        JournalTable::Part => "Part",
        JournalTable::Tx => "Tx",
        JournalTable::Member => "Member",
        JournalTable::Joined => "Joined",
        JournalTable::Shelf => "Shelf",
        JournalTable::Advice => "Advice",
    }
}

fn push_line(alloc: Global, text: &mut Vec<u8>, bad: BadRow) -> Result<(), AllocError>
    ensures { OnOk result (text.new.items ≡ text.old.items ++ spec.left_out_line bad) }
{
    let table = table_name(bad.table);
    let id = bad.id;
    let line = format!(in alloc; "left out {table} {id}\n")?;
    text.extend_from_slice(line.as_bytes())
}

fn push_object(alloc: Global, text: &mut Vec<u8>, bad: BadRow) -> Result<(), AllocError>
    ensures { OnOk result (text.new.items ≡ text.old.items ++ spec.left_out_json bad) }
{
    let table = table_name(bad.table);
    let id = bad.id;
    let line = format!(in alloc; "{{\"left_out\":\"{table}\",\"id\":{id}}}\n")?;
    text.extend_from_slice(line.as_bytes())
}

fn push_bad_row(
    alloc: Global,
    text: &mut Vec<u8>,
    form: JournalForm,
    bad: BadRow,
) -> Result<(), AllocError>
    ensures { OnOk result (text.new.items ≡ text.old.items ++ spec.left_out_as form bad) }
{
    match form {
        JournalForm::Text => push_line(alloc, text, bad),
        JournalForm::Json => push_object(alloc, text, bad),
    }
}

/// Adds the line of each row that is left out.
pub fn push_left_out(
    alloc: Global,
    text: &mut Vec<u8>,
    form: JournalForm,
    rows: &[BadRow],
) -> Result<(), AllocError>
    ensures { OnOk result (text.new.items
        ≡ text.old.items ++ flat_map (spec.left_out_as form) rows.now) }
{
    for bad in rows {
        push_bad_row(alloc, text, form, *bad)?;
    }
    Ok(())
}

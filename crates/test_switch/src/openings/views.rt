//! A journal's layout and view, as lines.

use crate::error::TestError;
use journal_store::{Journal, JournalError};
use sqlite::types::ValueRef;
use sqlite::{Alter, Connection};
use std::alloc::Global;
use std::io::{self, Write};
use sw_participant::Text;
use tx_history::{JournalView, Row};
use tx_trace::PhaseText;

/// `layout N`, by the database; `layout none` if it has no such row.
pub fn write_layout<S: Alter, W: Write>(
    conn: &mut Connection<S>,
    out: &mut W,
) -> Result<(), TestError> {
    let Ok(rows) = conn.query_all("SELECT v FROM meta WHERE k = 1", &[]) else {
        return Ok(writeln!(out, "layout none")?);
    };
    match rows.first().map(|row| row.get_ref(0)) {
        Some(Ok(ValueRef::Int(number))) => writeln!(out, "layout {number}")?,
        _ => writeln!(out, "layout none")?,
    }
    Ok(())
}

fn write_hex<W: Write>(bytes: &[u8], out: &mut W) -> io::Result<()> {
    for byte in bytes {
        write!(out, "{byte:02x}")?;
    }
    writeln!(out)
}

fn write_names<W: Write>(names: &[Text], out: &mut W) -> io::Result<()> {
    for name in names {
        let name = name.as_str();
        write!(out, " {name}")?;
    }
    Ok(())
}

// `row ID PHASE told N tries N doing [NAME] joined NAMES context HEX`
fn write_row<W: Write>(id: u64, row: &Row, out: &mut W) -> io::Result<()> {
    let (phase, told, tries) = (PhaseText(row.phase), row.told, row.tries);
    write!(out, "row {id} {phase} told {told} tries {tries} doing")?;
    if let Some(name) = &row.doing {
        let name = name.as_str();
        write!(out, " {name}")?;
    }
    write!(out, " joined")?;
    write_names(row.joined.as_slice(), out)?;
    write!(out, " context ")?;
    write_hex(row.context.as_slice(), out)
}

fn write_items<W: Write>(view: &JournalView, out: &mut W) -> io::Result<()> {
    for (id, waiting) in view.shelf.as_slice() {
        let tries = waiting.tries;
        write!(out, "shelf {id} tries {tries} context ")?;
        write_hex(waiting.context.as_slice(), out)?;
    }
    for ((id, place), body) in view.advices.as_slice() {
        write!(out, "advice {id} {place} ")?;
        write_hex(body.as_slice(), out)?;
    }
    Ok(())
}

fn write_view<W: Write>(view: &JournalView, out: &mut W) -> io::Result<()> {
    let next_id = view.next_id;
    writeln!(out, "next {next_id}")?;
    for (id, row) in view.rows.as_slice() {
        write_row(*id, row, out)?;
    }
    write_items(view, out)
}

/// The lines of the journal's view, or `refused CAUSE`.
pub fn write_view_of<S: Alter, W: Write>(
    alloc: Global,
    journal: &mut Journal<S>,
    out: &mut W,
) -> Result<(), TestError> {
    match journal.view(alloc) {
        Ok(view) => Ok(write_view(&view, out)?),
        Err(cause) => Ok(writeln!(out, "refused {cause}")?),
    }
}

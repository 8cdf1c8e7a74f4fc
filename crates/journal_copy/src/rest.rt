//! What a journal holds besides its rows at fault.

ghost use Rattle.std.specs.Prelude.{◌≡◌, IfOk, IfSome};
ghost use Rattle.journal_copy.specs.Rest.{IsRest, rows_of, without, without_id};

use crate::error::LookError;
use journal_rows::{BadRow, JournalTable, Layout, RowsError, int_at, view_of};
use journal_store::Stored;
use sqlite::Row;
use std::alloc::Global;
use tx_history::JournalView;

/// With this many rows at fault there is no [`Rest`]: each of them costs a look at all rows.
const MOST_LEFT_OUT: u32 = 1_000;

/// A journal without its rows at fault.
pub struct Rest {
    /// The layout of the journal's tables: 1 or 2.
    pub layout: u64,
    /// The rows that are left out, the first one at fault first. Each means all rows of its table with
    /// that id.
    pub left_out: Vec<BadRow>,
    /// The journal that the other rows represent.
    pub view: JournalView,
}

// Written out, so that no caller proves again how its parts are dropped.
impl Drop for Rest {
    fn drop(self) {
        let Rest {
            layout: _,
            left_out: _,
            view: _,
        } = self;
    }
}

// Leaves out the rows with this id.
fn leave_out_id(rows: &mut Vec<Row>, id: i64)
    ensures { rows.new.items ≡ without_id id rows.old.items }
{
    rows.retain(|row| int_at(row, 0) != id);
}

// Leaves out a row at fault. No row of `meta` can be left out.
fn leave_out(stored: &mut Stored, bad: BadRow)
    ensures { rows_of stored.new ≡ without bad (rows_of stored.old) }
{
    match bad.table {
        JournalTable::Meta => {}
        JournalTable::Part => leave_out_id(&mut stored.parts, bad.id),
        JournalTable::Tx => leave_out_id(&mut stored.tx, bad.id),
        JournalTable::Member | JournalTable::Joined => leave_out_id(&mut stored.members, bad.id),
        JournalTable::Shelf => leave_out_id(&mut stored.shelf, bad.id),
        JournalTable::Advice => leave_out_id(&mut stored.advices, bad.id),
    }
}

/// The journal that the rows without those at fault represent; `None` if `meta` is at
/// fault, or if a thousand rows or more are. The only refusal is out of memory.
pub fn rest_of(alloc: Global, layout: Layout, stored: Stored) -> Result<Option<Rest>, LookError>
    ensures { IfOk result (λ rest. IfSome rest (IsRest layout (rows_of stored))) }
{
    let number = match layout {
        Layout::First => 1,
        Layout::Second => 2,
    };
    let mut stored = stored;
    let mut left_out = Vec::new(alloc);
    for _ in 0..MOST_LEFT_OUT {
        match view_of(alloc, layout, stored.rows()) {
            Ok(view) => return Ok(Some(Rest {
                layout: number,
                left_out,
                view,
            })),
            Err(RowsError::OutOfMemory) => return Err(LookError::OutOfMemory),
            Err(RowsError::BadRow(bad)) => {
                if bad.table == JournalTable::Meta {
                    return Ok(None);
                }
                leave_out(&mut stored, bad);
                let Ok(()) = left_out.push(bad) else {
                    return Err(LookError::OutOfMemory);
                };
            }
        }
    }
    Ok(None)
}

//! The journal that the rows represent.

ghost use Rattle.std.specs.Prelude.{◌≡◌, ◌≤◌, IfErr, IfOk, false};
ghost use Rattle.journal_rows.specs.Tables.{Tables};
ghost use Rattle.journal_store.specs.Means.{IsNotFailed, IsStore, Means, Reads};
ghost use Rattle.journal_store.specs.Stored.{Holds};

use crate::error::{Cause, JournalError};
use crate::reading::Stored;
use journal_rows::{Layout, RowsError, view_of};
use sqlite::{Error, ErrorCode};
use std::alloc::Global;
use tx_history::JournalView;

/// Why the store refused.
pub fn cause_of(error: &Error) -> JournalError
    ensures { IsStore result }
{
    match error {
        Error::SqliteFailure(ErrorCode::OutOfMemory) => JournalError::Store(Cause::Memory),
        _ => JournalError::Store(Cause::Refused),
    }
}

/// The journal that the rows represent in this layout, or the first row at fault.
pub fn read_as(alloc: Global, layout: Layout, stored: &Stored) -> Result<JournalView, JournalError>
    ensures reads { (t : Tables) → Holds t stored.now → Reads layout t result }
    ensures live { IfErr result IsNotFailed }
    ensures last { IfOk result (λ v. v.next_id ≤ 9223372036854775807) }
{
    match view_of(alloc, layout, stored.rows()) {
        Ok(view) => Ok(view),
        Err(RowsError::OutOfMemory) => Err(JournalError::OutOfMemory),
        Err(RowsError::BadRow(bad)) => Err(JournalError::BadRow(bad)),
    }
}

/// The same for layout 2.
pub fn viewed(alloc: Global, stored: &Stored) -> Result<JournalView, JournalError>
    ensures means { (t : Tables) → Holds t stored.now → Means t false result }
    ensures live { IfErr result IsNotFailed }
    ensures last { IfOk result (λ v. v.next_id ≤ 9223372036854775807) }
{
    read_as(alloc, Layout::Second, stored)
}

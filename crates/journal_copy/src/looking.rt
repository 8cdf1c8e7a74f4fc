//! The journal that the bytes of files hold.

ghost use Rattle.std.specs.Prelude.{IfErr, IfOk};
ghost use Rattle.journal_copy.specs.Copied.{HoldsFault, HoldsJournal, image_of};
ghost use Rattle.journal_copy.specs.Found.{IfBadRow, IfRest, IsOtherFault};

use crate::disks::disks_of;
use crate::error::LookError;
use crate::found::{FoundJournal, found_by};
use sqlite::{Connection, Error, ErrorCode, Options};
use std::alloc::Global;

/// What the salts of the copy's own log are made from: no file has that log.
const SEED: u64 = 1;

// Whether a file does not begin as a database, and has no log from which one could be made.
fn is_foreign(db: &[u8], log: &[u8]) -> bool {
    log.is_empty() && !db.starts_with(b"SQLite format 3\x00")
}

fn refusal(error: Error) -> LookError
    ensures other { IsOtherFault result }
    ensures rest { IfRest result }
{
    match error {
        Error::SqliteFailure(ErrorCode::OutOfMemory) => LookError::OutOfMemory,
        other => LookError::Database(other),
    }
}

/// The journal that the bytes of a database file and of its log hold, as an opening of these files
/// would find it. A journal with rows at fault is refused with the first of them and the journal that
/// is left without them, if there is one; a file that is not a journal is refused too. Out of memory is
/// reported as such.
pub fn look(alloc: Global, db: &[u8], log: &[u8]) -> Result<FoundJournal, LookError>
    ensures found { IfOk result (λ f.
        HoldsJournal (image_of db.now log.now) f.layout f.view) }
    ensures bad { IfErr result (IfBadRow (HoldsFault (image_of db.now log.now))) }
    ensures rest { IfErr result IfRest }
{
    if is_foreign(db, log) {
        return Err(LookError::NotAJournal);
    }
    match Connection::open_files(alloc, disks_of(alloc, db, log)?, Options::new(SEED)) {
        Ok(conn) => found_by(alloc, conn),
        Err((error, _)) => Err(refusal(error)),
    }
}

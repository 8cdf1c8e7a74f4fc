//! The journal's files, on disks in memory whose calls are counted together.

use sqlite::Files;
use sqlite_disk::{Crash, Memory};
use std::alloc::{AllocError, Global};
use test_disk::{Fault, Once, pair};

/// The journal's files.
pub type Disks = Files<Once<Memory>>;

/// What cuts a run short at a call of the disks.
#[derive(Clone, Copy)]
pub enum Cut {
    /// The machine stops, and what was not synced is lost.
    Power,
    /// The machine stops, and all that was written stays.
    Kill,
    /// The call is refused, and those after it are not.
    Refusal,
}

impl Cut {
    fn fault(self) -> Fault {
        match self {
            Cut::Power | Cut::Kill => Fault::Stop,
            Cut::Refusal => Fault::Once { yields: 0 },
        }
    }
}

// Disks with these contents, cut at the call after the first `calls` ones.
fn cut_after(
    alloc: Global,
    log: Memory,
    db: Memory,
    cut: Cut,
    calls: u64,
) -> Result<Disks, AllocError> {
    let (log, db) = pair(alloc, log, db, calls, cut.fault())?;
    Ok(Files { log, db })
}

/// New disks, cut at the call after the first `calls` ones.
pub fn new_disks(alloc: Global, cut: Cut, calls: u64) -> Result<Disks, AllocError> {
    cut_after(alloc, Memory::new(alloc), Memory::new(alloc), cut, calls)
}

/// The disks as they are found again, cut at the call after the first `calls` ones.
pub fn found_again(alloc: Global, files: Disks, cut: Cut, calls: u64) -> Result<Disks, AllocError> {
    let Files { log, db } = files;
    let (mut log, mut db) = (log.into_inner(), db.into_inner());
    match cut {
        Cut::Kill => {}
        Cut::Power | Cut::Refusal => {
            log.crash();
            db.crash();
        }
    }
    cut_after(alloc, log, db, cut, calls)
}

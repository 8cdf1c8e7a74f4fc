//! Disks in memory, one of whose calls is refused.

use sqlite::Files;
use sqlite_disk::{Crash, Memory};
use std::alloc::Global;
use std::test::*;
use test_disk::{Fault, Once, pair};

/// The journal's files.
pub type Disks = Files<Once<Memory>>;

/// How often the call that is refused yields first: long enough for another thread to go on, unless that thread
/// waits for the call.
const YIELDS: u64 = 2_000;

fn disks_of(alloc: Global, log: Memory, db: Memory, calls: u64) -> Result<Disks, Fail> {
    let (log, db) = pair(alloc, log, db, calls, Fault::Once { yields: YIELDS })?;
    Ok(Files { log, db })
}

/// New disks that refuse the call after the first `calls` ones, and none of those after it.
pub fn new_disks(alloc: Global, calls: u64) -> Result<Disks, Fail> {
    disks_of(alloc, Memory::new(alloc), Memory::new(alloc), calls)
}

/// The disks as they are found after a loss of power; no call is refused.
pub fn found_again(alloc: Global, files: Disks) -> Result<Disks, Fail> {
    let Files { log, db } = files;
    let (mut log, mut db) = (log.into_inner(), db.into_inner());
    log.crash();
    db.crash();
    disks_of(alloc, log, db, u64::MAX)
}

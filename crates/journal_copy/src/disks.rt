//! Disks in memory that hold the bytes of files.

ghost use Rattle.std.specs.Prelude.{◌≡◌, IfOk, IsTrue};
ghost use Rattle.sqlite_disk.specs.Memory.{memory_bytes, memory_is_usable};
ghost use Rattle.journal_copy.specs.Disks.{AreOf};

use sqlite::Files;
use sqlite_disk::{Disk, Memory};
use std::alloc::{AllocError, Global};

// A disk that holds these bytes.
fn disk_of(alloc: Global, bytes: &[u8]) -> Result<Memory, AllocError>
    ensures bytes { IfOk result (λ disk. memory_bytes disk ≡ bytes.now) }
    ensures usable { IfOk result (λ disk. IsTrue (memory_is_usable disk)) }
{
    let mut disk = Memory::new(alloc);
    if bytes.is_empty() {
        return Ok(disk);
    }
    match disk.write_at(0, bytes) {
        Ok(()) => Ok(disk),
        Err(_) => Err(AllocError),
    }
}

/// Disks that hold the bytes of a database file and of its log.
pub fn disks_of(alloc: Global, db: &[u8], log: &[u8]) -> Result<Files<Memory>, AllocError>
    ensures { IfOk result (AreOf db.now log.now) }
{
    Ok(Files {
        log: disk_of(alloc, log)?,
        db: disk_of(alloc, db)?,
    })
}

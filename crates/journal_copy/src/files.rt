//! The bytes of a journal's files.

use crate::error::CopyError;
use cli_io::{Input, IoError, read_input};
use std::alloc::Global;
use std::fs::{File, Files};
use std::io::ErrorKind;

/// How often the files are read at most.
const TRIES: u8 = 10;

/// The length of a log's header, which changes when the log is begun anew.
const HEAD: usize = 32;

/// The bytes of a database file and of the log beside it.
pub struct Copy {
    pub db: Vec<u8>,
    pub log: Vec<u8>,
}

// Written out, so that no caller proves again how its parts are dropped.
impl Drop for Copy {
    fn drop(self) {
        let Copy { db: _, log: _ } = self;
    }
}

// All bytes of the file at a path.
fn bytes_at<F: Files>(alloc: Global, files: &F, path: &str) -> Result<Vec<u8>, CopyError> {
    match File::open(files, path) {
        Ok(file) => Ok(read_input(alloc, &mut Input::new(file))?),
        Err(error) => Err(CopyError::Open(error)),
    }
}

// All bytes of a log; none if there is no such file.
fn log_at<F: Files>(alloc: Global, files: &F, path: &str) -> Result<Vec<u8>, CopyError> {
    match bytes_at(alloc, files, path) {
        Err(CopyError::Open(error)) if error.kind() == ErrorKind::NotFound => Ok(Vec::new(alloc)),
        other => other,
    }
}

// The first bytes of a log, with zeros for those that it does not have.
fn head_at<F: Files>(files: &F, path: &str) -> Result<[u8; HEAD], CopyError> {
    let mut head = [0u8; HEAD];
    match File::open(files, path) {
        Ok(file) => {
            Input::new(file).read_piece(&mut head)?;
            Ok(head)
        }
        Err(error) if error.kind() == ErrorKind::NotFound => Ok(head),
        Err(error) => Err(CopyError::Open(error)),
    }
}

// Reads both files, the database first. `None` if the log was begun anew while they were read: until
// then the log has each page that is written into the database.
fn copy_once<F: Files>(
    alloc: Global,
    files: &F,
    path: &str,
    log_path: &str,
) -> Result<Option<Copy>, CopyError> {
    let head = head_at(files, log_path)?;
    let db = bytes_at(alloc, files, path)?;
    let log = log_at(alloc, files, log_path)?;
    if head_at(files, log_path)? == head {
        Ok(Some(Copy { db, log }))
    } else {
        Ok(None)
    }
}

/// Reads the database file at a path and the log beside it, whose path has `-wal` added. Nothing is
/// written, and no lock is taken: if a program that writes to them begins the log anew while they are
/// read, they are read again, up to ten times in all.
pub fn copy_files<F: Files>(alloc: Global, files: &F, path: &str) -> Result<Copy, CopyError> {
    let log_path = format!(in alloc; "{path}-wal").map_err(IoError::from)?;
    for _ in 0..TRIES {
        if let Some(copy) = copy_once(alloc, files, path, log_path.as_str())? {
            return Ok(copy);
        }
    }
    Err(CopyError::Changed)
}

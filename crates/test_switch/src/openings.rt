//! Openings of a journal whose database is made by statements of SQL.

mod views;

use crate::disks::{Cut, Disks, found_again, new_disks};
use crate::error::TestError;
use crate::lines::write_run;
use journal_store::{Journal, Left};
use sqlite::{Alter, Connection, Options};
use std::alloc::Global;
use std::io::Write;
use views::{write_layout, write_view_of};

/// More calls than any opening makes.
const MOST_CALLS: u64 = 100_000;

/// What is done over a connection.
#[derive(Clone, Copy)]
enum Task<'a> {
    /// The statements, one a line, make the database.
    Lay(&'a str),
    /// A journal is opened, and nothing is written of it.
    Open,
    /// The layout is written, then the journal's view, or why it has none.
    Show,
}

fn lay<S: Alter>(conn: &mut Connection<S>, sql: &str) -> Result<(), TestError> {
    for statement in sql.lines() {
        if conn.execute(statement, &[]).is_err() {
            return Err(TestError::Sql);
        }
    }
    Ok(())
}

// The store of what an opening gave, or handed back, and whether it was refused.
fn open<S: Alter + Drop>(alloc: Global, conn: Connection<S>) -> (bool, S) {
    match Journal::open(alloc, conn) {
        Ok(journal) => (false, journal.into_connection().into_store()),
        Err((_, Left::Open(conn))) => (true, conn.into_store()),
        Err((_, Left::Closed(store))) => (true, store),
    }
}

fn show<S: Alter + Drop, W: Write>(
    alloc: Global,
    conn: Connection<S>,
    out: &mut W,
) -> Result<S, TestError> {
    let mut conn = conn;
    write_layout(&mut conn, out)?;
    match Journal::open(alloc, conn) {
        Ok(mut journal) => {
            write_view_of(alloc, &mut journal, out)?;
            Ok(journal.into_connection().into_store())
        }
        Err((cause, left)) => {
            writeln!(out, "refused {cause}")?;
            Ok(match left {
                Left::Open(conn) => conn.into_store(),
                Left::Closed(store) => store,
            })
        }
    }
}

// Does the task. Returns whether it was refused, and the store.
fn done<S: Alter + Drop, W: Write>(
    alloc: Global,
    conn: Connection<S>,
    task: Task<'_>,
    out: &mut W,
) -> Result<(bool, S), TestError> {
    let mut conn = conn;
    match task {
        Task::Lay(sql) => {
            lay(&mut conn, sql)?;
            Ok((false, conn.into_store()))
        }
        Task::Open => Ok(open(alloc, conn)),
        Task::Show => Ok((false, show(alloc, conn, out)?)),
    }
}

// Does the task over these files. Returns whether it was refused, and the files. (Each function that calls a
// generic one at the store of these disks is slow to prove, so only this one does.)
fn over_files<W: Write>(
    alloc: Global,
    files: Disks,
    task: Task<'_>,
    out: &mut W,
) -> Result<(bool, Disks), TestError> {
    if !files.may_be_used() {
        return Ok((true, files));
    }
    match Connection::open_files(alloc, files, Options::new(1)) {
        Ok(conn) => {
            let (is_refused, store) = done(alloc, conn, task, out)?;
            Ok((is_refused, store.close()))
        }
        Err((_, left)) => Ok((true, left.into_files())),
    }
}

// Opens a journal of that database, cut after `calls` calls; then opens what is left without a cut, and writes the
// layout that was found and the view. Returns whether the first opening was cut.
fn open_twice<W: Write>(
    alloc: Global,
    sql: &str,
    cut: Cut,
    calls: u64,
    out: &mut W,
) -> Result<bool, TestError> {
    let files = new_disks(alloc, Cut::Kill, u64::MAX)?;
    let (_, files) = over_files(alloc, files, Task::Lay(sql), out)?;
    let files = found_again(alloc, files, cut, calls)?;
    let (is_cut, files) = over_files(alloc, files, Task::Open, out)?;
    let files = found_again(alloc, files, cut, u64::MAX)?;
    let (is_lost, _) = over_files(alloc, files, Task::Show, out)?;
    if is_lost {
        return Err(TestError::Lost);
    }
    Ok(is_cut)
}

/// Opens a journal of the database that the statements make, again and again, each time cut at the next call of the
/// disks, up to an opening that is not cut.
pub fn open_each<W: Write>(
    alloc: Global,
    sql: &str,
    cut: Cut,
    out: &mut W,
) -> Result<(), TestError> {
    for calls in 0..MOST_CALLS {
        write_run(&[calls], out)?;
        if !open_twice(alloc, sql, cut, calls, out)? {
            return Ok(());
        }
    }
    Err(TestError::Endless)
}

/// Writes the layout of the journal in this file, opens it, and writes its view, or why it is refused.
pub fn open_file(rt: &HostRuntime, path: &str) -> Result<(), TestError> {
    let Ok(conn) = Connection::open(rt, path) else {
        return Err(TestError::File);
    };
    let _ = show(rt.alloc(), conn, &mut rt.stdout())?;
    Ok(())
}

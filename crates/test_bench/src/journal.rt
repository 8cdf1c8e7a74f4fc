//! Commits of a journal.

ghost use Rattle.std.specs.Prelude.{◌<◌, ◌≤◌, ◌+◌, All, IfOk};
ghost use Rattle.journal_tables.specs.Small.{IsEntrySmall, IsRowSmall};

use crate::MEMORY;
use journal_store::Journal;
use sqlite::{Alter, Connection};
use std::alloc::{AllocError, Global};
use sw_participant::{Bytes, Sequence, Text};
use tx_history::{Change, Entry, Event, Row};
use tx_machine::Phase;

fn taken_row(alloc: Global) -> Result<Row, AllocError>
    ensures { IfOk result (λ row. IsRowSmall row) }
{
    Ok(Row {
        phase: Phase::Preparing,
        joined: Sequence::new(Vec::new(alloc)),
        told: 0,
        doing: Some(Text::from_str(alloc, "check")?),
        tries: 0,
        context: Bytes::new(vec![in alloc; 0u8; 64]?),
    })
}

// Entry n: a transaction is taken, or the one that was taken before is over.
fn entry(alloc: Global, n: u64) -> Result<Entry, AllocError>
    requires { n < 1000000000 }
    ensures { IfOk result (λ entry. IsEntrySmall entry) }
{
    let id = n / 2 + 1;
    let is_taken = n % 2 == 0;
    Ok(Entry {
        number: 1,
        event: Event::Released,
        change: Change {
            next_id: if is_taken { Some(id + 1) } else { None },
            row: Some((
                id,
                if is_taken {
                    Some(taken_row(alloc)?)
                } else {
                    None
                },
            )),
            shelved: None,
            emptied: false,
            advice: None,
        },
    })
}

// `count` entries, from entry `from` on.
fn entries(alloc: Global, from: u64, count: u64) -> Result<Vec<Entry>, AllocError>
    requires { from + count < 1000000000 }
    ensures { IfOk result (λ list. All IsEntrySmall list.items) }
{
    let mut list = Vec::new(alloc);
    for n in from..from + count {
        list.push(entry(alloc, n)?)?;
    }
    Ok(list)
}

/// What is written: how many commits, and how many entries in each.
#[derive(Clone, Copy)]
pub struct Load {
    pub commits: u64,
    pub entries: u64,
}

fn write_load<S: Alter + Drop>(
    alloc: Global,
    conn: Connection<S>,
    load: Load,
) -> Result<(), &'static str>
    requires { load.entries ≤ 1000 }
{
    let Ok(mut journal) = Journal::open(alloc, conn) else {
        return Err("the journal was not opened");
    };
    let mut from: u64 = 0;
    for _ in 0..load.commits {
        if from > 900_000_000 {
            return Err("too many entries: expected at most 900,000,000");
        }
        let Ok(list) = entries(alloc, from, load.entries) else {
            return Err(MEMORY);
        };
        if journal.write(list.as_slice()).is_err() {
            return Err("the journal was not written");
        }
        from += load.entries;
    }
    Ok(())
}

/// Writes a journal in the file at the path, or in memory.
pub fn run(rt: &HostRuntime, path: &str, load: Load) -> Result<(), &'static str> {
    if load.entries > 1000 {
        return Err("too many entries in a commit: expected at most 1,000");
    }
    let alloc = rt.alloc();
    if path == "memory" {
        return match Connection::open_in_memory(alloc) {
            Ok(conn) => write_load(alloc, conn, load),
            Err(_) => Err(MEMORY),
        };
    }
    match Connection::open(rt, path) {
        Ok(conn) => write_load(alloc, conn, load),
        Err(_) => Err("the file was not opened"),
    }
}

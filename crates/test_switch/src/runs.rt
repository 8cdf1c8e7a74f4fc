//! The runs of a script, each cut at another call of the disks.

use crate::disks::{Cut, Disks, found_again, new_disks};
use crate::error::TestError;
use crate::lines::{write_calls, write_run};
use crate::lives::{finish, is_plant_cut, play};
use cli_script::{Script, open_script};
use flow_asm::{Code, assemble};
use journal_store::{Journal, Left};
use sqlite::{Alter, Connection, Options};
use std::alloc::Global;
use std::io::Write;
use sw_participant::Station;
use sw_scripted::Scripted;
use tx_plant::{Plant, PlantParts};

/// More calls than any run makes.
const MOST_CALLS: u64 = 100_000;

// Writes the calls of a plant's stations, and gives its journal back.
fn end<S: Alter + Drop, W: Write>(plant: Plant<S>, out: &mut W) -> Result<Journal<S>, TestError> {
    let PlantParts {
        running: _,
        journal,
        stations,
    } = plant.into_parts();
    write_calls(stations.as_slice(), out)?;
    Ok(journal)
}

// Makes a plant with a scripted participant for each one of the flow, and runs the script's lines, or recovers.
// Returns whether the journal has refused. (It hands out no station, so that contracts know whose each
// participant is.)
fn begin<S: Alter + Drop, W: Write>(
    alloc: Global,
    code: &Code,
    script: &mut Script<'_>,
    is_first: bool,
    journal: Journal<S>,
    out: &mut W,
) -> Result<(bool, Journal<S>), TestError> {
    let mut stations = Vec::new(alloc);
    for part in code.participants() {
        let replies = script.replies.take(alloc, part.name.as_str());
        let participant = Box::new(alloc, Scripted::new(alloc, replies))?;
        stations.push(Station::from_parts(part.name.copy()?, participant, 0))?;
    }
    let mut plant = match Plant::new(alloc, code, journal, stations, script.sessions as usize) {
        Ok(plant) => plant,
        Err((cause, journal, _)) => return Ok((is_plant_cut(Err(cause))?, journal)),
    };
    let is_cut = if is_first {
        play(alloc, &mut plant, &mut script.actions, out)?
    } else {
        finish(alloc, &mut plant, out)?
    };
    Ok((is_cut, end(plant, out)?))
}

// Runs the script, or recovers, over the journal of this connection. Returns whether it was cut; `None` if the
// journal was not opened.
fn run_part<S: Alter + Drop, W: Write>(
    alloc: Global,
    script: &[u8],
    is_first: bool,
    conn: Connection<S>,
    out: &mut W,
) -> Result<(Option<bool>, Left<S>), TestError> {
    let journal = match Journal::open(alloc, conn) {
        Ok(journal) => journal,
        Err((_, left)) => return Ok((None, left)),
    };
    let Some(mut script) = open_script(alloc, None, script)? else {
        return Err(TestError::NoLine);
    };
    let code = assemble(alloc, &script.flow)?;
    let (is_cut, journal) = begin(alloc, &code, &mut script, is_first, journal, out)?;
    Ok((Some(is_cut), Left::Open(journal.into_connection())))
}

// Writes the lines of one plant over the journal of this connection, and adds whether it was cut. After a refusal
// the connection goes on, if it can, with a second plant, whose lines are written too.
fn run_over<S: Alter + Drop, W: Write>(
    alloc: Global,
    script: &[u8],
    cut: Cut,
    conn: Connection<S>,
    cuts: &mut Vec<bool>,
    out: &mut W,
) -> Result<S, TestError> {
    let (end, left) = run_part(alloc, script, cuts.is_empty(), conn, out)?;
    cuts.push(end != Some(false))?;
    let conn = match left {
        Left::Open(conn) => conn,
        Left::Closed(store) => return Ok(store),
    };
    if end != Some(true) || !matches!(cut, Cut::Refusal) {
        return Ok(conn.into_store());
    }
    let (end, left) = run_part(alloc, script, false, conn, out)?;
    if let Some(is_cut) = end {
        cuts.push(is_cut)?;
    }
    Ok(match left {
        Left::Open(conn) => conn.into_store(),
        Left::Closed(store) => store,
    })
}

// Writes the lines over the journal in these files, and gives the files back. (Each function that calls a generic
// one at the store of these disks is slow to prove, so only this one does.)
fn run_files<W: Write>(
    alloc: Global,
    script: &[u8],
    cut: Cut,
    files: Disks,
    cuts: &mut Vec<bool>,
    out: &mut W,
) -> Result<Disks, TestError> {
    if !files.may_be_used() {
        cuts.push(true)?;
        return Ok(files);
    }
    match Connection::open_files(alloc, files, Options::new(1)) {
        Ok(conn) => Ok(run_over(alloc, script, cut, conn, cuts, out)?.close()),
        Err((_, left)) => {
            cuts.push(true)?;
            Ok(left.into_files())
        }
    }
}

// Writes `run CALLS ..` with the numbers of calls after which it is cut, and the lines of that run: those of the
// script, then those of recoveries. Returns whether each of these was cut; the last one must not be.
fn run_lines<W: Write>(
    alloc: Global,
    script: &[u8],
    cut: Cut,
    calls: &[u64],
    out: &mut W,
) -> Result<Vec<bool>, TestError> {
    let mut kept: Option<Disks> = None;
    let mut cuts = Vec::new(alloc);
    write_run(calls, out)?;
    for (place, count) in calls.iter().enumerate() {
        // (after a refusal two plants have run over one connection)
        if place < cuts.len() {
            continue;
        }
        let files = match kept.take() {
            Some(files) => found_again(alloc, files, cut, *count)?,
            None => new_disks(alloc, cut, *count)?,
        };
        kept = Some(run_files(alloc, script, cut, files, &mut cuts, out)?);
    }
    match cuts.last() {
        Some(true) => Err(TestError::Lost),
        _ => Ok(cuts),
    }
}

// The runs that are cut after `first` calls, and then at each call of the recovery, up to one that is recovered
// without a cut. Returns whether the script was cut.
fn run_each_second<W: Write>(
    alloc: Global,
    script: &[u8],
    cut: Cut,
    first: u64,
    out: &mut W,
) -> Result<bool, TestError> {
    for second in 0..MOST_CALLS {
        let cuts = run_lines(alloc, script, cut, &[first, second, u64::MAX], out)?;
        if cuts.get(1) != Some(&true) {
            return Ok(cuts.first() == Some(&true));
        }
    }
    Err(TestError::Endless)
}

/// Runs the script again and again, each time cut at the next call of the disks, up to a run that is
/// not cut; with `is_twice` the recovery of each is cut too, at each of its calls.
pub fn run_each<W: Write>(
    alloc: Global,
    script: &[u8],
    cut: Cut,
    is_twice: bool,
    out: &mut W,
) -> Result<(), TestError> {
    for first in 0..MOST_CALLS {
        let was_cut = if is_twice {
            run_each_second(alloc, script, cut, first, out)?
        } else {
            run_lines(alloc, script, cut, &[first, u64::MAX], out)?.first() == Some(&true)
        };
        if !was_cut {
            return Ok(());
        }
    }
    Err(TestError::Endless)
}

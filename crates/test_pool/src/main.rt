//! A pool under replies drawn at random, for tests/pool.py. Without words it does nothing.
//!
//! `test_pool FLOW SESSIONS OFFERS CAPACITY SEED` makes a plant of the flow in the file FLOW over a journal in
//! memory, with SESSIONS sessions, and participants that draw their replies (`sw_chance`), each from a generator
//! of its own that begins with SEED and the participant's number. It runs the sessions as threads over OFFERS
//! offers, with an intake for CAPACITY offers; then, as long as contexts are on the shelf, it acknowledges all
//! advices, releases the shelf, and runs the sessions again without an offer.
//!
//! Offer K of them, from 0, is the context `offer` = K in decimal digits. It prints
//!
//! - the lines of the trace of all that the plant did,
//! - of each run `run FROM TO`: its entries are those after number FROM up to number TO; for each
//!   session `receipts S NUMBER ..`; `finished COUNT` and `shelved COUNT`,
//! - of each station `calls NAME COUNT`,
//! - of each call, in the order in which they were made, `called S ID CALL NAME`,
//! - of each transaction that is done `ended ID NAME=HEX ..`, the context that it ended with.
//!
//! `test_pool again FLOW SESSIONS OFFERS SEED` runs such a plant over OFFERS offers, for tests that refuse it
//! memory, and then over as many again. If memory is refused before the first run, it begins anew; if a run is
//! given up, a new plant is made on what it left and recovers, and `given up` is printed. It prints the lines of
//! the trace of the last plant, the stations' counts, and the calls that threads made, as above.
#![tactic(auto)]

mod again;
mod error;
mod lines;
mod runs;
mod watch;

use again::{End, TRIES, run_again};
use cli_flows::open_flow;
use error::TestError;
use flow_asm::{Code, assemble};
use lines::{write_again, write_all};
use runs::{new_journal, offers_of, run_all};
use std::alloc::{AllocError, Global};
use std::fs::Files;
use std::io::{self, BufWriter, Write};
use std::process::ExitCode;
use std::sync::Wait;
use std::thread::Threads;
use sw_chance::Chance;
use sw_participant::{Station, Text};
use tx_plant::Plant;
use watch::Watch;

/// What the words ask for, besides the flow.
#[derive(Clone, Copy)]
struct Task {
    sessions: usize,
    offers: usize,
    capacity: usize,
    seed: u64,
    /// Whether it is run for tests that refuse it memory.
    is_again: bool,
}

/// A flow in its steps, and what is to be done over it.
#[derive(Drop)]
struct Work {
    code: Code,
    task: Task,
}

fn number(word: &str) -> Result<usize, TestError> {
    word.parse::<usize>().map_err(|_| TestError::Words)
}

fn read_task(words: &[String]) -> Result<Task, TestError> {
    match words {
        [sessions, offers, capacity, seed] => Ok(Task {
            sessions: number(sessions.as_str())?,
            offers: number(offers.as_str())?,
            capacity: number(capacity.as_str())?,
            seed: number(seed.as_str())? as u64,
            is_again: false,
        }),
        [sessions, offers, seed] => Ok(Task {
            sessions: number(sessions.as_str())?,
            offers: number(offers.as_str())?,
            capacity: 1,
            seed: number(seed.as_str())? as u64,
            is_again: true,
        }),
        _ => Err(TestError::Words),
    }
}

// The names of the flow's groups except `main`, which would select all of it again, and one that no group has.
fn names_of(alloc: Global, code: &Code) -> Result<Vec<Text>, TestError> {
    let mut names = Vec::new(alloc);
    names.push(Text::from_str(alloc, "nowhere")?)?;
    for group in code.groups() {
        if group.name.as_str() != "main" {
            names.push(group.name.copy()?)?;
        }
    }
    Ok(names)
}

// Runs a plant of these stations over the offers, and then again, and writes what it did. `is_begun` is set before the
// first run.
fn play_again<R: Threads + Wait + Sync, W: Write>(
    rt: &R,
    alloc: Global,
    work: &Work,
    stations: Vec<Station>,
    is_begun: &mut bool,
    out: &mut W,
) -> Result<(), TestError> {
    let code = &work.code;
    let task = work.task;
    let mut plant = match Plant::new(alloc, code, new_journal(alloc)?, stations, task.sessions) {
        Ok(plant) => plant,
        Err((error, _, _)) => return Err(TestError::Plant(error)),
    };
    *is_begun = true;
    let watch = Watch::new(rt, alloc);
    let mut was_given_up = false;
    for _ in 0..2 {
        plant.engine_is_sound();
        plant = match run_again(rt, alloc, plant, task.offers, &watch)? {
            End::Done(plant) => plant,
            End::GivenUp(journal, stations) => {
                was_given_up = true;
                let mut plant = match Plant::new(alloc, code, journal, stations, task.sessions) {
                    Ok(plant) => plant,
                    Err((error, _, _)) => return Err(TestError::Plant(error)),
                };
                plant.recover(alloc)?;
                plant
            }
        };
    }
    let calls = watch.into_calls()?;
    write_again(alloc, code, &plant, was_given_up, calls.as_slice(), out)
}

// Makes a station for each participant of the flow, runs a plant of them as the task says, and writes what it did.
// (It hands out no station, so that contracts know whose each participant is.)
fn play<R: Threads + Wait + Sync, W: Write>(
    rt: &R,
    alloc: Global,
    work: &Work,
    is_begun: &mut bool,
    out: &mut W,
) -> Result<(), TestError> {
    let code = &work.code;
    let task = work.task;
    let mut stations = Vec::new(alloc);
    for (number, part) in code.participants().iter().enumerate() {
        let number = (number & 0x7f) as u8;
        let chance = Chance::new(alloc, number, names_of(alloc, code)?, task.seed);
        // A checked flow has no bad name, so only memory can run out.
        match Station::new(alloc, part.name.as_str(), Box::new(alloc, chance)?) {
            Ok(station) => stations.push(station)?,
            Err(_) => return Err(TestError::OutOfMemory(AllocError)),
        }
    }
    if task.is_again {
        return play_again(rt, alloc, work, stations, is_begun, out);
    }
    *is_begun = true;
    let journal = new_journal(alloc)?;
    let plant = match Plant::new(alloc, code, journal, stations, task.sessions) {
        Ok(plant) => plant,
        Err((error, _, _)) => return Err(TestError::Plant(error)),
    };
    let watch = Watch::new(rt, alloc);
    let offers = offers_of(alloc, task.offers)?;
    let (plant, runs) = run_all(rt, alloc, plant, offers, task.capacity, &watch)?;
    let calls = watch.into_calls()?;
    write_all(alloc, code, &plant, runs.as_slice(), calls.as_slice(), out)
}

fn play_flow<R: Files + Threads + Wait + Sync, W: Write>(
    rt: &R,
    alloc: Global,
    flow: &str,
    task: Task,
    is_begun: &mut bool,
    out: &mut W,
) -> Result<(), TestError> {
    let flow = open_flow(alloc, rt, flow)?;
    let work = Work {
        code: assemble(alloc, &flow)?,
        task,
    };
    play(rt, alloc, &work, is_begun, out)
}

// Plays the flow; after an error before the first run begins, plays it anew.
fn play_anew<R: Files + Threads + Wait + Sync, W: Write>(
    rt: &R,
    alloc: Global,
    flow: &str,
    task: Task,
    out: &mut W,
) -> Result<(), TestError> {
    let mut is_begun = false;
    for _ in 0..TRIES {
        match play_flow(rt, alloc, flow, task, &mut is_begun, out) {
            Err(_) if !is_begun => {}
            done => return done,
        }
    }
    Err(TestError::OutOfMemory(AllocError))
}

fn run_words<R: Files + Threads + Wait + Sync, W: Write>(
    rt: &R,
    alloc: Global,
    words: &[String],
    out: &mut W,
) -> Result<(), TestError> {
    match words {
        [] | [_] => Ok(()),
        [_, again, flow, numbers @ ..] if again.as_str() == "again" => {
            play_anew(rt, alloc, flow.as_str(), read_task(numbers)?, out)
        }
        [_, flow, numbers @ ..] => {
            let task = read_task(numbers)?;
            let mut is_begun = false;
            play_flow(rt, alloc, flow.as_str(), task, &mut is_begun, out)
        }
    }
}

fn main(rt: HostRuntime) -> ExitCode {
    let alloc = rt.alloc();
    let words = match std::env::args(&rt) {
        Ok(words) => words.collect::<Vec<String>>(alloc),
        Err(_) => return ExitCode::from(2),
    };
    let (Ok(words), Ok(mut out)) = (words, BufWriter::new(alloc, io::writer(&rt))) else {
        return ExitCode::from(4);
    };
    match run_words(&rt, alloc, words.as_slice(), &mut out) {
        Ok(()) => ExitCode::from(0),
        Err(error) => {
            let _written = writeln!(rt.stderr(), "test_pool: {error}");
            ExitCode::from(1)
        }
    }
}

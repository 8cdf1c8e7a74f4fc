//! The switch under faults that no subcommand can cause, for tests. Without words it does nothing.
//!
//! `test_switch stopped power|kill|refusal < SCRIPT` runs the script of `cardswitch step` again and again over
//! a journal in memory, cut at the first call of its disks, at the second and so on, up to a run that is
//! not cut. After each run a new plant opens the journal again and recovers what it has unfinished;
//! as in a new process its stations are new. With the further word `twice` each recovery is cut at
//! each of its calls too.
//!
//! It prints for each run `run CALLS`, the script's lines up to the cut, `found` with the journal that was
//! opened again, the lines of the recovery, `left` with the journal after it, and after the lines of
//! each plant `calls NAME COUNT` for each of its stations.
//!
//! `test_switch again < SCRIPT` does the turns of a script over a journal in memory, and prints what comes of
//! each; a turn that is refused for memory is done again. If memory is refused to the journal's store, a new plant
//! goes on over what the store has, and `restart UNFINISHED` is printed, as after a stop.
//!
//! `test_switch opened PATH` prints the layout of the journal in the file, opens it, and prints its view, or why it is
//! refused: `layout N`, `next NEXTID`, and a line for each row, context on the shelf and advice.
//!
//! `test_switch turned power|kill|refusal < SQL` makes a database from the statements of its input, one a line,
//! and opens it as a journal, cut at the first call of its disks, at the second and so on, up to an opening that
//! is not cut. Each time what is left is opened again. It prints for each run `run CALLS`, the layout that was
//! left, and the view.
#![tactic(auto)]

mod again;
mod disks;
mod error;
mod lines;
mod lives;
mod openings;
mod runs;

use again::run_again;
use cli_io::{Input, read_input};
use disks::Cut;
use error::TestError;
use openings::{open_each, open_file};
use runs::run_each;
use std::io::Write;
use std::process::ExitCode;
use std::str;

fn cut_of(word: &str) -> Result<Cut, TestError> {
    match word {
        "power" => Ok(Cut::Power),
        "kill" => Ok(Cut::Kill),
        "refusal" => Ok(Cut::Refusal),
        _ => Err(TestError::Words),
    }
}

fn run_stopped(rt: &HostRuntime, cut: Cut, is_twice: bool) -> Result<(), TestError> {
    // (after a refusal the connection goes on, so that its disks cannot be made to refuse a second time)
    if is_twice && matches!(cut, Cut::Refusal) {
        return Err(TestError::Words);
    }
    let alloc = rt.alloc();
    let script = read_input(alloc, &mut Input::new(rt.stdin()))?;
    run_each(alloc, script.as_slice(), cut, is_twice, &mut rt.stdout())
}

fn run_refused(rt: &HostRuntime) -> Result<(), TestError> {
    let alloc = rt.alloc();
    let script = read_input(alloc, &mut Input::new(rt.stdin()))?;
    run_again(alloc, script.as_slice(), &mut rt.stdout())
}

fn run_turned(rt: &HostRuntime, cut: Cut) -> Result<(), TestError> {
    let alloc = rt.alloc();
    let sql = read_input(alloc, &mut Input::new(rt.stdin()))?;
    let Ok(sql) = str::from_utf8(sql.as_slice()) else {
        return Err(TestError::Sql);
    };
    open_each(alloc, sql, cut, &mut rt.stdout())
}

fn run_words(rt: &HostRuntime, words: &[String]) -> Result<(), TestError> {
    match words {
        [_] => Ok(()),
        [_, test, cut] if test.as_str() == "stopped" => {
            run_stopped(rt, cut_of(cut.as_str())?, false)
        }
        [_, test, cut, twice] if test.as_str() == "stopped" && twice.as_str() == "twice" => {
            run_stopped(rt, cut_of(cut.as_str())?, true)
        }
        [_, test] if test.as_str() == "again" => run_refused(rt),
        [_, test, path] if test.as_str() == "opened" => open_file(rt, path.as_str()),
        [_, test, cut] if test.as_str() == "turned" => run_turned(rt, cut_of(cut.as_str())?),
        _ => Err(TestError::Words),
    }
}

fn main(rt: HostRuntime) -> ExitCode {
    let words = match std::env::args(&rt) {
        Ok(words) => words.collect::<Vec<String>>(rt.alloc()),
        Err(_) => return ExitCode::from(2),
    };
    let Ok(words) = words else {
        return ExitCode::from(4);
    };
    match run_words(&rt, words.as_slice()) {
        Ok(()) => ExitCode::from(0),
        Err(error) => {
            let _written = writeln!(rt.stderr(), "test_switch: {error}");
            ExitCode::from(1)
        }
    }
}

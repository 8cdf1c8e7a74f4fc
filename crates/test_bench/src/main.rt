//! The switch's parts, for bench/*.py to time. Without words it does nothing.
//!
//! `test_bench journal PATH COMMITS ENTRIES` makes COMMITS commits of ENTRIES entries each in a journal in the
//! file at the path, or in memory if the path is `memory`.
//!
//! `test_bench engine COUNT` runs COUNT transactions of two participants, one after the other, six entries each,
//! with every entry written before the next call.
//!
//! `test_bench mux WHAT KEYS ROUNDS` lets KEYS keys wait, and then, ROUNDS times, lets one more wait and takes the
//! response to the oldest. WHAT is `mux`, or `map`: a hash map of keys as it is used without a multiplexer, or
//! `ticks`: a multiplexer in which the oldest comes to its deadline instead.
#![tactic(auto)]

mod engine;
mod journal;
mod mux;

use journal::Load;
use std::io::Write;
use std::process::ExitCode;

pub(crate) const MEMORY: &str = "out of memory";

const WORDS: &str =
    "expected: journal PATH COMMITS ENTRIES, engine COUNT, or mux mux|map|ticks KEYS ROUNDS";

fn number(word: &String) -> Result<u64, &'static str> {
    word.parse::<u64>().map_err(|_| "expected a number")
}

fn run_words(rt: &HostRuntime, words: &[String]) -> Result<(), &'static str> {
    match words {
        [_] => Ok(()),
        [_, part, path, commits, entries] if part.as_str() == "journal" => {
            let load = Load {
                commits: number(commits)?,
                entries: number(entries)?,
            };
            journal::run(rt, path.as_str(), load)
        }
        [_, part, count] if part.as_str() == "engine" => engine::run(rt.alloc(), number(count)?),
        [_, part, what, keys, rounds] if part.as_str() == "mux" => {
            mux::run(rt.alloc(), what.as_str(), number(keys)?, number(rounds)?)
        }
        _ => Err(WORDS),
    }
}

fn run(rt: &HostRuntime) -> Result<(), &'static str> {
    let words = std::env::args(rt).map_err(|_| WORDS)?;
    let words = words.collect::<Vec<String>>(rt.alloc());
    run_words(rt, words.map_err(|_| MEMORY)?.as_slice())
}

fn main(rt: HostRuntime) -> ExitCode {
    match run(&rt) {
        Ok(()) => ExitCode::from(0),
        Err(error) => {
            let _written = writeln!(rt.stderr(), "test_bench: {error}");
            ExitCode::from(1)
        }
    }
}

//! The command line of the card switch's program, read by `clap`.
//!
//! [`command_line::options`] takes the words of a command line, the program's name first, and
//! returns the options that they ask for. If it does, the options are those of the words by the
//! table of subcommands in `specs/CommandLine.antt`. It refuses words only if that table refuses
//! them, or for out of memory. A wish for help or for the version is refused too, with the text to
//! show.
//!
//! # What is proved
//!
//! Where `options` answers, the options are those of the words by the table of subcommands. It refuses
//! words only where that table refuses them, where the value of an option is not one that it takes
//! (such as a number below 2^63), or out of memory. Status and stream of a refusal are those of its
//! kind.
//!
//! # Decisions
//!
//! - **`--help` and `--version` are answers**: status 0, on standard output.
//! - **`--trace` takes its form as an optional value** (`--trace=json`; clap: `num_args(0..=1)`). So
//!   `--trace json` is the same, and a word after `--trace` is always taken as its form.
//!   `require_equals` would forbid it, but clap's contract does not say which options a command line
//!   gives where that is set. Forms other than `text` and `json` are refused as a bad number is, by a
//!   text of our own: the contract of a list of possible values names the address in memory where the
//!   list stands.
//! - **Help states defaults in its texts.** An option that the command line does not have is looked for
//!   in the configuration file, and only then gets the program's default. So the program has to see
//!   that it is absent, and clap's `default_value` would hide that.
//! - **`--stats` takes its N or none** (`--stats 1000`, `--stats=1000`, `--stats`), by clap's
//!   `num_args`; without one it is as with `end`, which is accepted too. Alternative: `--stats` and
//!   `--stats-every N`.
#![tactic(auto)]

// `Options` and `options` differ only in case, so they cannot be in one module.
pub mod choice;
pub mod command_line;
mod error;
mod table;

pub use error::OptionsError;

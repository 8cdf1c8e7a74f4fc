//! The script of `step`: what each of its lines means, and what its settings state.
//!
//! # What is proved
//!
//! `read_line` gives exactly what a line means by the grammar, or the first reason why it is refused,
//! in the specified order; out of memory only of a line that has a meaning. `open_script` reads all
//! settings of the head: the line after them is not a setting, and no `flow` line is beside a flow
//! file. It gives the flow as they (or the flow file) state it, checked, the number of sessions, and
//! the replies that they queue, or the first fault of the head, with its line (`IsOpened`,
//! `IsScriptRefused`). `open_settings` gives the same of settings alone (`IsStated`, `IsUnstated`).
//! `Replies::take` takes all that was queued for a participant, in the order of the lines.
//! `Actions::next` gives the next line after the settings, and refuses a context with more than 64
//! names; at the end and after a refusal it stays where it is.
//!
//! # Decisions
//!
//! - **A script is read in two parts**: the settings at its head are read and kept before the first
//!   action (`open_script`), the other lines one by one (`Actions`).
//! - **An offer of more than 64 names is of its form, and is refused where its line is run.** To find
//!   whether a context takes all its entries needs memory. Out of memory is reported last of a line's
//!   own faults. Alternative: a count without memory.
//! - **The settings and the first other line are gathered and read together** (`open_script`): what a
//!   script states is defined of its whole head. Each setting is looked at twice.
//! - **A line quotes itself**: the refusal of a line ends in `; found "LINE"`; a refused flow names
//!   group and entry.
//! - **Decimal numbers of a script are read by `sw_base::read_number`**, since they go to 2^64 - 1;
//!   `decimal` takes nine digits.
//! - **`retries` over 255 is kept as 255**: `check` refuses either, and the last `retries` counts.
//! - **Names of groups and participants in `flow` are tested by `check`**, not by the line. A name
//!   after `answer` or `choose` that breaks the name rule is malformed; one that the flow does not have
//!   is accepted and never used.
//! - **The text of `choose` is all that follows one space**, spaces included; it may be empty. A tab or
//!   a carriage return in it makes the line malformed, as in every line.
//! - **An empty line, a leading, doubled or trailing space, a tab, a carriage return, bytes that are
//!   not UTF-8: malformed.** The last line may lack its line feed.
//! - **Numbers are decimal digits, leading zeros allowed, below 2^64.**
#![tactic(auto)]

mod action_lines;
mod actions;
mod error;
mod group;
mod hexadecimal;
mod line;
mod puts;
mod queues;
mod read;
mod replies;
mod script;
mod setting_lines;
mod settings;
mod words;

pub use actions::Actions;
pub use error::{LineError, ScriptError};
pub use line::{Action, ScriptLine, Setting};
pub use read::read_line;
pub use replies::Replies;
pub use script::{Opening, Script, next_setting, open_script, open_settings};

//! The script of `step`, run over a plant, each line before the next one is read.
//!
//! # What is proved
//!
//! `run_lines` runs the lines of a script in their order over a plant of the script's flow and
//! sessions, and writes the text of each (`IsRun`, over readers and writers whose bytes are known). It
//! reads the settings and the first line that is not a setting, makes the plant, and then reads each
//! line once the one before it is run; that its text is written by then is only tested. A line that is
//! a turn does that turn, as `Plant::drive` says it, and prints the line of its outcome (`Says`).
//! `auto` does its turns in their order and prints the lines of its steps, and of any turn that is
//! refused (`Autos`). `where`, `rest`, `saved` and `calls` print what they show, and change nothing
//! (`Shows`). `run_actions` that ends with an error has written a beginning of the texts of its lines,
//! and the error of a line names that line (`Stopped`); after an error of `run_lines` what was written
//! before the call stands (`Grows`). No contract says which text the call has written then: it may be
//! any. Nor does a contract say that the stations are those of the script's queues, or the switch's own
//! where `step --switch` asks for them, since a function that hands stations out would hide them.
//!
//! `run_prompted` writes the prompt before each line, and answers the line before the next prompt
//! (`IsPrompted`). A line is read with one space between its words (`tidied`). A comment is answered by
//! nothing; an empty line repeats the one before it, or is answered by nothing where no flow is open;
//! `quit` ends the session, and nothing after it is answered (`typed`, `kept`, `EndsTalk`). A line that
//! is an action does what `run_lines` says of it, but `saved` shows the values that are printable as
//! text (`IsReadableLine`). `help` shows its table; `list` the image of the flow, and the steps at
//! which sessions stand; `info` the line of `where` for each session, and the numbers of contexts and
//! entries (`prompt_word_text`). A refused line is reported, and changes neither settings, nor plant,
//! nor standard output (`Refuses`, `StaysHead`). The settings open a flow at the first line that needs
//! one. Where they are refused for their flow or their number of sessions, they stay (`IsUnopened`). A
//! session ends at `quit`, at the end of the input, with a line feed after the last prompt, or with an
//! error that is not of a line (`IsFaultOf`). No contract says what a refusal's text is, only that it
//! begins with `cardswitch: `.
//!
//! # Decisions
//!
//! - **The lines are run by a crate of their own, `cli_step`, and their participants are
//!   `sw_scripted`**: the grammar depends on no engine, and the participants on no grammar.
//! - **One function makes the stations, the plant and runs the lines**: a function that handed stations
//!   out would hide from contracts which participants there are.
//! - **A refused take does not end `auto`**, which goes on with what session 0 holds; it ends its calls
//!   at any refusal of one.
//! - **The lines of closing entries are not printed by `stop`**; they count in `written MARK`.
//! - **`recover` calls are printed by `auto`** beside answers, choices and tolds.
//! - **The number of sessions is tested with the plant**, at the first line that is not a setting; a
//!   script of settings alone is accepted whatever it says.
//! - **A held call is shown by where the session stands** (`whereis`), not by the call: an entry's call
//!   names its place.
//! - **What a line prints is written at once**, `auto`'s lines together; where one ends early the lines
//!   so far are written first.
//! - **`retries` beside `--flow` replaces the file's**; a `flow` line beside it is malformed.
//! - **The flow file is read before the script**, so its fault comes first.
//! - **A fault of the flow ends the run at the first line that is not a setting**; a script of settings
//!   alone is done with status 0.
//! - **`step --switch` plays the switch's participants over simulated issuers, `sw_simulated`**, as one
//!   type with a variant for each. So a flow is tried as `run` would run it, and a script needs no
//!   replies. Alternative: boxed participants, which no function may hand out.
#![tactic(auto)]

mod actions;
mod auto;
mod cast;
mod error;
mod head;
mod opening;
mod places;
mod prompt;
mod prompt_words;
mod script;
mod shown;
mod turn_lines;
mod turns;
mod typed;

pub use actions::turn_of;
pub use cast::Cast;
pub use error::StepError;
pub use opening::run_prompted;
pub use script::{run_actions, run_lines};
pub use turn_lines::outcome_line;

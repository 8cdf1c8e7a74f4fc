//! The trace: one line for each entry of an engine's history, as text or as an object of JSON.
//!
//! What is promised is defined, byte by byte, in `specs/Lines.antt`, `specs/Trace.antt` and
//! `specs/Json.antt`. An entry shows one value (`shown_at`), from which both forms are made:
//! - [`Tracer::next`] is the line of the next entry as text, for every kind of event, and
//!   [`Tracer::next_json`] the line as JSON;
//! - [`line`] is the line of the entry of a number, if there is such an entry;
//! - [`whereis`] and [`rest`] are where the transaction of a session stands, and what is still to
//!   come;
//! - [`step_line`] is the line of an answer, a choice or a told that leads from one state of a
//!   transaction to the next.
//!
//! # What is proved
//!
//! What an entry shows is a value that is defined on the list of events alone, for every kind of event
//! (`specs/Lines.antt`). So are its line of text and its JSON object (`specs/Trace.antt`, `Json.antt`).
//! `Tracer::next` gives the next entry's line byte by byte, `next_json` its object, `line_at` the line
//! of a later number, and `line` that of any number. No line belongs to a number without an entry. This
//! holds of journalled transactions too, and from any start, one after a cut among them. A tracer stays
//! the engine's when entries are added or the mark moves (`tracers_go_on`). `step_line` is the line of
//! one answer, choice or told. `whereis` and `rest` are where the transaction of a session is, with its
//! step, and what is still to come.
//!
//! # Decisions
//!
//! - **The tracer does not copy the engine**: it keeps the machines of the transactions under way and
//!   takes each id, the tries and the saved context from the entry's own change. Alternative: an engine
//!   fed with the events again, which does not show its machines and would hold every context twice.
//! - **A tracer takes the engine with each call rather than borrowing it**, so that a script may print
//!   each line as its event comes. That it is the same engine is a condition, which further entries and
//!   the written mark keep. After a cut a new tracer is made.
//! - **A recovered transaction's phase is C or U from its first line on**, whatever its row says.
//!   `recovering` is on the line of each of its outcomes. NEXT of its last line is `done`, although
//!   session 0 then goes on with the next one.
//! - **`release COUNT` prints 0 for an empty shelf.**
//! - **An entry shows one value, and both forms of its line are made of it** (`shown_at`, `Shown`). So
//!   the tracer is proved once, and no form is read to make the other. Alternative: a line that is made
//!   twice, or JSON that is read from the text.
//! - **Each JSON object of a kind has all its members** (`"bound":false`), but for `rc` and `advice`,
//!   which only stand where the entry has one. Alternative: to leave out what is false, as the text
//!   does.
//! - **`rc` is the value in the context that an answer left**, and not only in the answer that noted
//!   it: the context is what an entry has. Alternative: to compare it with the context before, which
//!   the history does not keep of each call.
//! - **The words of JSON and the reading of a context's bytes stand in `sw_json`**, which the trace and
//!   `journal` share.
#![tactic(auto)]

mod acts;
mod entries;
mod json;
mod known;
mod laws;
mod lines;
mod moves;
mod names;
mod places;
mod shown;
mod text;
mod tracer;

pub use acts::act_word;
pub use entries::{line, rest};
pub use laws::tracers_go_on;
pub use moves::step_line;
pub use names::Names;
pub use places::{Place, whereis};
pub use text::{Hex, NextText, PhaseText};
pub use tracer::Tracer;

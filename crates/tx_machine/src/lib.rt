//! One transaction, driven by the replies to the calls that are due.
//!
//! # What is proved
//!
//! A machine over the numbered steps of a flow. After `Machine::start`, which cannot be refused, and
//! after each reply (`apply`, or `answered`, `chose`, `told`), it is where the specified table says
//! (`tx_state`, `opening`, `next`). A reply is taken exactly where it is due. Otherwise it is refused
//! as `NotDue`, before out of memory. A refused one changes nothing (`TakesItem`). `due` is the table's
//! due call or end with the call's step, `rest` the table's places to come, `copy` is where its source
//! is. The participants of due calls and members are the flow's. `reopened` is the machine of a
//! transaction that the journal has. `after_items` says the same of a whole list.
//!
//! Laws over every lawful list: members, number notified, saved context and number of calls are those
//! of the list itself (`whole_lists`). There are at most 1,000 answers and choices and at most 1,000
//! members, each notified at most once (`bounded_lists`). Lists with one item more at the end, and
//! lists that have the newest item first (`lists_extend`). The bounds of every state and of its journal
//! row (`lists_keep_bounds`).
//!
//! # Decisions
//!
//! - **The phase of a transaction without members stays preparing or aborting at its end.**
//! - **Text between a selector's names is spaces and commas.** The first 16 names count, known or not;
//!   an unknown one gives nothing, a repeated one gives its group again.
//! - **The machine keeps the number of a step and a stack of selections**, each with the step after its
//!   selector's and at most 16 groups still to be entered, and no list of what is to come. So a
//!   transaction of 1,000 choices takes a stack of at most 500 selections, whatever the groups hold. It
//!   goes on to the next due step within the call that changes it, so `due` takes no memory. The plain
//!   model of `tests/` keeps a list of what is to come, and random scripts are run through both.
//! - **A spot's step is defined by the flow's layout** (`call_step`), not by the machine: a selection's
//!   is the one after its entry's call.
//! - **A refused answer drops the context that came with it.** The caller has it still where it copied
//!   it; `apply` copies only where an answer is due.
//! - **One record says what becomes of an item** (`TakesItem`), for `apply`, `answered`, `chose` and
//!   `told` alike.
#![tactic(auto)]

mod error;
mod laws;
mod machine;
mod names;
mod places;
mod rules;
mod selection;
mod values;
mod walk;

pub use error::MachineError;
pub use laws::{bounded_lists, lists_extend, lists_keep_bounds, whole_lists};
pub use machine::Machine;
pub use names::{FirstNames, first_names};
pub use values::{Due, Item, Phase, Reopened, Spot};

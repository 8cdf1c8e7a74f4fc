//! What an entry shows, from which its line is made in either form.

ghost use Rattle.std.specs.Prelude.{◌≡◌};
ghost use Rattle.tx_machine.specs.Contract.{IsSound};
ghost use Rattle.tx_trace.specs.Trace.{point_of, standing_of};

use flow_asm::Code;
use tx_machine::{Due, Machine, Phase};

/// Where a transaction stands, as far as a line shows it.
#[derive(Clone, Copy)]
pub struct Standing {
    pub phase: Phase,
    /// The call that is due, or the end.
    pub due: Due,
    /// The `recover` call that comes before the outcome: its participant, and whether to commit.
    pub restores: Option<(usize, bool)>,
    /// How many members were notified.
    pub told: usize,
    /// Whether the bound has dropped what was still to come.
    pub bound: bool,
}

impl Standing {
    /// Where the transaction of this machine stands, with its `recover` call.
    pub fn of(code: &Code, machine: &Machine, restores: Option<(usize, bool)>) -> Standing
        requires { IsSound code.now machine.now }
        ensures { result ≡ standing_of code.now (point_of code.now machine.now restores) }
    {
        Standing {
            phase: machine.phase(),
            due: machine.due(code),
            restores,
            told: machine.told_count(),
            bound: machine.bound(),
        }
    }
}

/// What an event on a transaction shows.
#[derive(Clone, Copy)]
pub struct Move {
    pub id: u64,
    /// Whether the transaction comes from the journal.
    pub recovering: bool,
    pub before: Standing,
    pub after: Standing,
}

/// What an event shows besides itself.
#[derive(Clone, Copy)]
pub enum Shown {
    /// The event led a transaction from where it stood to where it stands now.
    Moved(Move),
    /// A session took a transaction, with what is due to it.
    Begun { id: u64, session: usize, due: Due },
    /// The event is of no transaction under way. `shelved` is how many contexts are on the shelf.
    Plain { shelved: usize },
}

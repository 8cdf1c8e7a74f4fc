//! Where transactions go when they have ended.

ghost use Rattle.std.specs.Prelude.{◌≡◌, ⊤, true, take, ℕ, List, OnOk, OnErr};
ghost use Rattle.sw_context.specs.Pairs.{Pairs};
ghost use Rattle.tx_pool.specs.Sinks.{TakesAll};

use sw_context::Context;
use sw_participant::NoMemory;
use tx_history::Entry;
use tx_locked::Finished;

/// Takes the transactions that ended by `done`, one at a time, in the order of their ends.
pub trait Sink: Drop {
    /// What it may be after it took a transaction with this id, which ended with this context.
    ghost takes: { Self → ℕ → Pairs → Self → Type 0 };

    /// Takes a transaction that ended by `done` with this context, and whose entries are in the
    /// journal. The calling thread of the run calls it, without a lock. After `NoMemory`, which
    /// changes nothing, the run is given up.
    fn take(&mut self, id: u64, context: &Context) -> Result<(), NoMemory>
        ensures taken { OnOk result (takes self.old id context.now self.new) }
        ensures kept { OnErr result (self.new ≡ self.old) };

    /// Notes that these entries were written. What they ended by `done` is taken next.
    fn written(&self, _entries: &[Entry]) {}

    /// Notes that nothing more is taken in this run, which has ended or was given up. A source that waits for
    /// what the sink sees has to end now.
    fn over(&self) {}
}

/// A sink that keeps nothing.
pub struct Nowhere;

impl Drop for Nowhere {
    fn drop(self) {
        let Nowhere = self;
    }
}

impl Sink for Nowhere {
    ghost takes = { λ before id context after. ⊤ };

    fn take(&mut self, _id: u64, _context: &Context) -> Result<(), NoMemory> {
        Ok(())
    }
}

/// Hands the transactions over, until the sink refuses one. Returns whether it took them all.
pub(crate) fn hand_over<Z: Sink>(sink: &mut Z, finished: &[Finished]) -> bool
    ensures all { result ≡ true → TakesAll Z.takes sink.old finished.now sink.new }
    ensures some { (n : ℕ) × TakesAll Z.takes sink.old (take n finished.now) sink.new }
{
    for one in finished {
        if sink.take(one.id, &one.context).is_err() {
            return false;
        }
    }
    true
}

//! Contexts of recovered transactions, restored by their members.

ghost use Rattle.std.specs.Prelude.{◌≡◌};
ghost use Rattle.sw_base.specs.Refusals.{Accepts};
ghost use Rattle.sw_context.specs.Spelling.{bytes_of};
ghost use Rattle.tx_engine.specs.World.{Recorded};
ghost use Rattle.tx_engine.specs.Calls.{reply_refusal};
ghost use Rattle.tx_slots.specs.Slots.{touched};

use super::Engine;
use crate::error::EngineError;
use crate::offer::spelled;
use sw_context::Context;
use tx_history::{Entry, Event};
use tx_slots::{ReplyKind, Slot, no_change};

// The slot after an entry that leaves its transaction where it stands.
fn touch(slot: &mut Slot, number: usize)
    ensures { slot.new ≡ touched slot.old number }
{
    if let Slot::Holding(hold) = slot {
        hold.last = number;
        hold.let_go = false;
    }
}

impl Engine {
    /// Records that the due member restored the context of the session's recovered transaction to this
    /// one; the journal keeps the saved one. Answers the entry's number; refuses `NoSession`, `NotDue`
    /// and `HistoryFull`.
    pub fn recovered(&mut self, s: usize, context: &Context) -> Result<usize, EngineError>
        ensures { Accepts EngineError.OutOfMemory
            (reply_refusal ReplyKind.Recovered self.old s) result
            (λ n. Recorded self.old (Event.Recovered s (bytes_of context.now)) n self.new)
            (self.new ≡ self.old) }
    {
        let _hold = self.allow_reply(s, ReplyKind::Recovered)?;
        let number = self.lists.entries.len() + 1;
        let event = Event::Recovered {
            session: s,
            context: spelled(context)?,
        };
        self.lists.push(Entry {
            number,
            event,
            change: no_change(),
        })?;
        touch(&mut self.slots[s], number);
        self.restored = true;
        Ok(number)
    }
}

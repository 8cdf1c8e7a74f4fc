//! Acknowledgements: an advice that was forwarded is no longer stored.

ghost use Rattle.std.specs.Prelude.{◌≡◌, None, Some, MatchResult, false};
ghost use Rattle.sw_base.specs.Refusals.{Accepts};
ghost use Rattle.tx_history.specs.Keys.{place_lt, put_by};
ghost use Rattle.tx_engine.specs.World.{Recorded};
ghost use Rattle.tx_engine.specs.Calls.{ack_refusal};

use super::Engine;
use crate::error::EngineError;
use std::collections::BTreeMap;
use sw_participant::Bytes;
use tx_history::{Change, Entry, Event};

impl Engine {
    // Whether the advice of the member at this place may be acknowledged.
    fn allow_ack(&self, place: (u64, usize)) -> Result<(), EngineError>
        ensures { MatchResult result
            (λ _. ack_refusal self.now place ≡ None)
            (λ e. ack_refusal self.now place ≡ Some e) }
    {
        if !self.advices.contains_key(&place) {
            return Err(EngineError::NoAdvice);
        }
        self.allow_entry()
    }

    /// Records that the advice of the transaction's member of this number was forwarded: it is no
    /// longer stored. Answers the entry's number. Refuses, in this order, `NoAdvice` and
    /// `HistoryFull`.
    pub fn acked(&mut self, id: u64, place: usize) -> Result<usize, EngineError>
        ensures { Accepts EngineError.OutOfMemory (ack_refusal self.old (id, place)) result
            (λ n. Recorded self.old (Event.Acked id place) n self.new)
            (self.new ≡ self.old) }
    {
        self.allow_ack((id, place))?;
        let number = self.lists.entries.len() + 1;
        self.lists.push(Entry {
            number,
            event: Event::Acked { id, place },
            change: no_advice_at(id, place),
        })?;
        remove_advice(&mut self.advices, (id, place));
        Ok(number)
    }
}

// The change that takes the advice at this place away.
fn no_advice_at(id: u64, place: usize) -> Change
    ensures { result ≡ record {
      next_id = None;
      row = None;
      shelved = None;
      emptied = false;
      advice = Some ((id, place), None);
    } }
{
    Change {
        next_id: None,
        row: None,
        shelved: None,
        emptied: false,
        advice: Some(((id, place), None)),
    }
}

// Takes out the advice at a place. That the places rise is known from the map's length.
fn remove_advice(advices: &mut BTreeMap<(u64, usize), Bytes>, place: (u64, usize))
    ensures { advices.new.entries ≡ put_by place_lt place None advices.old.entries }
{
    let _stored = advices.len();
    advices.remove(&place);
}

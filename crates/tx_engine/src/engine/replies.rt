//! Replies to due calls.

ghost use Rattle.std.specs.Prelude.{◌≡◌, ◌&&◌, ◌==◌, not, option_map, None, Some, IfOk};
ghost use Rattle.std.specs.Prelude.{MatchResult};
ghost use Rattle.sw_base.specs.Refusals.{Accepts};
ghost use Rattle.sw_context.specs.Spelling.{bytes_of};
ghost use Rattle.tx_machine.specs.Table.{next};
ghost use Rattle.tx_machine.specs.declared.values.Item.TheVariants.{Answer, Choice};
ghost use Rattle.tx_history.specs.History.{put_advice, shelved};
ghost use Rattle.tx_engine.specs.World.{Recorded};
ghost use Rattle.tx_engine.specs.Calls.{is_full, reply_refusal};
ghost use Rattle.tx_engine.specs.Items.{Allows, GivesEvent};

use super::Engine;
use crate::error::EngineError;
use crate::offer::spelled;
use flow_asm::Code;
use std::alloc::{AllocError, Global};
use sw_context::Context;
use sw_participant::{Bytes, Text};
use tx_history::Event;
use tx_slots::{
    Given, Hold, ReplyKind, Slot, after_answer, after_choice, after_told, goes_on, is_asked,
    make_ready, put_both,
};

impl Engine {
    /// The session's transaction, if a reply of this kind may be given for it.
    pub(super) fn allow_reply(&self, s: usize, kind: ReplyKind) -> Result<&Hold, EngineError>
        ensures { MatchResult result
            (λ h. Allows self.now s kind h.now)
            (λ e. reply_refusal kind self.now s ≡ Some e) }
    {
        if s >= self.slots.len() {
            return Err(EngineError::NoSession);
        }
        let Slot::Holding(hold) = &self.slots[s] else {
            return Err(EngineError::NotDue);
        };
        if !is_asked(kind, self.next_of(s)) {
            return Err(EngineError::NotDue);
        }
        if self.is_full() {
            return Err(EngineError::HistoryFull);
        }
        Ok(hold)
    }

    // Records a reply that is due.
    fn give(&mut self, alloc: Global, given: Given) -> Result<usize, EngineError>
        requires { GivesEvent self.old given.session given.id given.machine given.event given.advice
            given.restored }
        ensures { MatchResult result
            (λ n. Recorded self.old given.event n self.new)
            (λ e. (e ≡ EngineError.OutOfMemory) × (self.new ≡ self.old)) }
    {
        let session = given.session;
        let restored = given.restored;
        let number = self.lists.entries.len() + 1;
        let rows = self.first.rows.as_slice();
        let ready = make_ready(alloc, &self.code, rows, self.recovering, number, given)?;
        self.lists.reserve_entry()?;
        put_both(
            &mut self.shelf,
            &mut self.advices,
            ready.shelved,
            ready.advice,
        )?;
        self.lists.push_reserved(ready.entry);
        self.recovering = goes_on(self.recovering, &ready.slot);
        self.restored = restored;
        self.slots[session] = ready.slot;
        Ok(number)
    }

    /// Records that the participant of the session's due preparation answered this byte and left this
    /// context. Answers the entry's number; refuses `NoSession`, `NotDue` and `HistoryFull`.
    pub fn answered(
        &mut self,
        alloc: Global,
        s: usize,
        byte: u8,
        context: &Context,
    ) -> Result<usize, EngineError>
        ensures { Accepts EngineError.OutOfMemory
            (reply_refusal ReplyKind.Answer self.old s) result
            (λ n. Recorded self.old (Event.Answered s byte (bytes_of context.now)) n self.new)
            (self.new ≡ self.old) }
    {
        let hold = self.allow_reply(s, ReplyKind::Answer)?;
        let id = hold.id;
        let machine = after_answer(&self.code, &hold.machine, byte, spelled(context)?)?;
        let given = Given {
            session: s,
            id,
            machine,
            event: Event::Answered {
                session: s,
                byte,
                context: spelled(context)?,
            },
            advice: None,
            restored: self.restored,
        };
        self.give(alloc, given)
    }

    /// Records that the session's due selector selected the groups that this text names. Answers the
    /// entry's number; refuses `NoSession`, `NotDue` and `HistoryFull`.
    pub fn chose(&mut self, alloc: Global, s: usize, text: &str) -> Result<usize, EngineError>
        ensures { Accepts EngineError.OutOfMemory
            (reply_refusal ReplyKind.Choice self.old s) result
            (λ n. Recorded self.old (Event.Chose s text.now) n self.new)
            (self.new ≡ self.old) }
    {
        let hold = self.allow_reply(s, ReplyKind::Choice)?;
        let id = hold.id;
        let machine = after_choice(alloc, &self.code, &hold.machine, text)?;
        let given = Given {
            session: s,
            id,
            machine,
            event: Event::Chose {
                session: s,
                text: Text::from_str(alloc, text)?,
            },
            advice: None,
            restored: self.restored,
        };
        self.give(alloc, given)
    }

    /// Records that the session's due member was notified of the outcome, and the advice that it may
    /// have given. Answers the entry's number; refuses `NoSession`, `NotDue` and `HistoryFull`.
    pub fn told(
        &mut self,
        alloc: Global,
        s: usize,
        advice: Option<&[u8]>,
    ) -> Result<usize, EngineError>
        ensures { Accepts EngineError.OutOfMemory (reply_refusal ReplyKind.Told self.old s) result
            (λ n. Recorded self.old
            (Event.Told s (option_map (λ a. a.now) advice.entry)) n self.new)
            (self.new ≡ self.old) }
    {
        let hold = self.allow_reply(s, ReplyKind::Told)?;
        let id = hold.id;
        let place = (id, hold.machine.told_count());
        let machine = after_told(&self.code, &hold.machine)?;
        let given = Given {
            session: s,
            id,
            machine,
            event: Event::Told {
                session: s,
                advice: advice_bytes(alloc, advice)?,
            },
            advice: advice_at(alloc, place, advice)?,
            restored: restored_after(self.restored, s),
        };
        self.give(alloc, given)
    }
}

fn advice_bytes(alloc: Global, advice: Option<&[u8]>) -> Result<Option<Bytes>, AllocError>
    ensures { IfOk result (λ bytes. bytes ≡ option_map (λ a. a.now) advice.entry) }
{
    match advice {
        Some(advice) => Ok(Some(Bytes::new(Vec::from_slice(alloc, advice)?))),
        None => Ok(None),
    }
}

// The change of the advices: an advice is put at the place of the member that gave it.
fn advice_at(
    alloc: Global,
    place: (u64, usize),
    advice: Option<&[u8]>,
) -> Result<Option<((u64, usize), Option<Bytes>)>, AllocError>
    ensures { IfOk result (λ change.
        change ≡ put_advice (Some place) (option_map (λ a. a.now) advice.entry)) }
{
    match advice {
        Some(advice) => Ok(Some((place, Some(Bytes::new(Vec::from_slice(alloc, advice)?))))),
        None => Ok(None),
    }
}

// The context of session 0's journalled transactions is restored anew before each outcome.
fn restored_after(restored: bool, session: usize) -> bool
    ensures { result ≡ (not (session == 0) && restored) }
{
    session != 0 && restored
}

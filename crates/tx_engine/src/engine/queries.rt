//! What an engine answers about itself; and the written mark.

ghost use Rattle.std.specs.Prelude.{◌≡◌, ◌≤◌, ◌<◌, ⊤, drop, length, is_some, option_map, IfOk};
ghost use Rattle.sw_base.specs.Refusals.{Accepts, refused};
ghost use Rattle.sw_context.specs.Spelling.{bytes_of};
ghost use Rattle.tx_history.specs.History.{queue, recovering, shelf};
ghost use Rattle.tx_history.specs.Journal.{advices, entries};
ghost use Rattle.tx_history.specs.Views.{FlowFits, IsHistory, StartFits};
ghost use Rattle.tx_engine.specs.Calls.{after_mark, answers, at_of, mark_refusal, next_of};
ghost use Rattle.tx_engine.specs.Calls.{next_refusal, rest_of, saved_of, unfinished};

use super::Engine;
use crate::error::EngineError;
use crate::offer::context_of;
use flow_asm::Code;
use std::alloc::{AllocError, Global};
use std::collections::BTreeMap;
use sw_context::Context;
use sw_participant::Bytes;
use tx_history::{Entry, JournalView};
use tx_slots::{At, Next, Slot, at_slot, next_at, open_after};

impl Engine {
    /// What the session is to do. Refuses `NoSession`.
    pub fn next(&self, s: usize) -> Result<Next, EngineError>
        ensures { result ≡ answers (next_refusal self.now s) (next_of self.now s) }
    {
        if s >= self.slots.len() {
            return Err(EngineError::NoSession);
        }
        Ok(self.next_of(s))
    }

    // What a session that exists is to do.
    pub(super) fn next_of(&self, s: usize) -> Next
        requires { s < self.now.sessions }
        ensures { result ≡ next_of self.now s }
    {
        next_at(
            &self.code,
            self.first.next_id,
            self.restored,
            self.breaks.as_slice(),
            self.mark,
            &self.slots[s],
        )
    }

    /// The code that the engine was opened with.
    pub fn code(&self) -> &Code
        ensures { result.now ≡ self.now.flow }
    {
        &self.code
    }

    /// The code that the engine was opened with. The engine is dropped.
    pub fn into_code(self) -> Code
        ensures { result ≡ self.flow }
    {
        let Engine {
            code,
            first: _,
            first_queue: _,
            first_breaks: _,
            lists: _,
            mark: _,
            slots: _,
            shelf: _,
            advices: _,
            breaks: _,
            next_id: _,
            restored: _,
            recovering: _,
        } = self;
        code
    }

    /// The view that the history began from.
    pub fn opened(&self) -> &JournalView
        ensures { result.now ≡ self.now.start.view }
    {
        &self.first
    }

    /// How many sessions there are, numbered from 0.
    pub fn sessions(&self) -> usize
        ensures { result ≡ self.now.sessions }
    {
        self.slots.len()
    }

    /// The entries, oldest first. Each was accepted after those before it.
    pub fn history(&self) -> &[Entry]
        ensures entries { result.now ≡ entries self.now.flow self.now.start self.now.past }
        ensures lawful { IsHistory self.now.flow self.now.start self.now.sessions self.now.past }
        ensures start { StartFits self.now.flow self.now.start }
        ensures flow { FlowFits self.now.flow }
    {
        self.lists.entries.as_slice()
    }

    /// How many entries are written.
    pub fn mark(&self) -> usize
        ensures mark { result ≡ self.now.mark }
        ensures within { result ≤ length self.now.past }
    {
        self.mark
    }

    /// The entries above the mark, oldest first.
    pub fn unwritten(&self) -> &[Entry]
        ensures { result.now
            ≡ drop self.now.mark (entries self.now.flow self.now.start self.now.past) }
    {
        &self.lists.entries[self.mark..]
    }

    /// Sets the written mark to `mark`. Refuses `BadMark` unless it is from the old mark to the number
    /// of entries.
    pub fn written(&mut self, mark: usize) -> Result<(), EngineError>
        ensures answer { result ≡ refused (mark_refusal self.old mark) }
        ensures world { self.new ≡ after_mark self.old mark }
    {
        if mark < self.mark || self.lists.entries.len() < mark {
            return Err(EngineError::BadMark);
        }
        self.mark = mark;
        Ok(())
    }

    /// The advices that were not acknowledged, each under its transaction's id and the number of the
    /// member that gave it.
    pub fn advices(&self) -> &BTreeMap<(u64, usize), Bytes>
        ensures { result.now.entries ≡ advices self.now.flow self.now.start self.now.past }
    {
        &self.advices
    }

    /// How many contexts wait in the queue.
    pub fn queued(&self) -> usize
        ensures { result ≡ length (queue self.now.flow self.now.start self.now.past) }
    {
        self.lists.queue.len()
    }

    /// How many contexts are on the shelf.
    pub fn shelved(&self) -> usize
        ensures { result ≡ length (shelf self.now.flow self.now.start self.now.past) }
    {
        self.shelf.len()
    }

    /// Whether a transaction of the journal is not finished.
    pub fn is_recovering(&self) -> bool
        ensures { result ≡ is_some (recovering self.now.flow self.now.start self.now.past) }
    {
        self.recovering
    }

    /// How many transactions of the journal are not finished.
    pub fn recovering(&self) -> usize
        ensures { result ≡ unfinished self.now }
    {
        if !self.recovering {
            return 0;
        }
        match &self.slots[0] {
            Slot::Free => 0,
            Slot::Holding(hold) => 1 + open_after(self.first.rows.as_slice(), hold.id),
        }
    }

    /// The id and the saved context of the transaction that the session holds: the context of its
    /// last answer that was not read-only, or, without one, the context that it began with. Refuses
    /// `NoSession`.
    pub fn saved(&self, alloc: Global, s: usize) -> Result<Option<(u64, Context)>, EngineError>
        ensures { Accepts EngineError.OutOfMemory (next_refusal self.now s) result
            (λ saved. option_map (λ held. (held.0, bytes_of held.1)) saved ≡ saved_of self.now s)
            ⊤ }
    {
        if s >= self.slots.len() {
            return Err(EngineError::NoSession);
        }
        let Slot::Holding(hold) = &self.slots[s] else {
            return Ok(None);
        };
        let context = context_of(alloc, hold.machine.saved())?;
        Ok(Some((hold.id, context)))
    }

    /// Where the session's transaction stands, and its due call; none for an idle or unknown session.
    pub fn at(&self, s: usize) -> Option<At>
        ensures { result ≡ at_of self.now s }
    {
        if s >= self.slots.len() {
            return None;
        }
        at_slot(
            &self.code,
            self.first.next_id,
            self.restored,
            &self.slots[s],
        )
    }

    /// The places (group, index) of the entries that are still to come in the session's transaction,
    /// the next one first; none for an idle or unknown session. The only refusal is out of memory.
    pub fn rest(&self, alloc: Global, s: usize) -> Result<Vec<(usize, usize)>, AllocError>
        ensures { IfOk result (λ places. places.items ≡ rest_of self.now s) }
    {
        if s >= self.slots.len() {
            return Ok(Vec::new(alloc));
        }
        match &self.slots[s] {
            Slot::Free => Ok(Vec::new(alloc)),
            Slot::Holding(hold) => hold.machine.rest(alloc, &self.code),
        }
    }
}

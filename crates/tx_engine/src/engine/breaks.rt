//! Breakpoints: a due call of a participant that has one is held until its session is let go.

ghost use Rattle.std.specs.Prelude.{◌≡◌, ◌<◌, MatchResult, None, Some};
ghost use Rattle.std.specs.List.{list_any};
ghost use Rattle.sw_base.specs.Refusals.{Accepts};
ghost use Rattle.tx_history.specs.History.{number_of};
ghost use Rattle.tx_engine.specs.World.{Recorded};
ghost use Rattle.tx_engine.specs.Calls.{MayBreak, break_refusal, let_go_refusal};
ghost use Rattle.tx_engine.specs.Cuts.{is_broken};

use super::Engine;
use crate::error::EngineError;
use flow_model::number_of;
use tx_history::{Entry, Event};
use tx_slots::{is_held_by, let_slot_go, no_change};

// Whether a flag is set.
fn any_set(flags: &[bool]) -> bool
    ensures { result ≡ list_any (λ b. b) flags.now }
{
    flags.iter().any(|set| *set)
}

impl Engine {
    // The number of the participant of this name, if a breakpoint may be set on it or cleared.
    fn allow_break(&self, name: &str) -> Result<usize, EngineError>
        ensures { MatchResult result
            (MayBreak self.now name.now)
            (λ e. break_refusal self.now name.now ≡ Some e) }
    {
        let participants = self.code.participants();
        let participant = number_of(participants, name);
        if participant >= participants.len() {
            return Err(EngineError::NoParticipant);
        }
        self.allow_entry()?;
        Ok(participant)
    }

    /// Whether a participant has a breakpoint.
    pub fn has_break(&self) -> bool
        ensures { result ≡ is_broken self.now }
    {
        any_set(self.breaks.as_slice())
    }

    /// Holds the calls of the participant of this name from now on, and answers the entry's number.
    /// Setting a breakpoint twice is accepted. Refuses, in this order, `NoParticipant` and
    /// `HistoryFull`.
    pub fn set_break(&mut self, name: &str) -> Result<usize, EngineError>
        ensures { Accepts EngineError.OutOfMemory (break_refusal self.old name.now) result
            (λ n. Recorded self.old (Event.Broke (number_of self.old.flow name.now)) n self.new)
            (self.new ≡ self.old) }
    {
        let participant = self.allow_break(name)?;
        let number = self.lists.entries.len() + 1;
        self.lists.push(Entry {
            number,
            event: Event::Broke { participant },
            change: no_change(),
        })?;
        self.breaks[participant] = true;
        Ok(number)
    }

    /// Stops holding the calls of the participant of this name, and answers the entry's number.
    /// Clearing what is not set is accepted. Refuses, in this order, `NoParticipant` and
    /// `HistoryFull`.
    pub fn clear_break(&mut self, name: &str) -> Result<usize, EngineError>
        ensures { Accepts EngineError.OutOfMemory (break_refusal self.old name.now) result
            (λ n. Recorded self.old (Event.Cleared (number_of self.old.flow name.now)) n self.new)
            (self.new ≡ self.old) }
    {
        let participant = self.allow_break(name)?;
        let number = self.lists.entries.len() + 1;
        self.lists.push(Entry {
            number,
            event: Event::Cleared { participant },
            change: no_change(),
        })?;
        self.breaks[participant] = false;
        Ok(number)
    }

    // Whether a held call of the session may be let go.
    fn allow_let_go(&self, s: usize) -> Result<(), EngineError>
        ensures { MatchResult result
            (λ _. let_go_refusal self.now s ≡ None)
            (λ e. let_go_refusal self.now s ≡ Some e) }
    {
        if s >= self.slots.len() {
            return Err(EngineError::NoSession);
        }
        if !is_held_by(&self.code, self.breaks.as_slice(), &self.slots[s]) {
            return Err(EngineError::NotHeld);
        }
        self.allow_entry()
    }

    /// Lets the session's held call go: no breakpoint holds it until its reply. Answers the entry's
    /// number. Refuses, in this order, `NoSession`, `NotHeld` and `HistoryFull`.
    pub fn let_go(&mut self, s: usize) -> Result<usize, EngineError>
        ensures { Accepts EngineError.OutOfMemory (let_go_refusal self.old s) result
            (λ n. Recorded self.old (Event.LetGo s) n self.new)
            (self.new ≡ self.old) }
    {
        self.allow_let_go(s)?;
        let number = self.lists.entries.len() + 1;
        self.lists.push(Entry {
            number,
            event: Event::LetGo { session: s },
            change: no_change(),
        })?;
        let_slot_go(&mut self.slots[s]);
        Ok(number)
    }
}

//! One transaction over the numbered steps of a flow.

ghost use Rattle.std.specs.Prelude.{◌≡◌, ◌↔◌, ◌&&◌, ◌<◌, ◌≤◌, [], length, None, Err, true, false, IsTrue};
ghost use Rattle.std.specs.Prelude.{IfOk, OnOk, IfErr, OnErr, IfSome};
ghost use Rattle.std.specs.List.{All};
ghost use Rattle.flow_model.specs.declared.flow.Flow.{Flow as Shown};
ghost use Rattle.flow_model.specs.Places.{parts_of};
ghost use Rattle.tx_machine.specs.Lists.{is_lawful};
ghost use Rattle.tx_machine.specs.Table.{advanced, after, is_open as is_open_of, limited, opening};
ghost use Rattle.tx_machine.specs.Table.{prepares_next, reopening};
ghost use Rattle.tx_machine.specs.Due.{IsReplyDue, due_of, participant_of, places_of};
ghost use Rattle.tx_machine.specs.Contract.{Fits, IsReady, IsAtCallOrEnd, IsSound, TakesItem, tx_state, state};
ghost use Rattle.tx_machine.specs.declared.values.Item.TheVariants.{Answer, Choice, Told};

use crate::error::MachineError;
use crate::places::{add_frames, add_steps, spot};
use crate::rules::{MAX_CALLS, end_of, is_open, join, outcome_of, phase_after, retry_by, save};
use crate::selection::{chosen_groups, end_step, main_step};
use crate::values::{Due, Item, Phase, Reopened};
use crate::walk::{StackFrame, copy_frames, enter, look, next_due};
use flow_asm::{Code, StepView};
use std::alloc::{AllocError, Global};

/// One transaction.
pub struct Machine {
    phase: Phase,
    // The step that is due, or a return if nothing is to come.
    step: usize,
    // The selections under way, the latest one last.
    stack: Vec<StackFrame>,
    retry: bool,
    bound: bool,
    calls: u16,
    joined: Vec<usize>,
    told: usize,
    tries: u8,
    saved: Vec<u8>,
}

// Written out, so that no caller proves again how its parts are dropped.
impl Drop for Machine {
    fn drop(self) {
        let Machine {
            phase: _,
            step: _,
            stack: _,
            retry: _,
            bound: _,
            calls: _,
            joined: _,
            told: _,
            tries: _,
            saved: _,
        } = self;
    }
}

impl Machine {
    // Whether nothing is to come.
    fn is_over(&self, code: &Code) -> bool
        requires { IsAtCallOrEnd code.now self.now }
        ensures { IsTrue result ↔ ((state code.now self.now).rest ≡ []) }
    {
        matches!(look(code, self.step), StepView::Return)
    }

    // Drops what is to come if the bound is reached.
    fn limit(&mut self, code: &Code)
        requires { IsAtCallOrEnd code.now self.old }
        ensures state { state code.now self.new ≡ limited (state code.now self.old) }
        ensures ready { IsReady code.now self.new }
    {
        if self.calls == MAX_CALLS && !self.is_over(code) {
            self.phase = Phase::Aborting;
            self.retry = false;
            self.bound = true;
            self.stack.clear();
            self.step = end_step(code);
        }
    }

    // Goes on to what is due next.
    fn advance(&mut self, code: &Code)
        requires { Fits code.now self.old }
        ensures state { state code.now self.new ≡ advanced (state code.now self.old) }
        ensures ready { IsReady code.now self.new }
    {
        let aborting = matches!(self.phase, Phase::Aborting);
        self.step = next_due(code, aborting, self.step, &mut self.stack);
        self.limit(code);
        if self.is_over(code) && !self.joined.is_empty() {
            self.phase = outcome_of(self.phase);
        }
    }

    /// A transaction before its first item, with `tries` tries left after this one, and `saved` as the
    /// context that it begins with, as bytes. It takes no memory.
    #[tactic(auto, unfolding(crate::specs::Contract::tx_state, crate::specs::Contract::IsSound))]
    pub fn start(alloc: Global, code: &Code, tries: u8, saved: Vec<u8>) -> Machine
        ensures sound { IsSound code.now result }
        ensures state { tx_state code.now result ≡ opening code.now tries saved.items }
    {
        let mut machine = Machine {
            phase: Phase::Preparing,
            step: main_step(code),
            stack: Vec::new(alloc),
            retry: false,
            bound: false,
            calls: 0,
            joined: Vec::new(alloc),
            told: 0,
            tries,
            saved,
        };
        machine.advance(code);
        machine
    }

    /// A transaction from the journal. Its members that were not notified are notified; it is never
    /// shelved. It takes no memory.
    #[tactic(auto, unfolding(crate::specs::Contract::tx_state, crate::specs::Contract::IsSound))]
    pub fn reopened(alloc: Global, code: &Code, from: Reopened) -> Machine
        requires { All (λ p. p < length (parts_of code.now)) from.joined.items }
        ensures sound { IsSound code.now result }
        ensures state { tx_state code.now result
            ≡ reopening from.committing from.joined.items from.told from.tries from.saved.items }
    {
        let Reopened {
            committing,
            joined,
            told,
            tries,
            saved,
        } = from;
        let phase = if committing {
            Phase::Committing
        } else {
            Phase::Undoing
        };
        Machine {
            phase,
            step: end_step(code),
            stack: Vec::new(alloc),
            retry: false,
            bound: false,
            calls: 0,
            joined,
            told,
            tries,
            saved,
        }
    }

    /// The call that is due, or the end. Its participant is one of the code's, of which there are at
    /// most 16,384.
    #[tactic(auto, using(crate::proofs::Dues::reply_due))]
    pub fn due(&self, code: &Code) -> Due
        requires { IsSound code.now self.now }
        ensures due { result ≡ due_of code.now (tx_state code.now self.now) }
        ensures reply { IsReplyDue result (tx_state code.now self.now) }
        ensures participant { IfSome (participant_of result)
            (λ p. p < length (parts_of code.now)) }
        ensures few { length (parts_of code.now) ≤ 16384 }
    {
        let _participants = code.participants();
        self.next_call(code)
    }

    #[tactic(auto, unfolding(crate::specs::Contract::tx_state, crate::specs::Contract::IsSound))]
    fn next_call(&self, code: &Code) -> Due
        requires { IsSound code.now self.now }
        ensures due { result ≡ due_of code.now (tx_state code.now self.now) }
        ensures participant { IfSome (participant_of result)
            (λ p. p < length (parts_of code.now)) }
    {
        match self.phase {
            Phase::Preparing => match look(code, self.step) {
                StepView::Call(participant, _) => Due::Prepare(spot(code, self.step, participant)),
                StepView::Pick(participant) => Due::Select(spot(code, self.step, participant)),
                StepView::Return => Due::Done,
            },
            Phase::Aborting => match look(code, self.step) {
                StepView::Call(participant, _) => {
                    Due::PrepareForAbort(spot(code, self.step, participant))
                }
                StepView::Pick(participant) => Due::Select(spot(code, self.step, participant)),
                StepView::Return => end_of(self.retry, self.tries),
            },
            Phase::Committing => match self.joined.get(self.told) {
                Some(member) => Due::Commit(*member),
                None => Due::Done,
            },
            Phase::Undoing => match self.joined.get(self.told) {
                Some(member) => Due::Abort(*member),
                None => end_of(self.retry, self.tries),
            },
        }
    }

    /// The reply to a due preparation: its answer byte, and the context as it is now, which is
    /// dropped if the answer is read-only or the machine refuses it.
    #[tactic(auto, unfolding(crate::specs::Contract::tx_state, crate::specs::Contract::IsSound))]
    pub fn answered(&mut self, code: &Code, byte: u8, context: Vec<u8>) -> Result<(), MachineError>
        requires { IsSound code.now self.old }
        ensures { TakesItem code.now self.old (Answer byte context.items) result self.new }
    {
        if !is_open(self.phase) {
            return Err(MachineError::NotDue);
        }
        let StepView::Call(participant, _) = look(code, self.step) else {
            return Err(MachineError::NotDue);
        };
        join(&mut self.joined, participant, byte)?;
        save(&mut self.saved, context, byte);
        self.retry = retry_by(self.phase, byte, self.retry);
        self.phase = phase_after(self.phase, byte);
        self.calls += 1;
        self.step += 1;
        self.advance(code);
        Ok(())
    }

    /// The reply to a due selection: its text, with names of groups separated by spaces and commas. Only
    /// the first 16 names count, known or not.
    #[tactic(auto, unfolding(crate::specs::Contract::tx_state, crate::specs::Contract::IsSound))]
    pub fn chose(&mut self, alloc: Global, code: &Code, text: &str) -> Result<(), MachineError>
        requires { IsSound code.now self.old }
        ensures { TakesItem code.now self.old (Choice text.now) result self.new }
    {
        if !is_open(self.phase) {
            return Err(MachineError::NotDue);
        }
        let StepView::Pick(_) = look(code, self.step) else {
            return Err(MachineError::NotDue);
        };
        let groups = chosen_groups(alloc, code, text)?;
        self.step = enter(code, self.step, groups, &mut self.stack)?;
        self.calls += 1;
        self.advance(code);
        Ok(())
    }

    /// The reply to a due commit or abort: the member was notified.
    #[tactic(auto, unfolding(crate::specs::Contract::tx_state, crate::specs::Contract::IsSound))]
    pub fn told(&mut self, _code: &Code) -> Result<(), MachineError>
        requires { IsSound _code.now self.old }
        ensures takes { TakesItem _code.now self.old (Told None) result self.new }
        ensures only { IfErr result (λ e. e ≡ MachineError.NotDue) }
    {
        if is_open(self.phase) || self.told >= self.joined.len() {
            return Err(MachineError::NotDue);
        }
        self.told += 1;
        Ok(())
    }

    /// The phase. At the end of a transaction without members it stays preparing or aborting.
    #[tactic(auto, unfolding(crate::specs::Contract::tx_state))]
    pub fn phase(&self) -> Phase
        ensures { (f : Shown) → result ≡ (tx_state f self.now).phase }
    {
        self.phase
    }

    /// The members, as participants' numbers, in the order of joining and once per joining.
    #[tactic(auto, unfolding(crate::specs::Contract::tx_state, crate::specs::Contract::IsSound))]
    pub fn joined(&self) -> &[usize]
        ensures joined { (f : Shown) → result.now ≡ (tx_state f self.now).joined }
        ensures participants { (f : Shown) → IsSound f self.now
            → All (λ p. p < length (parts_of f)) result.now }
    {
        self.joined.as_slice()
    }

    /// How many members were notified of the outcome.
    #[tactic(auto, unfolding(crate::specs::Contract::tx_state))]
    pub fn told_count(&self) -> usize
        ensures { (f : Shown) → result ≡ (tx_state f self.now).told }
    {
        self.told
    }

    /// How many tries are left after this one.
    #[tactic(auto, unfolding(crate::specs::Contract::tx_state))]
    pub fn tries(&self) -> u8
        ensures { (f : Shown) → result ≡ (tx_state f self.now).tries }
    {
        self.tries
    }

    /// The saved context, as bytes.
    #[tactic(auto, unfolding(crate::specs::Contract::tx_state))]
    pub fn saved(&self) -> &[u8]
        ensures { (f : Shown) → result.now ≡ (tx_state f self.now).saved }
    {
        self.saved.as_slice()
    }

    /// Whether the bound has dropped what was still to come.
    #[tactic(auto, unfolding(crate::specs::Contract::tx_state))]
    pub fn bound(&self) -> bool
        ensures { (f : Shown) → result ≡ (tx_state f self.now).bound }
    {
        self.bound
    }

    /// The places (group, index) of the entries to come, the next one first. A selector that is
    /// about to select is not among them, nor is an entry that the abort has passed over. The only
    /// refusal is out of memory.
    #[tactic(auto, using(crate::proofs::RestPlaces::places_of_rest), unfolding(crate::specs::Contract::tx_state))]
    pub fn rest(&self, alloc: Global, code: &Code) -> Result<Vec<(usize, usize)>, AllocError>
        ensures { IfOk result (λ places.
            places.items ≡ places_of (tx_state code.now self.now).rest) }
    {
        let mut places = Vec::new(alloc);
        add_steps(&mut places, code, self.step)?;
        add_frames(&mut places, code, self.stack.as_slice())?;
        Ok(places)
    }

    /// A second machine in the same state as this one. The only refusal is out of memory.
    pub fn copy(&self) -> Result<Machine, AllocError>
        ensures state { IfOk result (λ m. (f : Shown) → tx_state f m ≡ tx_state f self.now) }
        ensures sound { IfOk result (λ m. (f : Shown) → IsSound f self.now → IsSound f m) }
    {
        let alloc = *self.stack.allocator();
        let stack = copy_frames(alloc, self.stack.as_slice())?;
        let joined = Vec::from_slice(alloc, self.joined.as_slice())?;
        let saved = Vec::from_slice(alloc, self.saved.as_slice())?;
        Ok(Machine {
            phase: self.phase,
            step: self.step,
            stack,
            retry: self.retry,
            bound: self.bound,
            calls: self.calls,
            joined,
            told: self.told,
            tries: self.tries,
            saved,
        })
    }

    // Whether a preparation is due.
    #[tactic(auto, unfolding(crate::specs::Contract::tx_state, crate::specs::Contract::IsSound))]
    fn awaits_answer(&self, code: &Code) -> bool
        requires { IsSound code.now self.now }
        ensures { result ≡ (is_open_of (tx_state code.now self.now).phase
            && prepares_next (tx_state code.now self.now).rest) }
    {
        is_open(self.phase) && matches!(look(code, self.step), StepView::Call(..))
    }

    /// Gives the machine the item that is the reply to the call that is due.
    pub fn apply(&mut self, alloc: Global, code: &Code, item: &Item) -> Result<(), MachineError>
        requires { IsSound code.now self.old }
        ensures { TakesItem code.now self.old item.now result self.new }
    {
        match item {
            Item::Answer(byte, context) => {
                // The context is copied only if it is wanted, so that out of memory is reported last.
                if !self.awaits_answer(code) {
                    return Err(MachineError::NotDue);
                }
                let context = Vec::from_slice(alloc, context.as_slice())?;
                self.answered(code, *byte, context)
            }
            Item::Choice(text) => self.chose(alloc, code, text.as_str()),
            Item::Told(_) => self.told(code),
        }
    }

    /// The machine after these items, the earliest first. The list is refused exactly if one of the
    /// items was not due, or if memory runs out before that is seen.
    pub fn after_items(
        alloc: Global,
        code: &Code,
        tries: u8,
        saved: Vec<u8>,
        items: &[Item],
    ) -> Result<Machine, MachineError>
        ensures sound { IfOk result (IsSound code.now) }
        ensures state { IfOk result (λ m.
            tx_state code.now m ≡ after code.now (opening code.now tries saved.items) items.now) }
        ensures lawful { OnOk result
            (is_lawful code.now (opening code.now tries saved.items) items.now ≡ true) }
        ensures not_due { IfErr result (λ e. e ≡ MachineError.NotDue
            → is_lawful code.now (opening code.now tries saved.items) items.now ≡ false) }
    {
        let mut machine = Machine::start(alloc, code, tries, saved);
        for item in items {
            machine.apply(alloc, code, item)?;
        }
        Ok(machine)
    }
}

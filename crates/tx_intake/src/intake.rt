//! A bounded queue between two threads.

ghost use Rattle.std.specs.Prelude.{◌≡◌, ◌≢◌, ◌++◌, ◌∷◌, [], true, false, OnOk, OnErr, IfErr, ⊤};
ghost use Rattle.std.specs.Prelude.{MatchOption};
ghost use Rattle.sw_base.specs.Refusals.{Accepts};
ghost use Rattle.crossbeam_queue.specs.Passes.{view as view_of};
ghost use Rattle.tx_intake.specs.Rule.{side, LawfulAfter};
ghost use Rattle.tx_intake.specs.Ends.{capacity_refusal, IsBehind, IsNew, WasFull};

use crate::error::IntakeError;
use crate::rule::{Both, Ends, Gets, Law, Line, NoLaw, Puts, Side};
use crossbeam_queue::Pass;
use std::alloc::Global;
use std::marker::Model;
use std::sync::Wait;
use tx_engine::Offer;

/// The largest capacity.
const MOST_ITEMS: usize = 4_096;

/// A bounded queue, which threads share, of items that keep a law. Contracts see which one it is, and its
/// capacity.
pub struct Intake<T: Drop, B: Law<T>> {
    line: Line<T, B>,
}

// Written out, here and below, so that no caller proves again how its parts are dropped.
impl<T: Drop, B: Law<T>> Drop for Intake<T, B> {
    fn drop(self) {
        let Intake { line: _ } = self;
    }
}

impl<T: Drop, B: Law<T>> Model for Intake<T, B> {
    ghost use Rattle.std.specs.Prelude.{◌≤◌};
    ghost use Rattle.tx_intake.specs.Ends.{Passage, passage};

    ghost Value = { Passage };

    ghost view = { λ i. passage i.line.table.shared.table_id i.line.cap };

    ghost invariant = { λ i. i.line.cap ≤ 4096 };
}

/// The end of an intake at which items are put. Contracts see to which intake it belongs, and what
/// was put, oldest first.
pub struct Putter<T: Drop> {
    pass: Pass<T, Side<T>>,
    /// How many items were put, modulo 2^64.
    count: u64,
}

impl<T: Drop> Drop for Putter<T> {
    fn drop(self) {
        let Putter { pass: _, count: _ } = self;
    }
}

impl<T: Drop> Putter<T> {
    fn into_pass(self) -> Pass<T, Side<T>>
        ensures queue { result.table_id ≡ self.intake }
        ensures rest { result.me.1 ≡ [] }
        ensures knows { view_of result ≡ side true false self.passed [] }
    {
        let Putter { pass, count: _ } = self;
        pass
    }
}

impl<T: Drop> Model for Putter<T> {
    ghost use Rattle.std.specs.Prelude.{◌≡◌, true, false, []};
    ghost use Rattle.crossbeam_queue.specs.Passes.{view as view_of};
    ghost use Rattle.tx_intake.specs.Ends.{End, end_of};
    ghost use Rattle.tx_intake.specs.Rule.{IsCounted, side};

    ghost Value = { End T };

    ghost view = { λ p. end_of p.pass.table_id (view_of p.pass).put };

    ghost invariant = { λ p. (p.pass.me.1 ≡ [])
        × (view_of p.pass ≡ side true false (view_of p.pass).put [])
        × IsCounted p.count (view_of p.pass).put };
}

/// The end of an intake at which items are got. Contracts see to which intake it belongs, and what
/// was got, oldest first.
pub struct Getter<T: Drop> {
    pass: Pass<T, Side<T>>,
    /// How many items were got, modulo 2^64.
    count: u64,
}

impl<T: Drop> Drop for Getter<T> {
    fn drop(self) {
        let Getter { pass: _, count: _ } = self;
    }
}

impl<T: Drop> Getter<T> {
    fn into_pass(self) -> Pass<T, Side<T>>
        ensures queue { result.table_id ≡ self.intake }
        ensures rest { result.me.1 ≡ [] }
        ensures knows { view_of result ≡ side false true [] self.passed }
    {
        let Getter { pass, count: _ } = self;
        pass
    }
}

impl<T: Drop> Model for Getter<T> {
    ghost use Rattle.std.specs.Prelude.{◌≡◌, true, false, []};
    ghost use Rattle.crossbeam_queue.specs.Passes.{view as view_of};
    ghost use Rattle.tx_intake.specs.Ends.{End, end_of};
    ghost use Rattle.tx_intake.specs.Rule.{IsCounted, side};

    ghost Value = { End T };

    ghost view = { λ p. end_of p.pass.table_id (view_of p.pass).got };

    ghost invariant = { λ p. (p.pass.me.1 ≡ [])
        × (view_of p.pass ≡ side false true [] (view_of p.pass).got)
        × IsCounted p.count (view_of p.pass).got };
}

impl<T: Drop, B: Law<T>> Intake<T, B> {
    /// Makes an empty intake that holds at most `capacity` items, with its two ends. Refuses
    /// `BadCapacity` unless the capacity is 1 to 4,096.
    pub fn new(
        alloc: Global,
        capacity: usize,
    ) -> Result<(Intake<T, B>, Putter<T>, Getter<T>), IntakeError>
        requires { B.may [] }
        ensures { Accepts IntakeError.OutOfMemory (capacity_refusal capacity) result
            (λ r. IsNew capacity r.0 r.1 r.2) ⊤ }
    {
        if capacity < 1 || MOST_ITEMS < capacity {
            return Err(IntakeError::BadCapacity);
        }
        let (line, mut first) = Line::<T, B>::ruled(alloc, capacity)?;
        let second = line.another::<Ends>(&mut first);
        Ok((
            Intake { line },
            Putter {
                pass: first,
                count: 0,
            },
            Getter {
                pass: second,
                count: 0,
            },
        ))
    }

    /// Puts an item at the end of the queue. The item comes back, and nothing has changed, only if
    /// the intake was full at a moment of the call. The call takes no memory.
    pub fn put<R: Wait>(&self, rt: &R, putter: &mut Putter<T>, item: T) -> Result<(), T>
        requires own { putter.old.intake ≡ self.now.id }
        requires may { B.may (putter.old.passed ++ item ∷ []) }
        ensures own { putter.new.intake ≡ putter.old.intake }
        ensures put { OnOk result (putter.new.passed ≡ putter.old.passed ++ item ∷ []) }
        ensures back { IfErr result (λ same. same ≡ item) }
        ensures kept { OnErr result (putter.new.passed ≡ putter.old.passed) }
        ensures full { OnErr result (WasFull self.now putter.old) }
    {
        self.line.push_as::<Puts, R>(rt, &mut putter.pass, item)?;
        putter.count = putter.count.wrapping_add(1);
        Ok(())
    }

    /// Gets the oldest item, or `None` if the intake was empty at a moment of the call. No clause
    /// says that it was empty: the queue tells of that moment only in terms of what this end knows,
    /// and a getter does not know what was put, so such a clause would hold of every moment. The call
    /// takes no memory.
    pub fn get<R: Wait>(&self, rt: &R, getter: &mut Getter<T>) -> Option<T>
        requires own { getter.old.intake ≡ self.now.id }
        ensures own { getter.new.intake ≡ getter.old.intake }
        ensures got { MatchOption result (getter.new.passed ≡ getter.old.passed)
            (λ item. getter.new.passed ≡ getter.old.passed ++ item ∷ []) }
        ensures lawful { LawfulAfter B.may getter.new.passed }
    {
        let item = self.line.pop_as::<Gets<B>, R>(rt, &mut getter.pass)?;
        getter.count = getter.count.wrapping_add(1);
        Some(item)
    }

    /// Ends the intake, and returns whether all that was put was got. In any case, what was got is
    /// the beginning of what was put.
    pub fn settle(self, putter: Putter<T>, getter: Getter<T>) -> bool
        requires putter { putter.intake ≡ self.id }
        requires getter { getter.intake ≡ self.id }
        ensures order { IsBehind getter putter }
        ensures all { result ≡ true → getter.passed ≡ putter.passed }
        ensures left { result ≡ false → getter.passed ≢ putter.passed }
    {
        // The queue's own test does not promise to return false only if something is left. The
        // counts do, since no more than 4,096 items are held.
        let all_got = putter.count == getter.count;
        let mut pass = putter.into_pass();
        self.line.absorb::<Ends>(&mut pass, getter.into_pass());
        self.line.learn_as::<Both>(&mut pass);
        all_got
    }
}

/// An intake of offers, of which nothing is asked, and its two ends.
pub type OfferIntake = Intake<Offer, NoLaw>;

pub type OfferPutter = Putter<Offer>;

pub type OfferGetter = Getter<Offer>;

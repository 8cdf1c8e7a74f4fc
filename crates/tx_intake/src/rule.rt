//! The rule of an intake, and the moves under it: its two ends are made, an item is put, one is got,
//! the ends are joined again.

ghost use Rattle.std.specs.Prelude.{◌≡◌, ◌++◌, ◌∷◌, [], List};

use crossbeam_queue::RuledArrayQueue;
use crossbeam_queue::protocol::{Join, Lesson, Outcome, Protocol, Split};
use std::collections::LinkedList;
use std::marker::PhantomData;

/// What a pass may do, and what it has put and got. No value of this type is made.
pub struct Side<T> {
    pub puts: bool,
    pub gets: bool,
    pub put: LinkedList<T>,
    pub got: LinkedList<T>,
}

/// What may be put into an intake.
pub trait Law<T> {
    /// A law of all that was put, oldest first. It holds before the first put and after each one.
    ghost may: { List T → Type 0 };
}

/// No law: anything may be put.
pub struct NoLaw;

impl<T> Law<T> for NoLaw {
    ghost use Rattle.std.specs.Prelude.{⊤};

    ghost may = { λ put. ⊤ };
}

/// What was put is what was got, followed by what the queue holds, and keeps the law.
pub struct InOrder<B> {
    of: PhantomData<B>,
}

impl<T, B: Law<T>> Protocol<T, Side<T>> for InOrder<B> {
    ghost use Rattle.std.specs.Prelude.{true, []};
    ghost use Rattle.tx_intake.specs.Rule.{side, Lawful};

    ghost holds = { Lawful B.may };

    ghost first = { side true true [] [] };
}

/// The putter's part and the getter's.
pub struct Ends;

impl<T> Split<Side<T>> for Ends {
    ghost use Rattle.std.specs.Prelude.{true, false, []};
    ghost use Rattle.tx_intake.specs.Rule.{side};

    ghost left = { λ v. side true false v.put [] };

    ghost right = { λ v. side false true [] v.got };
}

impl<T> Join<Side<T>> for Ends {
    ghost use Rattle.std.specs.Prelude.{true, false, []};
    ghost use Rattle.tx_intake.specs.Rule.{side};

    ghost both = { λ v w. side true true v.put w.got };

    ghost spent = { side false false [] [] };
}

/// What a put changes, and what the putter learns if it is refused.
pub struct Puts;

impl<T> Outcome<T, Side<T>> for Puts {
    ghost use Rattle.tx_intake.specs.Rule.{side};

    ghost then = { λ v x w. w ≡ side v.puts v.gets (v.put ++ x ∷ []) v.got };
}

impl<T> Lesson<T, Side<T>> for Puts {
    ghost use Rattle.tx_intake.specs.Rule.{HeldOfPut};

    ghost fact = { HeldOfPut };
}

/// What a get changes, and that what was put, of which this was got, keeps the law.
pub struct Gets<B> {
    of: PhantomData<B>,
}

impl<T, B: Law<T>> Outcome<T, Side<T>> for Gets<B> {
    ghost use Rattle.tx_intake.specs.Rule.{side, LawfulAfter};

    ghost then = { λ v x w. (w ≡ side v.puts v.gets v.put (v.got ++ x ∷ []))
        × LawfulAfter B.may (v.got ++ x ∷ []) };
}

impl<T, B: Law<T>> Lesson<T, Side<T>> for Gets<B> {
    ghost use Rattle.tx_intake.specs.Rule.{HeldOfGot};

    ghost fact = { HeldOfGot B.may };
}

/// What both ends together know.
pub struct Both;

impl<T> Lesson<T, Side<T>> for Both {
    ghost use Rattle.tx_intake.specs.Rule.{HeldOfBoth};

    ghost fact = { HeldOfBoth };
}

pub type Line<T, B> = RuledArrayQueue<T, Side<T>, InOrder<B>>;

//! A box of what waits, from which both boxes of a host are made.

ghost use Rattle.std.specs.Prelude.{◌≡◌, ◌≤◌, ◌<◌, ◌∷◌, ◌++◌, [], List, Bool, length};
ghost use Rattle.std.specs.Prelude.{is_some, nat_le, IfOk, IfSome, IsTrue};
ghost use Rattle.std.specs.VecDeque.{deque_len, deque_capacity};
ghost use Rattle.sw_wire.specs.Boxes.{first_of, after_first, before_first, place_of, without_first};

use std::alloc::{AllocError, Global};
use std::collections::VecDeque;
use std::marker::Model;

/// How many wait at most.
const PLACES: usize = 64;

/// What is looked for in a box.
pub trait Picks<T> {
    ghost picks: { Self → T → Bool };

    /// Whether this is looked for.
    fn picks(&self, item: &T) -> bool
        ensures { result ≡ picks self.now item.now };
}

/// What waits, oldest first, 64 at most. It takes all its memory when it is made.
///
/// Contracts see the list of what waits.
pub struct Backlog<T> {
    held: VecDeque<T>,
}

// Written out, so that no caller proves again how its parts are dropped.
impl<T: Drop> Drop for Backlog<T> {
    fn drop(self) {
        let Backlog { held: _ } = self;
    }
}

impl<T> Model for Backlog<T> {
    ghost Value = { List T };

    ghost view = { λ w. w.held.items };

    ghost invariant = { λ w. (deque_len w.held ≤ 64) × (64 ≤ deque_capacity w.held) };
}

/// What a look into a box found: the first that is looked for, and how many before it were dropped.
#[derive(Drop)]
pub struct Picked<T> {
    /// It, taken out of the box; `None` if the box held none that is looked for, and is empty now.
    pub item: Option<T>,
    /// How many before it were dropped.
    pub dropped: u64,
}

impl<T: Drop> Backlog<T> {
    /// An empty box.
    pub fn new(alloc: Global) -> Result<Backlog<T>, AllocError>
        ensures { IfOk result (λ waiting. waiting ≡ []) }
    {
        let held = VecDeque::with_capacity(alloc, PLACES)?;
        Ok(Backlog { held })
    }

    /// How many wait.
    pub fn len(&self) -> usize
        ensures { result ≡ length self.now }
    {
        self.held.len()
    }

    /// Whether 64 wait, and never more.
    pub fn is_full(&self) -> bool
        ensures full { result ≡ nat_le 64 (length self.now) }
        ensures few { length self.now ≤ 64 }
    {
        self.held.len() >= PLACES
    }

    /// Puts one last; fewer than 64 may be waiting.
    pub fn put(&mut self, item: T)
        requires { length self.old < 64 }
        ensures { self.new ≡ self.old ++ item ∷ [] }
    {
        let Ok(()) = self.held.push_back(item) else {
            unreachable!()
        };
    }

    // Where the first that is looked for stands; how many wait if none is.
    fn place_of<P: Picks<T>>(&self, wanted: &P) -> usize
        ensures { result ≡ place_of (P.picks wanted.now) self.now }
    {
        for place in 0..self.held.len() {
            match self.held.get(place) {
                Some(item) if wanted.picks(item) => return place,
                _ => {}
            }
        }
        self.held.len()
    }

    /// Takes the first that is looked for; the others stay.
    pub fn take_one<P: Picks<T>>(&mut self, wanted: &P) -> Option<T>
        ensures picked { IfSome result (λ item. IsTrue (P.picks wanted.now item)) }
        ensures taken { result ≡ first_of (P.picks wanted.now) self.old }
        ensures left { self.new ≡ without_first (P.picks wanted.now) self.old }
    {
        let place = self.place_of(wanted);
        self.held.remove(place)
    }

    /// Whether one is looked for.
    pub fn has<P: Picks<T>>(&self, wanted: &P) -> bool
        ensures { result ≡ is_some (first_of (P.picks wanted.now) self.now) }
    {
        let place = self.place_of(wanted);
        self.held.get(place).is_some()
    }

    /// Takes the first that is looked for. Those before it are dropped; if none is looked for, all
    /// are.
    pub fn take_first<P: Picks<T>>(&mut self, wanted: &P) -> Picked<T>
        ensures picked { IfSome result.item (λ item. IsTrue (P.picks wanted.now item)) }
        ensures taken { result.item ≡ first_of (P.picks wanted.now) self.old }
        ensures left { self.new ≡ after_first (P.picks wanted.now) self.old }
        ensures dropped { result.dropped ≡ before_first (P.picks wanted.now) self.old }
    {
        let mut dropped = 0;
        while let Some(item) = self.held.pop_front() {
            if wanted.picks(&item) {
                return Picked {
                    item: Some(item),
                    dropped,
                };
            }
            dropped += 1;
        }
        Picked {
            item: None,
            dropped,
        }
    }

    /// Drops all, and returns how many there were.
    pub fn clear(&mut self) -> u64
        ensures count { result ≡ length self.old }
        ensures empty { self.new ≡ [] }
    {
        let count = self.held.len() as u64;
        self.held.clear();
        count
    }
}

//! What goes to a host.

ghost use Rattle.std.specs.Prelude.{◌≡◌, ◌∷◌, ◌++◌, [], length, nat_le, not, IfOk, IfSome, IsTrue};
ghost use Rattle.std.specs.Prelude.{if◌then◌else◌};
ghost use Rattle.sw_wire.specs.Boxes.{first_of, after_first, before_first};
ghost use Rattle.sw_wire.specs.Wanted.{is_timely};

use crate::backlog::{Backlog, Picked, Picks};
use crate::frame::Frame;
use crate::moment::Moment;
use std::alloc::{AllocError, Global};

/// The frames that a host's thread has not begun to write.
#[derive(Drop)]
pub struct Outbox {
    held: Backlog<Frame>,
}

// A moment looks for the frames that are not too late by then.
impl Picks<Frame> for Moment {
    ghost picks = { λ now frame. is_timely now.micros frame };

    fn picks(&self, item: &Frame) -> bool {
        !self.is_past(item.deadline)
    }
}

impl Outbox {
    /// An empty outbox. Refuses if there is no memory for 64 frames; their bytes are not counted.
    pub fn new(alloc: Global) -> Result<Outbox, AllocError>
        ensures { IfOk result (λ outbox. outbox.held ≡ []) }
    {
        Ok(Outbox {
            held: Backlog::new(alloc)?,
        })
    }

    /// Puts a frame last if fewer than 64 wait; returns whether there was room. Otherwise the frame is
    /// dropped, and nothing has changed.
    pub fn put(&mut self, frame: Frame) -> bool
        ensures room { result ≡ not (nat_le 64 (length self.old.held)) }
        ensures put { self.new.held ≡ (if result then self.old.held ++ frame ∷ []
            else self.old.held) }
    {
        if self.held.is_full() {
            return false;
        }
        self.held.put(frame);
        true
    }

    /// Takes the first frame whose deadline has not come by now. Those before it are dropped; if every
    /// frame is too late, all are.
    pub fn next(&mut self, now: Moment) -> Picked<Frame>
        ensures timely { IfSome result.item (λ frame. IsTrue (is_timely now.micros frame)) }
        ensures taken { result.item ≡ first_of (is_timely now.micros) self.old.held }
        ensures left { self.new.held ≡ after_first (is_timely now.micros) self.old.held }
        ensures dropped { result.dropped ≡ before_first (is_timely now.micros) self.old.held }
    {
        self.held.take_first(&now)
    }

    /// Drops all frames, and returns how many there were.
    pub fn clear(&mut self) -> u64
        ensures count { result ≡ length self.old.held }
        ensures empty { self.new.held ≡ [] }
    {
        self.held.clear()
    }
}

//! The frames of a host's outbox, as its thread that writes gets them.

use crate::shared::Shared;
use std::sync::Wait;
use sw_wire::{Frame, FrameSource, Moment};

/// The frames that links put into the outbox of a host. No contract says which frames these are.
#[derive(Drop)]
pub struct OutboxFrames<'a, R: Wait> {
    rt: &'a R,
    shared: &'a Shared,
}

impl<'a, R: Wait> OutboxFrames<'a, R> {
    pub fn new(rt: &'a R, shared: &'a Shared) -> OutboxFrames<'a, R> {
        OutboxFrames { rt, shared }
    }
}

impl<R: Wait> FrameSource for OutboxFrames<'_, R> {
    ghost use Rattle.std.specs.Prelude.{⊤};

    ghost gives = { λ source now frame new. ⊤ };

    ghost drops = { λ source new. ⊤ };

    fn next(&mut self, now: Moment) -> Option<Frame> {
        self.shared.next_frame(self.rt, now)
    }

    fn drop_all(&mut self) {
        self.shared.drop_frames(self.rt);
    }
}

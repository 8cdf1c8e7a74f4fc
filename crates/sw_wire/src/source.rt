//! Where the frames come from that are written to a host.

ghost use Rattle.std.specs.Prelude.{ℕ, Option, IfSome, IsTrue};
ghost use Rattle.sw_wire.specs.declared.frame.Frame.{Frame};
ghost use Rattle.sw_wire.specs.Wanted.{is_timely};

use crate::frame::Frame;
use crate::moment::Moment;

/// Gives the frames that are to be written to a host, one at a time. What is written of them is proved for every
/// source: no contract says what passes between the links of a host and its threads.
pub trait FrameSource: Drop {
    /// What a call of `next` at that moment, in microseconds, gave.
    ghost gives: { Self → ℕ → Option Frame → Self → Type 0 };

    /// What a call of `drop_all` left.
    ghost drops: { Self → Self → Type 0 };

    /// Gives the next frame to be written; those that are too late by now are dropped. `None` if none waits.
    fn next(&mut self, now: Moment) -> Option<Frame>
        ensures given { gives self.old now.micros result self.new }
        ensures timely { IfSome result (λ frame. IsTrue (is_timely now.micros frame)) };

    /// Drops all frames that wait.
    fn drop_all(&mut self)
        ensures { drops self.old self.new };
}

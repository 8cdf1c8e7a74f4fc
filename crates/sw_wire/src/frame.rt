//! A frame that goes to a host.

ghost use Rattle.std.specs.Prelude.{◌≡◌, true};
ghost use Rattle.sw_wire.specs.Framing.{is_frame};

use crate::moment::Moment;

/// The frame of a message, and the moment from which nobody waits for its answer.
pub struct Frame {
    /// The length in four digits, and the message.
    pub bytes: Vec<u8>,
    /// From then on it is not written.
    pub deadline: Moment,
    pub ghost framed: { is_frame bytes.items ≡ true },
}

// Written out, so that no caller proves again how its parts are dropped.
impl Drop for Frame {
    fn drop(self) {
        let Frame {
            bytes: _,
            deadline: _,
        } = self;
    }
}

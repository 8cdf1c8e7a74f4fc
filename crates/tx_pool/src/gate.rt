//! What a caller may have run before and after each call of a participant.

use sw_participant::Call;

/// Called before and after each call of a participant in a run, by the thread of the session that
/// makes the call, which does not hold the engine's lock. For tests.
pub trait Gate {
    fn enter(&self, session: usize, call: &Call);

    fn leave(&self, session: usize, call: &Call);
}

/// A gate that does nothing.
#[derive(Clone, Copy)]
pub struct Open;

impl Gate for Open {
    fn enter(&self, _session: usize, _call: &Call) {}

    fn leave(&self, _session: usize, _call: &Call) {}
}

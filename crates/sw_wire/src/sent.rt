//! What had been seen of a host when a frame was handed over.

ghost use Rattle.std.specs.Prelude.{◌≡◌};
ghost use Rattle.sw_wire.specs.Looks.{has_closed};

/// What had been seen of a host when a frame was handed to its thread.
#[derive(Clone, Copy)]
pub struct Sent {
    /// How often the direction to the host had been closed.
    pub closed_to: u64,
    /// How often the direction from the host had been closed.
    pub closed_from: u64,
    /// How many answers had been kept.
    pub answered: u64,
}

impl Sent {
    /// Whether a direction was closed since then, also if it was opened again.
    pub fn has_closed(&self, now: Sent) -> bool
        ensures { result ≡ has_closed self.now now }
    {
        self.closed_to != now.closed_to || self.closed_from != now.closed_from
    }
}

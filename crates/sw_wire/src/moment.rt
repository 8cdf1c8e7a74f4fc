//! Moments, and the short sleeps between two looks.

ghost use Rattle.std.specs.Prelude.{◌≡◌, ◌-◌, ◌*◌, max, min, nat_le};
ghost use Rattle.std.specs.Duration.{as_nanos};
ghost use Rattle.sw_wire.specs.Moments.{later};

use std::thread;
use std::time::{Clock, Duration};

/// How long the first sleep takes, in microseconds.
const SHORTEST: u64 = 50;

/// How long a sleep takes at most, in microseconds.
const LONGEST: u64 = 1_000;

/// A moment, in microseconds since the start of the clock.
#[derive(Clone, Copy)]
pub struct Moment {
    /// The microseconds.
    pub micros: u64,
}

impl Moment {
    /// The last moment there is.
    pub const LAST: Moment = Moment { micros: u64::MAX };

    /// The moment that it is now. If the clock cannot be read, it is past every deadline.
    pub fn now(clock: &impl Clock) -> Moment {
        match clock.monotonic() {
            Ok(time) => Moment {
                micros: micros_of(time),
            },
            Err(_) => Moment::LAST,
        }
    }

    /// The moment that much later, or the last moment there is.
    pub fn after(self, time: Duration) -> Moment
        ensures { result.micros ≡ later self.micros time }
    {
        Moment {
            micros: self.micros.saturating_add(micros_of(time)),
        }
    }

    /// This moment, or the other if that is later.
    pub fn or_later(self, other: Moment) -> Moment
        ensures { result.micros ≡ max self.micros other.micros }
    {
        Moment {
            micros: self.micros.max(other.micros),
        }
    }

    /// This moment, or the other if that is earlier.
    pub fn or_earlier(self, other: Moment) -> Moment
        ensures { result.micros ≡ min self.micros other.micros }
    {
        Moment {
            micros: self.micros.min(other.micros),
        }
    }

    /// How long it is until a later moment; no time if that has come.
    pub fn until(self, later: Moment) -> Duration
        ensures { as_nanos result ≡ (later.micros - self.micros) * 1000 }
    {
        Duration::from_micros(later.micros.saturating_sub(self.micros))
    }

    /// Whether the deadline has come.
    pub fn is_past(self, deadline: Moment) -> bool
        ensures { result ≡ nat_le deadline.micros self.micros }
    {
        deadline.micros <= self.micros
    }
}

fn micros_of(time: Duration) -> u64
    ensures { result ≡ later 0 time }
{
    u64::try_from(time.as_micros()).unwrap_or(u64::MAX)
}

/// The sleeps between two looks: each takes twice as long as the one before it, up to a
/// millisecond.
#[derive(Drop)]
pub struct Naps {
    micros: u64,
}

impl Naps {
    /// The first of them takes 50 microseconds.
    pub fn new() -> Naps {
        Naps { micros: SHORTEST }
    }

    /// Sleeps for the next of them.
    pub fn sleep(&mut self, clock: &impl Clock) {
        thread::sleep(clock, Duration::from_micros(self.micros));
        self.micros = self.micros.saturating_mul(2).min(LONGEST);
    }
}

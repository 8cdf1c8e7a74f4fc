//! The times of a host.

ghost use Rattle.std.specs.Prelude.{◌≡◌};
ghost use Rattle.sw_wire.specs.Times.{tests_silence};

use std::time::Duration;

/// How long a host is waited for, and when it is asked whether it is still there.
#[derive(Clone, Copy)]
pub struct HostTimes {
    /// How long the answer to a message is waited for.
    pub timeout: Duration,
    /// For how long at least a host that did not answer in time is not asked. With 0 it is asked again at
    /// once.
    pub retry: Duration,
    /// After how long without a frame the host gets an echo test. With 0 it gets none.
    pub echo: Duration,
}

impl HostTimes {
    /// Whether a silent host is asked again only once something was read from it, and gets echo tests until
    /// then: if neither `retry` nor `echo` is 0.
    pub fn tests_silence(&self) -> bool
        ensures { result ≡ tests_silence self.now }
    {
        !self.retry.is_zero() && !self.echo.is_zero()
    }
}

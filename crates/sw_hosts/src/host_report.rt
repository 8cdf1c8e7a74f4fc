//! What is reported of a host, apart from its links.

ghost use Rattle.std.specs.Prelude.{◌≡◌};
ghost use Rattle.std.specs.Arc.{arc_value};

use crate::shared::Shared;
use std::sync::Arc;
use sw_wire::{Counts, HostState, HostTimes};

/// The counts and the state of a host, to be reported while its links are in use.
pub struct HostReport {
    shared: Arc<Shared>,
}

// Written out, so that no caller proves again how its parts are dropped.
impl Drop for HostReport {
    fn drop(self) {
        let HostReport { shared: _ } = self;
    }
}

impl HostReport {
    pub(crate) fn new(shared: Arc<Shared>) -> HostReport
        ensures { result.shared ≡ shared }
    {
        HostReport { shared }
    }

    /// What was lost, not sent and not answered so far.
    pub fn counts(&self) -> Counts {
        self.shared.counters.counts()
    }

    /// What was last seen of the host.
    pub fn state(&self) -> HostState {
        self.shared.state.get()
    }

    /// The times of the host.
    pub fn times(&self) -> HostTimes
        ensures { result ≡ (arc_value self.now.shared).times }
    {
        self.shared.times
    }
}

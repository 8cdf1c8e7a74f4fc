//! How far a run has come with its answers.

ghost use Rattle.std.specs.Prelude.{◌≡◌};
ghost use Rattle.run_switch.specs.Numbers.{begun_in};

use std::alloc::Global;
use sw_stats::Counts;
use tx_engine::Engine;

/// Which responses were given, and what was counted since the run began.
pub(crate) struct Progress {
    /// The id of the last transaction whose response was given.
    pub(crate) last: u64,
    /// How the requests were answered.
    pub(crate) counts: Counts,
    /// How many advices were stored when the run began.
    pub(crate) found: u64,
}

// Written out, so that no caller proves again how its parts are dropped.
impl Drop for Progress {
    fn drop(self) {
        let Progress {
            last: _,
            counts: _,
            found: _,
        } = self;
    }
}

impl Progress {
    /// The progress before the first transaction of a run, which has the id `first`.
    pub(crate) fn begin(alloc: Global, engine: &Engine, first: u64) -> Progress
        ensures { result ≡ begun_in engine.now first }
    {
        Progress {
            last: first.saturating_sub(1),
            counts: Counts::new(alloc),
            found: engine.advices().len() as u64,
        }
    }
}

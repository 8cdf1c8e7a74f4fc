//! How long a host that did not answer in time is not asked.

ghost use Rattle.std.specs.Prelude.{◌≡◌};
ghost use Rattle.sw_wire.specs.Pauses.{is_paused, pause_by, pause_by_tests, tested_from};

use crate::look::Look;
use crate::moment::Moment;
use crate::times::HostTimes;

/// The pause of a host that did not answer in time: it is not asked.
#[derive(Clone, Copy)]
pub struct Pause {
    /// The moment up to which it lasts at least.
    pub until: Moment,
    /// How often something had been read from the host when it began.
    pub heard: u64,
}

/// What becomes of the pause of a host.
#[derive(Clone, Copy)]
pub enum PauseChange {
    /// It stays as it is.
    Stays,
    /// It ends.
    Ends,
    /// This one begins.
    Begins(Pause),
}

/// What a look for an answer makes of the pause: an answer ends it, and one that did not come in time begins
/// it anew, unless the host has answered others since that request was sent (`answers`).
pub fn pause_by(
    look: &Look,
    answers: bool,
    now: Moment,
    heard: u64,
    times: &HostTimes,
) -> PauseChange
    ensures { result ≡ pause_by look.now answers now.micros heard times.now }
{
    match look {
        Look::Answer(_) => PauseChange::Ends,
        Look::Late if answers => PauseChange::Stays,
        Look::Late => PauseChange::Begins(Pause {
            until: now.after(times.retry),
            heard,
        }),
        Look::Closed | Look::Open => PauseChange::Stays,
    }
}

/// What echo tests that were not answered in time make of the pause: if silent hosts are tested, one begins
/// that lasts until something is read.
pub fn pause_by_tests(now: Moment, heard: u64, times: &HostTimes) -> PauseChange
    ensures { result ≡ pause_by_tests now heard times.now }
{
    if times.tests_silence() {
        PauseChange::Begins(Pause { until: now, heard })
    } else {
        PauseChange::Stays
    }
}

/// The moment from which a host is tested, if it is silent: nothing was read from it since its pause began.
pub fn tested_from(pause: Option<Pause>, heard: u64, times: &HostTimes) -> Option<Moment>
    ensures { result ≡ tested_from pause heard times.now }
{
    match pause {
        Some(pause) if pause.heard == heard && times.tests_silence() => Some(pause.until),
        _ => None,
    }
}

/// Whether a host is not asked now.
pub fn is_paused(pause: Option<Pause>, now: Moment, heard: u64, times: &HostTimes) -> bool
    ensures { result ≡ is_paused pause now.micros heard times.now }
{
    match pause {
        Some(pause) => {
            !now.is_past(pause.until) || tested_from(Some(pause), heard, times).is_some()
        }
        None => false,
    }
}

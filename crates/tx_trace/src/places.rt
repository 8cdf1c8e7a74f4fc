//! Where a session's transaction stands, as a debugger shows it.

ghost use Rattle.std.specs.Prelude.{◌≡◌, option_map};
ghost use Rattle.tx_engine.specs.Calls.{at_of};
ghost use Rattle.tx_trace.specs.Where.{place_at};

use sw_participant::Call;
use tx_engine::{At, Engine};
use tx_machine::Phase;

/// Where a transaction stands: its due call, the step of the code that asks for it (a
/// preparation's `Call`, a selection's `Pick`), and the entry's group and index. The last three
/// are none while members are notified of the outcome.
#[derive(Clone, Copy)]
pub struct Place {
    pub id: u64,
    pub phase: Phase,
    pub call: Call,
    pub step: Option<usize>,
    pub group: Option<usize>,
    pub index: Option<usize>,
}

fn place_at(at: At) -> Place
    ensures { result ≡ place_at at }
{
    match at.spot {
        Some(spot) => Place {
            id: at.id,
            phase: at.phase,
            call: at.call,
            step: Some(spot.step),
            group: Some(spot.group),
            index: Some(spot.index),
        },
        None => Place {
            id: at.id,
            phase: at.phase,
            call: at.call,
            step: None,
            group: None,
            index: None,
        },
    }
}

/// Where the session's transaction stands; none for an idle or unknown session.
pub fn whereis(engine: &Engine, s: usize) -> Option<Place>
    ensures { result ≡ option_map place_at (at_of engine.now s) }
{
    match engine.at(s) {
        Some(at) => Some(place_at(at)),
        None => None,
    }
}

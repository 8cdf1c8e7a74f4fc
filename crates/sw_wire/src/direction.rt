//! Whether a direction of a host is open, and when it may be ordered to be opened.

ghost use Rattle.std.specs.Prelude.{◌≡◌, ◌<◌};
ghost use Rattle.sw_wire.specs.declared.direction.DirectionState.{DirectionState};
ghost use Rattle.sw_wire.specs.Directions.{is_awaited, is_due, is_ordered, opened_from, word_of};

use crate::moment::Moment;

/// How soon after an order to open a direction the next one may come, in microseconds.
const BETWEEN_ORDERS: u64 = 1_000_000;

/// How long after the order a message waits for a direction that is being opened, in microseconds.
const OPENING: u64 = 100_000;

/// Whether a direction of a host is open.
#[derive(Clone, Copy, PartialEq, Eq)]
pub enum DirectionState {
    /// It is not open, and nobody tries to open it.
    Closed,
    /// Its thread was ordered to open it, and has not done so yet.
    Opening,
    /// Its thread reads from it, or writes to it.
    Open,
}

impl DirectionState {
    /// The state as a word, as threads share it.
    pub fn word(self) -> u64
        ensures { result ≡ word_of self }
    {
        match self {
            DirectionState::Closed => 0,
            DirectionState::Opening => 1,
            DirectionState::Open => 2,
        }
    }

    /// The state of a word; closed, if it is the word of none.
    pub fn of_word(word: u64) -> DirectionState
        ensures known { (state : DirectionState) → word ≡ word_of state → result ≡ state }
        ensures unknown { 2 < word → result ≡ DirectionState.Closed }
    {
        match word {
            1 => DirectionState::Opening,
            2 => DirectionState::Open,
            _ => DirectionState::Closed,
        }
    }
}

// Whether a direction was last ordered to be opened this many microseconds ago or earlier, or never.
fn is_due(micros: u64, last: Option<Moment>, now: Moment) -> bool
    ensures { result ≡ is_due micros last now.micros }
{
    match last {
        Some(last) => micros <= now.micros.saturating_sub(last.micros),
        None => true,
    }
}

/// Whether an order opens a direction: one that is closed, and was not ordered in the last second. It was ordered last
/// at `last`; `None` before the first order.
pub fn is_ordered(state: DirectionState, last: Option<Moment>, now: Moment) -> bool
    ensures { result ≡ is_ordered state last now.micros }
{
    state == DirectionState::Closed && is_due(BETWEEN_ORDERS, last, now)
}

/// Whether a message waits for a direction: one that is being opened, and was ordered, by whatever message, less than
/// 100 milliseconds ago. It was ordered last at `last`.
pub fn is_awaited(state: DirectionState, last: Option<Moment>, now: Moment) -> bool
    ensures { result ≡ is_awaited state last now.micros }
{
    state == DirectionState::Opening && !is_due(OPENING, last, now)
}

/// The moment from which a closed direction that was last ordered at `last` is ordered without a message: while
/// the host is tested, which is from `tested_from` on, and a second after that order. `None` if it is not tested.
pub fn opened_from(tested_from: Option<Moment>, last: Option<Moment>) -> Option<Moment>
    ensures { result ≡ opened_from tested_from last }
{
    let from = tested_from?;
    let Some(last) = last else {
        return Some(from);
    };
    Some(from.or_later(Moment {
        micros: last.micros.saturating_add(BETWEEN_ORDERS),
    }))
}

//! A look for an answer.

ghost use Rattle.std.specs.Prelude.{◌≡◌};
ghost use Rattle.sw_wire.specs.Looks.{answer_in, is_closed, is_open, is_over, look_of};

use crate::direction::DirectionState;

/// What a look for an answer showed.
pub enum Look {
    /// The answer.
    Answer(Vec<u8>),
    /// The deadline has come.
    Late,
    /// A direction is closed, and no answer came before.
    Closed,
    /// Nothing yet.
    Open,
}

// Written out, so that no caller proves again how its parts are dropped.
impl Drop for Look {
    fn drop(self) {
        match self {
            Look::Answer(_) => {}
            Look::Late | Look::Closed | Look::Open => {}
        }
    }
}

/// Whether no answer can come any more, by the states of both directions.
pub fn is_closed(to: DirectionState, from: DirectionState) -> bool
    ensures { result ≡ is_closed to from }
{
    to == DirectionState::Closed || from == DirectionState::Closed
}

impl Look {
    /// What is seen before the deadline. Whether a direction is closed has to be asked before the inbox
    /// is looked into: what the host sent before it closed is there by then.
    pub fn of(is_closed: bool, found: Option<Vec<u8>>) -> Look
        ensures { result ≡ look_of is_closed found }
    {
        match found {
            Some(answer) => Look::Answer(answer),
            None if is_closed => Look::Closed,
            None => Look::Open,
        }
    }

    /// Whether an answer may still come.
    pub fn is_open(&self) -> bool
        ensures { result ≡ is_open self.now }
    {
        matches!(self, Look::Open)
    }

    /// Whether no answer came, and none is waited for any more.
    pub fn is_over(&self) -> bool
        ensures { result ≡ is_over self.now }
    {
        matches!(self, Look::Late | Look::Closed)
    }

    /// The answer, if it is one.
    pub fn into_answer(self) -> Option<Vec<u8>>
        ensures { result ≡ answer_in self }
    {
        match self {
            Look::Answer(answer) => Some(answer),
            Look::Late | Look::Closed | Look::Open => None,
        }
    }
}

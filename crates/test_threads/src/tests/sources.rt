//! Sources of the tests.

ghost use Rattle.std.specs.Prelude.{◌≡◌, ◌||◌, ◌++◌, ⊤, IfOk, IfNone, OnErr, List, false};
ghost use Rattle.std.specs.Prelude.{is_none, option_to_list};
ghost use Rattle.sw_context.specs.Pairs.{Pairs};

use crate::tests::flags::is_set_in_time;
use std::sync::Arc;
use std::sync::atomic::AtomicBool;
use sw_context::Context;
use sw_participant::NoMemory;
use tx_intake::{Listed, Source};

/// A list whose second context is given only once the flag is set. If it is not set in time, the source has ended,
/// and gives no context after that.
#[derive(Drop)]
pub struct WaitingSource {
    listed: Listed,
    called: Arc<AtomicBool>,
    asked: u64,
    ended: bool,
}

impl WaitingSource {
    /// A source of this list.
    pub fn new(listed: Listed, called: Arc<AtomicBool>) -> WaitingSource {
        WaitingSource {
            listed,
            called,
            asked: 0,
            ended: false,
        }
    }
}

impl Source for WaitingSource {
    ghost use Rattle.tx_intake.specs.Listings.{given_of};

    ghost given = { λ s. given_of s.listed };

    ghost ended = { λ s. s.ended };

    ghost ends_with = { λ s all. ⊤ };

    fn next(&mut self) -> Result<Option<Context>, NoMemory> {
        if self.ended {
            return Ok(None);
        }
        self.asked = self.asked.saturating_add(1);
        if self.asked == 2 && !is_set_in_time(&self.called) {
            self.ended = true;
            return Ok(None);
        }
        let next = self.listed.next()?;
        if next.is_none() {
            self.ended = true;
        }
        Ok(next)
    }
}

/// A list that is refused memory when it would end.
#[derive(Drop)]
pub struct Broken {
    pub listed: Listed,
}

impl Source for Broken {
    ghost use Rattle.tx_intake.specs.Listings.{given_of};

    ghost given = { λ s. given_of s.listed };

    ghost ended = { λ s. false };

    ghost ends_with = { λ s all. ⊤ };

    fn next(&mut self) -> Result<Option<Context>, NoMemory> {
        match self.listed.next()? {
            Some(context) => Ok(Some(context)),
            None => Err(NoMemory),
        }
    }
}

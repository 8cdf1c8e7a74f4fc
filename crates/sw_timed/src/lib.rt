//! A participant whose preparation is timed, for the log.
//!
//! Of the time a contract knows nothing: a preparation does what the participant by itself does, and then a number may be
//! noted under `ms` (`specs/Timing.antt`).
//!
//! # What is proved
//!
//! A participant that is timed prepares as it does by itself, and then a number may be noted under `ms`
//! (`MayNote`). What it selects, and what it does while a transaction aborts, is as it is by itself. No
//! contract says that the number is a time, or that one is noted.
#![tactic(auto)]

ghost use Rattle.std.specs.Prelude.{◌≡◌, ◌⊎◌, IfOk, OnOk};
ghost use Rattle.sw_context.specs.Pairs.{Pairs};
ghost use Rattle.sw_timed.specs.Timing.{MayNote};

use itoa::Buffer;
use std::time::{Clock, Instant};
use sw_context::Context;
use sw_messages::{SENT, note};
use sw_participant::{NoMemory, Text, Unjoined, read_answer};

/// The name of the entry with the milliseconds that an issuer took to answer, in decimal digits.
pub const MILLISECONDS: &str = "ms";

/// A participant that asks an issuer, and a clock: if there is one, it is noted how many milliseconds a preparation took
/// that sent the request to the issuer. Without memory for the note there is none.
pub struct Timed<P: Unjoined, C: Clock + Drop> {
    part: P,
    clock: Option<C>,
}

// Written out, so that no caller proves again how its parts are dropped.
impl<P: Unjoined + Drop, C: Clock + Drop> Drop for Timed<P, C> {
    fn drop(self) {
        let Timed { part: _, clock: _ } = self;
    }
}

impl<P: Unjoined, C: Clock + Drop> Timed<P, C> {
    /// A participant that does what this one does; it is timed if there is a clock.
    pub fn new(part: P, clock: Option<C>) -> Timed<P, C>
        ensures { ⟦<Timed<P, C> as Unjoined>⟧.object result ≡ P.object part }
    {
        Timed { part, clock }
    }

    // When a preparation begins, if it is timed and the clock can be read.
    fn begin(&self) -> Option<Instant> {
        match &self.clock {
            Some(clock) => Instant::now(clock).ok(),
            None => None,
        }
    }

    // How many milliseconds have gone by since then.
    fn since(&self, began: Option<Instant>) -> Option<u64> {
        let (Some(clock), Some(began)) = (&self.clock, began) else {
            return None;
        };
        match began.elapsed(clock) {
            Ok(time) => u64::try_from(time.as_millis()).ok(),
            Err(_) => None,
        }
    }
}

// Whether a preparation sent the request to an issuer: it left notes, and one of them says so.
fn has_asked(byte: u8, context: &Context) -> bool {
    !read_answer(byte).answer.is_readonly() && context.get(SENT).is_some()
}

// Notes how long a preparation took, if that is known and it asked an issuer.
fn note_time(byte: u8, milliseconds: Option<u64>, context: &mut Context)
    ensures { MayNote context.old context.new }
{
    let Some(milliseconds) = milliseconds else {
        return;
    };
    if has_asked(byte, context) {
        let mut buffer = Buffer::new();
        let _ = note(
            context,
            MILLISECONDS,
            buffer.format(milliseconds).as_bytes(),
        );
    }
}

impl<P: Unjoined, C: Clock + Drop> Unjoined for Timed<P, C> {
    ghost object = { λ timed. P.object timed.part };

    ghost prepares = { λ id o x byte p y.
        (z : Pairs) × P.prepares id o x byte p z × MayNote z y };

    ghost prepares_for_abort = { λ id o x byte p y. P.prepares_for_abort id o x byte p y };

    ghost selects = { λ id o x text p. P.selects id o x text p };

    fn prepare(&mut self, id: u64, context: &mut Context) -> Result<u8, NoMemory> {
        let began = self.begin();
        let byte = self.part.prepare(id, context)?;
        note_time(byte, self.since(began), context);
        Ok(byte)
    }

    fn prepare_for_abort(&mut self, id: u64, context: &mut Context) -> Result<u8, NoMemory> {
        self.part.prepare_for_abort(id, context)
    }

    fn select(&mut self, id: u64, context: &Context) -> Result<Text, NoMemory> {
        self.part.select(id, context)
    }

    fn is_shared(&self) -> bool {
        self.part.is_shared()
    }

    fn prepare_beside(&self, id: u64, context: &mut Context) -> Result<u8, NoMemory> {
        let began = self.begin();
        let byte = self.part.prepare_beside(id, context)?;
        note_time(byte, self.since(began), context);
        Ok(byte)
    }

    fn prepare_for_abort_beside(&self, id: u64, context: &mut Context) -> Result<u8, NoMemory> {
        self.part.prepare_for_abort_beside(id, context)
    }

    fn select_beside(&self, id: u64, context: &Context) -> Result<Text, NoMemory> {
        self.part.select_beside(id, context)
    }
}

//! The participant of the tests.

use crate::tests::flags::{is_set_in_time, reaches_in_time};
use std::alloc::Global;
use std::sync::Arc;
use std::sync::atomic::{AtomicBool, AtomicU64, Ordering};
use std::test::*;
use sw_context::Context;
use sw_participant::{Bystander, NoMemory, Station, Text, Unjoined};

/// What a participant does in a preparation.
#[derive(Drop)]
pub enum Deed {
    /// It answers this byte.
    Answer(u8),
    /// It sets its own flag and waits for the other: it answers 01 if that is set in time, and otherwise 00.
    Meet {
        own: Arc<AtomicBool>,
        other: Arc<AtomicBool>,
    },
    /// It answers 01 this many times, is refused memory once, and then answers 01 again.
    Fail {
        calls: u64,
    },
    /// Several sessions call it at once: it answers 01 if another preparation began in time, and otherwise 00. The
    /// number is that of all that began.
    Together {
        began: Arc<AtomicU64>,
    },
    /// It answers 01 if no other preparation of it was under way meanwhile, and otherwise 00. The number is that of
    /// those that are.
    Alone {
        under_way: Arc<AtomicU64>,
    },
}

/// A participant. As a selector it selects the groups that the context's entry `go` names. It may join, and an outcome
/// has no effect on it ([`Bystander`]).
#[derive(Drop)]
struct Actor {
    alloc: Global,
    deed: Deed,
}

/// A station of such a participant.
pub fn station_of(alloc: Global, name: &str, deed: Deed) -> Result<Station, Fail> {
    let actor = Box::new(alloc, Bystander::new(Actor { alloc, deed }))?;
    Ok(Station::new(alloc, name, actor)?)
}

impl Deed {
    fn answer(&mut self) -> Result<u8, NoMemory> {
        match self {
            Deed::Answer(byte) => Ok(*byte),
            Deed::Meet { own, other } => {
                own.store(true, Ordering::SeqCst);
                Ok(if is_set_in_time(other) { 0x01 } else { 0x00 })
            }
            Deed::Fail { calls: 0 } => {
                *self = Deed::Answer(0x01);
                Err(NoMemory)
            }
            Deed::Fail { calls } => {
                *calls = calls.saturating_sub(1);
                Ok(0x01)
            }
            Deed::Together { began } => Ok(answer_if(reaches_two(began))),
            Deed::Alone { under_way } => Ok(answer_if(stays_alone(under_way))),
        }
    }

    // The same beside other calls; only `Together` is called so.
    fn answer_beside(&self) -> Result<u8, NoMemory> {
        match self {
            Deed::Together { began } => Ok(answer_if(reaches_two(began))),
            _ => Err(NoMemory),
        }
    }
}

fn answer_if(good: bool) -> u8 {
    if good { 0x01 } else { 0x00 }
}

// Whether two have begun, in time.
fn reaches_two(began: &AtomicU64) -> bool {
    began.fetch_add(1, Ordering::SeqCst);
    reaches_in_time(began, 2)
}

// Whether no other was under way while this one took some time.
fn stays_alone(under_way: &AtomicU64) -> bool {
    let others = under_way.fetch_add(1, Ordering::SeqCst);
    let mut most = others;
    for _ in 0..10_000 {
        most = most.max(under_way.load(Ordering::SeqCst).saturating_sub(1));
    }
    under_way.fetch_sub(1, Ordering::SeqCst);
    most == 0
}

// Contracts see nothing of it, and it promises nothing.
impl Unjoined for Actor {
    ghost use Rattle.std.specs.Prelude.{⊤, []};

    ghost object = { λ actor. [] };

    ghost selects = { λ id o x text p. ⊤ };

    ghost prepares_for_abort = { λ id o x byte p y. ⊤ };

    ghost prepares = { λ id o x byte p y. ⊤ };

    fn select(&mut self, _id: u64, context: &Context) -> Result<Text, NoMemory> {
        match context.get("go").map(|go| str::from_utf8(go)) {
            Some(Ok(go)) => Ok(Text::from_str(self.alloc, go)?),
            _ => Ok(Text::from_str(self.alloc, "")?),
        }
    }

    fn prepare_for_abort(&mut self, _id: u64, _context: &mut Context) -> Result<u8, NoMemory> {
        self.deed.answer()
    }

    fn prepare(&mut self, _id: u64, _context: &mut Context) -> Result<u8, NoMemory> {
        self.deed.answer()
    }

    fn is_shared(&self) -> bool {
        matches!(&self.deed, Deed::Together { .. })
    }

    fn prepare_beside(&self, _id: u64, _context: &mut Context) -> Result<u8, NoMemory> {
        self.deed.answer_beside()
    }
}

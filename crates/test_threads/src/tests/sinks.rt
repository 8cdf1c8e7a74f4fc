//! A sink of the tests.

ghost use Rattle.std.specs.Prelude.{⊤};

use std::alloc::{AllocError, Global};
use std::marker::Model;
use std::sync::Arc;
use std::sync::atomic::{AtomicBool, Ordering};
use sw_context::Context;
use sw_participant::NoMemory;
use tx_pool::Sink;

/// Keeps what it takes, and sets its flag each time. It is refused memory once it has as many as it may take.
#[derive(Drop)]
pub struct Recording {
    taken: Vec<(u64, Context)>,
    most: usize,
    has_taken: Arc<AtomicBool>,
}

// Contracts see only how many it may take.
impl Model for Recording {
    ghost use Rattle.std.specs.Prelude.{ℕ, ⊤};

    ghost Value = { ℕ };

    ghost view = { λ r. r.most };

    ghost invariant = { λ r. ⊤ };
}

impl Recording {
    pub fn new(
        alloc: Global,
        most: usize,
        has_taken: Arc<AtomicBool>,
    ) -> Result<Recording, AllocError> {
        Ok(Recording {
            taken: Vec::with_capacity(alloc, most)?,
            most,
            has_taken,
        })
    }

    /// The ids and contexts that it took, in order.
    pub fn taken(&self) -> &[(u64, Context)] {
        self.taken.as_slice()
    }
}

impl Sink for Recording {
    ghost takes = { λ before id context after. ⊤ };

    fn take(&mut self, id: u64, context: &Context) -> Result<(), NoMemory> {
        if self.taken.len() >= self.most {
            return Err(NoMemory);
        }
        let Ok(context) = context.copy() else {
            return Err(NoMemory);
        };
        if self.taken.push((id, context)).is_err() {
            return Err(NoMemory);
        }
        self.has_taken.store(true, Ordering::SeqCst);
        Ok(())
    }
}

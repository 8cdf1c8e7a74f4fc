//! The queue from the thread that reads to the one that gets.

ghost use Rattle.std.specs.Prelude.{◌≡◌, ◌++◌, ◌∷◌, []};
ghost use Rattle.run_input.specs.Arrivals.{Came};

use crate::arrival::Arrival;
use run_watch::Watch;
use std::marker::{Brand, PhantomData};
use std::sync::atomic::{AtomicU64, Ordering};
use std::sync::{Arc, Wait};
use std::time::Duration;
use tx_intake::{Intake, Law, Putter};

/// How many arrivals the queue holds.
pub(crate) const CAPACITY: usize = 256;

/// How long the thread that reads waits at most before it looks for room again, in milliseconds.
const LOOKING: u64 = 100;

/// An input, as contracts name it: what it has when it is begun, and how many bytes the header of a frame has.
pub trait Input {
    ghost use Rattle.std.specs.Prelude.{ℕ, List, Option};

    ghost input: { Option (List ℕ) };

    ghost header: { ℕ };
}

impl Input for Brand {
    ghost use Rattle.std.specs.Prelude.{None};

    ghost input = { None };

    ghost header = { 0 };
}

/// The law of the queue: what is put came of the input.
pub(crate) struct CameOf<B> {
    of: PhantomData<B>,
}

impl<B: Input> Law<Arrival> for CameOf<B> {
    ghost use Rattle.run_input.specs.Arrivals.{Came};

    ghost may = { Came B.header B.input };
}

/// The queue, and what both of its threads look at.
#[derive(Drop)]
pub(crate) struct Queue<B: Input> {
    pub(crate) intake: Intake<Arrival, CameOf<B>>,
    pub(crate) watch: Arc<Watch>,
    /// How many arrivals were put.
    pub(crate) put: AtomicU64,
    /// 1 if the thread that reads waits for room.
    pub(crate) is_full: AtomicU64,
    /// How often there was room for it.
    pub(crate) room: AtomicU64,
}

impl<B: Input> Queue<B> {
    /// Notes that an arrival was got, so that there is room.
    pub(crate) fn make_room(&self) {
        if self.is_full.swap(0, Ordering::SeqCst) > 0 {
            self.room.fetch_add(1, Ordering::SeqCst);
            self.room.wake_one();
        }
    }

    /// How many arrivals were put.
    pub(crate) fn count(&self) -> u64 {
        self.put.load(Ordering::SeqCst)
    }

    /// Puts an arrival as soon as there is room, and rings.
    pub(crate) fn put<R: Wait>(&self, rt: &R, putter: &mut Putter<Arrival>, item: Arrival)
        requires own { putter.old.intake ≡ self.now.intake.id }
        requires may { Came B.header B.input (putter.old.passed ++ item ∷ []) }
        ensures own { putter.new.intake ≡ self.now.intake.id }
        ensures put { putter.new.passed ≡ putter.old.passed ++ item ∷ [] }
    {
        let mut left = item;
        for _ in rt.forever() {
            let rooms = self.room.load(Ordering::SeqCst);
            self.is_full.store(1, Ordering::SeqCst);
            match self.intake.put(rt, putter, left) {
                Ok(()) => {
                    self.is_full.store(0, Ordering::SeqCst);
                    self.put.fetch_add(1, Ordering::SeqCst);
                    self.watch.ring();
                    return;
                }
                Err(back) => {
                    left = back;
                    let most = Duration::from_millis(LOOKING);
                    self.room
                        .park_timeout(rt, (rooms & 0xffff_ffff) as u32, most);
                }
            }
        }
        unreachable!()
    }
}

//! What came of an input, for the thread that gets it.

ghost use Rattle.std.specs.Prelude.{◌≡◌, ◌++◌, ◌∷◌, [], IfOk, MatchOption};
ghost use Rattle.std.specs.Arc.{arc_value};
ghost use Rattle.tx_intake.specs.Rule.{LawfulAfter};
ghost use Rattle.run_input.specs.Arrivals.{Came};

use crate::arrival::Arrival;
use crate::queue::{CAPACITY, Input, Queue};
use crate::reader::read_all;
use run_watch::Watch;
use std::alloc::{AllocError, Global};
use std::io::Read;
use std::marker::Model;
use std::sync::atomic::AtomicU64;
use std::sync::{Arc, Wait};
use std::thread::{self, Threads};
use tx_intake::{Getter, Intake};

/// What came of an input. Contracts see all that was got, the oldest first.
#[derive(Drop)]
pub struct Arrivals<'a, B: Input, T> {
    pub(crate) rt: &'a T,
    pub(crate) queue: Arc<Queue<B>>,
    pub(crate) getter: Getter<Arrival>,
    /// How many were got.
    pub(crate) count: u64,
}

impl<'a, B: Input, T> Model for Arrivals<'a, B, T> {
    ghost use Rattle.std.specs.Prelude.{◌≡◌, List};
    ghost use Rattle.std.specs.Arc.{arc_value};
    ghost use Rattle.tx_intake.specs.Rule.{LawfulAfter};
    ghost use Rattle.run_input.specs.Arrivals.{Came};
    ghost use Rattle.run_input.specs.declared.arrival.Arrival.{Arrival};

    ghost Value = { List Arrival };

    ghost view = { λ a. a.getter.passed };

    ghost invariant = { λ a. (a.getter.intake ≡ (arc_value a.queue).intake.id)
        × LawfulAfter (Came B.header B.input) a.getter.passed };
}

impl<'a, B: Input, T: Wait> Arrivals<'a, B, T> {
    /// Starts the thread that reads the input, which nobody joins: it ends with the input, or with the program. Before each
    /// message of a frame is a header of `header` bytes. What is under way is told to the watch. It is refused if no memory
    /// or no thread can be had.
    pub fn open<R: Read + Drop + Send + 'static>(
        rt: &'a T,
        alloc: Global,
        input: R,
        header: usize,
        watch: &Arc<Watch>,
    ) -> Result<Arrivals<'a, B, T>, AllocError>
    where
        T: Threads + Clone + Drop + Send + 'static,
        B: Send + Sync + 'static,
        requires input { R.remaining input ≡ B.input }
        requires header { header ≡ B.header }
        ensures { IfOk result (λ arrivals. arrivals ≡ []) }
    {
        let Ok(made) = Intake::new(alloc, CAPACITY) else {
            return Err(AllocError);
        };
        let (intake, putter, getter) = made;
        let queue = Arc::new(
            alloc,
            Queue {
                intake,
                watch: Arc::try_clone(watch)?,
                put: AtomicU64::new(0),
                is_full: AtomicU64::new(0),
                room: AtomicU64::new(0),
            },
        )?;
        let (reads, shared) = (rt.clone()?, Arc::try_clone(&queue)?);
        thread::spawn(
            rt,
            move ||
                requires own { putter.intake ≡ (arc_value shared).intake.id }
                requires none { putter.passed ≡ [] }
                requires input { R.remaining input ≡ B.input }
                requires header { header ≡ B.header }
            {
                read_all(&reads, alloc, &shared, putter, header, input);
            },
        )?;
        Ok(Arrivals {
            rt,
            queue,
            getter,
            count: 0,
        })
    }

    /// Waits until something has come.
    pub fn wait(&self) {
        for _ in self.rt.forever() {
            let rings = self.queue.watch.rings();
            if self.waiting() > 0 {
                return;
            }
            self.queue.watch.sleep(self.rt, rings);
        }
    }

    /// What came next, or `None` if nothing has come yet.
    pub fn get(&mut self) -> Option<Arrival>
        ensures { MatchOption result (self.new ≡ self.old)
            (λ arrival. self.new ≡ self.old ++ arrival ∷ []) }
    {
        let arrival = self.queue.intake.get(self.rt, &mut self.getter)?;
        self.count = self.count.wrapping_add(1);
        self.queue.make_room();
        Some(arrival)
    }
}

impl<'a, B: Input, T> Arrivals<'a, B, T> {
    pub(crate) fn watch(&self) -> &Watch {
        &self.queue.watch
    }

    /// How many arrivals wait to be got.
    pub fn waiting(&self) -> u64 {
        self.queue.count().saturating_sub(self.count)
    }

    /// What was got came of the input.
    pub fn has_come(&self)
        ensures { LawfulAfter (Came B.header B.input) self.now }
    {
        let _queue = &self.queue;
    }
}

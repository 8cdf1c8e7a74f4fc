//! Queues by name.
ghost use Rattle.std.specs.Prelude.{◌≡◌, ℕ, List, [], OnOk, string_bytes};
ghost use Rattle.cli_script.specs.Queues.{OthersStay, PutsLast, queue_at};

use std::alloc::{AllocError, Global};
use std::collections::{BTreeMap, VecDeque};

/// A queue for each name; a name that was never used has an empty one.
pub struct Queues<T> {
    held: BTreeMap<String, VecDeque<T>>,
}

// Written out, so that no caller proves again how its parts are dropped.
impl<T: Drop> Drop for Queues<T> {
    fn drop(self) {
        let Queues { held: _ } = self;
    }
}

impl<T: Drop> Queues<T> {
    pub fn new(alloc: Global) -> Queues<T>
        ensures { (name : List ℕ) → queue_at result name ≡ [] }
    {
        Queues {
            held: BTreeMap::new(alloc),
        }
    }

    /// Puts an item after those of its name.
    pub fn push(&mut self, name: String, item: T) -> Result<(), AllocError>
        ensures { OnOk result (PutsLast (queue_at self.old) (queue_at self.new)
            (string_bytes name) item) }
    {
        self.held.entry(name)?.or_default().push_back(item)?;
        Ok(())
    }

    /// Takes the queue of a name; an empty one if none is kept.
    pub fn take(&mut self, alloc: Global, name: &str) -> VecDeque<T>
        ensures taken { result.items ≡ queue_at self.old name.now }
        ensures others { OthersStay (queue_at self.old) (queue_at self.new) name.now }
    {
        match self.held.remove(name) {
            Some(queue) => queue,
            None => VecDeque::new(alloc),
        }
    }
}

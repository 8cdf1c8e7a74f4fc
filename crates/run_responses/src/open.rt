//! The transactions that are under way.

use std::alloc::Global;
use std::collections::BTreeMap;
use tx_history::Entry;

/// The ids of the transactions that were taken and whose ends the sink has not taken, as the written entries tell them.
pub(crate) struct OpenIds {
    ids: BTreeMap<u64, ()>,
    /// Whether an id is missing, since memory was refused.
    lost: bool,
}

// Written out, so that no caller proves again how its parts are dropped.
impl Drop for OpenIds {
    fn drop(self) {
        let OpenIds { ids: _, lost: _ } = self;
    }
}

impl OpenIds {
    pub(crate) fn new(alloc: Global) -> OpenIds {
        OpenIds {
            ids: BTreeMap::new(alloc),
            lost: false,
        }
    }

    /// Ends the transaction of this id. Gives the least of the others, below which none is under way, or `None` if
    /// there is none.
    pub(crate) fn end(&mut self, id: u64) -> Option<u64> {
        let _gone = self.ids.remove(&id);
        self.first()
    }

    fn first(&self) -> Option<u64> {
        if self.lost {
            return Some(0);
        }
        match self.ids.first_key_value() {
            Some((id, _)) => Some(*id),
            None => None,
        }
    }

    // Notes what an entry did. Returns whether it ended a transaction, or put one on the shelf.
    fn note(&mut self, entry: &Entry) -> bool {
        match &entry.change.row {
            Some((id, None)) => {
                // One that ended by `done` is taken next; one on the shelf is not.
                if entry.change.shelved.is_some() {
                    let _gone = self.ids.remove(id);
                }
                true
            }
            Some((id, Some(_))) => {
                if self.ids.insert(*id, ()).is_err() {
                    self.lost = true;
                }
                false
            }
            None => false,
        }
    }

    /// Notes what the entries did. Returns how many transactions they ended or put on the shelf.
    pub(crate) fn note_all(&mut self, entries: &[Entry]) -> usize {
        let mut ended: usize = 0;
        for entry in entries {
            if self.note(entry) {
                ended = ended.saturating_add(1);
            }
        }
        ended
    }
}

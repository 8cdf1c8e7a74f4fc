//! The transactions that ended.

ghost use Rattle.std.specs.Prelude.{◌≡◌, ◌++◌, true, IfOk, OnOk, Some};
ghost use Rattle.tx_plant.specs.Core.{find};
ghost use Rattle.tx_plant.specs.Wholes.{core_in};
ghost use Rattle.tx_locked.specs.Finished.{AreKept, finished_by, finished_in};

use std::alloc::{AllocError, Global};
use sw_context::Context;
use tx_history::Entry;
use tx_plant::Running;

/// A transaction that ended by `done`, with the context that it ended with.
pub struct Finished {
    pub id: u64,
    pub context: Context,
}

// Written out, so that no caller proves again how its parts are dropped.
impl Drop for Finished {
    fn drop(self) {
        let Finished { id: _, context: _ } = self;
    }
}

// Adds the id of the transaction that the entry ended by `done`, if it ended one.
fn add_finished(ids: &mut Vec<u64>, entry: &Entry) -> Result<(), AllocError>
    ensures { OnOk result (ids.new.items
        ≡ ids.old.items ++ finished_by entry.now.change.row entry.now.change.shelved) }
{
    match (&entry.change.row, &entry.change.shelved) {
        (Some((id, None)), None) => ids.push(*id)?,
        _ => {}
    }
    Ok(())
}

/// The ids of the transactions that the entries ended by `done`, in order.
pub fn finished_in(alloc: Global, entries: &[Entry]) -> Result<Vec<u64>, AllocError>
    ensures { IfOk result (λ ids. ids.items ≡ finished_in entries.now) }
{
    let mut ids = Vec::new(alloc);
    for entry in entries {
        add_finished(&mut ids, entry)?;
    }
    Ok(ids)
}

// Whether the transaction ended with its context.
fn is_kept(running: &Running, one: &Finished) -> bool
    ensures { result ≡ true → find one.now.id (core_in running.now).ended ≡ Some one.now.context }
{
    match running.ended(one.id) {
        Some(context) => context.is_same(&one.context),
        None => false,
    }
}

/// Whether each transaction ended with its context.
pub fn are_kept(running: &Running, finished: &[Finished]) -> bool
    ensures { result ≡ true → AreKept (core_in running.now) finished.now }
{
    for one in finished {
        if !is_kept(running, one) {
            return false;
        }
    }
    true
}

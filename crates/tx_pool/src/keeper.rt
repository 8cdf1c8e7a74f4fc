//! What the keeper of the journal does, in the calling thread: it writes, and hands over what has ended.

ghost use Rattle.std.specs.Prelude.{All, ◌≡◌, ◌<◌, length, true, IfErr, IfOk, IfSome, OnErr, OnOk};
ghost use Rattle.journal_tables.specs.Small.{IsEntrySmall};
ghost use Rattle.journal_store.specs.Kept.{kept};
ghost use Rattle.tx_pool.specs.Sinks.{KeptAll, KeptBatch, KeptPart, SinkTookSome};
ghost use Rattle.tx_pool.specs.Wrote.{MayHaveWritten, Wrote};

use crate::shared::Shared;
use crate::sink::{Sink, hand_over};
use journal_store::{Journal, JournalError};
use sqlite::Alter;
use std::alloc::Global;
use std::sync::Wait;
use sw_participant::Caller;
use tx_history::Entry;
use tx_locked::{Fault, Finished, Run, finished_in};

/// A journal with copies of the entries that were written to it, the sink with the transactions that it
/// took, and whether each write was done, and all that it ended was taken.
#[derive(Drop)]
pub(crate) struct Kept<S: Alter, Z: Sink> {
    pub(crate) journal: Journal<S>,
    pub(crate) written: Vec<Entry>,
    pub(crate) sink: Z,
    pub(crate) taken: Vec<Finished>,
    pub(crate) all_done: bool,
}

// Waits until there are entries to write, or the run is over; gives copies of them.
fn next_batch<K: Run, C: Caller, R: Wait>(
    rt: &R,
    alloc: Global,
    shared: &Shared<K, C>,
) -> Option<Vec<Entry>>
    ensures small { IfSome result (λ late. All IsEntrySmall late.items) }
{
    let locked = shared.locked.lock(rt);
    let mut locked = shared
        .work
        .wait_while(rt, locked, |locked| locked.is_quiet());
    if locked.gather() {
        locked = shared.gather(rt, locked);
    }
    if locked.is_stopped() || locked.is_over() {
        return None;
    }
    match locked.unwritten(alloc) {
        Ok(late) => Some(late),
        Err(_) => {
            let _ = locked.stop(Fault::OutOfMemory);
            None
        }
    }
}

// Writes the entries, of which there must be at least one.
fn write<S: Alter>(journal: &mut Journal<S>, late: &[Entry]) -> Result<(), Fault>
    requires { All IsEntrySmall late.now }
    ensures some { IfOk result (λ _. 0 < length late.now) }
    ensures wrote { IfOk result (λ _.
        Wrote (kept S.Store journal.old) late.now (kept S.Store journal.new)) }
    ensures refused { IfErr result (λ _.
        MayHaveWritten (kept S.Store journal.old) late.now (kept S.Store journal.new)) }
{
    if late.is_empty() {
        return Err(Fault::ReceiptMismatch(1));
    }
    match journal.write(late) {
        Ok(()) => Ok(()),
        Err(error) => Err(Fault::Journal(error)),
    }
}

impl<S: Alter + Drop, Z: Sink> Kept<S, Z> {
    // Writes the entries, and then hands over the transactions that they ended by `done`. No lock is held
    // while it does either.
    fn keep_batch<K: Run, C: Caller, R: Wait>(
        &mut self,
        rt: &R,
        alloc: Global,
        shared: &Shared<K, C>,
        late: Vec<Entry>,
    ) -> Result<(), Fault>
        requires { All IsEntrySmall late.items }
        ensures all { OnOk result (KeptBatch Z.takes K.start (kept S.Store self.old.journal)
            (kept S.Store self.new.journal) late.items self.old.written.items
            self.new.written.items self.old.sink self.new.sink self.old.taken.items
            self.new.taken.items) }
        ensures some { OnErr result (KeptPart Z.takes K.start (kept S.Store self.old.journal)
            (kept S.Store self.new.journal) late.items self.old.sink self.new.sink) }
        ensures flag { self.new.all_done ≡ self.old.all_done }
    {
        if let Err(fault) = write(&mut self.journal, late.as_slice()) {
            return Err(fault);
        }
        self.sink.written(late.as_slice());
        let Ok(ids) = finished_in(alloc, late.as_slice()) else {
            return Err(Fault::OutOfMemory);
        };
        let finished = match shared.wrote(rt, alloc, late.len(), ids.as_slice()) {
            Ok(finished) => finished,
            Err(fault) => return Err(fault),
        };
        let (mut late, mut finished) = (late, finished);
        if self.written.append(&mut late).is_err() {
            return Err(Fault::OutOfMemory);
        }
        if !hand_over(&mut self.sink, finished.as_slice()) {
            return Err(Fault::OutOfMemory);
        }
        if self.taken.append(&mut finished).is_err() {
            return Err(Fault::OutOfMemory);
        }
        Ok(())
    }
}

/// Writes the entries as they come, all unwritten ones in one transaction, and hands over what they ended,
/// until the run is over.
pub(crate) fn keep<S: Alter + Drop, K: Run, C: Caller, Z: Sink, R: Wait>(
    rt: &R,
    alloc: Global,
    shared: &Shared<K, C>,
    journal: Journal<S>,
    sink: Z,
) -> Kept<S, Z>
    ensures all { result.all_done ≡ true → KeptAll Z.takes K.start (kept S.Store journal)
        (kept S.Store result.journal) result.written.items sink result.sink result.taken.items }
    ensures some { SinkTookSome Z.takes K.start (kept S.Store journal)
        (kept S.Store result.journal) sink result.sink }
{
    let mut kept = Kept {
        journal,
        written: Vec::new(alloc),
        sink,
        taken: Vec::new(alloc),
        all_done: false,
    };
    for _ in rt.forever() {
        let Some(late) = next_batch(rt, alloc, shared) else {
            shared.tell_all();
            kept.sink.over();
            kept.all_done = true;
            return kept;
        };
        match kept.keep_batch(rt, alloc, shared, late) {
            Ok(()) => {}
            Err(fault) => {
                shared.stop(rt, fault);
                kept.sink.over();
                return kept;
            }
        }
    }
    kept
}

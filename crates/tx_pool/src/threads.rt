//! All threads of a run.

ghost use Rattle.std.specs.Prelude.{◌≡◌, [], List, true};
ghost use Rattle.sw_context.specs.Pairs.{Pairs};
ghost use Rattle.journal_store.specs.Kept.{kept};
ghost use Rattle.tx_pool.specs.Sinks.{KeptAll, SinkTookSome};

use crate::attending::attend_all;
use crate::feeding::{Fed, feed};
use crate::gate::Gate;
use crate::keeper::{Kept, keep};
use crate::shared::Shared;
use crate::sink::Sink;
use journal_store::Journal;
use sqlite::Alter;
use std::alloc::Global;
use std::sync::Wait;
use std::thread::{self, Threads};
use sw_participant::Caller;
use tx_intake::{OfferPutter, Source};
use tx_locked::{Fault, Run, Session};

/// What comes back from the threads. The source or the sessions are missing if their thread could
/// not be started, and the sessions also if memory was refused.
#[derive(Drop)]
pub(crate) struct Worked<S: Alter, K: Run, O: Source, Z: Sink> {
    pub(crate) fed: Option<Fed<K, O>>,
    pub(crate) sessions: Option<Vec<Session<K>>>,
    pub(crate) kept: Kept<S, Z>,
}

/// What the threads of a run work on: offers, sessions, the journal, and where what ended goes.
pub(crate) struct Tasks<S: Alter, K: Run, O: Source, Z: Sink> {
    pub(crate) source: O,
    pub(crate) putter: OfferPutter,
    pub(crate) sessions: Vec<Session<K>>,
    pub(crate) journal: Journal<S>,
    pub(crate) sink: Z,
}

/// Runs all threads until each has ended: the feeder's, one that runs a thread for each session, and
/// the calling one, which keeps the journal. If one cannot be started, the run is given up.
pub(crate) fn work<
    R: Threads + Wait + Sync,
    S: Alter + Drop,
    K: Run + Send + Sync,
    C: Caller + Send + Sync,
    O: Source + Send,
    Z: Sink,
    G: Gate + Sync,
>(
    rt: &R,
    alloc: Global,
    shared: &Shared<K, C>,
    gate: &G,
    tasks: Tasks<S, K, O, Z>,
) -> Worked<S, K, O, Z>
    requires queue { tasks.putter.intake ≡ K.intake }
    requires none { tasks.putter.passed ≡ [] }
    requires given { O.given tasks.source ≡ K.given }
    requires plan { (all : List Pairs) → O.ends_with tasks.source all → K.ends_with all }
    ensures all { result.kept.all_done ≡ true → KeptAll Z.takes K.start (kept S.Store tasks.journal)
        (kept S.Store result.kept.journal) result.kept.written.items tasks.sink
        result.kept.sink result.kept.taken.items }
    ensures some { SinkTookSome Z.takes K.start (kept S.Store tasks.journal)
        (kept S.Store result.kept.journal) tasks.sink result.kept.sink }
{
    let Tasks {
        source,
        putter,
        sessions,
        journal,
        sink,
    } = tasks;
    thread::scope(
        thread::scope_env(),
        rt,
        move |scope| -> Worked<S, K, O, Z>
            requires queue { putter.intake ≡ K.intake }
            requires none { putter.passed ≡ [] }
            requires given { O.given source ≡ K.given }
            requires plan { (all : List Pairs) → O.ends_with source all → K.ends_with all }
            ensures all { result.kept.all_done ≡ true → KeptAll Z.takes K.start (kept S.Store journal)
                (kept S.Store result.kept.journal) result.kept.written.items sink
                result.kept.sink result.kept.taken.items }
            ensures some { SinkTookSome Z.takes K.start (kept S.Store journal)
                (kept S.Store result.kept.journal) sink result.kept.sink }
        {
            let feeder = match scope.spawn(
                move || -> Fed<K, O>
                    requires queue { putter.intake ≡ K.intake }
                    requires none { putter.passed ≡ [] }
                    requires given { O.given source ≡ K.given }
                    requires plan { (all : List Pairs) → O.ends_with source all → K.ends_with all }
                { feed(rt, shared, source, putter) },
            ) {
                Ok(handle) => Some(handle),
                Err(_refused) => None,
            };
            let server = match scope.spawn(move || attend_all(rt, alloc, shared, gate, sessions)) {
                Ok(handle) => Some(handle),
                Err(_refused) => None,
            };
            if feeder.is_none() || server.is_none() {
                shared.stop(rt, Fault::OutOfMemory);
            }
            let kept = keep(rt, alloc, shared, journal, sink);
            let fed = match feeder {
                Some(handle) => Some(handle.join(rt)),
                None => None,
            };
            let sessions = match server {
                Some(handle) => handle.join(rt),
                None => None,
            };
            Worked {
                fed,
                sessions,
                kept,
            }
        },
    )
}

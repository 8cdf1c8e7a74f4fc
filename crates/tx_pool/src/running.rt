//! A run, from the plant's parts to what it leaves.

ghost use Rattle.std.specs.Prelude.{◌≡◌, ◌≤◌, ◌+◌, List, [], length, map, IfErr, IfOk, vec_len, vec_capacity};
ghost use Rattle.sw_context.specs.Pairs.{Pairs};
ghost use Rattle.sw_participant.specs.Chains.{rule_at};
ghost use Rattle.journal_store.specs.Kept.{kept};
ghost use Rattle.tx_plant.specs.Core.{core};
ghost use Rattle.tx_plant.specs.Plant.{seen};
ghost use Rattle.tx_plant.specs.Written.{IsWritten};
ghost use Rattle.tx_plant.specs.Wholes.{core_in, engine_in};
ghost use Rattle.tx_locked.specs.AllStations.{AreReady};
ghost use Rattle.tx_pool.specs.Drives.{Drove};
ghost use Rattle.tx_pool.specs.Sinks.{SinkTook, SinkTookSome};
ghost use Rattle.tx_pool.specs.Went.{Grown, Offered, Reports};
ghost use Rattle.tx_locked.specs.Settled.{IsSettled};

use crate::ending::{Lost, Ran, Remains, conclude};
use crate::gate::Gate;
use crate::moving::{open_sessions, seat_stations, unseat_stations};
use crate::seat::Seat;
use crate::shared::Shared;
use crate::sink::Sink;
use crate::threads::{Tasks, work};
use journal_store::Journal;
use sqlite::Alter;
use std::alloc::{AllocError, Global};
use std::marker::{Brand, PhantomData};
use std::sync::atomic::AtomicU64;
use std::sync::ledger::{Blank, Share};
use std::sync::{Condvar, Mutex, Wait};
use std::thread::Threads;
use sw_participant::Caller;
use tx_intake::{OfferGetter, OfferIntake, OfferPutter, Source};
use tx_locked::{Fault, Locked, MadeCall, Run, RunIntake, Session, StationParts};
use tx_plant::Running;

/// Empty lists with the room that a run needs on its way in and back, and its sessions. All this
/// memory is taken before the threads start, so that the journal and the stations can always be
/// handed back.
#[derive(Drop)]
struct Rooms<K: Run, C: Caller> {
    sessions: Vec<Session<K>>,
    seats: Vec<Seat<K, C>>,
    stations: Vec<StationParts<C>>,
    logs: Vec<Vec<MadeCall>>,
    receipts: Vec<Vec<usize>>,
}

fn make_rooms<K: Run, C: Caller>(
    alloc: Global,
    sessions: usize,
    stations: usize,
    share: &mut Share<K>,
) -> Result<Rooms<K, C>, AllocError>
    requires parts { share.old.parts ≡ sessions + 1 }
    requires amount { share.old.amount ≡ 0 }
    ensures share { IfOk result (λ _. (share.new.parts ≡ 1) × (share.new.amount ≡ 0)) }
    ensures sessions { IfOk result (λ r. vec_len r.sessions ≡ sessions) }
    ensures seats { IfOk result (λ r. (vec_len r.seats ≡ 0) × (stations ≤ vec_capacity r.seats)) }
    ensures stations { IfOk result (λ r. (r.stations.items ≡ [])
        × (stations ≤ vec_capacity r.stations)) }
    ensures logs { IfOk result (λ r. (r.logs.items ≡ []) × (stations ≤ vec_capacity r.logs)) }
    ensures receipts { IfOk result (λ r. (r.receipts.items ≡ [])
        × (sessions ≤ vec_capacity r.receipts)) }
{
    Ok(Rooms {
        sessions: open_sessions(alloc, sessions, share)?,
        seats: Vec::with_capacity(alloc, stations)?,
        stations: Vec::with_capacity(alloc, stations)?,
        logs: Vec::with_capacity(alloc, stations)?,
        receipts: Vec::with_capacity(alloc, sessions)?,
    })
}

/// What a run works on.
pub(crate) struct Work<S: Alter, C: Caller, O: Source, Z: Sink> {
    pub(crate) running: Running,
    pub(crate) journal: Journal<S>,
    pub(crate) stations: Vec<StationParts<C>>,
    pub(crate) source: O,
    pub(crate) sink: Z,
    pub(crate) intake: OfferIntake,
    pub(crate) putter: OfferPutter,
    pub(crate) getter: OfferGetter,
}

// A run, under the names of its ledger, its intake and its start.
fn run_in<
    S: Alter + Drop,
    K: Run + Send + Sync,
    C: Caller + Send + Sync,
    O: Source + Send,
    Z: Sink,
    G: Gate + Sync,
    R: Threads + Wait + Sync,
>(
    rt: &R,
    alloc: Global,
    task: Work<S, C, O, Z>,
    blank: Blank,
    gate: &G,
) -> Result<Ran<S, C, O, Z>, Lost<S, C, Z>>
    requires start { core_in task.running ≡ K.start }
    requires ready { AreReady K.rule K.objects K.counts K.names (λ s. C.rule s.participant)
        (λ s. C.object s.participant) (λ s. s.calls) (λ s. s.name) task.stations.items }
    requires lists { (length K.objects ≡ vec_len task.stations)
        × (length K.counts ≡ length K.objects) × (length K.names ≡ length K.objects) }
    requires queue { (task.intake.id ≡ K.intake) × (task.putter.intake ≡ K.intake)
        × (task.getter.intake ≡ K.intake) }
    requires none { (task.putter.passed ≡ []) × (task.getter.passed ≡ []) }
    requires source { O.given task.source ≡ K.given }
    requires plan { (all : List Pairs) → O.ends_with task.source all → K.ends_with all }
    requires marked { K.start.world.mark ≤ length K.start.world.past }
    requires seats { length K.start.seats ≡ K.start.world.sessions }
    requires blank { (blank.name ≡ K.name) × (blank.parts ≡ K.parts)
        × (blank.parts ≡ K.start.world.sessions + 1) }
    ensures drove { IfOk result (λ r. Drove K.rule K.objects K.counts
        (record { core = K.start; journal = seen (kept S.Store task.journal) })
        (map (λ s. C.object s.participant) r.stations.items) (map (λ s. s.calls) r.stations.items)
        (record {
          core = core_in r.running;
          journal = seen (kept S.Store r.journal);
        })) }
    ensures names { IfOk result (λ r. map (λ s. s.name) r.stations.items ≡ K.names) }
    ensures settled { IfOk result (λ r. IsSettled (engine_in r.running)) }
    ensures grown { IfOk result (λ r. Grown K.start.world (engine_in r.running)) }
    ensures reports { IfOk result (λ r. Reports (λ v. v.items) K.start.world (engine_in r.running)
        r.report.receipts.items r.report.finished r.report.shelved) }
    ensures offered { IfOk result (λ r. Offered K.start.world (engine_in r.running)
        K.given (O.given r.source) (O.ended r.source)) }
    ensures whole { IfOk result (λ r. K.ends_with (O.given r.source)) }
    ensures written { IfOk result (λ r. IsWritten K.start.world (kept S.Store task.journal)
        → IsWritten (engine_in r.running) (kept S.Store r.journal)) }
    ensures took { IfOk result (λ r.
        SinkTook Z.takes K.start.world (core_in r.running) task.sink r.sink) }
    ensures lost { IfErr result (λ e. vec_len e.stations ≡ vec_len task.stations) }
    ensures some { IfErr result (λ e. SinkTookSome Z.takes K.start (kept S.Store task.journal)
        (kept S.Store e.journal) task.sink e.sink) }
{
    let Work {
        running,
        journal,
        stations,
        source,
        sink,
        intake,
        putter,
        getter,
    } = task;
    let mark = running.engine().mark();
    let from = running.engine().history().len();
    let sessions = running.engine().sessions();
    let (book, mut share) = blank.open::<K>();
    let Ok(rooms) = make_rooms::<K, C>(alloc, sessions, stations.len(), &mut share) else {
        return Err(Lost {
            fault: Fault::OutOfMemory,
            journal,
            stations,
            sink,
        });
    };
    let shared = Shared {
        locked: Mutex::new(Locked::new(alloc, running, getter, book)),
        work: Condvar::new(),
        written: Condvar::new(),
        offers: Condvar::new(),
        room: Condvar::new(),
        gathered: AtomicU64::new(0),
        seats: seat_stations(alloc, stations, rooms.seats),
        intake: RunIntake {
            intake,
            of: PhantomData,
        },
    };
    let worked = work(
        rt,
        alloc,
        &shared,
        gate,
        Tasks {
            source,
            putter,
            sessions: rooms.sessions,
            journal,
            sink,
        },
    );
    let Shared {
        locked,
        work: _,
        written: _,
        offers: _,
        room: _,
        gathered: _,
        seats,
        intake,
    } = shared;
    conclude(Remains {
        mark,
        from,
        locked: locked.into_inner(),
        intake,
        worked,
        share,
        back: unseat_stations(seats, rooms.stations, rooms.logs),
        receipts: rooms.receipts,
    })
}

/// Runs stations that were taken out of their plant: a drive of the plant, by their own rules, from
/// their own objects and counts.
pub(crate) fn run_parts<
    S: Alter + Drop,
    C: Caller + Send + Sync,
    O: Source + Send,
    Z: Sink,
    G: Gate + Sync,
    R: Threads + Wait + Sync,
>(rt: &R, alloc: Global, task: Work<S, C, O, Z>, gate: &G) -> Result<Ran<S, C, O, Z>, Lost<S, C, Z>>
    requires putter { (task.putter.intake ≡ task.intake.id) × (task.putter.passed ≡ []) }
    requires getter { (task.getter.intake ≡ task.intake.id) × (task.getter.passed ≡ []) }
    ensures drove { IfOk result (λ r. Drove
        (rule_at (λ s. C.rule s.participant) task.stations.items)
        (map (λ s. C.object s.participant) task.stations.items)
        (map (λ s. s.calls) task.stations.items)
        (record {
          core = core_in task.running;
          journal = seen (kept S.Store task.journal);
        })
        (map (λ s. C.object s.participant) r.stations.items) (map (λ s. s.calls) r.stations.items)
        (record {
          core = core_in r.running;
          journal = seen (kept S.Store r.journal);
        })) }
    ensures names { IfOk result (λ r.
        map (λ s. s.name) r.stations.items ≡ map (λ s. s.name) task.stations.items) }
    ensures settled { IfOk result (λ r. IsSettled (engine_in r.running)) }
    ensures grown { IfOk result (λ r. Grown (engine_in task.running) (engine_in r.running)) }
    ensures reports { IfOk result (λ r. Reports (λ v. v.items) (engine_in task.running)
        (engine_in r.running) r.report.receipts.items r.report.finished r.report.shelved) }
    ensures offered { IfOk result (λ r. Offered (engine_in task.running) (engine_in r.running)
        (O.given task.source) (O.given r.source) (O.ended r.source)) }
    ensures whole { IfOk result (λ r. O.ends_with task.source (O.given r.source)) }
    ensures written { IfOk result (λ r.
        IsWritten (engine_in task.running) (kept S.Store task.journal)
        → IsWritten (engine_in r.running) (kept S.Store r.journal)) }
    ensures took { IfOk result (λ r. SinkTook Z.takes (engine_in task.running)
        (core_in r.running) task.sink r.sink) }
    ensures lost { IfErr result (λ e. vec_len e.stations ≡ vec_len task.stations) }
    ensures some { IfErr result (λ e. SinkTookSome Z.takes (core_in task.running) (kept S.Store task.journal)
        (kept S.Store e.journal) task.sink e.sink) }
{
    task.running.engine_is_sound();
    let sessions = task.running.engine().sessions();
    let blank = Blank::new(sessions as u64 + 1);
    run_in::<S, Brand, C, O, Z, G, R>(rt, alloc, task, blank, gate)
}

//! The pool.

ghost use Rattle.std.specs.Prelude.{◌≡◌, ◌≤◌, [], None, IfErr, IfOk, MatchResult, map, vec_len, vec_capacity};
ghost use Rattle.sw_participant.specs.Chains.{rule_at};
ghost use Rattle.sw_participant.specs.Stations.{name_of, calls_of, object_of, rule_of};
ghost use Rattle.tx_plant.specs.Plant.{IsEngine};
ghost use Rattle.tx_plant.specs.Written.{IsWritten};
ghost use Rattle.tx_plant.specs.Wholes.{core_of, engine_of, kept_of, plant_parts, stations_of, whole_at};
ghost use Rattle.tx_pool.specs.Drives.{Drove};
ghost use Rattle.tx_pool.specs.Early.{IsRefused, early_refusal};
ghost use Rattle.tx_pool.specs.Sinks.{SinkAfter, SinkTook};
ghost use Rattle.tx_locked.specs.Settled.{IsSettled};
ghost use Rattle.tx_pool.specs.Went.{Grown, Offered, Reports};

use crate::ending::{Lost, Ran};
use crate::gate::Gate;
use crate::refusal::{Early, Late, PoolError};
use crate::report::Report;
use crate::running::{Work, run_parts};
use crate::sink::{Nowhere, Sink};
use sqlite::Alter;
use std::alloc::Global;
use std::sync::Wait;
use std::thread::Threads;
use sw_participant::{Participant, Station};
use tx_engine::Engine;
use tx_intake::{IntakeError, OfferGetter, OfferIntake, OfferPutter, Source};
use tx_locked::StationParts;
use tx_plant::{Plant, PlantParts};

type Boxed = Box<dyn Participant + Send + Sync>;

// Puts the parts of the stations into a list with room for them.
fn take_apart(stations: Vec<Station>, parts: Vec<StationParts<Boxed>>) -> Vec<StationParts<Boxed>>
    requires room { vec_len stations ≤ vec_capacity parts }
    requires empty { parts.items ≡ [] }
    ensures participants { map (λ s. s.participant) result.items
        ≡ map (λ s. s.participant) stations.items }
    ensures names { map (λ s. s.name) result.items ≡ map name_of stations.items }
    ensures calls { map (λ s. s.calls) result.items ≡ map calls_of stations.items }
{
    let mut parts = parts;
    for station in stations {
        let (name, participant, calls) = station.into_parts();
        parts.push_reserved(StationParts {
            name,
            participant,
            calls,
        });
    }
    parts
}

// Puts the stations of these parts into a list with room for them.
fn put_together(parts: Vec<StationParts<Boxed>>, stations: Vec<Station>) -> Vec<Station>
    requires room { vec_len parts ≤ vec_capacity stations }
    requires empty { stations.items ≡ [] }
    ensures participants { map (λ s. s.participant) result.items
        ≡ map (λ s. s.participant) parts.items }
    ensures names { map name_of result.items ≡ map (λ s. s.name) parts.items }
    ensures calls { map calls_of result.items ≡ map (λ s. s.calls) parts.items }
{
    let mut stations = stations;
    for part in parts {
        let StationParts {
            name,
            participant,
            calls,
        } = part;
        stations.push_reserved(Station::from_parts(name, participant, calls));
    }
    stations
}

/// Runs the sessions of a plant as threads.
pub struct Pool;

// Why the plant is not run, memory aside.
fn allow(engine: &Engine, capacity: usize) -> Result<(), Early>
    ensures { MatchResult result
        (λ _. early_refusal engine.now capacity ≡ None)
        (λ e. early_refusal engine.now capacity ≡ Some e) }
{
    if engine.has_break() {
        return Err(Early::BreakSet);
    }
    if engine.is_in_use() {
        return Err(Early::InUse);
    }
    if !(1..=4_096).contains(&capacity) {
        return Err(Early::BadCapacity);
    }
    Ok(())
}

/// What a run needs besides the plant, with its memory.
struct Needs {
    intake: OfferIntake,
    putter: OfferPutter,
    getter: OfferGetter,
    parts: Vec<StationParts<Boxed>>,
    stations: Vec<Station>,
}

fn make_needs(alloc: Global, capacity: usize, stations: usize) -> Result<Needs, Early>
    ensures putter { IfOk result (λ n. (n.putter.intake ≡ n.intake.id) × (n.putter.passed ≡ [])) }
    ensures getter { IfOk result (λ n. (n.getter.intake ≡ n.intake.id) × (n.getter.passed ≡ [])) }
    ensures parts { IfOk result (λ n. (n.parts.items ≡ []) × (stations ≤ vec_capacity n.parts)) }
    ensures stations { IfOk result (λ n. (n.stations.items ≡ [])
        × (stations ≤ vec_capacity n.stations)) }
    ensures refused { IfErr result (λ e. e ≡ Early.OutOfMemory) }
{
    let Ok((intake, putter, getter)) = OfferIntake::new(alloc, capacity) else {
        return Err(Early::OutOfMemory);
    };
    let Ok(parts) = Vec::with_capacity(alloc, stations) else {
        return Err(Early::OutOfMemory);
    };
    let Ok(list) = Vec::with_capacity(alloc, stations) else {
        return Err(Early::OutOfMemory);
    };
    Ok(Needs {
        intake,
        putter,
        getter,
        parts,
        stations: list,
    })
}

// Makes the plant of what a run left.
fn plant_of<S: Alter + Drop, O: Source, Z: Sink>(
    ran: Ran<S, Boxed, O, Z>,
    stations: Vec<Station>,
) -> (Plant<S>, Streams<O, Z>, Report)
    requires room { vec_len ran.stations ≤ vec_capacity stations }
    requires empty { stations.items ≡ [] }
    ensures running { (plant_parts result.0).running ≡ ran.running }
    ensures journal { (plant_parts result.0).journal ≡ ran.journal }
    ensures participants { map (λ s. s.participant) (stations_of result.0)
        ≡ map (λ s. s.participant) ran.stations.items }
    ensures names { map name_of (stations_of result.0) ≡ map (λ s. s.name) ran.stations.items }
    ensures calls { map calls_of (stations_of result.0) ≡ map (λ s. s.calls) ran.stations.items }
    ensures source { result.1.source ≡ ran.source }
    ensures sink { result.1.sink ≡ ran.sink }
    ensures report { result.2 ≡ ran.report }
{
    let Ran {
        running,
        journal,
        stations: parts,
        source,
        sink,
        report,
    } = ran;
    let stations = put_together(parts, stations);
    let plant = Plant::from_parts(PlantParts {
        running,
        journal,
        stations,
    });
    (plant, Streams { source, sink }, report)
}

// What a run that was given up leaves.
fn late<S: Alter + Drop, Z: Sink>(lost: Lost<S, Boxed, Z>, stations: Vec<Station>) -> (Late<S>, Z)
    requires room { vec_len lost.stations ≤ vec_capacity stations }
    requires empty { stations.items ≡ [] }
    ensures journal { result.0.journal ≡ lost.journal }
    ensures names { map name_of result.0.stations.items ≡ map (λ s. s.name) lost.stations.items }
    ensures sink { result.1 ≡ lost.sink }
{
    let Lost {
        fault,
        journal,
        stations: parts,
        sink,
    } = lost;
    let late = Late {
        cause: fault,
        journal,
        stations: put_together(parts, stations),
    };
    (late, sink)
}

/// The streams of a run: where its contexts come from, and where its transactions go when they have ended.
#[derive(Drop)]
pub struct Streams<O: Source, Z: Sink> {
    pub source: O,
    pub sink: Z,
}

impl<O: Source, Z: Sink> Streams<O, Z> {
    /// The source and the sink.
    pub fn into_parts(self) -> (O, Z)
        ensures source { result.0 ≡ self.source }
        ensures sink { result.1 ≡ self.sink }
    {
        let Streams { source, sink } = self;
        (source, sink)
    }
}

impl Pool {
    /// Runs all sessions of the plant, each in a thread, until the source has ended, every offer has
    /// been taken and every session is idle; the calling thread writes the journal.
    ///
    /// Refuses `Early`, with the plant as it was, in this order: `BreakSet`, `InUse`, `BadCapacity`,
    /// `OutOfMemory`. A run that cannot go on is `Late`: it hands the journal and the stations back.
    pub fn run<S: Alter + Drop, O: Source + Send, G: Gate + Sync, R: Threads + Wait + Sync>(
        rt: &R,
        alloc: Global,
        plant: Plant<S>,
        source: O,
        capacity: usize,
        gate: &G,
    ) -> Result<(Plant<S>, O, Report), PoolError<S>>
        requires engine { IsEngine (engine_of plant) }
        ensures drove { IfOk result (λ r.
            Drove (rule_at (rule_of Participant-dyn) (stations_of plant))
            (map (object_of Participant-dyn) (stations_of plant))
            (map calls_of (stations_of plant)) (whole_at S.Store plant)
            (map (object_of Participant-dyn) (stations_of r.0)) (map calls_of (stations_of r.0))
            (whole_at S.Store r.0)) }
        ensures names { IfOk result (λ r.
            map name_of (stations_of r.0) ≡ map name_of (stations_of plant)) }
        ensures settled { IfOk result (λ r. IsSettled (engine_of r.0)) }
        ensures grown { IfOk result (λ r. Grown (engine_of plant) (engine_of r.0)) }
        ensures reports { IfOk result (λ r. Reports (λ v. v.items) (engine_of plant)
            (engine_of r.0) r.2.receipts.items r.2.finished r.2.shelved) }
        ensures offered { IfOk result (λ r. Offered (engine_of plant) (engine_of r.0)
            (O.given source) (O.given r.1) (O.ended r.1)) }
        ensures whole { IfOk result (λ r. O.ends_with source (O.given r.1)) }
        ensures written { IfOk result (λ r. IsWritten (engine_of plant) (kept_of S.Store plant)
            → IsWritten (engine_of r.0) (kept_of S.Store r.0)) }
        ensures allowed { IfOk result (λ _. early_refusal (engine_of plant) capacity ≡ None) }
        ensures refused { IfErr result (λ e. IsRefused plant
            (early_refusal (engine_of plant) capacity) e) }
    {
        let streams = Streams {
            source,
            sink: Nowhere,
        };
        match Pool::run_into(rt, alloc, plant, streams, capacity, gate) {
            Ok((plant, streams, report)) => Ok((plant, streams.source, report)),
            Err((error, _)) => Err(error),
        }
    }

    /// Likewise, and hands each transaction that ended by `done` to the sink as soon as its entries are
    /// in the journal. The sink comes back from each run, with what it took.
    pub fn run_into<
        S: Alter + Drop,
        O: Source + Send,
        Z: Sink,
        G: Gate + Sync,
        R: Threads + Wait + Sync,
    >(
        rt: &R,
        alloc: Global,
        plant: Plant<S>,
        streams: Streams<O, Z>,
        capacity: usize,
        gate: &G,
    ) -> Result<(Plant<S>, Streams<O, Z>, Report), (PoolError<S>, Z)>
        requires engine { IsEngine (engine_of plant) }
        ensures drove { IfOk result (λ r.
            Drove (rule_at (rule_of Participant-dyn) (stations_of plant))
            (map (object_of Participant-dyn) (stations_of plant))
            (map calls_of (stations_of plant)) (whole_at S.Store plant)
            (map (object_of Participant-dyn) (stations_of r.0)) (map calls_of (stations_of r.0))
            (whole_at S.Store r.0)) }
        ensures names { IfOk result (λ r.
            map name_of (stations_of r.0) ≡ map name_of (stations_of plant)) }
        ensures settled { IfOk result (λ r. IsSettled (engine_of r.0)) }
        ensures grown { IfOk result (λ r. Grown (engine_of plant) (engine_of r.0)) }
        ensures reports { IfOk result (λ r. Reports (λ v. v.items) (engine_of plant)
            (engine_of r.0) r.2.receipts.items r.2.finished r.2.shelved) }
        ensures offered { IfOk result (λ r. Offered (engine_of plant) (engine_of r.0)
            (O.given streams.source) (O.given r.1.source) (O.ended r.1.source)) }
        ensures whole { IfOk result (λ r. O.ends_with streams.source (O.given r.1.source)) }
        ensures written { IfOk result (λ r. IsWritten (engine_of plant) (kept_of S.Store plant)
            → IsWritten (engine_of r.0) (kept_of S.Store r.0)) }
        ensures allowed { IfOk result (λ _. early_refusal (engine_of plant) capacity ≡ None) }
        ensures refused { IfErr result (λ e. IsRefused plant
            (early_refusal (engine_of plant) capacity) e.0) }
        ensures took { IfOk result (λ r. SinkTook Z.takes (engine_of plant) (core_of r.0)
            streams.sink r.1.sink) }
        ensures some { IfErr result (λ e.
            SinkAfter S.Store Z.takes (core_of plant) (kept_of S.Store plant) streams.sink e.0 e.1) }
    {
        let Streams { source, sink } = streams;
        if let Err(cause) = allow(plant.engine(), capacity) {
            return Err((PoolError::Early(plant, cause), sink));
        }
        let PlantParts {
            running,
            journal,
            stations,
        } = plant.into_parts();
        let Needs {
            intake,
            putter,
            getter,
            parts,
            stations: back,
        } = match make_needs(alloc, capacity, stations.len()) {
            Ok(needs) => needs,
            Err(cause) => {
                let plant = Plant::from_parts(PlantParts {
                    running,
                    journal,
                    stations,
                });
                return Err((PoolError::Early(plant, cause), sink));
            }
        };
        let work = Work {
            running,
            journal,
            stations: take_apart(stations, parts),
            source,
            sink,
            intake,
            putter,
            getter,
        };
        match run_parts(rt, alloc, work, gate) {
            Ok(ran) => Ok(plant_of(ran, back)),
            Err(lost) => {
                let (late, sink) = late(lost, back);
                Err((PoolError::Late(late), sink))
            }
        }
    }
}

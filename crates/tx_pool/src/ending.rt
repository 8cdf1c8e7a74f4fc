//! The end of a run, in the calling thread: what the threads left is compared.

ghost use Rattle.std.specs.Prelude.{◌≡◌, ◌≤◌, ◌+◌, ℕ, List, [], true, drop, length, map, IfErr, IfOk};
ghost use Rattle.std.specs.Prelude.{vec_len, vec_capacity};
ghost use Rattle.tx_locked.specs.AllStations.{AllBack};
ghost use Rattle.tx_locked.specs.Finished.{AreKept};
ghost use Rattle.tx_plant.specs.Plant.{IsEngine};
ghost use Rattle.tx_plant.specs.Wholes.{core_in, engine_in};
ghost use Rattle.tx_pool.specs.Ended.{Ended, IsSettledSince};
ghost use Rattle.tx_pool.specs.Feeding.{HasFed};
ghost use Rattle.tx_locked.specs.Receipts.{all_of, count_done, count_shelved};
ghost use Rattle.tx_pool.specs.Went.{Agrees, Reports};

use crate::feeding::Fed;
use crate::keeper::Kept;
use crate::moving::{Back, close_sessions};
use crate::report::Report;
use crate::sink::Sink;
use crate::threads::Worked;
use journal_store::Journal;
use sqlite::Alter;
use std::sync::ledger::Share;
use sw_participant::Caller;
use tx_engine::Engine;
use tx_history::Entry;
use tx_intake::Source;
use tx_locked::{
    Fault, Left, Locked, MadeCall, Run, RunIntake, Session, StationParts, are_all_own, are_calls,
    are_kept, are_same, both, count_finished, count_on_shelf, is_settled,
};
use tx_plant::Running;

/// What is left of a run that ended well.
#[derive(Drop)]
pub(crate) struct Ran<S: Alter, C: Caller, O: Source, Z: Sink> {
    pub(crate) running: Running,
    pub(crate) journal: Journal<S>,
    pub(crate) stations: Vec<StationParts<C>>,
    pub(crate) source: O,
    pub(crate) sink: Z,
    pub(crate) report: Report,
}

/// What is left of a run that was given up, and why it was.
#[derive(Drop)]
pub(crate) struct Lost<S: Alter, C: Caller, Z: Sink> {
    pub(crate) fault: Fault,
    pub(crate) journal: Journal<S>,
    pub(crate) stations: Vec<StationParts<C>>,
    pub(crate) sink: Z,
}

// How many entries the history had when the run began, and how many of them were written.
struct RunStart {
    from: usize,
    mark: usize,
}

// Whether what the threads left agrees with the history, which was this long when the run began.
fn agree(
    engine: &Engine,
    began: RunStart,
    made: &[MadeCall],
    logs: &[Vec<MadeCall>],
    receipts: &[Vec<usize>],
    written: &[Entry],
) -> bool
    requires mark { began.mark ≤ length (all_of engine.now) }
    requires from { began.from ≤ length (all_of engine.now) }
    ensures { result ≡ true → Agrees (λ v. v.items) (λ v. v.items) engine.now
        began.mark began.from made.now logs.now receipts.now written.now }
{
    let RunStart { from, mark } = began;
    if !is_settled(engine) {
        return false;
    }
    let history = engine.history();
    if !are_same(written, &history[mark..]) {
        return false;
    }
    if !are_calls(made, logs) {
        return false;
    }
    are_all_own(&history[from..], receipts)
}

// The fault of a run that contradicts its history: the number is the one after its last entry.
fn mismatch(engine: &Engine) -> Fault {
    Fault::ReceiptMismatch(engine.history().len().saturating_add(1))
}

/// What the threads left of a run that began with `from` entries, `mark` of them written.
pub(crate) struct Remains<S: Alter, K: Run, C: Caller, O: Source, Z: Sink> {
    pub(crate) mark: usize,
    pub(crate) from: usize,
    pub(crate) locked: Locked<K>,
    pub(crate) intake: RunIntake<K>,
    pub(crate) worked: Worked<S, K, O, Z>,
    pub(crate) share: Share<K>,
    pub(crate) back: Back<C>,
    /// Room for the receipts.
    pub(crate) receipts: Vec<Vec<usize>>,
}

// What was under the engine's lock, the source, and the receipts, and whether all that the source
// has was put, and all of that was got.
#[derive(Drop)]
struct Settled<O: Source> {
    running: Running,
    source: O,
    made: Vec<MadeCall>,
    receipts: Vec<Vec<usize>>,
    is_settled: bool,
}

// Takes apart what the threads left, except the journal and the stations.
fn take_back<K: Run, O: Source>(
    locked: Locked<K>,
    intake: RunIntake<K>,
    fed: Option<Fed<K, O>>,
    sessions: Option<Vec<Session<K>>>,
    share: Share<K>,
    receipts: Vec<Vec<usize>>,
) -> Result<Settled<O>, Fault>
    requires parts { K.parts ≡ K.start.world.sessions + 1 }
    requires share { (share.parts ≡ 1) × (share.amount ≡ 0) }
    requires room { K.start.world.sessions ≤ vec_capacity receipts }
    requires no_receipts { receipts.items ≡ [] }
    ensures since { IfOk result (λ r. r.is_settled ≡ true → IsSettledSince K.start
        (core_in r.running) K.given (O.given r.source) (O.ended r.source)
        r.made.items) }
    ensures whole { IfOk result (λ r. r.is_settled ≡ true → K.ends_with (O.given r.source)) }
    ensures sessions { IfOk result (λ r. vec_len r.receipts ≡ K.start.world.sessions) }
    ensures longer { IfOk result (λ r.
        length K.start.world.past ≤ length (all_of (engine_in r.running))) }
    ensures engine { IfOk result (λ r. IsEngine (engine_in r.running)) }
{
    let Left {
        running,
        getter,
        book,
        made,
        numbers: _,
        fault,
    } = locked.into_parts();
    if let Some(fault) = fault {
        return Err(fault);
    }
    // Where a thread was not started, or memory refused, there is a fault.
    let (Some(fed), Some(sessions)) = (fed, sessions) else {
        return Err(mismatch(running.engine()));
    };
    if sessions.len() != running.engine().sessions() {
        return Err(mismatch(running.engine()));
    }
    let (source, putter, all_put) = fed.into_parts();
    let mut book = book;
    let mut share = share;
    let receipts = close_sessions(sessions, &mut share, receipts);
    book.audit(&mut share);
    let all_got = intake.intake.settle(putter, getter);
    running.engine_is_sound();
    Ok(Settled {
        running,
        source,
        made,
        receipts,
        is_settled: both(all_put, all_got),
    })
}

// What is left of a run that is given up.
fn give_up<S: Alter + Drop, C: Caller, Z: Sink>(
    fault: Fault,
    kept: Kept<S, Z>,
    back: Back<C>,
) -> Lost<S, C, Z>
    ensures journal { result.journal ≡ kept.journal }
    ensures stations { result.stations ≡ back.stations }
    ensures sink { result.sink ≡ kept.sink }
{
    let Kept {
        journal,
        written: _,
        sink,
        taken: _,
        all_done: _,
    } = kept;
    let Back {
        stations,
        logs: _,
        in_order: _,
    } = back;
    Lost {
        fault,
        journal,
        stations,
        sink,
    }
}

// What is left of a run that ended well and began with `from` entries.
fn finish<S: Alter + Drop, C: Caller, O: Source, Z: Sink>(
    from: usize,
    settled: Settled<O>,
    kept: Kept<S, Z>,
    back: Back<C>,
) -> Ran<S, C, O, Z>
    requires { from ≤ length (all_of (engine_in settled.running)) }
    ensures running { result.running ≡ settled.running }
    ensures source { result.source ≡ settled.source }
    ensures receipts { result.report.receipts ≡ settled.receipts }
    ensures finished { result.report.finished
        ≡ count_done (drop from (all_of (engine_in settled.running))) }
    ensures shelved { result.report.shelved
        ≡ count_shelved (drop from (all_of (engine_in settled.running))) }
    ensures journal { result.journal ≡ kept.journal }
    ensures stations { result.stations ≡ back.stations }
    ensures sink { result.sink ≡ kept.sink }
{
    let Settled {
        running,
        source,
        made: _,
        receipts,
        is_settled: _,
    } = settled;
    let entries = &running.engine().history()[from..];
    let finished = count_finished(entries);
    let shelved = count_on_shelf(entries);
    let Lost {
        fault: _,
        journal,
        stations,
        sink,
    } = give_up(Fault::OutOfMemory, kept, back);
    Ran {
        running,
        journal,
        stations,
        source,
        sink,
        report: Report {
            receipts,
            finished,
            shelved,
        },
    }
}

/// Compares what the threads left. A run in which something disagrees is given up.
pub(crate) fn conclude<S: Alter + Drop, K: Run, C: Caller, O: Source, Z: Sink>(
    remains: Remains<S, K, C, O, Z>,
) -> Result<Ran<S, C, O, Z>, Lost<S, C, Z>>
    requires mark { remains.mark ≡ K.start.world.mark }
    requires from { remains.from ≡ length K.start.world.past }
    requires marked { remains.mark ≤ remains.from }
    requires parts { K.parts ≡ K.start.world.sessions + 1 }
    requires share { (remains.share.parts ≡ 1) × (remains.share.amount ≡ 0) }
    requires room { K.start.world.sessions ≤ vec_capacity remains.receipts }
    requires no_receipts { remains.receipts.items ≡ [] }
    requires back { remains.back.in_order ≡ true → AllBack K.rule K.objects K.counts K.names
        (λ s. C.object s.participant) (λ s. s.calls) (λ s. s.name) (λ v. v.items)
        remains.back.stations.items remains.back.logs.items }
    requires lists { (length K.counts ≡ length K.objects) × (length K.names ≡ length K.objects) }
    ensures ended { IfOk result (λ r. (got : List (List ℕ))
        × Ended K.rule K.objects K.counts K.start
        (core_in r.running) got remains.worked.kept.written.items
        (map (λ s. C.object s.participant) r.stations.items) (map (λ s. s.calls) r.stations.items)
        × HasFed K.given (O.given r.source) (O.ended r.source) got) }
    ensures whole { IfOk result (λ r. K.ends_with (O.given r.source)) }
    ensures names { IfOk result (λ r. map (λ s. s.name) r.stations.items ≡ K.names) }
    ensures kept { IfOk result (λ r. (remains.worked.kept.all_done ≡ true)
        × (r.journal ≡ remains.worked.kept.journal)) }
    ensures taken { IfOk result (λ r. (r.sink ≡ remains.worked.kept.sink)
        × AreKept (core_in r.running) remains.worked.kept.taken.items) }
    ensures reports { IfOk result (λ r. Reports (λ v. v.items) K.start.world (engine_in r.running)
        r.report.receipts.items r.report.finished r.report.shelved) }
    ensures lost { IfErr result (λ e. (e.journal ≡ remains.worked.kept.journal)
        × (e.stations ≡ remains.back.stations) × (e.sink ≡ remains.worked.kept.sink)) }
{
    let Remains {
        mark,
        from,
        locked,
        intake,
        worked,
        share,
        back,
        receipts,
    } = remains;
    let Worked {
        fed,
        sessions,
        kept,
    } = worked;
    let settled = match take_back(locked, intake, fed, sessions, share, receipts) {
        Ok(settled) => settled,
        Err(fault) => return Err(give_up(fault, kept, back)),
    };
    let all_agree = agree(
        settled.running.engine(),
        RunStart { from, mark },
        settled.made.as_slice(),
        back.logs.as_slice(),
        settled.receipts.as_slice(),
        kept.written.as_slice(),
    );
    let all_done = both(settled.is_settled, kept.all_done);
    let all_same = both(back.in_order, all_agree);
    let all_kept = are_kept(&settled.running, kept.taken.as_slice());
    let agrees = both(all_done, all_same);
    if !both(agrees, all_kept) {
        let fault = mismatch(settled.running.engine());
        return Err(give_up(fault, kept, back));
    }
    Ok(finish(from, settled, kept, back))
}

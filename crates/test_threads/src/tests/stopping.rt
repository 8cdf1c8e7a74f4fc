//! Runs whose store refuses a write.

use crate::tests::disks::{Disks, found_again, new_disks};
use crate::tests::flags::new_flag;
use crate::tests::plants::{Runtime, code_of_two, listed, plant_on, run, stations_of_two};
use crate::tests::sinks::Recording;
use flow_asm::Code;
use journal_store::{Journal, JournalError, Left};
use sqlite::{Alter, Connection, Options};
use std::test::*;
use sw_participant::Station;
use tx_history::JournalView;
use tx_intake::Listed;
use tx_machine::Phase;
use tx_plant::{Plant, PlantParts};
use tx_pool::{Fault, Late, Open, Pool, PoolError, Report, Streams};

/// More calls of the disks than any run makes.
const MOST_CALLS: u64 = 10_000;
/// How many calls a transaction makes.
const ALL: u64 = 4;
/// How many calls a recovery makes for a transaction, by how many of its replies are written: `check` is notified
/// of the abort, since it may be prepared; both are notified of the abort; both are notified of the commit; `send`
/// is notified of the commit; nobody is notified.
const CALLS_OF_RECOVERY: [u64; 5] = [1, 2, 2, 1, 0];

/// What a run that was given up left beside its journal.
#[derive(Drop)]
struct Remains {
    stations: Vec<Station>,
    /// How many transactions the sink took.
    taken: usize,
}

/// What became of a plant whose store refuses a call.
#[derive(Drop)]
enum Life {
    /// The journal was not opened, or not read.
    NotOpened,
    /// The run was given up.
    GivenUp(Remains),
    /// The run ended well.
    Done,
    /// It recovered what a run that was given up had left. This many replies of its transaction were written;
    /// `None`: the transaction was not in the journal.
    Recovered(Option<u64>),
}

fn calls_of(stations: &[Station]) -> u64 {
    let mut count: u64 = 0;
    for station in stations {
        count = count.saturating_add(station.calls());
    }
    count
}

fn left_store<S: Alter + Drop>(left: Left<S>) -> S {
    match left {
        Left::Open(conn) => conn.into_store(),
        Left::Closed(store) => store,
    }
}

// What a run left that was given up since its journal refused.
fn given_up<S: Alter + Drop, R: Runtime>(
    rt: &R,
    error: PoolError<S>,
    sink: &Recording,
) -> Result<(Life, Journal<S>), Fail> {
    match error {
        PoolError::Late(late) => {
            let Late {
                cause,
                journal,
                stations,
            } = late;
            assert!(rt; matches!(&cause, Fault::Journal(JournalError::Store(_))));
            let taken = sink.taken().len();
            Ok((Life::GivenUp(Remains { stations, taken }), journal))
        }
        PoolError::Early(_plant, _cause) => Err(Fail::new("early")),
    }
}

// What became of a run over a journal that may refuse, and the journal.
fn life_of<S: Alter + Drop, R: Runtime>(
    rt: &R,
    ran: Result<(Plant<S>, Streams<Listed, Recording>, Report), (PoolError<S>, Recording)>,
) -> Result<(Life, Journal<S>), Fail> {
    match ran {
        Ok((plant, streams, _report)) => {
            let (_source, sink) = streams.into_parts();
            assert!(rt; sink.taken().len() == 1);
            let journal = plant.into_parts().journal;
            Ok((Life::Done, journal))
        }
        Err((error, sink)) => given_up(rt, error, &sink),
    }
}

// Runs one offer by one session over a journal that may refuse.
fn run_first<S: Alter + Drop, R: Runtime>(
    rt: &R,
    code: &Code,
    conn: Connection<S>,
) -> Result<(Life, S), Fail> {
    let alloc = rt.alloc();
    let journal = match Journal::open(alloc, conn) {
        Ok(journal) => journal,
        Err((_cause, left)) => return Ok((Life::NotOpened, left_store(left))),
    };
    let plant = match Plant::new(alloc, code, journal, stations_of_two(alloc)?, 1) {
        Ok(plant) => plant,
        Err((_cause, journal, _stations)) => {
            return Ok((Life::NotOpened, journal.into_connection().into_store()));
        }
    };
    plant.engine_is_sound();
    let streams = Streams {
        source: listed(alloc, 1)?,
        sink: Recording::new(alloc, 4, new_flag(alloc)?)?,
    };
    let ran = Pool::run_into(rt, alloc, plant, streams, 4, &Open);
    let (life, journal) = life_of(rt, ran)?;
    Ok((life, journal.into_connection().into_store()))
}

// How many replies of the one transaction are written; `None` if it is not in the journal.
fn replies_in(view: &JournalView) -> Option<u64> {
    match view.rows.as_slice() {
        [] if view.next_id == 1 => None,
        [] => Some(ALL),
        [(_, row), ..] if row.phase == Phase::Preparing => Some(row.joined.as_slice().len() as u64),
        [(_, row), ..] => Some((row.told as u64).saturating_add(2)),
    }
}

// Whether `made` calls may have been made if `written` replies are written: a call is made only once the entry
// before it is written, be it the take's or the last reply's.
fn are_calls_of(written: Option<u64>, made: u64) -> bool {
    match written {
        None => made == 0,
        Some(count) => count <= made && made <= ALL.min(count.saturating_add(1)),
    }
}

// A new plant of the stations that are left recovers what the first has left, and runs one more offer.
fn run_again<S: Alter + Drop, R: Runtime>(
    rt: &R,
    code: &Code,
    conn: Connection<S>,
    remains: Remains,
) -> Result<(Life, S), Fail> {
    let alloc = rt.alloc();
    let Remains { stations, taken } = remains;
    let made = calls_of(stations.as_slice());
    let journal = match Journal::open(alloc, conn) {
        Ok(journal) => journal,
        Err(_) => return Err(Fail::new("the journal is not opened again")),
    };
    let mut plant = plant_on(alloc, code, journal, stations, 1)?;
    let written = replies_in(plant.engine().opened());
    assert!(rt; are_calls_of(written, made), "{made} calls are made");
    // The sink takes a transaction only once its last entry is written.
    assert!(rt;
        taken == 0 || written == Some(ALL),
        "{taken} ends are taken"
    );
    assert!(rt; plant.recover(alloc).is_ok());
    let (plant, _, report) = run(rt, plant, listed(alloc, 1)?, 4, &Open)?;
    assert!(rt; report.finished == 1);
    let PlantParts {
        running: _,
        journal,
        stations,
    } = plant.into_parts();
    let recovered = match written {
        Some(count) => CALLS_OF_RECOVERY.get(count as usize).copied().unwrap_or(0),
        None => 0,
    };
    let all = made.saturating_add(recovered).saturating_add(ALL);
    assert_eq!(rt; calls_of(stations.as_slice()), all);
    Ok((
        Life::Recovered(written),
        journal.into_connection().into_store(),
    ))
}

// Runs a plant over the journal in these files; on what a first one left, if it is given. (Each function that calls
// a generic one at the store of these disks is slow to prove, so only this one does.)
fn run_files<R: Runtime>(
    rt: &R,
    code: &Code,
    files: Disks,
    left: Option<Remains>,
) -> Result<(Life, Disks), Fail> {
    if !files.may_be_used() {
        return Err(Fail::new("the disks are not as they are opened"));
    }
    let conn = match Connection::open_files(rt.alloc(), files, Options::new(1)) {
        Ok(conn) => conn,
        Err((_, left)) => return Ok((Life::NotOpened, left.into_files())),
    };
    let (life, store) = match left {
        None => run_first(rt, code, conn)?,
        Some(remains) => run_again(rt, code, conn, remains)?,
    };
    Ok((life, store.close()))
}

// Runs whose store refuses one call, the first, the second and so on, up to one that ends well.
fn refuse_each<R: Runtime>(rt: &R) -> Result<(), Fail> {
    let alloc = rt.alloc();
    let code = code_of_two(alloc)?;
    let mut seen = [false; 6];
    for calls in 0..MOST_CALLS {
        let (life, files) = run_files(rt, &code, new_disks(alloc, calls)?, None)?;
        match life {
            Life::Done => break,
            Life::GivenUp(remains) => {
                let files = found_again(alloc, files)?;
                let (life, _) = run_files(rt, &code, files, Some(remains))?;
                let Life::Recovered(written) = life else {
                    return Err(Fail::new("the journal is not found again"));
                };
                let place = match written {
                    Some(count) => count.min(4) as usize + 1,
                    None => 0,
                };
                seen[place] = true;
            }
            _ => {}
        }
    }
    // A refusal of each write is among them: of the take's, and of each of the four replies'.
    assert!(rt; seen[0] && seen[1] && seen[2] && seen[3] && seen[4]);
    Ok(())
}

#[test]
fn a_refused_write_ends_a_run(rt: HostRuntime) -> Result<(), Fail> {
    refuse_each(&rt)
}

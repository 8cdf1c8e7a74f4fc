//! A script whose turns are made again if memory is refused.
//!
//! The script is read, and its participants are made, before the first turn: if memory runs out during this, it
//! begins anew. Then a plant does the turns, each again if memory is refused. Only if memory is refused to the
//! journal's store does a new plant go on, over what the store has.
//! journal's store a new plant goes on, over what the store has.

ghost use Rattle.tx_plant.specs.Plant.{IsEngine};
ghost use Rattle.tx_plant.specs.Wholes.{engine_of};

use crate::error::TestError;
use cli_io::write_whole;
use cli_script::{Actions, ScriptError, open_script};
use cli_step::{outcome_line, turn_of};
use flow_asm::{Code, assemble};
use journal_store::{Cause, Journal, JournalError, Left};
use sqlite::{Connection, MemStore};
use std::alloc::{AllocError, Global};
use std::io::Write;
use sw_participant::Station;
use sw_scripted::Scripted;
use tx_engine::{Engine, EngineError};
use tx_plant::{Outcome, Plant, PlantError, PlantParts, Turn};
use tx_trace::line;

/// How often something is tried again: a test refuses one request for memory, or all from one on.
const TRIES: usize = 1_000;

/// Why something was not done.
#[derive(Drop)]
enum Refused {
    /// Memory was refused, and nothing has changed.
    Memory,
    /// Memory was refused to the journal's store: the journal has failed.
    Store,
    Other(TestError),
}

fn of_journal(cause: JournalError) -> Refused {
    match cause {
        JournalError::OutOfMemory => Refused::Memory,
        JournalError::Store(Cause::Memory) | JournalError::Failed => Refused::Store,
        other => Refused::Other(TestError::Journal(other)),
    }
}

fn of_plant(cause: PlantError) -> Refused {
    match cause {
        PlantError::OutOfMemory | PlantError::Engine(EngineError::OutOfMemory) => Refused::Memory,
        PlantError::Journal(cause) => of_journal(cause),
        other => Refused::Other(TestError::Plant(other)),
    }
}

// The turns of a script's lines.
fn turns_of(alloc: Global, actions: &mut Actions<'_>) -> Result<Vec<Turn>, TestError> {
    let mut turns = Vec::new(alloc);
    // (a script has fewer lines than that)
    for _ in 0..u64::MAX {
        let Some(action) = actions.next(alloc)? else {
            break;
        };
        match turn_of(alloc, &action) {
            Ok(Some(turn)) => turns.push(turn)?,
            Ok(None) => return Err(TestError::NoTurn),
            Err(_) => return Err(TestError::OutOfMemory(AllocError)),
        }
    }
    Ok(turns)
}

fn journal_of(alloc: Global, conn: Connection<MemStore>) -> Result<Journal<MemStore>, TestError> {
    let mut conn = conn;
    for _ in 0..TRIES {
        match Journal::open(alloc, conn) {
            Ok(journal) => return Ok(journal),
            Err((JournalError::BadRow(_), _)) => return Err(TestError::Lost),
            Err((_, Left::Open(back))) => conn = back,
            Err((_, Left::Closed(_))) => return Err(TestError::Lost),
        }
    }
    Err(TestError::OutOfMemory(AllocError))
}

// What is printed of a turn of a session.
fn line_of(
    alloc: Global,
    engine: &Engine,
    session: usize,
    outcome: &Outcome,
) -> Result<String, AllocError> {
    match outcome {
        Outcome::Accepted(number) => match line(alloc, engine, *number)? {
            Some(text) => Ok(text),
            None => Ok(String::new(alloc)),
        },
        other => outcome_line(alloc, engine, session, other),
    }
}

fn write_told<W: Write>(
    alloc: Global,
    engine: &Engine,
    session: usize,
    outcome: &Outcome,
    out: &mut W,
) -> Result<(), TestError> {
    for _ in 0..TRIES {
        if let Ok(text) = line_of(alloc, engine, session, outcome) {
            write_whole(out, text.as_bytes())?;
            write_whole(out, b"\n")?;
            return Ok(());
        }
    }
    Err(TestError::OutOfMemory(AllocError))
}

// The session whose step a turn is.
fn session_of(turns: &[Turn]) -> usize {
    match turns {
        [Turn::Step(session), ..] => *session,
        _ => 0,
    }
}

// Does one turn.
fn drive(alloc: Global, plant: &mut Plant<MemStore>, turn: &[Turn]) -> Result<Outcome, Refused>
    requires { IsEngine (engine_of plant.old) }
{
    match plant.drive(alloc, turn) {
        Ok(outcomes) => match outcomes.into_iter().next() {
            Some(Outcome::Refused(EngineError::OutOfMemory)) | None => Err(Refused::Memory),
            Some(outcome) => Ok(outcome),
        },
        Err(fault) => Err(of_plant(fault.cause)),
    }
}

// Does one turn, and does it again if memory is refused. `None`: the journal has failed.
fn drive_again(
    alloc: Global,
    plant: &mut Plant<MemStore>,
    turn: &[Turn],
) -> Result<Option<Outcome>, TestError>
    requires { IsEngine (engine_of plant.old) }
{
    for _ in 0..TRIES {
        plant.engine_is_sound();
        match drive(alloc, plant, turn) {
            Ok(outcome) => return Ok(Some(outcome)),
            Err(Refused::Memory) => {}
            Err(Refused::Store) => return Ok(None),
            Err(Refused::Other(error)) => return Err(error),
        }
    }
    Err(TestError::OutOfMemory(AllocError))
}

// Does the turns that are left, and writes what comes of each. Returns whether all are done; if not, the journal
// has failed.
fn drive_rest<W: Write>(
    alloc: Global,
    plant: &mut Plant<MemStore>,
    turns: &[Turn],
    done: &mut usize,
    out: &mut W,
) -> Result<bool, TestError>
    requires { IsEngine (engine_of plant.old) }
{
    for at in *done..turns.len() {
        *done = at;
        let turn = &turns[at..=at];
        plant.engine_is_sound();
        let Some(outcome) = drive_again(alloc, plant, turn)? else {
            return Ok(false);
        };
        write_told(alloc, plant.engine(), session_of(turn), &outcome, out)?;
    }
    Ok(true)
}

/// The turns of a script, and the plant that is to do them, but for its stations.
#[derive(Drop)]
struct Work {
    code: Code,
    sessions: usize,
    turns: Vec<Turn>,
}

// Does the turns over a plant of these stations; if its journal fails, over a new one, which is reported as a
// stop. `is_begun` is set before the first turn.
fn drive_all<W: Write>(
    alloc: Global,
    work: &Work,
    stations: Vec<Station>,
    is_begun: &mut bool,
    out: &mut W,
) -> Result<(), TestError> {
    let (mut journal, mut stations) = (
        journal_of(alloc, Connection::open_in_memory(alloc)?)?,
        stations,
    );
    let mut done = 0;
    for _ in 0..TRIES {
        let left = match Plant::new(alloc, &work.code, journal, stations, work.sessions) {
            Ok(mut plant) => {
                if *is_begun {
                    let restarted = Outcome::Restarted(plant.engine().recovering());
                    write_told(alloc, plant.engine(), 0, &restarted, out)?;
                }
                *is_begun = true;
                plant.engine_is_sound();
                if drive_rest(alloc, &mut plant, work.turns.as_slice(), &mut done, out)? {
                    return Ok(());
                }
                let PlantParts {
                    running: _,
                    journal: left,
                    stations: back,
                } = plant.into_parts();
                stations = back;
                left
            }
            Err((cause, left, back)) => {
                if let Refused::Other(error) = of_plant(cause) {
                    return Err(error);
                }
                stations = back;
                left
            }
        };
        journal = journal_of(alloc, left.into_connection())?;
    }
    Err(TestError::OutOfMemory(AllocError))
}

// Reads the script, makes a participant for each one of its flow, and does its turns. (It hands out no station, so
// that contracts know whose each participant is.)
fn run_once<W: Write>(
    alloc: Global,
    script: &[u8],
    is_begun: &mut bool,
    out: &mut W,
) -> Result<(), TestError> {
    let Some(mut script) = open_script(alloc, None, script)? else {
        return Err(TestError::NoLine);
    };
    let turns = turns_of(alloc, &mut script.actions)?;
    let code = assemble(alloc, &script.flow)?;
    let mut stations = Vec::new(alloc);
    for part in code.participants() {
        let replies = script.replies.take(alloc, part.name.as_str());
        let participant = Box::new(alloc, Scripted::new(alloc, replies))?;
        stations.push(Station::from_parts(part.name.copy()?, participant, 0))?;
    }
    let work = Work {
        code,
        sessions: script.sessions as usize,
        turns,
    };
    drive_all(alloc, &work, stations, is_begun, out)
}

fn is_memory(error: &TestError) -> bool {
    matches!(
        error,
        TestError::OutOfMemory(_) | TestError::Script(ScriptError::OutOfMemory)
    )
}

/// Does the turns of a script's lines over a journal in memory, and prints what comes of each. A turn that is
/// refused for memory is done again. If memory is refused to the journal's store, a new plant goes on over what
/// the store has, and that is printed as a stop is.
pub fn run_again<W: Write>(alloc: Global, script: &[u8], out: &mut W) -> Result<(), TestError> {
    let mut is_begun = false;
    for _ in 0..TRIES {
        match run_once(alloc, script, &mut is_begun, out) {
            Err(error) if !is_begun && is_memory(&error) => {}
            done => return done,
        }
    }
    Err(TestError::OutOfMemory(AllocError))
}

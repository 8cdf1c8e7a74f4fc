//! The row of a transaction that is preparing, and a journal whose store refuses a write.

use crate::tests::disks::{Disks, new_disks};
use crate::tests::plants::{Runtime, code_of_two, new_journal, plant_on, stations_of_two};
use journal_store::{Cause, Journal, JournalError};
use sqlite::{Alter, Connection, Options};
use std::alloc::Global;
use std::test::*;
use sw_context::Context;
use tx_history::Row;
use tx_machine::Phase;
use tx_plant::{Plant, PlantError, Turn};

/// More calls of the disks than opening a journal and writing twice make.
const MOST_CALLS: u64 = 1_000;

// A transaction is taken, `check` is prepared, and all is written.
fn turns(alloc: Global) -> [Turn; 5] {
    [
        Turn::Offer(Context::new(alloc)),
        Turn::Take(0),
        Turn::Write(None),
        Turn::Step(0),
        Turn::Write(None),
    ]
}

fn is_preparing_send(row: &Row) -> bool {
    let joined = row.joined.as_slice();
    let is_doing = match &row.doing {
        Some(name) => name.as_str() == "send",
        None => false,
    };
    row.phase == Phase::Preparing
        && joined.len() == 1
        && joined[0].as_str() == "check"
        && row.told == 0
        && is_doing
        && row.tries == 0
        && row.context.as_slice() == [0u8].as_slice()
}

#[test]
fn the_row_of_a_transaction_that_is_preparing(rt: HostRuntime) -> Result<(), Fail> {
    let alloc = rt.alloc();
    let stations = stations_of_two(alloc)?;
    let mut plant = plant_on(
        alloc,
        &code_of_two(alloc)?,
        new_journal(alloc)?,
        stations,
        1,
    )?;
    assert!(rt; plant.drive(alloc, &turns(alloc)).is_ok());
    let mut journal = plant.into_parts().journal;
    let view = journal.view(alloc)?;
    assert!(rt; view.next_id == 2);
    assert!(rt; view.shelf.as_slice().is_empty() && view.advices.as_slice().is_empty());
    let [(id, row)] = view.rows.as_slice() else {
        return Err(Fail::new("there is not one row"));
    };
    assert!(rt; *id == 1 && is_preparing_send(row));
    Ok(())
}

fn cause_of<S: Alter>(alloc: Global, plant: &mut Plant<S>) -> Result<(), JournalError> {
    match plant.drive(alloc, &turns(alloc)) {
        Ok(_) => Ok(()),
        Err(fault) => match fault.cause {
            PlantError::Journal(error) => Err(error),
            _ => Ok(()),
        },
    }
}

// Whether the store refuses a write of a plant over this connection; then each later call of the journal is
// refused as failed.
fn refuses<S: Alter + Drop, R: Runtime>(rt: &R, conn: Connection<S>) -> Result<bool, Fail> {
    let alloc = rt.alloc();
    let journal = match Journal::open(alloc, conn) {
        Ok(journal) => journal,
        Err(_) => return Ok(false),
    };
    let stations = stations_of_two(alloc)?;
    let mut plant = match Plant::new(alloc, &code_of_two(alloc)?, journal, stations, 1) {
        Ok(plant) => plant,
        Err(_) => return Ok(false),
    };
    let Err(error) = cause_of(alloc, &mut plant) else {
        return Ok(false);
    };
    assert_eq!(rt; error, JournalError::Store(Cause::Refused));
    assert_eq!(rt; cause_of(alloc, &mut plant), Err(JournalError::Failed));
    let mut journal = plant.into_parts().journal;
    assert!(rt; matches!(journal.view(alloc), Err(JournalError::Failed)));
    assert!(rt; matches!(journal.write(&[]), Err(JournalError::Failed)));
    Ok(true)
}

// The same over these disks. (Each function that calls a generic one at the store of these disks is slow to prove,
// so only this one does.)
fn fails<R: Runtime>(rt: &R, files: Disks) -> Result<bool, Fail> {
    if !files.may_be_used() {
        return Err(Fail::new("the disks are not as they are opened"));
    }
    match Connection::open_files(rt.alloc(), files, Options::new(1)) {
        Ok(conn) => refuses(rt, conn),
        Err(_) => Ok(false),
    }
}

#[test]
fn a_journal_whose_store_refused_is_failed(rt: HostRuntime) -> Result<(), Fail> {
    for calls in 0..MOST_CALLS {
        if fails(&rt, new_disks(rt.alloc(), calls)?)? {
            return Ok(());
        }
    }
    Err(Fail::new("no write was refused"))
}

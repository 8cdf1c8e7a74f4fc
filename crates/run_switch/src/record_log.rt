//! The log: a line for each transaction that was answered.

ghost use Rattle.std.specs.Prelude.{◌≡◌, OnErr, OnOk, false, option_to_list};
ghost use Rattle.sw_record.specs.Records.{record_after};
ghost use Rattle.run_switch.specs.Lines.{lines_in};
ghost use Rattle.run_switch.specs.Records.{AddsRecords, BeginsRecords, Records, recording_of, records_in};

use crate::error::ServeError;
use crate::stats::milliseconds_of;
use cli_io::write_whole;
use std::alloc::Global;
use std::io::Write;
use std::time::{Clock, Instant};
use sw_log::{Times, moment_text, record_line};
use sw_record::record_after;
use tx_engine::Engine;
use tx_history::Entry;

/// The log of a run: a line for each transaction that was answered. If a write fails, the run goes on, and its result
/// is as if all had been written.
#[derive(Drop)]
pub struct RecordLog<'a, E, K> {
    pub out: &'a mut E,
    pub clock: &'a K,
    /// Whether the lines are wanted.
    pub wanted: bool,
    /// Whether a write failed: what was to be written then is missing, or part of it is.
    pub lost: bool,
    /// When the transactions that are written next were taken, if that is known.
    pub began: Option<Instant>,
}

// Writes the line of the transaction that ends with an entry, if there is one.
fn write_record<W: Write>(
    alloc: Global,
    retries: u8,
    before: &[Entry],
    entry: &Entry,
    times: Times,
    out: &mut W,
) -> Result<(), ServeError>
    ensures written { OnOk result (AddsRecords
        (option_to_list (record_after retries before.now entry.now))
        (W.contents out.old) (W.contents out.new)) }
    ensures begun { OnErr result (BeginsRecords
        (option_to_list (record_after retries before.now entry.now))
        (W.contents out.old) (W.contents out.new)) }
{
    let Some(record) = record_after(alloc, retries, before, entry)? else {
        return Ok(());
    };
    let line = record_line(alloc, &record, times)?;
    write_whole(out, &line)?;
    Ok(())
}

// Writes the lines of the transactions that end in the engine's history, the oldest first. After an error a beginning
// of them is written.
fn write_records<W: Write>(
    alloc: Global,
    engine: &Engine,
    times: Times,
    out: &mut W,
) -> Result<(), ServeError>
    ensures written { OnOk result (AddsRecords
        (records_in (lines_in engine.now))
        (W.contents out.old) (W.contents out.new)) }
    ensures begun { OnErr result (BeginsRecords
        (records_in (lines_in engine.now))
        (W.contents out.old) (W.contents out.new)) }
{
    let history = engine.history();
    let retries = engine.code().retries();
    for number in 0..history.len() {
        let before = &history[..number];
        write_record(alloc, retries, before, &history[number], times, out)?;
    }
    Ok(())
}

impl<'a, E: Write, K: Clock> RecordLog<'a, E, K> {
    /// A log that is not wanted.
    pub fn off(out: &'a mut E, clock: &'a K) -> RecordLog<'a, E, K>
        ensures wanted { result.wanted ≡ false }
        ensures lost { result.lost ≡ false }
    {
        RecordLog {
            out,
            clock,
            wanted: false,
            lost: false,
            began: None,
        }
    }

    /// Notes that transactions are taken now.
    pub(crate) fn begin(&mut self)
        ensures { recording_of E.contents self.new ≡ recording_of E.contents self.old }
    {
        if self.wanted {
            self.began = Instant::now(self.clock).ok();
        }
    }

    // What the lines say of time, if they are written now.
    fn times(&self) -> Times {
        Times {
            time: match self.clock.since_1970() {
                Ok(time) => Some(moment_text(milliseconds_of(time))),
                Err(_) => None,
            },
            milliseconds: match self.began {
                Some(began) => match began.elapsed(self.clock) {
                    Ok(time) => Some(milliseconds_of(time)),
                    Err(_) => None,
                },
                None => None,
            },
        }
    }

    /// Writes the lines of the transactions that end in the engine's history, if they are wanted. Out of memory is the
    /// only error; after it, no line is wanted any more, so that none is written twice.
    pub(crate) fn write(&mut self, alloc: Global, engine: &Engine) -> Result<(), ServeError>
        ensures records { OnOk result (Records (lines_in engine.now)
            (recording_of E.contents self.old) (recording_of E.contents self.new)) }
        ensures once { OnErr result (self.new.wanted ≡ false) }
    {
        if !self.wanted {
            return Ok(());
        }
        let times = self.times();
        match write_records(alloc, engine, times, self.out) {
            Ok(()) => Ok(()),
            Err(ServeError::Io(_)) => {
                self.lost = true;
                Ok(())
            }
            Err(error) => {
                self.wanted = false;
                Err(error)
            }
        }
    }
}

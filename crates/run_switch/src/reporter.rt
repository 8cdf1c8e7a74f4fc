//! What a run writes to standard error.

ghost use Rattle.std.specs.Prelude.{◌≡◌, ◌<◌, ◌+◌, ◌∷◌, ◌++◌, [], IfOk, OnErr, OnOk};
ghost use Rattle.std.specs.Prelude.{length, option_map, string_bytes};
ghost use Rattle.std.specs.Io.KnownBytes.{Appends};
ghost use Rattle.cli_io.specs.Written.{AppendsBeginning};
ghost use Rattle.tx_trace.specs.Follow.{Follows, count_of, lines_given};
ghost use Rattle.tx_trace.specs.Lines.{at_number};
ghost use Rattle.run_switch.specs.Lines.{in_form, line_at, lines_in, written_as};
ghost use Rattle.run_switch.specs.declared.reporter.LineForm.TheVariants.{Text};
ghost use Rattle.run_switch.specs.Records.{Recording, Records};
ghost use Rattle.run_switch.specs.Traces.{IsOver, Tells, is_live, log_of, passed_line};

use crate::error::ServeError;
use crate::record_log::RecordLog;
use crate::stats::Stats;
use crate::with_records::next_with_record;
use cli_io::{IoError, write_whole};
use iso_codec::DecodeError;
use run_reports::Words;
use std::alloc::{AllocError, Global};
use std::io::Write;
use std::time::Clock;
use tx_engine::Engine;
use tx_trace::Tracer;

/// The form of the trace's lines.
#[derive(Clone, Copy)]
pub enum LineForm {
    Text,
    /// Each line is a JSON object.
    Json,
    /// The same; the object of an entry that takes or ends a transaction has the record of that.
    JsonWithRecords,
}

/// Standard error, to which a run writes a line for each message that is passed over, the trace, the numbers, and
/// what it reports in words.
/// If a write fails, the run goes on, and its result is as if all had been written.
#[derive(Drop)]
pub struct Reporter<'a, E, K> {
    pub err: &'a mut E,
    /// In which form the lines of the trace are wanted, if they are.
    pub trace: Option<LineForm>,
    /// Whether a write failed: what was to be written then is missing, or part of it is.
    pub lost: bool,
    /// The lines of numbers that are wanted.
    pub stats: Option<Stats>,
    /// How many messages were passed over.
    pub passed: u64,
    /// The log, which is kept beside it.
    pub log: RecordLog<'a, E, K>,
    /// What is reported in words, if anything is.
    pub words: Option<Words>,
}

// The line of a message that is passed over.
fn passed_line(alloc: Global, number: u64, cause: &str) -> Result<String, AllocError>
    ensures { IfOk result (λ line. string_bytes line ≡ passed_line number cause.now) }
{
    format!(in alloc; "cardswitch: message {number} is passed over: {cause}\n")
}

impl<'a, E: Write, K: Clock> Reporter<'a, E, K> {
    /// Writes that a message is passed over. Out of memory is the only error.
    pub(crate) fn pass_over(
        &mut self,
        alloc: Global,
        number: u64,
        error: &DecodeError,
    ) -> Result<(), ServeError>
        ensures { OnOk result (Tells [] 1
            (log_of E.contents self.old) (log_of E.contents self.new)) }
    {
        let cause = format!(in alloc; "{error}")?;
        let line = passed_line(alloc, number, cause.as_str())?;
        self.passed = self.passed.saturating_add(1);
        match write_whole(self.err, line.as_bytes()) {
            Ok(()) => Ok(()),
            Err(_) => {
                self.lost = true;
                Ok(())
            }
        }
    }

    /// Whether lines are written after each transaction.
    pub(crate) fn is_live(&self) -> bool
        ensures { result ≡ is_live (log_of E.contents self.now) }
    {
        self.trace.is_some() || self.log.wanted
    }

    /// Notes that transactions are taken now.
    pub(crate) fn begin(&mut self)
        ensures { log_of E.contents self.new ≡ log_of E.contents self.old }
    {
        self.log.begin();
    }

    /// From here on neither the trace nor the log is wanted.
    pub(crate) fn finish(&mut self)
        ensures { IsOver (log_of E.contents self.new) }
    {
        self.trace = None;
        self.log.wanted = false;
    }

    // Writes the lines of all entries of the engine's history, if a trace is wanted.
    fn write_trace(&mut self, alloc: Global, engine: &Engine) -> Result<(), ServeError>
        ensures { OnOk result ((r : Recording)
            → Records (lines_in engine.now) r (log_of E.contents self.old).recording
            → Tells (lines_in engine.now) 0
            (record (log_of E.contents self.old) { recording = r })
            (log_of E.contents self.new)) }
    {
        let Some(form) = self.trace else {
            return Ok(());
        };
        match write_lines_as(alloc, engine, form, self.err) {
            Ok(()) => Ok(()),
            Err(ServeError::Io(_)) => {
                self.lost = true;
                Ok(())
            }
            Err(error) => Err(error),
        }
    }

    // Writes to the log, and then the trace.
    fn write_both(&mut self, alloc: Global, engine: &Engine) -> Result<(), ServeError>
        ensures { OnOk result (Tells (lines_in engine.now) 0
            (log_of E.contents self.old) (log_of E.contents self.new)) }
    {
        self.log.write(alloc, engine)?;
        self.write_trace(alloc, engine)
    }

    /// Writes the records of the transactions that end in the engine's history, if the log is wanted, and the lines of
    /// all its entries, if a trace is wanted. Out of memory is the only error; after it, neither is wanted any more, so
    /// that no line is written twice.
    pub(crate) fn trace(&mut self, alloc: Global, engine: &Engine) -> Result<(), ServeError>
        ensures tells { OnOk result (Tells (lines_in engine.now) 0
            (log_of E.contents self.old) (log_of E.contents self.new)) }
        ensures once { OnErr result (IsOver (log_of E.contents self.new)) }
    {
        match self.write_both(alloc, engine) {
            Ok(()) => Ok(()),
            Err(error) => {
                // The lines that were written are not written again when the run ends.
                self.finish();
                Err(error)
            }
        }
    }
}

fn write_line<W: Write>(out: &mut W, line: &[u8]) -> Result<(), IoError>
    ensures written { OnOk result (Appends (W.contents out.old) (W.contents out.new)
        (line.now ++ 10 ∷ [])) }
    ensures beginning { AppendsBeginning (W.contents out.old) (W.contents out.new)
        (line.now ++ 10 ∷ []) }
{
    write_whole(out, line)?;
    write_whole(out, b"\n")
}

// The next line in this form, that of the entry at this index.
fn next_line(
    alloc: Global,
    engine: &Engine,
    tracer: &mut Tracer,
    form: LineForm,
    number: usize,
) -> Result<Option<Vec<u8>>, AllocError>
    requires follows { Follows engine.now tracer.old }
    requires number { count_of tracer.old ≡ number }
    requires within { number < length engine.now.past }
    ensures line { IfOk result (λ line. option_map (λ l. l.items) line
        ≡ at_number (λ past e. in_form form (line_at engine.now.flow engine.now.start past e))
        engine.now.past (count_of tracer.old + 1)) }
    ensures on { OnOk result (count_of tracer.new
        ≡ count_of tracer.old + lines_given result) }
    ensures follows { Follows engine.now tracer.new }
{
    match form {
        LineForm::Text => match tracer.next(alloc, engine)? {
            Some(line) => Ok(Some(line.into_bytes())),
            None => Ok(None),
        },
        LineForm::Json => tracer.next_json(alloc, engine),
        LineForm::JsonWithRecords => next_with_record(alloc, engine, tracer, number),
    }
}

// Writes the lines of all entries of the engine's history in this form, the oldest first. After an error a
// beginning of them is written.
fn write_lines_as<W: Write>(
    alloc: Global,
    engine: &Engine,
    form: LineForm,
    out: &mut W,
) -> Result<(), ServeError>
    ensures lines { OnOk result (Appends
        (W.contents out.old) (W.contents out.new) (written_as form (lines_in engine.now))) }
    ensures beginning { AppendsBeginning
        (W.contents out.old) (W.contents out.new) (written_as form (lines_in engine.now)) }
{
    let mut tracer = Tracer::new(alloc, engine);
    let count = engine.history().len();
    for number in 0..count {
        let Some(line) = next_line(alloc, engine, &mut tracer, form, number)? else {
            return Ok(());
        };
        write_line(out, line.as_slice())?;
    }
    Ok(())
}

/// Writes the lines of all entries of the engine's history as text, the oldest first. After an error a beginning
/// of them is written.
pub fn write_lines<W: Write>(alloc: Global, engine: &Engine, out: &mut W) -> Result<(), ServeError>
    ensures lines { OnOk result (Appends
        (W.contents out.old) (W.contents out.new) (written_as Text (lines_in engine.now))) }
    ensures beginning { AppendsBeginning
        (W.contents out.old) (W.contents out.new) (written_as Text (lines_in engine.now)) }
{
    write_lines_as(alloc, engine, LineForm::Text, out)
}

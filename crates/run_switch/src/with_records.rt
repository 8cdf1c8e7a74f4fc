//! The lines of the trace as JSON, with the records of the transactions that are taken and that end.

ghost use Rattle.std.specs.Prelude.{◌≡◌, ◌<◌, ◌+◌, IfOk, OnOk, length, option_map};
ghost use Rattle.sw_record.specs.Records.{record_after, record_taken};
ghost use Rattle.tx_trace.specs.Follow.{Follows, count_of, lines_given};
ghost use Rattle.tx_trace.specs.Lines.{at_number};
ghost use Rattle.run_switch.specs.Lines.{in_form, line_at, object_of, with_record};
ghost use Rattle.run_switch.specs.declared.reporter.LineForm.TheVariants.{JsonWithRecords};

use std::alloc::{AllocError, Global};
use sw_log::{Times, record_object, taken_object};
use sw_record::{record_after, record_taken};
use tx_engine::Engine;
use tx_history::Entry;
use tx_trace::Tracer;

// The object of the record of the transaction that ends with an entry, or that it takes, if there is one.
fn object_of(
    alloc: Global,
    retries: u8,
    before: &[Entry],
    entry: &Entry,
) -> Result<Option<Vec<u8>>, AllocError>
    ensures { IfOk result (λ object. option_map (λ o. o.items) object
        ≡ object_of (record_after retries before.now entry.now) (record_taken retries entry.now)) }
{
    if let Some(record) = record_after(alloc, retries, before, entry)? {
        // The trace is a function of the history, which has no times.
        let times = Times {
            time: None,
            milliseconds: None,
        };
        return Ok(Some(record_object(alloc, &record, times)?));
    }
    match record_taken(alloc, retries, entry)? {
        Some(record) => Ok(Some(taken_object(alloc, &record)?)),
        None => Ok(None),
    }
}

// A line that is an object, with this object as its last member, if there is one.
fn with_record(line: Vec<u8>, object: &Option<Vec<u8>>) -> Result<Vec<u8>, AllocError>
    ensures { IfOk result (λ both. both.items
        ≡ with_record line.items (option_map (λ o. o.items) object.now)) }
{
    let Some(object) = object else {
        return Ok(line);
    };
    let mut both = line;
    both.truncate(both.len().saturating_sub(1));
    both.extend_from_slice(b",\"record\":")?;
    both.extend_from_slice(object.as_slice())?;
    both.push(b'}')?;
    Ok(both)
}

/// The next line as JSON with records, that of the entry at this index. Out of memory is the only refusal.
pub(crate) fn next_with_record(
    alloc: Global,
    engine: &Engine,
    tracer: &mut Tracer,
    number: usize,
) -> Result<Option<Vec<u8>>, AllocError>
    requires follows { Follows engine.now tracer.old }
    requires number { count_of tracer.old ≡ number }
    requires within { number < length engine.now.past }
    ensures line { IfOk result (λ line. option_map (λ l. l.items) line
        ≡ at_number (λ past e. in_form JsonWithRecords
        (line_at engine.now.flow engine.now.start past e))
        engine.now.past (count_of tracer.old + 1)) }
    ensures on { OnOk result (count_of tracer.new
        ≡ count_of tracer.old + lines_given result) }
    ensures follows { Follows engine.now tracer.new }
{
    let Some(line) = tracer.next_json(alloc, engine)? else {
        return Ok(None);
    };
    let history = engine.history();
    let retries = engine.code().retries();
    let object = object_of(alloc, retries, &history[..number], &history[number])?;
    Ok(Some(with_record(line, &object)?))
}

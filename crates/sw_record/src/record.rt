//! The record of a transaction.

ghost use Rattle.std.specs.Prelude.{◌≡◌, IfOk};
ghost use Rattle.sw_record.specs.Records.{ended_id, host_of, milliseconds_in, record_after};
ghost use Rattle.sw_record.specs.Records.{course_of_row, record_of, record_taken};

use crate::context::context_in;
use crate::course::{Course, copy_of};
use crate::fields::{amount_in, card_in, field_in, message_at, type_in};
use std::alloc::{AllocError, Global};
use sw_context::Context;
use sw_messages::{REQUEST, RESPONSE, amount_of, is_stand_in};
use sw_participant::{Bytes, Text};
use sw_timed::MILLISECONDS;
use tx_history::{Entry, Event, Row};

/// The record of a transaction: fields of its request and of its response (numbers are those of ISO 8583:1987), and
/// how it came to that response. A part that the transaction lacks is `None`.
pub struct Record {
    /// The transaction's number.
    pub id: u64,
    /// The message type of the request.
    pub mti: Option<Bytes>,
    /// The system trace audit number of the request (field 11).
    pub stan: Option<Bytes>,
    /// The card acceptor terminal of the request (field 41).
    pub terminal: Option<Bytes>,
    /// The account number of the request (field 2) with its middle digits masked.
    pub card: Option<Bytes>,
    /// The amount of the request (field 4), in minor units.
    pub amount: Option<u64>,
    /// The currency of the amount (field 49).
    pub currency: Option<Bytes>,
    /// The response code (field 39) of the response.
    pub code: Option<Bytes>,
    /// The participant that decided: the first whose answer lacks PREPARED, or left a response code or a response.
    pub decided: Option<Text>,
    /// The host that the request was sent to, by the name of the participant that asked it.
    pub host: Option<Bytes>,
    /// How many milliseconds the host took, if that was noted.
    pub host_milliseconds: Option<u64>,
    /// Whether the switch approved in the host's place.
    pub stand_in: bool,
    /// How often the transaction was tried before.
    pub retries: u64,
    /// The group that was selected.
    pub group: Option<Text>,
}

// Written out, so that no caller proves again how its parts are dropped.
impl Drop for Record {
    fn drop(self) {
        let Record {
            id: _,
            mti: _,
            stan: _,
            terminal: _,
            card: _,
            amount: _,
            currency: _,
            code: _,
            decided: _,
            host: _,
            host_milliseconds: _,
            stand_in: _,
            retries: _,
            group: _,
        } = self;
    }
}

// The host that a participant asks, by its name.
fn host_of(alloc: Global, participant: &Option<Text>) -> Result<Option<Bytes>, AllocError>
    ensures { IfOk result (λ host. host ≡ host_of participant.now) }
{
    let Some(participant) = participant else {
        return Ok(None);
    };
    match participant
        .as_str()
        .as_bytes()
        .strip_prefix(b"query_".as_slice())
    {
        Some(name) => Ok(Some(Bytes::new(Vec::from_slice(alloc, name)?))),
        None => Ok(None),
    }
}

// The milliseconds that a query noted: at most twelve digits.
fn milliseconds_in(context: &Context) -> Option<u64>
    ensures { result ≡ milliseconds_in context.now }
{
    match context.get(MILLISECONDS) {
        Some(digits) if digits.len() <= 12 => amount_of(digits),
        _ => None,
    }
}

// The record of a transaction with this course. `tries` is how many tries it had left when it was taken, and `retries`
// how often the flow tries one again.
fn record_of(
    alloc: Global,
    id: u64,
    retries: u8,
    tries: u8,
    course: &Course,
) -> Result<Record, AllocError>
    ensures { IfOk result (λ made. made ≡ record_of id retries tries course.now) }
{
    let request = message_at(alloc, &course.context, REQUEST)?;
    let response = message_at(alloc, &course.context, RESPONSE)?;
    Ok(Record {
        id,
        mti: type_in(alloc, &request)?,
        stan: field_in(alloc, &request, 11)?,
        terminal: field_in(alloc, &request, 41)?,
        card: card_in(alloc, &request)?,
        amount: amount_in(&request),
        currency: field_in(alloc, &request, 49)?,
        code: field_in(alloc, &response, 39)?,
        decided: copy_of(&course.decided)?,
        host: host_of(alloc, &course.asked)?,
        host_milliseconds: milliseconds_in(&course.context),
        stand_in: is_stand_in(&course.context),
        retries: u64::from(retries.saturating_sub(tries)),
        group: copy_of(&course.group)?,
    })
}

// The transaction that ends with an entry, if one does. One that goes to the shelf does not end.
fn ended_id(entry: &Entry) -> Option<u64>
    ensures { result ≡ ended_id entry.now }
{
    match (&entry.change.row, &entry.change.shelved) {
        (Some((id, None)), None) => Some(*id),
        _ => None,
    }
}

/// The record of the transaction that ends with an entry, by the entries before that. `None` if none ends, and if
/// the one that ends was not taken among these entries, as one that comes from the journal. `retries` is how often
/// the flow tries a transaction again. Out of memory is the only refusal.
pub fn record_after(
    alloc: Global,
    retries: u8,
    before: &[Entry],
    entry: &Entry,
) -> Result<Option<Record>, AllocError>
    ensures { IfOk result (λ found. found ≡ record_after retries before.now entry.now) }
{
    let Some(id) = ended_id(entry) else {
        return Ok(None);
    };
    let mut course = Course::of(alloc, id, before)?;
    course.follow(alloc, id, entry)?;
    match course.tries {
        Some(tries) => Ok(Some(record_of(alloc, id, retries, tries, &course)?)),
        None => Ok(None),
    }
}

// What is known of a transaction when it is taken: the context that its row has then.
fn course_of_row(alloc: Global, row: &Row) -> Result<Course, AllocError>
    ensures { IfOk result (λ course. course ≡ course_of_row row.now) }
{
    let mut course = Course::new(alloc);
    course.context = context_in(alloc, row.context.as_slice())?;
    Ok(course)
}

/// The record of the transaction that an entry takes, as far as it is known then: of the response and of how it came
/// to that nothing is. `None` if the entry takes none, or one that has ended with that. `retries` is how often the
/// flow tries a transaction again. Out of memory is the only refusal.
pub fn record_taken(alloc: Global, retries: u8, entry: &Entry) -> Result<Option<Record>, AllocError>
    ensures { IfOk result (λ found. found ≡ record_taken retries entry.now) }
{
    match (&entry.event, &entry.change.row) {
        (Event::Taken { .. }, Some((id, Some(row)))) => {
            let course = course_of_row(alloc, row)?;
            let record = record_of(alloc, *id, retries, row.tries, &course)?;
            Ok(Some(record))
        }
        _ => Ok(None),
    }
}

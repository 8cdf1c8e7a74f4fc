//! The line of a record.

ghost use Rattle.std.specs.Prelude.{◌≡◌, ◌∷◌, ◌++◌, [], IfOk, OnOk};
ghost use Rattle.sw_log.specs.Line as spec;

use std::alloc::{AllocError, Global};
use sw_json::{push_flag_member, push_number_member, push_opening, push_text_member};
use sw_participant::{Bytes, Text};
use sw_record::Record;

/// When a transaction was answered, and how long that took; what is not known is `None`.
#[derive(Clone, Copy)]
pub struct Times {
    /// The moment, as `moment_text` has it.
    pub time: Option<[u8; 24]>,
    /// The milliseconds from its take to its response.
    pub milliseconds: Option<u64>,
}

// Adds `,"WORD":"TEXT"`, if there is a value.
fn push_bytes_if(text: &mut Vec<u8>, word: &str, value: &Option<Bytes>) -> Result<(), AllocError>
    ensures { OnOk result (text.new.items ≡ text.old.items ++ spec.text_if word.now value.now) }
{
    match value {
        Some(value) => push_text_member(text, word, value.as_slice()),
        None => Ok(()),
    }
}

// The same of a text.
fn push_text_if(text: &mut Vec<u8>, word: &str, value: &Option<Text>) -> Result<(), AllocError>
    ensures { OnOk result (text.new.items ≡ text.old.items ++ spec.text_if word.now value.now) }
{
    match value {
        Some(value) => push_text_member(text, word, value.as_str().as_bytes()),
        None => Ok(()),
    }
}

// Adds `,"WORD":N`, if there is a value.
fn push_number_if(text: &mut Vec<u8>, word: &str, value: Option<u64>) -> Result<(), AllocError>
    ensures { OnOk result (text.new.items ≡ text.old.items ++ spec.number_if word.now value) }
{
    match value {
        Some(value) => push_number_member(text, word, value),
        None => Ok(()),
    }
}

// Adds the moment, if it is known.
fn push_time(text: &mut Vec<u8>, time: Option<[u8; 24]>) -> Result<(), AllocError>
    ensures { OnOk result (text.new.items ≡ text.old.items ++ spec.time_member time) }
{
    match time {
        Some(time) => push_text_member(text, "time", &time),
        None => Ok(()),
    }
}

// Adds what the request says.
#[tactic(auto, unfolding(crate::specs::Line::request_members))]
fn push_request(text: &mut Vec<u8>, record: &Record) -> Result<(), AllocError>
    ensures { OnOk result (text.new.items ≡ text.old.items ++ spec.request_members «record».now) }
{
    push_bytes_if(text, "type", &record.mti)?;
    push_bytes_if(text, "stan", &record.stan)?;
    push_bytes_if(text, "terminal", &record.terminal)?;
    push_bytes_if(text, "card", &record.card)?;
    push_number_if(text, "amount", record.amount)?;
    push_bytes_if(text, "currency", &record.currency)
}

// Adds the host and what it took, and whether the switch decided in its place.
#[tactic(auto, unfolding(crate::specs::Line::host_members))]
fn push_host(text: &mut Vec<u8>, record: &Record) -> Result<(), AllocError>
    ensures { OnOk result (text.new.items ≡ text.old.items ++ spec.host_members «record».now) }
{
    push_bytes_if(text, "host", &record.host)?;
    push_number_if(text, "host_ms", record.host_milliseconds)?;
    push_flag_member(text, "stand_in", record.stand_in)
}

// Adds how it was answered.
#[tactic(auto, unfolding(crate::specs::Line::answer_members))]
fn push_answer(text: &mut Vec<u8>, record: &Record) -> Result<(), AllocError>
    ensures { OnOk result (text.new.items ≡ text.old.items ++ spec.answer_members «record».now) }
{
    push_bytes_if(text, "code", &record.code)?;
    push_text_if(text, "decided", &record.decided)?;
    push_text_if(text, "group", &record.group)?;
    push_host(text, record)?;
    push_number_member(text, "retries", record.retries)
}

/// A record as an object of JSON in ASCII, whose members come in a fixed order, and in which those of parts that the
/// record lacks are left out. Out of memory is the only refusal.
#[tactic(auto, unfolding(crate::specs::Line::record_object))]
pub fn record_object(alloc: Global, record: &Record, times: Times) -> Result<Vec<u8>, AllocError>
    ensures { IfOk result (λ object. object.items ≡ spec.record_object «record».now times) }
{
    let mut text = Vec::new(alloc);
    push_opening(&mut text, "id", record.id)?;
    push_time(&mut text, times.time)?;
    push_request(&mut text, record)?;
    push_answer(&mut text, record)?;
    push_number_if(&mut text, "ms", times.milliseconds)?;
    text.extend_from_slice(b"}")?;
    Ok(text)
}

/// The line of a record: its object, with a line feed. Out of memory is the only refusal.
pub fn record_line(alloc: Global, record: &Record, times: Times) -> Result<Vec<u8>, AllocError>
    ensures { IfOk result (λ line. line.items ≡ spec.record_line «record».now times) }
{
    let mut line = record_object(alloc, record, times)?;
    line.push(b'\n')?;
    Ok(line)
}

/// The same of a transaction that is taken: its request, and how often it was tried before. Out of memory is the only
/// refusal.
#[tactic(auto, unfolding(crate::specs::Line::taken_object))]
pub fn taken_object(alloc: Global, record: &Record) -> Result<Vec<u8>, AllocError>
    ensures { IfOk result (λ object. object.items ≡ spec.taken_object «record».now) }
{
    let mut text = Vec::new(alloc);
    push_opening(&mut text, "id", record.id)?;
    push_request(&mut text, record)?;
    push_number_member(&mut text, "retries", record.retries)?;
    text.extend_from_slice(b"}")?;
    Ok(text)
}

//! The line of an entry as an object of JSON, by what it shows.

ghost use Rattle.std.specs.Prelude.{◌≡◌, ◌++◌, IfOk, OnOk};
ghost use Rattle.sw_participant.specs.Answers.{has};
ghost use Rattle.tx_trace.specs.Json as spec;
ghost use Rattle.tx_trace.specs.Trace.{texts_of};
ghost use Rattle.sw_json.specs.Contexts.{noted};
ghost use Rattle.std.specs.Prelude.{codes};

use crate::known::known_names;
use crate::names::Names;
use crate::shown::{Move, Shown, Standing};
use crate::text::{hex_digits, phase_letter};
use flow_asm::Code;
use std::alloc::{AllocError, Global};
use sw_json::{note_in, push_flag_member, push_number_member, push_text_member, push_texts_member};
use sw_participant::read_answer;
use tx_history::Event;
use tx_machine::{Due, Spot};

#[tactic(auto, unfolding(crate::specs::Json::event_opening))]
fn push_event(text: &mut Vec<u8>, word: &str) -> Result<(), AllocError>
    ensures { OnOk result (text.new.items ≡ text.old.items ++ spec.event_opening word.now) }
{
    text.extend_from_slice(b"{\"event\":\"")?;
    text.extend_from_slice(word.as_bytes())?;
    text.extend_from_slice(b"\"")
}

#[tactic(auto, unfolding(crate::specs::Json::call_member))]
fn push_call(text: &mut Vec<u8>, word: &str) -> Result<(), AllocError>
    ensures { OnOk result (text.new.items ≡ text.old.items ++ spec.call_member word.now) }
{
    text.extend_from_slice(b"\"call\":\"")?;
    text.extend_from_slice(word.as_bytes())?;
    text.extend_from_slice(b"\"")
}

fn push_participant(text: &mut Vec<u8>, names: Names<'_>, number: usize) -> Result<(), AllocError>
    ensures { OnOk result (text.new.items
        ≡ text.old.items ++ spec.participant_member names.entry.code.now number) }
{
    push_text_member(text, "participant", names.participant(number).as_bytes())
}

fn push_spot(text: &mut Vec<u8>, names: Names<'_>, spot: Spot) -> Result<(), AllocError>
    ensures { OnOk result (text.new.items
        ≡ text.old.items ++ spec.spot_members names.entry.code.now spot) }
{
    push_participant(text, names, spot.participant)?;
    push_text_member(text, "group", names.group(spot.group).as_bytes())?;
    push_number_member(text, "index", spot.index as u64)
}

fn push_due(text: &mut Vec<u8>, names: Names<'_>, due: Due) -> Result<(), AllocError>
    ensures { OnOk result (text.new.items
        ≡ text.old.items ++ spec.due_members names.entry.code.now due) }
{
    match due {
        Due::Prepare(spot) => {
            push_call(text, "prepare")?;
            push_spot(text, names, spot)
        }
        Due::PrepareForAbort(spot) => {
            push_call(text, "prepare_for_abort")?;
            push_spot(text, names, spot)
        }
        Due::Select(spot) => {
            push_call(text, "select")?;
            push_spot(text, names, spot)
        }
        Due::Commit(member) => {
            push_call(text, "commit")?;
            push_participant(text, names, member)
        }
        Due::Abort(member) => {
            push_call(text, "abort")?;
            push_participant(text, names, member)
        }
        Due::Shelve => push_call(text, "shelve"),
        Due::Done => push_call(text, "done"),
    }
}

// The call that is due, or the end; instead of an outcome, the `recover` call that comes before it.
fn push_members(
    text: &mut Vec<u8>,
    names: Names<'_>,
    restores: Option<(usize, bool)>,
    due: Due,
) -> Result<(), AllocError>
    ensures { OnOk result (text.new.items
        ≡ text.old.items ++ spec.call_members names.entry.code.now restores due) }
{
    match restores {
        Some((member, _)) => {
            push_call(text, "recover")?;
            push_participant(text, names, member)
        }
        None => push_due(text, names, due),
    }
}

// What is due next, and the end of the object.
#[tactic(auto, unfolding(crate::specs::Json::next_members))]
fn push_next(
    text: &mut Vec<u8>,
    names: Names<'_>,
    restores: Option<(usize, bool)>,
    due: Due,
) -> Result<(), AllocError>
    ensures { OnOk result (text.new.items ≡ text.old.items
        ++ spec.next_members (spec.call_members names.entry.code.now restores due)) }
{
    text.extend_from_slice(b",\"next\":{")?;
    push_members(text, names, restores, due)?;
    text.extend_from_slice(b"}}")
}

fn has(byte: u8, bit: u8) -> bool
    ensures { result ≡ has byte bit }
{
    byte & bit == bit
}

fn add_if<'a>(names: &mut Vec<&'a str>, set: bool, name: &'a str) -> Result<(), AllocError>
    ensures { OnOk result (texts_of names.new.items
        ≡ texts_of names.old.items ++ spec.name_if set name.entry.now) }
{
    if set {
        names.push(name)?;
    }
    Ok(())
}

// The names of the bits that an answer's byte has.
fn bit_names<'a>(alloc: Global, byte: u8) -> Result<Vec<&'a str>, AllocError>
    ensures { IfOk result (λ names. texts_of names.items ≡ spec.bit_names byte) }
{
    let mut names = Vec::new(alloc);
    add_if(&mut names, has(byte, 0x01), "PREPARED")?;
    add_if(&mut names, has(byte, 0x02), "RETRY")?;
    add_if(&mut names, has(byte, 0x40), "NO_JOIN")?;
    add_if(&mut names, has(byte, 0x80), "READONLY")?;
    Ok(names)
}

#[tactic(auto, unfolding(crate::specs::Json::byte_members))]
fn push_byte(alloc: Global, text: &mut Vec<u8>, byte: u8) -> Result<(), AllocError>
    ensures { OnOk result (text.new.items ≡ text.old.items ++ spec.byte_members byte) }
{
    let digits = hex_digits(byte);
    let bits = bit_names(alloc, byte)?;
    push_text_member(text, "byte", &digits)?;
    push_texts_member(text, "answer", &bits)?;
    push_flag_member(text, "bad", read_answer(byte).bad)
}

#[tactic(auto, unfolding(crate::specs::Json::reading_members))]
fn push_reading(text: &mut Vec<u8>, byte: u8) -> Result<(), AllocError>
    ensures { OnOk result (text.new.items ≡ text.old.items ++ spec.reading_members byte) }
{
    let answer = read_answer(byte).answer;
    push_flag_member(text, "joined", !answer.stays_out())?;
    push_flag_member(text, "saved", !answer.is_readonly())
}

// The response code that a context notes.
fn push_rc(alloc: Global, text: &mut Vec<u8>, context: &[u8]) -> Result<(), AllocError>
    ensures { OnOk result (text.new.items
        ≡ text.old.items ++ spec.rc_member (noted (codes "rc") context.now)) }
{
    match note_in(alloc, context, "rc")? {
        Some(code) => push_text_member(text, "rc", &code),
        None => Ok(()),
    }
}

fn push_answer(
    alloc: Global,
    text: &mut Vec<u8>,
    byte: u8,
    context: &[u8],
) -> Result<(), AllocError>
    ensures { OnOk result (text.new.items
        ≡ text.old.items ++ spec.answer_members byte context.now) }
{
    push_byte(alloc, text, byte)?;
    push_reading(text, byte)?;
    push_rc(alloc, text, context)
}

// The names of the groups that a selection names.
fn push_choice(
    alloc: Global,
    text: &mut Vec<u8>,
    code: &Code,
    choice: &str,
    bound: bool,
) -> Result<(), AllocError>
    ensures { OnOk result (text.new.items ≡ text.old.items
        ++ spec.choice_members code.now choice.now bound) }
{
    let known = known_names(alloc, code, choice)?;
    push_texts_member(text, "names", &known)?;
    push_flag_member(text, "bound", bound)
}

fn push_advice(text: &mut Vec<u8>, advised: bool, place: usize) -> Result<(), AllocError>
    ensures { OnOk result (text.new.items
        ≡ text.old.items ++ spec.advice_member advised place) }
{
    if advised {
        push_number_member(text, "advice", place as u64)
    } else {
        Ok(())
    }
}

// What an event adds after its call.
fn push_detail(
    alloc: Global,
    text: &mut Vec<u8>,
    code: &Code,
    event: &Event,
    place: usize,
    bound: bool,
) -> Result<(), AllocError>
    ensures { OnOk result (text.new.items
        ≡ text.old.items ++ spec.event_members code.now event.now place bound) }
{
    match event {
        Event::Answered { byte, context, .. } => {
            push_answer(alloc, text, *byte, context.as_slice())?;
            push_flag_member(text, "bound", bound)
        }
        Event::Chose { text: choice, .. } => {
            push_choice(alloc, text, code, choice.as_str(), bound)
        }
        Event::Told { advice, .. } => push_advice(text, advice.is_some(), place),
        _ => Ok(()),
    }
}

fn event_word(event: &Event) -> &'static str
    ensures { result.now ≡ spec.event_word event.now }
{
    match event {
        Event::Answered { .. } => "answer",
        Event::Chose { .. } => "choice",
        Event::Told { .. } => "outcome",
        _ => "recover",
    }
}

// The transaction, its phase before the event, and the call that was due.
#[tactic(auto, unfolding(crate::specs::Json::before_members))]
fn push_before(
    text: &mut Vec<u8>,
    names: Names<'_>,
    id: u64,
    standing: Standing,
) -> Result<(), AllocError>
    ensures { OnOk result (text.new.items
        ≡ text.old.items ++ spec.before_members names.entry.code.now id standing) }
{
    push_number_member(text, "id", id)?;
    push_text_member(text, "phase", phase_letter(standing.phase).as_bytes())?;
    text.extend_from_slice(b",")?;
    push_members(text, names, standing.restores, standing.due)
}

// An event that leads a transaction from where it stood to where it stands.
fn push_moved(
    alloc: Global,
    text: &mut Vec<u8>,
    code: &Code,
    moved: Move,
    event: &Event,
) -> Result<(), AllocError>
    ensures { OnOk result (text.new.items
        ≡ text.old.items ++ spec.moved_json code.now moved event.now) }
{
    let names = Names { code };
    push_event(text, event_word(event))?;
    push_before(text, names, moved.id, moved.before)?;
    push_detail(
        alloc,
        text,
        code,
        event,
        moved.before.told,
        moved.after.bound,
    )?;
    push_flag_member(text, "recovering", moved.recovering)?;
    push_next(text, names, moved.after.restores, moved.after.due)
}

// A take under this id, after which this is due.
fn push_begun(
    text: &mut Vec<u8>,
    code: &Code,
    id: u64,
    session: usize,
    due: Due,
) -> Result<(), AllocError>
    ensures { OnOk result (text.new.items
        ≡ text.old.items ++ spec.begun_json code.now id session due) }
{
    push_event(text, "take")?;
    push_number_member(text, "id", id)?;
    push_number_member(text, "session", session as u64)?;
    push_next(text, Names { code }, None, due)
}

// The end of an object.
fn close(text: &mut Vec<u8>) -> Result<(), AllocError>
    ensures { OnOk result (text.new.items ≡ text.old.items ++ codes "}") }
{
    text.extend_from_slice(b"}")
}

fn push_debug(text: &mut Vec<u8>, code: &Code, event: &Event) -> Result<(), AllocError>
    ensures { OnOk result (text.new.items
        ≡ text.old.items ++ spec.debug_json code.now event.now) }
{
    let names = Names { code };
    match event {
        Event::Broke { participant } => {
            push_event(text, "break")?;
            push_participant(text, names, *participant)?;
            close(text)
        }
        Event::Cleared { participant } => {
            push_event(text, "clear")?;
            push_participant(text, names, *participant)?;
            close(text)
        }
        Event::LetGo { session } => {
            push_event(text, "go")?;
            push_number_member(text, "session", *session as u64)?;
            close(text)
        }
        _ => Ok(()),
    }
}

// An event that is of no transaction under way.
fn push_plain(
    text: &mut Vec<u8>,
    code: &Code,
    shelved: usize,
    event: &Event,
) -> Result<(), AllocError>
    ensures { OnOk result (text.new.items
        ≡ text.old.items ++ spec.plain_json code.now shelved event.now) }
{
    match event {
        Event::Offered { context } => {
            push_event(text, "offer")?;
            push_number_member(text, "bytes", context.as_slice().len() as u64)?;
            close(text)
        }
        Event::Released => {
            push_event(text, "release")?;
            push_number_member(text, "count", shelved as u64)?;
            close(text)
        }
        Event::Acked { id, place } => {
            push_event(text, "ack")?;
            push_number_member(text, "id", *id)?;
            push_number_member(text, "advice", *place as u64)?;
            close(text)
        }
        Event::Closed { id } => {
            push_event(text, "closed")?;
            push_number_member(text, "id", *id)?;
            close(text)
        }
        _ => push_debug(text, code, event),
    }
}

fn push_shown(
    alloc: Global,
    text: &mut Vec<u8>,
    code: &Code,
    shown: Shown,
    event: &Event,
) -> Result<(), AllocError>
    ensures { OnOk result (text.new.items
        ≡ text.old.items ++ spec.shown_json code.now shown event.now) }
{
    match shown {
        Shown::Moved(moved) => push_moved(alloc, text, code, moved, event),
        Shown::Begun { id, session, due } => push_begun(text, code, id, session, due),
        Shown::Plain { shelved } => push_plain(text, code, shelved, event),
    }
}

/// The line of an entry as an object of JSON, in ASCII.
pub(crate) fn shown_json(
    alloc: Global,
    code: &Code,
    shown: Shown,
    event: &Event,
) -> Result<Vec<u8>, AllocError>
    ensures { IfOk result (λ line. line.items ≡ spec.shown_json code.now shown event.now) }
{
    let mut line = Vec::new(alloc);
    push_shown(alloc, &mut line, code, shown, event)?;
    Ok(line)
}

//! Asking an issuer.

ghost use Rattle.std.specs.Prelude.{◌≡◌, [], ◌∷◌, MatchOption, IfOk, OnOk, OnErr, codes};
ghost use Rattle.iso_msg.specs.Messages.{value_at};
ghost use Rattle.sw_context.specs.Pairs.{find};
ghost use Rattle.sw_mux.specs.Waiting.{without};
ghost use Rattle.sw_parts.specs.Queries.{Hears, Ends, Asks, Queries, QueriesAs, Unanswered, shown_query};
ghost use Rattle.sw_parts.specs.Queries.{answer_in, asking, answered, approves, or_code, bytes_in};
ghost use Rattle.sw_parts.specs.Quiet.{PassesOver, SelectsNone};

use crate::answers::{LEAVES_NOTES, PASSES, REFUSES};
use crate::link::Link;
use crate::memory::{Heap, Memory};
use iso_msg::Message;
use std::alloc::Global;
use sw_context::Context;
use sw_messages::{
    APPROVAL, CODE, Class, LATE, REQUEST, ResponseCode, SENT, note, note_code, request_in,
};
use sw_mux::{Key, Mux, MuxError, Response};
use sw_participant::{NoMemory, Text, Unjoined};

/// The message of these bytes, if it has the key that waits.
fn answer_in<M: Memory>(
    memory: &M,
    mux: &mut Mux,
    bytes: &[u8],
    key: Key,
    deadline: u64,
) -> Result<Option<Message>, NoMemory>
    requires { mux.old ≡ (key, deadline) ∷ [] }
    ensures answer { IfOk result (λ r. r ≡ answer_in key.bytes bytes.now) }
    ensures waits { IfOk result (λ r.
        MatchOption r (mux.new ≡ (key, deadline) ∷ []) (λ _. mux.new ≡ [])) }
    ensures refused { OnErr result M.refused }
    ensures kept { OnErr result (mux.new ≡ mux.old) }
{
    let Some(message) = memory.read(bytes)? else {
        return Ok(None);
    };
    match mux.response(message) {
        Response::Matched(_, answer) => Ok(Some(answer)),
        Response::Unhandled(_) => Ok(None),
    }
}

/// Waits for the answer with the one key that waits, for at most 8 receives. Other messages are
/// dropped, and out of memory counts as no answer.
pub fn hear<M: Memory, L: Link>(
    memory: &M,
    mux: &mut Mux,
    link: &mut L,
    key: Key,
    deadline: u64,
) -> Option<Message>
    requires { mux.old ≡ (key, deadline) ∷ [] }
    ensures heard { Hears L.receives L.starves M.refused 8 key.bytes
        (L.state link.old) result (L.state link.new) }
    ensures left { without key.bytes mux.new ≡ [] }
{
    for round in 0..8u8 {
        let Ok(received) = link.receive() else {
            return None;
        };
        let Some(bytes) = received else {
            return None;
        };
        match answer_in(memory, mux, &bytes, key, deadline) {
            Ok(None) => {}
            Ok(Some(answer)) => return Some(answer),
            Err(NoMemory) => return None,
        }
    }
    None
}

/// Notes that the request was sent and that its answer is late.
fn asking(context: &Context) -> Result<Context, NoMemory>
    ensures { IfOk result (λ x. x ≡ asking context.now) }
{
    let mut next = context.copy()?;
    note(&mut next, SENT, b"1")?;
    note(&mut next, LATE, b"1")?;
    Ok(next)
}

/// The response code of an answer.
fn code_of(answer: &Message) -> &[u8]
    ensures { result.now ≡ or_code (value_at 39 answer.now.fields) }
{
    match answer.get(39) {
        Some(code) => code,
        None => ResponseCode::SystemMalfunction.digits(),
    }
}

/// Notes what an answer says, and takes `late` out.
fn answered<M: Memory>(memory: &M, context: &mut Context, answer: &Message) -> Result<(), NoMemory>
    ensures noted { OnOk result (context.new ≡ answered answer.now context.old) }
    ensures refused { OnErr result M.refused }
{
    memory.note(context, CODE, code_of(answer))?;
    if let Some(approval) = answer.get(38) {
        memory.note(context, APPROVAL, approval)?;
    }
    let _ = context.take(LATE);
    Ok(())
}

fn approves(answer: &Message) -> bool
    ensures { result ≡ approves answer.now }
{
    code_of(answer) == b"00".as_slice()
}

/// The byte and the context of a request that gets no answer: it stays as it was sent, for a stand-in that decides. If
/// there is none, it is refused.
fn unanswered(asked: &Context, has_stand_in: bool) -> Result<(u8, Context), NoMemory>
    ensures { IfOk result (λ r. Unanswered has_stand_in asked.now r.0 r.1) }
{
    let mut next = asked.copy()?;
    if has_stand_in {
        return Ok((LEAVES_NOTES, next));
    }
    note_code(&mut next, ResponseCode::IssuerInoperative)?;
    Ok((REFUSES, next))
}

/// The byte and the context after what was heard. An answer is noted in one context. The other is that of a request that
/// gets none, in case memory is refused.
fn conclude<M: Memory>(
    memory: &M,
    has_stand_in: bool,
    asked: Context,
    otherwise: (u8, Context),
    heard: Option<Message>,
) -> (u8, Context)
    requires { Unanswered has_stand_in asked otherwise.0 otherwise.1 }
    ensures { Ends has_stand_in M.refused heard asked result.0 result.1 }
{
    let Some(answer) = heard else {
        return otherwise;
    };
    let mut noted = asked;
    if answered(memory, &mut noted, &answer).is_err() {
        return otherwise;
    }
    if approves(&answer) {
        (LEAVES_NOTES, noted)
    } else {
        (REFUSES, noted)
    }
}

/// A request whose key waits.
#[derive(Drop)]
struct Keyed<'a> {
    key: Key,
    deadline: u64,
    bytes: &'a [u8],
}

/// Sends a request whose key waits, and waits for its answer. All contexts are made before the
/// request is sent.
fn ask<M: Memory, L: Link>(
    memory: &M,
    mux: &mut Mux,
    link: &mut L,
    has_stand_in: bool,
    request: &Keyed<'_>,
    context: &mut Context,
) -> Result<u8, NoMemory>
    requires { mux.old ≡ (request.now.key, request.now.deadline) ∷ [] }
    ensures asked { IfOk result (λ byte.
        Asks L.sends L.receives L.starves M.refused has_stand_in request.now.bytes.now
        request.now.key.bytes (L.state link.old) context.old byte (L.state link.new) context.new) }
    ensures link_kept { OnErr result (L.state link.new ≡ L.state link.old) }
    ensures context_kept { OnErr result (context.new ≡ context.old) }
{
    let asked = asking(context)?;
    let otherwise = unanswered(&asked, has_stand_in)?;
    link.send(request.bytes)?;
    let heard = hear(memory, mux, link, request.key, request.deadline);
    let (byte, next) = conclude(memory, has_stand_in, asked, otherwise, heard);
    *context = next;
    Ok(byte)
}

/// Asks the issuer about a request, if it is an authorization.
fn query<M: Memory, L: Link>(
    alloc: Global,
    memory: &M,
    id: u64,
    link: &mut L,
    has_stand_in: bool,
    context: &mut Context,
) -> Result<u8, NoMemory>
    ensures queried { IfOk result (λ byte.
        Queries L.sends L.receives L.starves M.refused has_stand_in
        (L.state link.old) context.old byte (L.state link.new) context.new) }
    ensures link_kept { OnErr result (L.state link.new ≡ L.state link.old) }
    ensures context_kept { OnErr result (context.new ≡ context.old) }
{
    let Some(request) = request_in(alloc, context)? else {
        return Ok(PASSES);
    };
    let Some(Class::Authorization) = sw_messages::class_of(request.mti().digits()) else {
        return Ok(PASSES);
    };
    let bytes = bytes_in(alloc, context)?;
    let mut mux = Mux::new(alloc);
    match mux.request(&request, id) {
        Ok(key) => {
            let keyed = Keyed {
                key,
                deadline: id,
                bytes: &bytes,
            };
            ask(memory, &mut mux, link, has_stand_in, &keyed, context)
        }
        Err(MuxError::OutOfMemory) => Err(NoMemory),
        // Nothing waited, so the numbers began with this one.
        Err(MuxError::NumbersSpent) => unreachable!(),
        Err(_) => {
            note_code(context, ResponseCode::SystemMalfunction)?;
            Ok(REFUSES)
        }
    }
}

fn bytes_in(alloc: Global, context: &Context) -> Result<Vec<u8>, NoMemory>
    ensures { IfOk result (λ v. v.items ≡ bytes_in (find (codes "request") context.now)) }
{
    match context.get(REQUEST) {
        Some(bytes) => Ok(Vec::from_slice(alloc, bytes)?),
        None => Ok(Vec::new(alloc)),
    }
}

/// Asks an issuer over a link. It is generic in its memory, so that what it states holds for any.
pub struct QueryIssuer<L: Link, M: Memory = Heap> {
    alloc: Global,
    memory: M,
    link: L,
    has_stand_in: bool,
}

// Written out, so that no caller proves again how its parts are dropped.
impl<L: Link + Drop, M: Memory + Drop> Drop for QueryIssuer<L, M> {
    fn drop(self) {
        let QueryIssuer {
            alloc: _,
            memory: _,
            link: _,
            has_stand_in: _,
        } = self;
    }
}

impl<L: Link> QueryIssuer<L, Heap> {
    /// A participant that asks over this link. If no stand-in decides about a request that gets no answer, it refuses it
    /// with 91, issuer inoperative.
    pub fn new(alloc: Global, link: L, has_stand_in: bool) -> QueryIssuer<L, Heap>
        ensures { ⟦<QueryIssuer<L, Heap> as Unjoined>⟧.object result
            ≡ shown_query has_stand_in (L.state link) }
    {
        QueryIssuer {
            alloc,
            memory: Heap::new(alloc),
            link,
            has_stand_in,
        }
    }
}

impl<L: Link, M: Memory> Unjoined for QueryIssuer<L, M> {
    ghost object = { λ query. shown_query query.has_stand_in (L.state query.link) };

    ghost prepares = { λ id o x byte p y.
        QueriesAs L.sends L.receives L.starves M.refused o x byte p y };

    ghost prepares_for_abort = { λ id o x byte p y. PassesOver o x byte p y };

    ghost selects = { λ id o x text p. SelectsNone o text p };

    fn prepare(&mut self, id: u64, context: &mut Context) -> Result<u8, NoMemory> {
        query(
            self.alloc,
            &self.memory,
            id,
            &mut self.link,
            self.has_stand_in,
            context,
        )
    }

    fn prepare_for_abort(&mut self, id: u64, context: &mut Context) -> Result<u8, NoMemory> {
        Ok(PASSES)
    }

    fn select(&mut self, id: u64, context: &Context) -> Result<Text, NoMemory> {
        Ok(Text::from_str(self.alloc, "")?)
    }

    fn is_shared(&self) -> bool {
        self.link.is_shared()
    }

    #[tactic(auto, using(crate::proofs::Staying::stays))]
    fn prepare_beside(&self, id: u64, context: &mut Context) -> Result<u8, NoMemory> {
        let Some(link) = self.link.beside()? else {
            return Err(NoMemory);
        };
        let mut link = link;
        query(
            self.alloc,
            &self.memory,
            id,
            &mut link,
            self.has_stand_in,
            context,
        )
    }

    fn prepare_for_abort_beside(&self, id: u64, context: &mut Context) -> Result<u8, NoMemory> {
        Ok(PASSES)
    }

    fn select_beside(&self, id: u64, context: &Context) -> Result<Text, NoMemory> {
        Ok(Text::from_str(self.alloc, "")?)
    }
}

//! What a session is to do.

ghost use Rattle.std.specs.Prelude.{◌≡◌, ◌<◌, IfSome, Some};
ghost use Rattle.tx_machine.specs.Due.{participant_of};
ghost use Rattle.tx_history.specs.History.{recovers};
ghost use Rattle.tx_slots.specs.DueCalls.{asks_for, asked, call_with, restored_by, spot_of};

use flow_asm::Code;
use sw_participant::{Act, Call};
use tx_machine::{Due, Phase, Spot};

/// What a session is to do.
#[derive(Clone, Copy)]
pub enum Next {
    /// It holds no transaction.
    Idle,
    /// The entry that made its call due is not written.
    Unwritten,
    /// The call is due, and a breakpoint holds it.
    Held(Call),
    /// The call is due.
    Due(Call),
}

/// Where a session's transaction stands: its due call, and the entry that is called.
#[derive(Clone, Copy)]
pub struct At {
    pub id: u64,
    pub phase: Phase,
    pub call: Call,
    /// None while members are notified of the outcome.
    pub spot: Option<Spot>,
}

/// A kind of reply.
#[derive(Clone, Copy)]
pub enum ReplyKind {
    Answer,
    Choice,
    Told,
    Recovered,
}

// Whether the reply to this call is of the kind.
fn asks_for(kind: ReplyKind, act: Act) -> bool
    ensures { result ≡ asks_for kind act }
{
    match act {
        Act::Prepare | Act::PrepareForAbort => matches!(kind, ReplyKind::Answer),
        Act::Select => matches!(kind, ReplyKind::Choice),
        Act::Commit { .. } | Act::Abort { .. } => matches!(kind, ReplyKind::Told),
        Act::Recover { .. } => matches!(kind, ReplyKind::Recovered),
    }
}

/// Whether a call whose reply is of this kind is due, held or not.
pub fn is_asked(kind: ReplyKind, next: Next) -> bool
    ensures { result ≡ asked kind next }
{
    match next {
        Next::Held(call) | Next::Due(call) => asks_for(kind, call.act),
        Next::Idle | Next::Unwritten => false,
    }
}

fn call(id: u64, participant: usize, act: Act) -> Call
    requires { participant < 65536 }
    ensures { result ≡ record { id = id; participant = participant; act = act } }
{
    Call {
        id,
        participant: participant as u16,
        act,
    }
}

// Whether the participant of this number restores contexts.
fn recovers(code: &Code, participant: usize) -> bool
    ensures { result ≡ recovers code.now participant }
{
    match code.participants().get(participant) {
        Some(part) => part.kind.recovers,
        None => false,
    }
}

/// The `recover` call that comes before this outcome of a journalled transaction: the number of the
/// participant that it goes to, and whether to commit.
pub fn restored_by(code: &Code, due: Due) -> Option<(usize, bool)>
    ensures { result ≡ restored_by code.now due }
{
    match due {
        Due::Commit(p) if recovers(code, p) => Some((p, true)),
        Due::Abort(p) if recovers(code, p) => Some((p, false)),
        _ => None,
    }
}

/// The due call of a transaction, or the `recover` call that comes before it.
pub(crate) fn call_of(
    id: u64,
    recovering: bool,
    due: Due,
    restores: Option<(usize, bool)>,
) -> Option<Call>
    requires due { IfSome (participant_of due) (λ p. p < 65536) }
    requires restores { IfSome restores (λ r. r.0 < 65536) }
    ensures { result ≡ call_with id recovering due restores }
{
    if let Some((participant, commit)) = restores {
        return Some(call(id, participant, Act::Recover { commit }));
    }
    match due {
        Due::Prepare(spot) => Some(call(id, spot.participant, Act::Prepare)),
        Due::PrepareForAbort(spot) => Some(call(id, spot.participant, Act::PrepareForAbort)),
        Due::Select(spot) => Some(call(id, spot.participant, Act::Select)),
        Due::Commit(p) => Some(call(id, p, Act::Commit { recovering })),
        Due::Abort(p) => Some(call(id, p, Act::Abort { recovering })),
        Due::Shelve | Due::Done => None,
    }
}

/// The entry whose call is due.
pub(crate) fn spot_of(due: Due) -> Option<Spot>
    ensures { result ≡ spot_of due }
{
    match due {
        Due::Prepare(spot) | Due::PrepareForAbort(spot) | Due::Select(spot) => Some(spot),
        Due::Commit(_) | Due::Abort(_) | Due::Shelve | Due::Done => None,
    }
}

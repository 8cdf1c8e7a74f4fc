//! What an answer does to a transaction, whichever way the rest is kept.

ghost use Rattle.std.specs.Prelude.{◌≡◌, ◌<◌, ℕ, OnOk, OnErr, IfErr};
ghost use Rattle.std.specs.List.{All};
ghost use Rattle.sw_participant.specs.Answers.{asks_retry, is_prepared};
ghost use Rattle.tx_machine.specs.Table.{after_byte, is_open as is_open_of, joined_after, outcome};
ghost use Rattle.tx_machine.specs.Table.{retry_after, saved_after};
ghost use Rattle.tx_machine.specs.Due.{end_by};

use crate::error::MachineError;
use crate::values::{Due, Phase};
use sw_participant::read_answer;

/// After this many answers and choices the rest is dropped.
pub(crate) const MAX_CALLS: u16 = 1000;

/// The phase in which the members are notified.
pub(crate) fn outcome_of(phase: Phase) -> Phase
    ensures { result ≡ outcome phase }
{
    match phase {
        Phase::Preparing | Phase::Committing => Phase::Committing,
        Phase::Aborting | Phase::Undoing => Phase::Undoing,
    }
}

fn is_prepared_by(byte: u8) -> bool
    ensures { result ≡ is_prepared byte }
{
    read_answer(byte).answer.is_prepared()
}

fn asks_retry_by(byte: u8) -> bool
    ensures { result ≡ asks_retry byte }
{
    read_answer(byte).answer.asks_retry()
}

pub(crate) fn phase_after(phase: Phase, byte: u8) -> Phase
    ensures { result ≡ after_byte phase byte }
{
    match phase {
        Phase::Preparing if !is_prepared_by(byte) => Phase::Aborting,
        _ => phase,
    }
}

/// RETRY counts only in the answer that begins the abort.
pub(crate) fn retry_by(phase: Phase, byte: u8, retry: bool) -> bool
    ensures { result ≡ retry_after phase byte retry }
{
    match phase {
        Phase::Preparing if !is_prepared_by(byte) => asks_retry_by(byte),
        _ => retry,
    }
}

pub(crate) fn join(
    joined: &mut Vec<usize>,
    participant: usize,
    byte: u8,
) -> Result<(), MachineError>
    ensures ok { OnOk result (joined.new.items ≡ joined_after byte participant joined.old.items) }
    ensures within { OnOk result ((count : ℕ)
        → participant < count → All (λ p. p < count) joined.old.items
        → All (λ p. p < count) joined.new.items) }
    ensures err { OnErr result (joined.new.items ≡ joined.old.items) }
    ensures memory { IfErr result (λ e. e ≡ MachineError.OutOfMemory) }
{
    if !read_answer(byte).answer.stays_out() {
        joined.push(participant)?;
    }
    Ok(())
}

pub(crate) fn save(saved: &mut Vec<u8>, context: Vec<u8>, byte: u8)
    ensures { saved.new.items ≡ saved_after byte context.items saved.old.items }
{
    if !read_answer(byte).answer.is_readonly() {
        *saved = context;
    }
}

/// Whether preparations and selections may be due.
pub(crate) fn is_open(phase: Phase) -> bool
    ensures { result ≡ is_open_of phase }
{
    matches!(phase, Phase::Preparing | Phase::Aborting)
}

/// How an abort ends: on the shelf if RETRY was kept and tries are left.
pub(crate) fn end_of(retry: bool, tries: u8) -> Due
    ensures { result ≡ end_by retry tries }
{
    if retry && tries > 0 {
        Due::Shelve
    } else {
        Due::Done
    }
}

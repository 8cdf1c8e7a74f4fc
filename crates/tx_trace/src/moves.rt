//! The line of one step of a transaction.

ghost use Rattle.std.specs.Prelude.{◌≡◌, ◌++◌, codes, IfOk, string_bytes};
ghost use Rattle.tx_machine.specs.Contract.{IsSound, tx_state};
ghost use Rattle.tx_trace.specs.Trace.{call_text, choice_text, detail_text, event_text, head_text};
ghost use Rattle.tx_trace.specs.Trace.{moved_text, standing_text, step_text};

use crate::known::{ChoiceText, known_names};
use crate::names::Names;
use crate::shown::{Move, Standing};
use crate::text::{AnswerText, CallText, Head, NextText, ToldText, bound_word, recovering_word};
use flow_asm::Code;
use std::alloc::{AllocError, Global};
use tx_history::Event;
use tx_machine::Machine;

fn choice(alloc: Global, code: &Code, text: &str, bound: &str) -> Result<String, AllocError>
    ensures { IfOk result (λ s. string_bytes s ≡ choice_text code.now text.now ++ bound.now) }
{
    let known = known_names(alloc, code, text)?;
    let choice = ChoiceText(known.as_slice());
    format!(in alloc; "{choice}{bound}")
}

// What an event adds after its call.
fn detail(
    alloc: Global,
    code: &Code,
    event: &Event,
    place: usize,
    bound: bool,
) -> Result<String, AllocError>
    ensures { IfOk result (λ s. string_bytes s ≡ event_text code.now event.now place bound) }
{
    let bound = bound_word(bound);
    match event {
        Event::Answered { byte, .. } => {
            let answer = AnswerText(*byte);
            format!(in alloc; "{answer}{bound}")
        }
        Event::Chose { text, .. } => choice(alloc, code, text.as_str(), bound),
        Event::Told { advice, .. } => {
            let advised = advice.is_some();
            let told = ToldText { advised, place };
            format!(in alloc; "{told}")
        }
        _ => Ok(String::new(alloc)),
    }
}

// The call that is due where a transaction stands.
fn call<'a>(names: Names<'a>, standing: Standing) -> CallText<'a>
    ensures { call_text result.next.names.code.now result.restores result.next.due
        ≡ standing_text names.entry.code.now standing }
{
    CallText {
        next: NextText {
            names,
            due: standing.due,
        },
        restores: standing.restores,
    }
}

// What an event adds after its call.
fn event_detail(
    alloc: Global,
    code: &Code,
    moved: Move,
    event: &Event,
) -> Result<String, AllocError>
    ensures { IfOk result (λ s. string_bytes s
        ≡ detail_text code.now moved.recovering event.now moved.before.told moved.after.bound) }
{
    let detail = detail(alloc, code, event, moved.before.told, moved.after.bound)?;
    let word = recovering_word(moved.recovering);
    format!(in alloc; "{word}{detail}")
}

fn joined(
    alloc: Global,
    head: &Head<'_>,
    detail: &str,
    next: &CallText<'_>,
) -> Result<String, AllocError>
    ensures { IfOk result (λ s. string_bytes s
        ≡ head_text head.now.id head.now.phase
        (call_text head.now.call.next.names.code.now head.now.call.restores head.now.call.next.due)
        ++ (detail.now ++ codes "-> "
        ++ call_text next.now.next.names.code.now next.now.restores next.now.next.due)) }
{
    format!(in alloc; "{head}{detail}-> {next}")
}

/// The line of an event that leads a transaction from where it stood to where it stands.
pub(crate) fn moved_line(
    alloc: Global,
    code: &Code,
    moved: Move,
    event: &Event,
) -> Result<String, AllocError>
    ensures { IfOk result (λ s. string_bytes s ≡ moved_text code.now moved event.now) }
{
    let names = Names { code };
    let head = Head {
        id: moved.id,
        phase: moved.before.phase,
        call: call(names, moved.before),
    };
    let detail = event_detail(alloc, code, moved, event)?;
    let next = call(names, moved.after);
    joined(alloc, &head, detail.as_str(), &next)
}

/// The line of an answer, a choice or a told that leads the transaction `id` from `before` to
/// `after`, without a line feed; the transaction does not come from the journal. The only refusal
/// is out of memory.
pub fn step_line(
    alloc: Global,
    id: u64,
    code: &Code,
    before: &Machine,
    event: &Event,
    after: &Machine,
) -> Result<String, AllocError>
    requires before { IsSound code.now before.now }
    requires after { IsSound code.now after.now }
    ensures { IfOk result (λ s. string_bytes s
        ≡ step_text id code.now
        (tx_state code.now before.now) event.now (tx_state code.now after.now)) }
{
    let moved = Move {
        id,
        recovering: false,
        before: Standing::of(code, before, None),
        after: Standing::of(code, after, None),
    };
    moved_line(alloc, code, moved, event)
}

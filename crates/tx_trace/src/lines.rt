//! The line of an entry as text, by what it shows.

ghost use Rattle.std.specs.Prelude.{◌≡◌, IfOk, string_bytes};
ghost use Rattle.tx_trace.specs.Trace.{begun_text, debug_text, plain_text, shown_text};

use crate::moves::moved_line;
use crate::names::Names;
use crate::shown::Shown;
use crate::text::NextText;
use flow_asm::Code;
use std::alloc::{AllocError, Global};
use tx_history::Event;
use tx_machine::Due;

// The line of a take under this id, after which this is due.
fn begun_line(
    alloc: Global,
    code: &Code,
    session: usize,
    id: u64,
    due: Due,
) -> Result<String, AllocError>
    ensures { IfOk result (λ s. string_bytes s ≡ begun_text code.now id session due) }
{
    let next = NextText {
        names: Names { code },
        due,
    };
    format!(in alloc; "{id} take {session} -> {next}")
}

fn debug_line(alloc: Global, code: &Code, event: &Event) -> Result<String, AllocError>
    ensures { IfOk result (λ s. string_bytes s ≡ debug_text code.now event.now) }
{
    let names = Names { code };
    match event {
        Event::Broke { participant } => {
            let name = names.participant(*participant);
            format!(in alloc; "break {name}")
        }
        Event::Cleared { participant } => {
            let name = names.participant(*participant);
            format!(in alloc; "clear {name}")
        }
        Event::LetGo { session } => format!(in alloc; "go {session}"),
        _ => Ok(String::new(alloc)),
    }
}

// The line of an event that is of no transaction under way.
fn plain_line(
    alloc: Global,
    code: &Code,
    shelved: usize,
    event: &Event,
) -> Result<String, AllocError>
    ensures { IfOk result (λ s. string_bytes s ≡ plain_text code.now shelved event.now) }
{
    match event {
        Event::Offered { context } => {
            let length = context.as_slice().len();
            format!(in alloc; "offer {length}")
        }
        Event::Released => format!(in alloc; "release {shelved}"),
        Event::Acked { id, place } => {
            let (id, place) = (*id, *place);
            format!(in alloc; "ack {id} {place}")
        }
        Event::Closed { id } => format!(in alloc; "{id} closed"),
        _ => debug_line(alloc, code, event),
    }
}

/// The line of an entry as text.
pub(crate) fn shown_line(
    alloc: Global,
    code: &Code,
    shown: Shown,
    event: &Event,
) -> Result<String, AllocError>
    ensures { IfOk result (λ s. string_bytes s ≡ shown_text code.now shown event.now) }
{
    match shown {
        Shown::Moved(moved) => moved_line(alloc, code, moved, event),
        Shown::Begun { id, session, due } => begun_line(alloc, code, session, id, due),
        Shown::Plain { shelved } => plain_line(alloc, code, shelved, event),
    }
}

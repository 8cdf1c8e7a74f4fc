//! Copies of what a history and a journal hold. The only refusal is out of memory.

ghost use Rattle.std.specs.Prelude.{◌≡◌, IfOk};

use crate::event::{Change, Entry, Event};
use crate::journal::{JournalView, Row, WaitingContext};
use std::alloc::{AllocError, Global};
use sw_participant::{Bytes, Sequence, Text};

fn copy_bytes(bytes: &Option<Bytes>) -> Result<Option<Bytes>, AllocError>
    ensures { IfOk result (λ copy. copy ≡ bytes.now) }
{
    match bytes {
        Some(bytes) => Ok(Some(bytes.copy()?)),
        None => Ok(None),
    }
}

fn copy_name(name: &Option<Text>) -> Result<Option<Text>, AllocError>
    ensures { IfOk result (λ copy. copy ≡ name.now) }
{
    match name {
        Some(name) => Ok(Some(name.copy()?)),
        None => Ok(None),
    }
}

fn copy_names(alloc: Global, names: &[Text]) -> Result<Sequence<Text>, AllocError>
    ensures { IfOk result (λ copies. copies ≡ names.now) }
{
    let mut copies = Vec::new(alloc);
    for name in names {
        copies.push(name.copy()?)?;
    }
    Ok(Sequence::new(copies))
}

impl WaitingContext {
    pub fn copy(&self) -> Result<WaitingContext, AllocError>
        ensures { IfOk result (λ copy. copy ≡ self.now) }
    {
        Ok(WaitingContext {
            tries: self.tries,
            context: self.context.copy()?,
        })
    }
}

impl Row {
    pub fn copy(&self, alloc: Global) -> Result<Row, AllocError>
        ensures { IfOk result (λ copy. copy ≡ self.now) }
    {
        Ok(Row {
            phase: self.phase,
            joined: copy_names(alloc, self.joined.as_slice())?,
            told: self.told,
            doing: copy_name(&self.doing)?,
            tries: self.tries,
            context: self.context.copy()?,
        })
    }
}

impl Event {
    pub fn copy(&self) -> Result<Event, AllocError>
        ensures { IfOk result (λ copy. copy ≡ self.now) }
    {
        Ok(match self {
            Event::Offered { context } => Event::Offered {
                context: context.copy()?,
            },
            Event::Taken { session } => Event::Taken { session: *session },
            Event::Answered {
                session,
                byte,
                context,
            } => Event::Answered {
                session: *session,
                byte: *byte,
                context: context.copy()?,
            },
            Event::Chose { session, text } => Event::Chose {
                session: *session,
                text: text.copy()?,
            },
            Event::Told { session, advice } => Event::Told {
                session: *session,
                advice: copy_bytes(advice)?,
            },
            Event::Recovered { session, context } => Event::Recovered {
                session: *session,
                context: context.copy()?,
            },
            Event::Released => Event::Released,
            Event::Acked { id, place } => Event::Acked {
                id: *id,
                place: *place,
            },
            Event::Broke { participant } => Event::Broke {
                participant: *participant,
            },
            Event::Cleared { participant } => Event::Cleared {
                participant: *participant,
            },
            Event::LetGo { session } => Event::LetGo { session: *session },
            Event::Closed { id } => Event::Closed { id: *id },
        })
    }
}

fn copy_row(alloc: Global, row: &Option<Row>) -> Result<Option<Row>, AllocError>
    ensures { IfOk result (λ copy. copy ≡ row.now) }
{
    match row {
        Some(row) => Ok(Some(row.copy(alloc)?)),
        None => Ok(None),
    }
}

impl Change {
    pub fn copy(&self, alloc: Global) -> Result<Change, AllocError>
        ensures { IfOk result (λ copy. copy ≡ self.now) }
    {
        let row = match &self.row {
            Some((id, row)) => Some((*id, copy_row(alloc, row)?)),
            None => None,
        };
        let shelved = match &self.shelved {
            Some((id, waiting)) => Some((*id, waiting.copy()?)),
            None => None,
        };
        let advice = match &self.advice {
            Some((place, advice)) => Some((*place, copy_bytes(advice)?)),
            None => None,
        };
        Ok(Change {
            next_id: self.next_id,
            row,
            shelved,
            emptied: self.emptied,
            advice,
        })
    }
}

impl Entry {
    pub fn copy(&self, alloc: Global) -> Result<Entry, AllocError>
        ensures { IfOk result (λ copy. copy ≡ self.now) }
    {
        Ok(Entry {
            number: self.number,
            event: self.event.copy()?,
            change: self.change.copy(alloc)?,
        })
    }
}

impl JournalView {
    pub fn copy(&self, alloc: Global) -> Result<JournalView, AllocError>
        ensures { IfOk result (λ copy. copy ≡ self.now) }
    {
        Ok(JournalView {
            next_id: self.next_id,
            rows: copy_rows(alloc, self.rows.as_slice())?,
            shelf: copy_shelf(alloc, self.shelf.as_slice())?,
            advices: copy_advices(alloc, self.advices.as_slice())?,
        })
    }
}

fn copy_rows(alloc: Global, rows: &[(u64, Row)]) -> Result<Sequence<(u64, Row)>, AllocError>
    ensures { IfOk result (λ copies. copies ≡ rows.now) }
{
    let mut copies = Vec::new(alloc);
    for (id, row) in rows {
        copies.push((*id, row.copy(alloc)?))?;
    }
    Ok(Sequence::new(copies))
}

fn copy_shelf(
    alloc: Global,
    shelf: &[(u64, WaitingContext)],
) -> Result<Sequence<(u64, WaitingContext)>, AllocError>
    ensures { IfOk result (λ copies. copies ≡ shelf.now) }
{
    let mut copies = Vec::new(alloc);
    for (id, waiting) in shelf {
        copies.push((*id, waiting.copy()?))?;
    }
    Ok(Sequence::new(copies))
}

fn copy_advices(
    alloc: Global,
    advices: &[((u64, usize), Bytes)],
) -> Result<Sequence<((u64, usize), Bytes)>, AllocError>
    ensures { IfOk result (λ copies. copies ≡ advices.now) }
{
    let mut copies = Vec::new(alloc);
    for (place, advice) in advices {
        copies.push((*place, advice.copy()?))?;
    }
    Ok(Sequence::new(copies))
}

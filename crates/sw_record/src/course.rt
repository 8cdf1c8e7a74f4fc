//! What the entries of a history say of one transaction.

ghost use Rattle.std.specs.Prelude.{◌≡◌, IfOk, OnOk, if◌then◌else◌};
ghost use Rattle.sw_record.specs.Courses.{chosen, decides, doing_in, no_course, course, tries_in};
ghost use Rattle.sw_record.specs.Courses.{was_asked, with_answer, with_entry, with_event};

use crate::context::context_in;
use std::alloc::{AllocError, Global};
use sw_context::Context;
use sw_messages::{CODE, RESPONSE, SENT};
use sw_participant::{Text, read_answer};
use tx_history::{Entry, Event, Row};

/// What the entries of a history say of one transaction.
pub struct Course {
    /// The participant whose preparation is due.
    pub doing: Option<Text>,
    /// How many tries were left when a session took it; `None` if its take is not among the entries.
    pub tries: Option<u8>,
    /// The text of the last selection that named a group.
    pub group: Option<Text>,
    /// The participant that decided: the first whose answer lacks PREPARED, or left a response code or a response.
    pub decided: Option<Text>,
    /// The participant that asked an issuer: the first whose answer left the note `sent`.
    pub asked: Option<Text>,
    /// The context that the last answer left.
    pub context: Context,
}

// Written out, so that no caller proves again how its parts are dropped.
impl Drop for Course {
    fn drop(self) {
        let Course {
            doing: _,
            tries: _,
            group: _,
            decided: _,
            asked: _,
            context: _,
        } = self;
    }
}

/// A copy of a text, if there is one.
pub(crate) fn copy_of(text: &Option<Text>) -> Result<Option<Text>, AllocError>
    ensures { IfOk result (λ copy. copy ≡ text.now) }
{
    match text {
        Some(text) => Ok(Some(text.copy()?)),
        None => Ok(None),
    }
}

/// A copy of a text, if it is wanted.
fn copy_if(wanted: bool, text: &Option<Text>) -> Result<Option<Text>, AllocError>
    ensures { IfOk result (λ copy. copy ≡ (if wanted then text.now else None)) }
{
    if wanted { copy_of(text) } else { Ok(None) }
}

// Whether an answer decides.
fn decides(byte: u8, context: &Context) -> bool
    ensures { result ≡ decides byte context.now }
{
    !read_answer(byte).answer.is_prepared()
        || context.get(CODE).is_some()
        || context.get(RESPONSE).is_some()
}

// Whether the request was sent to an issuer.
fn was_asked(context: &Context) -> bool
    ensures { result ≡ was_asked context.now }
{
    context.get(SENT).is_some()
}

// The participant that a row says is being prepared.
fn doing_in(row: &Option<Row>) -> Result<Option<Text>, AllocError>
    ensures { IfOk result (λ doing. doing ≡ doing_in row.now) }
{
    match row {
        Some(row) => copy_of(&row.doing),
        None => Ok(None),
    }
}

fn tries_in(row: &Option<Row>) -> Option<u8>
    ensures { result ≡ tries_in row.now }
{
    match row {
        Some(row) => Some(row.tries),
        None => None,
    }
}

impl Course {
    /// The course before the first entry.
    pub(crate) fn new(alloc: Global) -> Course
        ensures { result ≡ no_course }
    {
        Course {
            doing: None,
            tries: None,
            group: None,
            decided: None,
            asked: None,
            context: Context::new(alloc),
        }
    }

    // Follows an answer of the participant whose preparation was due.
    fn answer(&mut self, byte: u8, context: Context) -> Result<(), AllocError>
        ensures { OnOk result (self.new ≡ with_answer byte context self.old) }
    {
        if self.decided.is_none() {
            self.decided = copy_if(decides(byte, &context), &self.doing)?;
        }
        if self.asked.is_none() {
            self.asked = copy_if(was_asked(&context), &self.doing)?;
        }
        self.context = context;
        Ok(())
    }

    // Follows a selection.
    fn choose(&mut self, text: &Text) -> Result<(), AllocError>
        ensures { OnOk result (self.new ≡ record self.old {
          group = chosen text.now self.old.group;
        }) }
    {
        if !text.as_str().is_empty() {
            self.group = Some(text.copy()?);
        }
        Ok(())
    }

    // Follows an event of the transaction, after which it has this row.
    fn event(&mut self, alloc: Global, event: &Event, row: &Option<Row>) -> Result<(), AllocError>
        ensures { OnOk result (self.new ≡ with_event event.now row.now self.old) }
    {
        match event {
            Event::Taken { .. } => {
                self.tries = tries_in(row);
                Ok(())
            }
            Event::Answered { byte, context, .. } => {
                let context = context_in(alloc, context.as_slice())?;
                self.answer(*byte, context)
            }
            Event::Chose { text, .. } => self.choose(text),
            _ => Ok(()),
        }
    }

    /// Follows an entry, if it is of the transaction with this id. Out of memory is the only refusal.
    pub(crate) fn follow(&mut self, alloc: Global, id: u64, entry: &Entry) -> Result<(), AllocError>
        ensures { OnOk result (self.new ≡ with_entry id entry.now self.old) }
    {
        match &entry.change.row {
            Some((of, row)) if *of == id => {
                self.event(alloc, &entry.event, row)?;
                self.doing = doing_in(row)?;
                Ok(())
            }
            _ => Ok(()),
        }
    }

    /// What these entries say of the transaction with this id. Out of memory is the only refusal.
    pub fn of(alloc: Global, id: u64, entries: &[Entry]) -> Result<Course, AllocError>
        ensures { IfOk result (λ found. found ≡ course id entries.now) }
    {
        let mut course = Course::new(alloc);
        for entry in entries {
            course.follow(alloc, id, entry)?;
        }
        Ok(course)
    }
}

//! A participant that replies from queues.

ghost use Rattle.std.specs.Prelude.{◌≡◌, IfOk, OnErr, slice_get};
ghost use Rattle.sw_scripted.specs.Puts.{put_all};
ghost use Rattle.sw_scripted.specs.Scripted.{Advised, Answered, Chosen, Restored, ShowsQueues};
ghost use Rattle.sw_scripted.specs.Scripted.{queues_of, shown_queues};

use crate::puts::{Put, put_all};
use std::alloc::Global;
use std::collections::VecDeque;
use sw_context::Context;
use sw_participant::{AdviceResult, Bytes, NoMemory, Participant, Sequence, Text};

/// The byte of a participant that has no answer queued: PREPARED.
const PREPARED: u8 = 0x01;

/// An answer to a preparation, and the entries that it puts into the context.
pub struct QueuedAnswer {
    pub byte: u8,
    pub puts: Sequence<Put>,
}

// Written out, so that no caller proves again how its parts are dropped.
impl Drop for QueuedAnswer {
    fn drop(self) {
        let QueuedAnswer { byte: _, puts: _ } = self;
    }
}

/// Replies that are queued, of each kind the next one first.
pub struct QueuedReplies {
    /// For `prepare` and `prepare_for_abort`.
    pub answers: VecDeque<QueuedAnswer>,
    /// For `select`.
    pub choices: VecDeque<Text>,
    /// For `commit` and `abort`.
    pub advices: VecDeque<Bytes>,
    /// For `recover`: the entries that it puts into the context.
    pub restores: VecDeque<Sequence<Put>>,
}

// Written out, so that no caller proves again how its parts are dropped.
impl Drop for QueuedReplies {
    fn drop(self) {
        let QueuedReplies {
            answers: _,
            choices: _,
            advices: _,
            restores: _,
        } = self;
    }
}

/// A participant whose replies are queued. Each call takes the next one of its kind; if none is queued,
/// it answers PREPARED, selects no group, gives no advice and restores nothing.
pub struct Scripted {
    alloc: Global,
    replies: QueuedReplies,
}

// Written out, so that no caller proves again how its parts are dropped.
impl Drop for Scripted {
    fn drop(self) {
        let Scripted {
            alloc: _,
            replies: _,
        } = self;
    }
}

// The context with these entries put.
fn with_all(context: &Context, puts: &[Put]) -> Result<Context, NoMemory>
    ensures { IfOk result (λ changed. changed ≡ put_all context.now puts.now) }
{
    let mut changed = context.copy()?;
    put_all(&mut changed, puts)?;
    Ok(changed)
}

impl QueuedReplies {
    fn answer(&mut self, context: &mut Context) -> Result<u8, NoMemory>
        ensures answered { IfOk result (λ byte.
            Answered (queues_of self.old) context.old byte (queues_of self.new) context.new) }
        ensures kept { OnErr result (self.new ≡ self.old) }
        ensures context_kept { OnErr result (context.new ≡ context.old) }
    {
        let Some(next) = self.answers.front() else {
            return Ok(PREPARED);
        };
        let byte = next.byte;
        *context = with_all(context, next.puts.as_slice())?;
        let _ = self.answers.pop_front();
        Ok(byte)
    }

    fn choose(&mut self, alloc: Global) -> Text
        ensures { Chosen (queues_of self.old) result (queues_of self.new) }
    {
        match self.choices.pop_front() {
            Some(text) => text,
            None => Text::new(String::new(alloc)),
        }
    }

    fn advise(&mut self) -> Option<Bytes>
        ensures { Advised (queues_of self.old) result (queues_of self.new) }
    {
        self.advices.pop_front()
    }

    fn restore(&mut self, context: &mut Context) -> Result<(), NoMemory>
        ensures restored { IfOk result (λ _.
            Restored (queues_of self.old) context.old (queues_of self.new) context.new) }
        ensures kept { OnErr result (self.new ≡ self.old) }
        ensures context_kept { OnErr result (context.new ≡ context.old) }
    {
        let Some(next) = self.restores.front() else {
            return Ok(());
        };
        *context = with_all(context, next.as_slice())?;
        let _ = self.restores.pop_front();
        Ok(())
    }
}

impl Scripted {
    /// A participant that gives these replies.
    pub fn new(alloc: Global, replies: QueuedReplies) -> Scripted
        ensures { ⟦<Scripted as Participant>⟧.object result ≡ shown_queues (queues_of replies) }
    {
        Scripted { alloc, replies }
    }
}

impl Participant for Scripted {
    ghost object = { λ scripted. shown_queues (queues_of scripted.replies) };

    ghost prepares = { λ id o x byte p y. ShowsQueues o p (λ q r. Answered q x byte r y) };

    ghost prepares_for_abort = { λ id o x byte p y. ShowsQueues o p (λ q r. Answered q x byte r y) };

    ghost selects = { λ id o x text p. ShowsQueues o p (λ q r. Chosen q text r) };

    ghost commits = { λ id recovering o x advice p y. ShowsQueues o p (λ q r. Advised q advice r)
        × (y ≡ x) };

    ghost aborts = { λ id recovering o x advice p y. ShowsQueues o p (λ q r. Advised q advice r)
        × (y ≡ x) };

    ghost recovers = { λ id commit o x p y. ShowsQueues o p (λ q r. Restored q x r y) };

    fn prepare(&mut self, id: u64, context: &mut Context) -> Result<u8, NoMemory> {
        Ok(self.replies.answer(context)?)
    }

    fn prepare_for_abort(&mut self, id: u64, context: &mut Context) -> Result<u8, NoMemory> {
        Ok(self.replies.answer(context)?)
    }

    fn select(&mut self, id: u64, context: &Context) -> Result<Text, NoMemory> {
        Ok(self.replies.choose(self.alloc))
    }

    fn commit(&mut self, id: u64, context: &mut Context, recovering: bool) -> AdviceResult {
        Ok(self.replies.advise())
    }

    fn abort(&mut self, id: u64, context: &mut Context, recovering: bool) -> AdviceResult {
        Ok(self.replies.advise())
    }

    fn recover(&mut self, id: u64, context: &mut Context, commit: bool) -> Result<(), NoMemory> {
        Ok(self.replies.restore(context)?)
    }
}

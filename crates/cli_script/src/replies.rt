//! What participants reply, by their names.
ghost use Rattle.std.specs.Prelude.{◌≡◌, ℕ, List, [], OnOk};
ghost use Rattle.sw_scripted.specs.Scripted.{queues_of};
ghost use Rattle.cli_script.specs.Queues.{OthersStay, PutsLast};
ghost use Rattle.cli_script.specs.Replies.{advices_at, answers_at, choices_at, queued_at, restores_at};

use crate::queues::Queues;
use std::alloc::{AllocError, Global};
use sw_participant::{Bytes, Sequence, Text};
use sw_scripted::{Put, QueuedAnswer, QueuedReplies};

/// What participants reply, in the order in which it was queued.
pub struct Replies {
    answers: Queues<QueuedAnswer>,
    choices: Queues<Text>,
    advices: Queues<Bytes>,
    restores: Queues<Sequence<Put>>,
}

// Written out, so that no caller proves again how its parts are dropped.
impl Drop for Replies {
    fn drop(self) {
        let Replies {
            answers: _,
            choices: _,
            advices: _,
            restores: _,
        } = self;
    }
}

impl Replies {
    pub fn new(alloc: Global) -> Replies
        ensures answers { (q : List ℕ) → answers_at result q ≡ [] }
        ensures choices { (q : List ℕ) → choices_at result q ≡ [] }
        ensures advices { (q : List ℕ) → advices_at result q ≡ [] }
        ensures restores { (q : List ℕ) → restores_at result q ≡ [] }
    {
        Replies {
            answers: Queues::new(alloc),
            choices: Queues::new(alloc),
            advices: Queues::new(alloc),
            restores: Queues::new(alloc),
        }
    }

    /// Queues the answer of a preparation of a participant, after the answers that are queued already.
    pub fn queue_answer(&mut self, name: Text, answer: QueuedAnswer) -> Result<(), AllocError>
        ensures queued { OnOk result (PutsLast (answers_at self.old)
            (answers_at self.new) name answer) }
        ensures others { self.new ≡ record self.old { answers = self.new.answers } }
    {
        self.answers.push(name.into_string(), answer)
    }

    /// The same for the text of a selection.
    pub fn queue_choice(&mut self, name: Text, text: Text) -> Result<(), AllocError>
        ensures queued { OnOk result (PutsLast (choices_at self.old)
            (choices_at self.new) name text) }
        ensures others { self.new ≡ record self.old { choices = self.new.choices } }
    {
        self.choices.push(name.into_string(), text)
    }

    /// The same for the advice of a commit or an abort.
    pub fn queue_advice(&mut self, name: Text, body: Bytes) -> Result<(), AllocError>
        ensures queued { OnOk result (PutsLast (advices_at self.old)
            (advices_at self.new) name body) }
        ensures others { self.new ≡ record self.old { advices = self.new.advices } }
    {
        self.advices.push(name.into_string(), body)
    }

    /// The same for the entries that a `recover` puts into the context.
    pub fn queue_restore(&mut self, name: Text, puts: Sequence<Put>) -> Result<(), AllocError>
        ensures queued { OnOk result (PutsLast (restores_at self.old)
            (restores_at self.new) name puts) }
        ensures others { self.new ≡ record self.old { restores = self.new.restores } }
    {
        self.restores.push(name.into_string(), puts)
    }

    /// Takes all that is queued for a participant.
    pub fn take(&mut self, alloc: Global, name: &str) -> QueuedReplies
        ensures taken { queues_of result ≡ queued_at self.old name.now }
        ensures others { OthersStay (queued_at self.old) (queued_at self.new) name.now }
    {
        QueuedReplies {
            answers: self.answers.take(alloc, name),
            choices: self.choices.take(alloc, name),
            advices: self.advices.take(alloc, name),
            restores: self.restores.take(alloc, name),
        }
    }
}

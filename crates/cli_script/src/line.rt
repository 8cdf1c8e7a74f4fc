//! What a line of a script means.
use flow_model::Group;
use sw_participant::{Bytes, Sequence, Text};
use sw_scripted::{Put, QueuedAnswer};

/// A line of a script.
#[derive(Drop)]
pub enum ScriptLine {
    /// A line that states something before the first action.
    Setting(Setting),
    /// A line that runs something.
    Action(Action),
}

/// What is stated before a script's first action.
#[derive(Drop)]
pub enum Setting {
    /// `retries N`: how often a transaction that aborts with RETRY is tried again.
    Retries(u64),
    /// `sessions N`: how many sessions there are.
    Sessions(u64),
    /// `flow GROUP ENTRY ..`: one more group of the flow. Its names are not checked here.
    Flow(Group),
    /// `answer NAME HH [N=HEX ..]`: the participant's next preparation.
    Answer {
        participant: Text,
        answer: QueuedAnswer,
    },
    /// `choose NAME TEXT`: the text of the participant's next selection.
    Choose {
        participant: Text,
        text: Text,
    },
    /// `advice NAME HEX`: the advice of the participant's next commit or abort.
    Advice {
        participant: Text,
        body: Bytes,
    },
    /// `restore NAME [N=HEX ..]`: what the participant's next `recover` puts into the context.
    Restore {
        participant: Text,
        puts: Sequence<Put>,
    },
}

/// What a line runs. Sessions, ids, places and counts are any numbers below 2^64.
#[derive(Drop)]
pub enum Action {
    /// `offer [N=HEX ..]`: a context with these entries goes to the end of the queue.
    Offer(Sequence<Put>),
    /// `take S`: the session takes the queue's first context.
    Take(u64),
    /// `release`: the contexts of the shelf go to the end of the queue.
    Release,
    /// `ack ID PLACE`: the advice that the member at this place of the transaction gave was forwarded.
    Ack { id: u64, place: u64 },
    /// `break NAME`: the participant's calls are held from now on.
    Break(Text),
    /// `clear NAME`: the participant's calls are no longer held.
    Clear(Text),
    /// `go S`: the session's held call is let go.
    Go(u64),
    /// `call S`: the session's due call is made.
    Call(u64),
    /// `write [K]`: the oldest K unwritten entries are written, or all of them.
    Write(Option<u64>),
    /// `stop`: everything but the journal and the participants is dropped.
    Stop,
    /// `cut`: the history begins anew from what is written.
    Cut,
    /// `where S`: shows where the session's transaction stands.
    Where(u64),
    /// `rest S`: shows the entries that are to come.
    Rest(u64),
    /// `saved S`: shows the saved context.
    Saved(u64),
    /// `calls NAME`: shows how many calls were made of the participant.
    Calls(Text),
    /// `auto`: one transaction with an empty context, from its offer to its end.
    Auto,
}

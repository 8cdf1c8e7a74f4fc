//! Participants that never join a transaction.

ghost use Rattle.std.specs.Prelude.{◌≡◌, ℕ, List, IfOk, OnErr};
ghost use Rattle.sw_context.specs.Pairs.{Pairs};
ghost use Rattle.sw_participant.specs.Outcomes.{StaysQuiet, RestoresNothing};

use crate::call::{Act, Call, Reply};
use crate::participant::{AdviceResult, NoMemory, Participant};
use crate::values::Text;
use sw_context::Context;

/// What takes part in a transaction only by preparing and selecting: it never joins, so it is notified
/// of no outcome. The relations are those of [`Participant`].
pub trait Unjoined: Drop {
    /// What contracts see of it.
    ghost object: { Self → List ℕ };

    /// What `select` may do.
    ghost selects: { ℕ → List ℕ → Pairs → List ℕ → List ℕ → Type 0 };

    /// What `prepare_for_abort` may do.
    ghost prepares_for_abort: { ℕ → List ℕ → Pairs → ℕ → List ℕ → Pairs → Type 0 };

    /// What `prepare` may do.
    ghost prepares: { ℕ → List ℕ → Pairs → ℕ → List ℕ → Pairs → Type 0 };

    /// The groups that run next.
    fn select(&mut self, id: u64, context: &Context) -> Result<Text, NoMemory>
        ensures performed { IfOk result (λ text.
            selects id (object self.old) context.now text (object self.new)) }
        ensures object_kept { OnErr result (object self.new ≡ object self.old) };

    /// Prepares in a transaction that is already aborting.
    fn prepare_for_abort(&mut self, id: u64, context: &mut Context) -> Result<u8, NoMemory>
        ensures performed { IfOk result (λ byte. prepares_for_abort id
            (object self.old) context.old byte (object self.new) context.new) }
        ensures object_kept { OnErr result (object self.new ≡ object self.old) }
        ensures context_kept { OnErr result (context.new ≡ context.old) };

    /// Prepares for the outcome.
    fn prepare(&mut self, id: u64, context: &mut Context) -> Result<u8, NoMemory>
        ensures performed { IfOk result (λ byte.
            prepares id (object self.old) context.old byte (object self.new) context.new) }
        ensures object_kept { OnErr result (object self.new ≡ object self.old) }
        ensures context_kept { OnErr result (context.new ≡ context.old) };

    /// Whether several sessions may call it at once, by the calls that follow (`Participant::is_shared`).
    fn is_shared(&self) -> bool {
        false
    }

    /// `select`, while other sessions may be in a call.
    fn select_beside(&self, id: u64, context: &Context) -> Result<Text, NoMemory>
        ensures performed { IfOk result (λ text.
            selects id (object self.now) context.now text (object self.now)) }
    {
        Err(NoMemory)
    }

    /// `prepare_for_abort`, likewise.
    fn prepare_for_abort_beside(&self, id: u64, context: &mut Context) -> Result<u8, NoMemory>
        ensures performed { IfOk result (λ byte. prepares_for_abort id
            (object self.now) context.old byte (object self.now) context.new) }
        ensures context_kept { OnErr result (context.new ≡ context.old) }
    {
        Err(NoMemory)
    }

    /// `prepare`, likewise.
    fn prepare_beside(&self, id: u64, context: &mut Context) -> Result<u8, NoMemory>
        ensures performed { IfOk result (λ byte.
            prepares id (object self.now) context.old byte (object self.now) context.new) }
        ensures context_kept { OnErr result (context.new ≡ context.old) }
    {
        Err(NoMemory)
    }
}

/// The participant made of one that never joins: an outcome has no effect.
pub struct Bystander<P: Unjoined> {
    part: P,
}

// Written out, so that no caller proves again how its parts are dropped.
impl<P: Unjoined + Drop> Drop for Bystander<P> {
    fn drop(self) {
        let Bystander { part: _ } = self;
    }
}

impl<P: Unjoined> Bystander<P> {
    /// The participant made of this one.
    pub fn new(part: P) -> Bystander<P>
        ensures { ⟦<Bystander<P> as Participant>⟧.object result ≡ P.object part }
    {
        Bystander { part }
    }
}

impl<P: Unjoined> Participant for Bystander<P> {
    ghost object = { λ bystander. P.object bystander.part };

    ghost prepares = { λ id o x byte p y. P.prepares id o x byte p y };

    ghost prepares_for_abort = { λ id o x byte p y. P.prepares_for_abort id o x byte p y };

    ghost selects = { λ id o x text p. P.selects id o x text p };

    ghost commits = { λ id recovering o x advice p y. StaysQuiet o x advice p y };

    ghost aborts = { λ id recovering o x advice p y. StaysQuiet o x advice p y };

    ghost recovers = { λ id commit o x p y. RestoresNothing o x p y };

    fn prepare(&mut self, id: u64, context: &mut Context) -> Result<u8, NoMemory> {
        self.part.prepare(id, context)
    }

    fn prepare_for_abort(&mut self, id: u64, context: &mut Context) -> Result<u8, NoMemory> {
        self.part.prepare_for_abort(id, context)
    }

    fn select(&mut self, id: u64, context: &Context) -> Result<Text, NoMemory> {
        self.part.select(id, context)
    }

    fn commit(&mut self, id: u64, context: &mut Context, recovering: bool) -> AdviceResult {
        Ok(None)
    }

    fn abort(&mut self, id: u64, context: &mut Context, recovering: bool) -> AdviceResult {
        Ok(None)
    }

    fn recover(&mut self, id: u64, context: &mut Context, commit: bool) -> Result<(), NoMemory> {
        Ok(())
    }

    fn is_shared(&self) -> bool {
        self.part.is_shared()
    }

    fn call_beside(&self, call: &Call, context: &mut Context) -> Result<Reply, NoMemory> {
        let (id, part) = (call.id, &self.part);
        match call.act {
            Act::Prepare => part.prepare_beside(id, context).map(Reply::Answer),
            Act::PrepareForAbort => part
                .prepare_for_abort_beside(id, context)
                .map(Reply::Answer),
            Act::Select => part.select_beside(id, context).map(Reply::Chosen),
            Act::Commit { .. } | Act::Abort { .. } => Ok(Reply::Told(None)),
            Act::Recover { .. } => Ok(Reply::Recovered),
        }
    }
}

//! A participant that stamps contexts: the example of docs/extend/PARTICIPANTS.md.

ghost use Rattle.std.specs.Prelude.{◌≡◌, ◌≢◌, ◌⊎◌, None, codes};
ghost use Rattle.sw_context.specs.Pairs.{refusal, with_value, without};

use sw_context::{Context, ContextError};
use sw_participant::{AdviceResult, NO_JOIN, NoMemory, PREPARED, Participant, READONLY, Text};

/// Puts a value under `stamp` as it prepares, and takes it out again where the transaction aborts.
#[derive(Drop)]
pub struct Stamp {
    pub value: Vec<u8>,
}

impl Participant for Stamp {
    // Contracts see the value, which no call changes.
    ghost object = { λ stamp. stamp.value.items };

    // PREPARED with the stamp put; ABORTED with NO_JOIN and READONLY where the context does not take it.
    ghost prepares = { λ id o x byte p y. (p ≡ o)
        × (((refusal x (codes "stamp") o ≡ None) × (byte ≡ 0x01)
        × (y ≡ with_value x (codes "stamp") o))
        ⊎ ((refusal x (codes "stamp") o ≢ None) × (byte ≡ 0xc0) × (y ≡ x))) };

    // An abort needs no stamp.
    ghost prepares_for_abort = { λ id o x byte p y. (p ≡ o) × (byte ≡ 0xc0) × (y ≡ x) };

    // It is not a selector.
    ghost selects = { λ id o x text p. p ≡ o };

    ghost commits = { λ id recovering o x advice p y. (p ≡ o) × (advice ≡ None) × (y ≡ x) };

    ghost aborts = { λ id recovering o x advice p y.
        (p ≡ o) × (advice ≡ None) × (y ≡ without (codes "stamp") x) };

    // It asks for no recovery.
    ghost recovers = { λ id commit o x p y. (p ≡ o) × (y ≡ x) };

    fn prepare(&mut self, id: u64, context: &mut Context) -> Result<u8, NoMemory> {
        match context.put("stamp", self.value.as_slice()) {
            Ok(()) => Ok(PREPARED),
            Err(ContextError::OutOfMemory) => Err(NoMemory),
            Err(_) => Ok(NO_JOIN | READONLY),
        }
    }

    fn prepare_for_abort(&mut self, id: u64, context: &mut Context) -> Result<u8, NoMemory> {
        Ok(NO_JOIN | READONLY)
    }

    fn select(&mut self, id: u64, context: &Context) -> Result<Text, NoMemory> {
        Ok(Text::from_str(*self.value.allocator(), "")?)
    }

    fn commit(&mut self, id: u64, context: &mut Context, recovering: bool) -> AdviceResult {
        Ok(None)
    }

    fn abort(&mut self, id: u64, context: &mut Context, recovering: bool) -> AdviceResult {
        let _ = context.take("stamp");
        Ok(None)
    }

    fn recover(&mut self, id: u64, context: &mut Context, commit: bool) -> Result<(), NoMemory> {
        Ok(())
    }
}

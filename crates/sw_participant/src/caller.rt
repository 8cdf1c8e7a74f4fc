//! What makes calls, whatever it is.

ghost use Rattle.std.specs.Prelude.{◌≡◌, IfOk, OnErr};
ghost use Rattle.sw_participant.specs.Callers.{Within};

use crate::call::{Call, Reply};
use crate::participant::{NoMemory, Participant};
use crate::station::{make_beside, make_boxed};
use sw_context::Context;

/// What makes calls, by a rule that no call widens.
pub trait Caller: Drop {
    ghost use Rattle.std.specs.Prelude.{ℕ, List};
    ghost use Rattle.sw_participant.specs.Chains.{Rule};

    ghost object: { Self → List ℕ };

    ghost rule: { Self → Rule };

    /// Makes the one call that `call` names. `NoMemory`: the call was not made.
    fn make(&mut self, call: &Call, context: &mut Context) -> Result<Reply, NoMemory>
        ensures within { Within (rule self.new) (rule self.old) }
        ensures performed { IfOk result (λ reply.
            rule self.old call.now.id call.now.act (object self.old) context.old reply
            (object self.new) context.new) }
        ensures object_kept { OnErr result (object self.new ≡ object self.old) }
        ensures context_kept { OnErr result (context.new ≡ context.old) };

    /// Whether several sessions may make calls at once, by `make_beside`.
    fn is_shared(&self) -> bool;

    /// Makes the one call that `call` names, while other sessions may be in a call. `NoMemory`: the call was not
    /// made, or none can be made in this way.
    fn make_beside(&self, call: &Call, context: &mut Context) -> Result<Reply, NoMemory>
        ensures performed { IfOk result (λ reply.
            rule self.now call.now.id call.now.act (object self.now) context.old reply
            (object self.now) context.new) }
        ensures context_kept { OnErr result (context.new ≡ context.old) };
}

impl Caller for Box<dyn Participant + Send + Sync> {
    ghost use Rattle.sw_participant.specs.Calls.{PerformsCall};

    ghost object = { λ b. (Participant-box b).object b.value };

    ghost rule = { λ b. PerformsCall (Participant-box b) };

    fn make(&mut self, call: &Call, context: &mut Context) -> Result<Reply, NoMemory> {
        make_boxed(self, call, context)
    }

    fn is_shared(&self) -> bool {
        (**self).is_shared()
    }

    fn make_beside(&self, call: &Call, context: &mut Context) -> Result<Reply, NoMemory> {
        make_beside(&**self, call, context)
    }
}

//! Where offers come from.

ghost use Rattle.std.specs.Prelude.{◌≡◌, ◌||◌, ◌++◌, Bool, List, IfOk, IfNone, OnErr, is_none};
ghost use Rattle.std.specs.Prelude.{option_to_list};
ghost use Rattle.sw_context.specs.Pairs.{Pairs};

use sw_context::Context;
use sw_participant::NoMemory;

/// Gives contexts one at a time, until it answers that none is left.
pub trait Source: Drop {
    /// The contexts that it has given, oldest first.
    ghost given: { Self → List Pairs };

    /// Whether it has answered that none is left.
    ghost ended: { Self → Bool };

    /// Which contexts it may have given when it answers that none is left. A call never allows
    /// further ones, so whoever hands a source out and gets it back ended knows what it gave.
    ghost ends_with: { Self → List Pairs → Type 0 };

    /// Gives the next context, or `None` if none is left. `NoMemory` changes nothing.
    fn next(&mut self) -> Result<Option<Context>, NoMemory>
        ensures given { IfOk result (λ next.
            given self.new ≡ given self.old ++ option_to_list next) }
        ensures ended { IfOk result (λ next. ended self.new ≡ (is_none next || ended self.old)) }
        ensures whole { IfOk result (λ next. IfNone next (ends_with self.old (given self.new))) }
        ensures plan { (all : List Pairs) → ends_with self.new all → ends_with self.old all }
        ensures given_kept { OnErr result (given self.new ≡ given self.old) }
        ensures ended_kept { OnErr result (ended self.new ≡ ended self.old) };
}

//! One run, as contracts name it.

use std::marker::Brand;
use std::sync::ledger::Ledger;

/// One run: what the plant's core was when it began, its stations' rules, objects, counts and names
/// then, its intake, what its source had given and may give, and the parts of its ledger.
pub trait Run: Ledger {
    ghost use Rattle.std.specs.Prelude.{ℕ, List};
    ghost use Rattle.sw_context.specs.Pairs.{Pairs};
    ghost use Rattle.sw_participant.specs.Chains.{Rule};
    ghost use Rattle.tx_intake.specs.Ends.{IntakeId};
    ghost use Rattle.tx_plant.specs.Core.{Core};

    ghost start: { Core };

    ghost rule: { ℕ → Rule };

    ghost objects: { List (List ℕ) };

    ghost counts: { List ℕ };

    ghost names: { List (List ℕ) };

    ghost intake: { IntakeId };

    ghost given: { List Pairs };

    ghost ends_with: { List Pairs → Type 0 };
}

impl Run for Brand {
    ghost use Rattle.std.specs.Prelude.{[]};
    ghost use Rattle.tx_locked.specs.Nothing.{no_core, no_intake};

    ghost start = { no_core };

    ghost rule = { λ k id act o x reply p y. ⊥ };

    ghost objects = { [] };

    ghost counts = { [] };

    ghost names = { [] };

    ghost intake = { no_intake };

    ghost given = { [] };

    ghost ends_with = { λ all. ⊥ };
}

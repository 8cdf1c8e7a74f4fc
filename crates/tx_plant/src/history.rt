//! What holds of every engine.

ghost use Rattle.std.specs.Prelude.{◌≡◌, ◌≤◌, ◌<◌, ◌∷◌, List, false, length};
ghost use Rattle.tx_history.specs.declared.event.Event.{Event as Happening};
ghost use Rattle.tx_history.specs.History.{next_id};
ghost use Rattle.tx_history.specs.Journal.{closes};
ghost use Rattle.tx_history.specs.Views.{StartFits};
ghost use Rattle.tx_plant.specs.Plant.{IsEngine};

use tx_engine::Engine;

/// States what every engine is, for the proofs of its callers. It does nothing.
pub(crate) fn engine_is_sound(engine: &Engine)
    ensures { IsEngine engine.now }
{
    let _ = engine.history();
    let _ = engine.mark();
}

/// States what follows for the engine's ids and its room. It does nothing.
pub(crate) fn state_history(engine: &Engine)
    ensures start { StartFits engine.now.flow engine.now.start }
    ensures next { next_id engine.now.start engine.now.past ≤ 9223372036854775807 }
    ensures room { (e : Happening) (past : List Happening) → engine.now.past ≡ e ∷ past
        → closes e ≡ false → length past < 1048576 }
{
    engine_is_sound(engine);
}

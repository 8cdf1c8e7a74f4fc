//! What holds of every tracer.

ghost use Rattle.std.specs.Prelude.{ℕ};
ghost use Rattle.tx_history.specs.declared.event.Event.{Event};
ghost use Rattle.tx_engine.specs.Calls.{after_mark};
ghost use Rattle.tx_engine.specs.World.{World, happened};
ghost use Rattle.tx_trace.specs.declared.tracer.Tracer.{Tracer};
ghost use Rattle.tx_trace.specs.Follow.{Follows};

/// A tracer of an engine is still one of it after the engine has accepted further events, or its mark
/// has moved.
pub fn tracers_go_on()
    ensures entry { (w : World) (t : Tracer) (e : Event) → Follows w t → Follows (happened w e) t }
    ensures mark { (w : World) (t : Tracer) (n : ℕ) → Follows w t → Follows (after_mark w n) t }
{}

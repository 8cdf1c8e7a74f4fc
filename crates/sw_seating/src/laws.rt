//! What holds of the participants of every flow.

ghost use Rattle.flow_model.specs.declared.flow.Flow.{Flow};
ghost use Rattle.flow_model.specs.Places.{parts_of};
ghost use Rattle.sw_seating.specs.Seating.{AreNumbered};

/// No two participants of a flow have the same name.
pub fn participants_are_numbered()
    ensures { (f : Flow) → AreNumbered (parts_of f) }
{}

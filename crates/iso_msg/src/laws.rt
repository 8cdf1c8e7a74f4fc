//! The laws that make a list of fields a map.

ghost use Rattle.iso_msg.specs.Messages.{ReadsBack, KeepsOthers, TakesOut, LeavesOthers, IsDetermined};

/// Lists of fields with `value_at`, `with_value` and `without`, in terms of which the contracts of
/// `Message` are written, are finite maps: a value that was put is there and the others stay, a
/// number that was taken out is not there and the others stay, and two lists of fields that have the
/// same value at each number are equal.
pub fn fields_are_a_map()
    ensures put { ReadsBack }
    ensures put_others { KeepsOthers }
    ensures taken { TakesOut }
    ensures taken_others { LeavesOthers }
    ensures determined { IsDetermined }
{}

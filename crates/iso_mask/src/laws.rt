//! What a mask hides.

ghost use Rattle.std.specs.Prelude.{◌≡◌, List, ℕ};
ghost use Rattle.iso_mask.specs.Masks.{AgreesNumber, masked_number};

/// Account numbers that differ only in what is masked have the same mask. This is a law; the function does
/// nothing.
pub fn masked_numbers_hide()
    ensures { (v w : List ℕ) → AgreesNumber v w → masked_number v ≡ masked_number w }
{}

//! Theorems about the sums.

ghost use Rattle.book_store.specs.Sums.{ForgettingKeeps, PutAdds, ReversalTakes};

/// A new item adds its amount to what its card has used in its day, and to no other sum. One whose id is
/// there changes nothing. A reversal takes the amount of the item that it marks away again, and
/// forgetting days before one changes no sum of that day or a later one.
pub fn sums_are_kept()
    ensures put { PutAdds }
    ensures reversal { ReversalTakes }
    ensures forgetting { ForgettingKeeps }
{}

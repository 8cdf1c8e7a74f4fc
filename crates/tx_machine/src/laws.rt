//! What holds of every lawful list of one transaction's items, proved of the specified table.

ghost use Rattle.std.specs.Prelude.{◌≡◌, ◌<◌, ◌≤◌, ◌++◌, ◌∷◌, [], ◌&&◌, ℕ, Bool, List, Some, length, reverse, true};
ghost use Rattle.std.specs.List.{All};
ghost use Rattle.flow_model.specs.declared.flow.Flow.{Flow};
ghost use Rattle.flow_model.specs.Places.{parts_of};
ghost use Rattle.tx_machine.specs.declared.values.Item.{Item};
ghost use Rattle.tx_machine.specs.Table.{TxState, after, is_due, next, opening, reopening};
ghost use Rattle.tx_machine.specs.Lists.{IsBounded, IsWhole, is_lawful};
ghost use Rattle.tx_machine.specs.Bounds.{IsProper, after_newest};
ghost use Rattle.tx_machine.specs.Row.{IsRow, Row, row_of};

/// After a lawful list the members are the participants of the answers without NO_JOIN, in order,
/// the number told is the number of tolds, the saved context is that of the last answer without
/// READONLY, the calls are the answers and choices, and the tries are those from before.
pub fn whole_lists()
    ensures { (f : Flow) (s : TxState) (items : List Item)
        → is_lawful f s items ≡ true → IsWhole f s items }
{}

/// A transaction has at most 1,000 answers and choices together, so at most 1,000 members, each of
/// which is notified at most once.
pub fn bounded_lists()
    ensures { (f : Flow) (tries : ℕ) (saved : List ℕ) (items : List Item)
        → is_lawful f (opening f tries saved) items ≡ true
        → IsBounded f (opening f tries saved) items }
{}

/// What one more item at the end of a list does; and the state after a list that is kept newest first.
pub fn lists_extend()
    ensures after { (f : Flow) (s : TxState) (xs : List Item) (x : Item)
        → after f s (xs ++ x ∷ []) ≡ next f (after f s xs) x }
    ensures lawful { (f : Flow) (s : TxState) (xs : List Item) (x : Item)
        → is_lawful f s (xs ++ x ∷ []) ≡ (is_lawful f s xs && is_due (after f s xs) x) }
    ensures newest { (f : Flow) (s : TxState) (past : List Item)
        → after_newest f s past ≡ after f s (reverse past) }
{}

/// The bounds that every lawful list keeps, from an opening or a reopening on, and with them those
/// of the journal's row.
pub fn lists_keep_bounds()
    ensures opened { (f : Flow) (tries : ℕ) (saved : List ℕ)
        → IsProper f (opening f tries saved) }
    ensures reopened { (f : Flow) (committing : Bool) (joined : List ℕ) (told tries : ℕ)
        (saved : List ℕ)
        → told ≤ length joined → length joined ≤ 1001
        → All (λ p. p < length (parts_of f)) joined
        → IsProper f (reopening committing joined told tries saved) }
    ensures kept { (f : Flow) (s : TxState) (items : List Item)
        → IsProper f s → is_lawful f s items ≡ true → IsProper f (after f s items) }
    ensures row { (f : Flow) (s : TxState) (r : Row)
        → IsProper f s → row_of f s ≡ Some r → IsRow f r }
{}

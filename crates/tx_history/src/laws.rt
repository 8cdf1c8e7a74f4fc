//! What holds of every history, proved of the definitions. Lists of events have the newest first.

ghost use Rattle.std.specs.Prelude.{◌≡◌, ◌≢◌, ◌≤◌, ◌<◌, ◌∷◌, [], ℕ, true, List, Option, Some};
ghost use Rattle.std.specs.Prelude.{if◌then◌else◌};
ghost use Rattle.flow_model.specs.declared.flow.Flow.{Flow};
ghost use Rattle.flow_model.specs.Check.{IsChecked};
ghost use Rattle.sw_context.specs.Spelling.{IsSpelled};
ghost use Rattle.tx_machine.specs.declared.values.Item.{Item};
ghost use Rattle.tx_machine.specs.declared.values.Item.TheVariants.{Answer, Choice, Told};
ghost use Rattle.tx_machine.specs.Lists.{is_lawful};
ghost use Rattle.tx_machine.specs.Table.{after, next, opening};
ghost use Rattle.tx_history.specs.declared.event.Event.{Event};
ghost use Rattle.tx_history.specs.declared.journal.Row.{Row};
ghost use Rattle.tx_history.specs.History.{Start, holds, is_id, own_items, recovering, serves};
ghost use Rattle.tx_history.specs.History.{state_of, takes};
ghost use Rattle.tx_history.specs.Journal.{IsAccepted, IsLawful, Leads, journal, row, written};
ghost use Rattle.tx_history.specs.Lives.{after_cut, opened, recovering_next, stopped};
ghost use Rattle.tx_history.specs.Views.{AreItems, FlowFits, IsHistory, IsOk, IsOrdered, RowFits, StartFits};

/// Each entry's change leads from the journal before it to the journal after it, and all changes
/// together lead from the view that the history began from to its journal.
pub fn changes_lead_on()
    ensures each { (f : Flow) (v : Start) (past : List Event) (e : Event)
        → IsOrdered v.view → IsLawful f v (e ∷ past) → Leads f v past e }
    ensures all { (f : Flow) (v : Start) (past : List Event)
        → IsOrdered v.view → IsLawful f v past → written f v past ≡ journal f v past }
{}

/// A transaction's own items are those that sessions gave while they held it, whatever the others
/// did. Session 0 holds the journalled ones first, and nothing is taken while it does; no two sessions
/// serve the same transaction.
pub fn items_are_of_their_holders()
    ensures answered { (f : Flow) (v : Start) (past : List Event) (s b : ℕ) (c : List ℕ) (id : ℕ)
        → IsAccepted f v past (Event.Answered s b c)
        → own_items f v (Event.Answered s b c ∷ past) id
        ≡ (if is_id (holds f v past s) id then Answer b c ∷ own_items f v past id
        else own_items f v past id) }
    ensures chose { (f : Flow) (v : Start) (past : List Event) (s : ℕ) (t : List ℕ) (id : ℕ)
        → IsAccepted f v past (Event.Chose s t)
        → own_items f v (Event.Chose s t ∷ past) id
        ≡ (if is_id (holds f v past s) id then Choice t ∷ own_items f v past id
        else own_items f v past id) }
    ensures told { (f : Flow) (v : Start) (past : List Event)
        (s : ℕ) (a : Option (List ℕ)) (id : ℕ)
        → IsAccepted f v past (Event.Told s a)
        → own_items f v (Event.Told s a ∷ past) id
        ≡ (if is_id (holds f v past s) id then Told a ∷ own_items f v past id
        else own_items f v past id) }
    ensures first { (f : Flow) (v : Start) (past : List Event) (id : ℕ)
        → IsOrdered v.view → recovering f v past ≡ Some id → holds f v past 0 ≡ Some id }
    ensures untaken { (f : Flow) (v : Start) (past : List Event) (id : ℕ)
        → IsOrdered v.view → IsLawful f v past → recovering f v past ≡ Some id → takes past ≡ 0 }
    ensures once { (f : Flow) (v : Start) (past : List Event) (s t id : ℕ)
        → IsOrdered v.view → serves f v past s ≡ Some id → serves f v past t ≡ Some id → s ≡ t }
{}

/// The row of a state that lawful items lead to, from an opening on, is one that a journal may hold.
pub fn rows_are_bounded()
    ensures { (f : Flow) (tries : ℕ) (saved : List ℕ) (items : List Item) (r : Row)
        → FlowFits f → tries ≤ 100 → IsSpelled saved → AreItems items
        → is_lawful f (opening f tries saved) items ≡ true
        → row f (after f (opening f tries saved) items) ≡ Some r → RowFits r }
{}

/// The journal of every lawful history from a sound start is sound, and its participants are known:
/// so the next life, or the history after a cut, begins from a sound start. What an opening makes is
/// lawful.
pub fn journals_are_sound()
    ensures journal { (f : Flow) (v : Start) (past : List Event) (n : ℕ)
        → FlowFits f → StartFits f v → IsHistory f v n past → IsOk (journal f v past) }
    ensures stop { (f : Flow) (v : Start) (past : List Event) (n : ℕ)
        → FlowFits f → StartFits f v → IsHistory f v n past → StartFits f (stopped f v past) }
    ensures cut { (f : Flow) (v : Start) (past : List Event) (breaks : List ℕ) (n : ℕ)
        → FlowFits f → StartFits f v → IsHistory f v n past
        → StartFits f (after_cut f v past breaks) }
    ensures opening { (f : Flow) (v : Start) → IsLawful f v (opened f v) }
{}

/// What the bounds ask of a flow holds of every checked one.
pub fn checked_flows_fit()
    ensures { (f : Flow) → IsChecked f → FlowFits f }
{}

/// The journalled transactions are recovered one after the other, ids rising: those after the one
/// that is being recovered have no items, and when it is over, the first one after it with somebody
/// to notify follows. An item moves its own transaction by the specified table and leaves the others.
pub fn recovered_in_turn()
    ensures untouched { (f : Flow) (v : Start) (past : List Event) (id j : ℕ)
        → IsOrdered v.view → IsLawful f v past → recovering f v past ≡ Some id
        → id < j → j < v.view.next_id → own_items f v past j ≡ [] }
    ensures follows { (f : Flow) (v : Start) (past : List Event) (s : ℕ)
        (a : Option (List ℕ)) (id : ℕ)
        → IsOrdered v.view → IsLawful f v past → serves f v past s ≡ Some id
        → recovering f v past ≡ Some id
        → recovering f v (Event.Told s a ∷ past) ≡ recovering_next f v (Event.Told s a ∷ past) id }
    ensures moves { (f : Flow) (v : Start) (past : List Event) (s : ℕ)
        (a : Option (List ℕ)) (id : ℕ)
        → serves f v past s ≡ Some id
        → state_of f v (Event.Told s a ∷ past) id ≡ next f (state_of f v past id) (Told a) }
    ensures stays { (f : Flow) (v : Start) (past : List Event) (s : ℕ)
        (a : Option (List ℕ)) (id j : ℕ)
        → serves f v past s ≡ Some id → j ≢ id
        → state_of f v (Event.Told s a ∷ past) j ≡ state_of f v past j }
{}

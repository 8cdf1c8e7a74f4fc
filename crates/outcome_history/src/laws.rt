//! What the outcome law's own words are in the words of histories. Lists of events have the newest
//! first.

ghost use Rattle.std.specs.Prelude.{◌≡◌, ◌<◌, ◌≤◌, ◌∷◌, ℕ, true, false, List};
ghost use Rattle.std.specs.Prelude.{Option, Some, None, if◌then◌else◌};
ghost use Rattle.flow_model.specs.declared.flow.Flow.{Flow};
ghost use Rattle.outcome_calls.specs.One.{FullReply};
ghost use Rattle.outcome_calls.specs.States.{own};
ghost use Rattle.outcome_calls.specs.Core.{Shuts, ViewFits, at};
ghost use Rattle.outcome_calls.specs.Core as core;
ghost use Rattle.outcome_calls.specs.Plant.{Replied, event_of, given_to, last_own, shut, shut_ids};
ghost use Rattle.outcome_calls.specs.Plant as plant;
ghost use Rattle.tx_history.specs.declared.event.Event.{Event};
ghost use Rattle.tx_history.specs.declared.journal.JournalView.{JournalView};
ghost use Rattle.tx_history.specs.declared.journal.Row.{Row};
ghost use Rattle.tx_history.specs.Keys.{look, place_lt, put_by, same_place};
ghost use Rattle.tx_history.specs.History.{Start, is_restored, last_of, next_id, recovering};
ghost use Rattle.tx_history.specs.History.{serves, state_of, taken};
ghost use Rattle.tx_history.specs.Journal.{IsLawful, is_closed, journal};
ghost use Rattle.tx_history.specs.Lives.{opened};
ghost use Rattle.tx_history.specs.Views.{IsOk, IsOrdered, StartFits};
ghost use Rattle.outcome_history.specs.Calls.{Calls};
ghost use Rattle.outcome_history.specs.Looked.{advice_at, closings, id_view};
ghost use Rattle.outcome_history.specs.Sessions.{full_state, id_events, recovered_state, restored};
ghost use Rattle.outcome_history.specs.Sessions.{session_events};

/// A sound journal, by look-up, is one that the outcome law begins from; and an opening's closing
/// entries are of the rows with nobody to notify, each once.
pub fn views_fit()
    ensures fits { (f : Flow) (w : JournalView) → IsOk w → ViewFits (id_view f w) }
    ensures shuts { (f : Flow) (v : Start)
        → IsOk v.view → Shuts (id_view f v.view) (shut_ids (closings f v)) }
{}

/// Sessions serve, take and recover the same transactions in both words, and a reply speaks of the
/// transaction that its session serves. The last entry of a transaction has the same number, and
/// the entries of an opening are those with which a plant is made.
pub fn sessions_agree()
    ensures serves { (f : Flow) (v : Start) (past : List Event) (s : ℕ)
        → IsOrdered v.view → IsLawful f v past
        → plant.serves f (id_view f v.view) (session_events f v past) s ≡ serves f v past s }
    ensures recovering { (f : Flow) (v : Start) (past : List Event)
        → IsOrdered v.view → IsLawful f v past
        → plant.recovering f (id_view f v.view) (id_events f v past) ≡ recovering f v past }
    ensures taken { (f : Flow) (v : Start) (past : List Event) (s : ℕ)
        → plant.taken (id_view f v.view) (session_events f v past) s ≡ taken v past s }
    ensures next { (f : Flow) (v : Start) (past : List Event)
        → core.next_id (id_view f v.view) (id_events f v past) ≡ next_id v past }
    ensures speaks { (f : Flow) (v : Start) (past : List Event) (s : ℕ) (x : FullReply)
        → IsOrdered v.view → IsLawful f v past
        → event_of f (id_view f v.view) (plant.taken (id_view f v.view) (session_events f v past))
        (id_events f v past) (Replied s x) ≡ given_to (serves f v past s) x }
    ensures last { (f : Flow) (v : Start) (past : List Event) (id : ℕ)
        → IsOrdered v.view → IsLawful f v past
        → last_own (id_view f v.view) (id_events f v past) id ≡ last_of f v past id }
    ensures opening { (f : Flow) (v : Start)
        → session_events f v (opened f v) ≡ shut (closings f v) }
{}

/// Each transaction stands in the outcome law where it stands in the history: one of this life at
/// its state; a journalled one, unless it was closed, at its state too, with the row that it was
/// opened from until a member was notified. Nothing stands under the other ids.
pub fn states_agree()
    ensures whole { (f : Flow) (v : Start) (past : List Event) (id : ℕ)
        → IsOrdered v.view → IsLawful f v past
        → at f (id_view f v.view) (id_events f v past) id ≡ full_state f v past id }
    ensures taken { (f : Flow) (v : Start) (past : List Event) (id : ℕ)
        → IsOrdered v.view → IsLawful f v past → v.view.next_id ≤ id → id < next_id v past
        → at f (id_view f v.view) (id_events f v past) id ≡ Some (own (state_of f v past id)) }
    ensures journalled { (f : Flow) (v : Start) (past : List Event) (id : ℕ) (r : Row)
        → IsOrdered v.view → IsLawful f v past
        → look id v.view.rows ≡ Some r → is_closed past id ≡ false
        → at f (id_view f v.view) (id_events f v past) id ≡ Some (recovered_state f v past id r) }
    ensures untaken { (f : Flow) (v : Start) (past : List Event) (id : ℕ)
        → IsOrdered v.view → IsLawful f v past → next_id v past ≤ id
        → at f (id_view f v.view) (id_events f v past) id ≡ None }
    ensures closed { (f : Flow) (v : Start) (past : List Event) (id : ℕ)
        → IsOrdered v.view → IsLawful f v past
        → id < v.view.next_id → is_closed past id ≡ true
        → at f (id_view f v.view) (id_events f v past) id ≡ None }
    ensures rowless { (f : Flow) (v : Start) (past : List Event) (id : ℕ)
        → IsOrdered v.view → IsLawful f v past
        → id < v.view.next_id → look id v.view.rows ≡ None
        → at f (id_view f v.view) (id_events f v past) id ≡ None }
{}

/// The same call is due to the transaction that a session serves; that call may be a `recover` call
/// before an outcome. Both agree on whether the context of the transaction that is being recovered was
/// restored.
pub fn calls_agree()
    ensures calls { (f : Flow) (v : Start) (past : List Event) (s id : ℕ)
        → IsOrdered v.view → IsLawful f v past → serves f v past s ≡ Some id → Calls f v past id }
    ensures restored { (f : Flow) (v : Start) (past : List Event) (id : ℕ)
        → IsOrdered v.view → IsLawful f v past → recovering f v past ≡ Some id
        → restored f v past id ≡ is_restored past }
    ensures others { (f : Flow) (v : Start) (past : List Event) (id : ℕ)
        → IsOrdered v.view → IsLawful f v past → restored f v past id ≡ true
        → recovering f v past ≡ Some id }
{}

/// Putting an advice, or taking one away, changes what is under its place, and nothing else.
pub fn advices_by_place()
    ensures { (place key : ℕ × ℕ) (advice : Option (List ℕ)) (old : List ((ℕ × ℕ) × List ℕ))
        → advice_at place (put_by place_lt key advice old)
        ≡ (if same_place key place then advice else advice_at place old) }
{}

/// The journal that a lawful history leaves is, by look-up, the one that the outcome law has: for a
/// lawful history from a sound start, the next id, the rows and the advices are those that the
/// outcome law makes of the same events.
pub fn journals_agree()
    ensures { (f : Flow) (v : Start) (past : List Event)
        → StartFits f v → IsLawful f v past
        → core.journal f (id_view f v.view) (id_events f v past) ≡ id_view f (journal f v past) }
{}

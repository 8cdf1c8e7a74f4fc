//! The laws. Lists of happenings have the oldest first.

ghost use Rattle.std.specs.Prelude.{◌≡◌, ℕ, List, Some, Result, Ok, Err};
ghost use Rattle.flow_model.specs.declared.flow.Flow.{Flow};
ghost use Rattle.sw_participant.specs.Chains.{rule_at};
ghost use Rattle.tx_engine.specs.declared.error.EngineError.{EngineError};
ghost use Rattle.tx_engine.specs.declared.error.EngineError.TheVariants.{HistoryFull};
ghost use Rattle.tx_history.specs.declared.journal.JournalView.{JournalView};
ghost use Rattle.tx_plant.specs.declared.turn.Outcome.{Outcome};
ghost use Rattle.tx_plant.specs.declared.turn.PlantError.{PlantError};
ghost use Rattle.tx_plant.specs.declared.turn.Turn.{Turn};
ghost use Rattle.tx_plant.specs.Recovery.{Recovers};
ghost use Rattle.tx_plant.specs.Steps.{Moved};
ghost use Rattle.tx_plant.specs.Plant.{GoesOn, IsClean, Seen, Turned, Whole};
ghost use Rattle.tx_plant.specs.Written.{Written};
ghost use Rattle.tx_seats.specs.Drives.{AllDriven, Drive, DrivenBy, IsMade};
ghost use Rattle.tx_seats.specs.Seated.{Seated, step_refusal};

use sw_participant::Rules;

/// Each session that holds a transaction has that transaction's seat, with its context, and a kept
/// reply is one that the session's due call asks for. This holds in a new plant, after each turn, done
/// or not, and so after any calls of `drive`. Therefore a step is never refused because a seat is
/// missing or a reply is of the wrong kind, but only for an unknown session or a full history.
pub fn seats_are_held()
    ensures made { (f : Flow) (n : ℕ) (view : JournalView) (j : Seen) (p : Whole)
        → IsMade f n view j p → Seated p.core }
    ensures turned { (t : Turn) (r : Result Outcome PlantError) (m : List Moved) (p q : Whole)
        → Seated p.core → GoesOn t p q → Turned t r m p q → Seated q.core }
    ensures driven { (drives : List Drive) (m : List Moved) (p q : Whole)
        → Seated p.core → AllDriven drives m p q → Seated q.core }
    ensures stepped { (s : ℕ) (e : EngineError) (m : List Moved) (p q : Whole)
        → Seated p.core → Turned (Turn.Step s) (Ok (Outcome.Refused e)) m p q
        → step_refusal p.core.world s ≡ Some e }
{}

/// A stop of such a plant is a restart, or a fault of the journal or of memory: on tables that hold
/// the journal of its written entries an engine is never refused.
pub fn stops_are_not_refused()
    ensures { (e : EngineError) (m : List Moved) (p q : Whole)
        → Seated p.core → Written p.core.world p.journal.tables → IsClean q.journal
        → Turned Turn.Stop (Ok (Outcome.Refused e)) m p q → ⊥ }
{}

/// A recovery is one call of `drive` with the turns that it did, or with those before a fault.
pub fn recoveries_are_drives<K, R: Rules<K>>()
    ensures { (types : List K) (os ps : List (List ℕ)) (cs ds : List ℕ)
        (r : Result (Unit {0}) PlantError) (p q : Whole)
        → Recovers (rule_at R.rule types) os cs p r ps ds q
        → (d : Drive) × (m : List Moved) × DrivenBy d m p q }
{}

/// A recovery of such a plant is refused by the engine only for a full history, whatever the
/// participants may do.
pub fn recoveries_refuse_full_histories<K, R: Rules<K>>()
    ensures { (types : List K) (os ps : List (List ℕ)) (cs ds : List ℕ) (e : EngineError)
        (p q : Whole)
        → Seated p.core
        → Recovers (rule_at R.rule types) os cs p (Err (PlantError.Engine e)) ps ds q
        → e ≡ HistoryFull }
{}

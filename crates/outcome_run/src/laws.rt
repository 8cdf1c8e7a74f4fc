//! The laws of runs.

ghost use Rattle.std.specs.Prelude.{ℕ, List, Option};
ghost use Rattle.flow_model.specs.declared.flow.Flow.{Flow};
ghost use Rattle.sw_participant.specs.Chains.{rule_at};
ghost use Rattle.sw_issuers.specs.Sending.{PlainSender, SendsAdvice};
ghost use Rattle.outcome_calls.specs.Core.{OutcomeLaw, PlantDeed};
ghost use Rattle.outcome_history.specs.Looked.{id_view};
ghost use Rattle.tx_plant.specs.Plant.{IsClean, Seen, Whole};
ghost use Rattle.tx_plant.specs.Steps.{Moved};
ghost use Rattle.tx_pool.specs.Drives.{Drove};
ghost use Rattle.tx_seats.specs.Drives.{Drive, DrivenBy};
ghost use Rattle.outcome_plant.specs.Lives.{Life};
ghost use Rattle.outcome_run.specs.Calls.{IsLifeOf, Keeps};
ghost use Rattle.run_switch.specs.Points.{Point};
ghost use Rattle.run_switch.specs.Ran.{Begins, Ran};
ghost use Rattle.run_switch.specs.Rounds.{Round};

use outcome_plant::plants_keep_the_law;
use sw_participant::Rules;
use sw_parts::Link;

/// Every run that ends without an error keeps the outcome law, with threads or without, over links of any type: if
/// the law holds of the calls made before, and of the view that the run's plant was made on, it holds of these
/// calls together with those of the run, and of the journal that the run leaves. The same is true of a run that
/// only recovers. A run is a life of a plant in the sense of `outcome_plant::stops_keep_the_law`. The disk has to
/// have returned what was written.
pub fn runs_keep_the_law<L: Link>()
    ensures ran { (f : Flow) (n : ℕ) (j : Seen) (sender : PlainSender) (most : ℕ)
        (rounds : List Round) (before after : Option (List ℕ)) (calls : List PlantDeed)
        (ran : Ran f n j
        (SendsAdvice L.sends L.receives L.starves (Unit {0}))
        sender most rounds before after)
        → IsClean ran.serves.end.plant.journal → OutcomeLaw calls (id_view f ran.begins.view)
        → Keeps f ran.begins.view ran.begins.made calls ran.serves.end.plant }
    ensures recovered { (f : Flow) (n : ℕ) (j : Seen) (p : Point) (calls : List PlantDeed)
        (begins : Begins f n j p) → IsClean p.plant.journal
        → OutcomeLaw calls (id_view f begins.view)
        → Keeps f begins.view begins.made calls p.plant }
    ensures lives { (f : Flow) (n : ℕ) (j : Seen) (sender : PlainSender) (most : ℕ)
        (rounds : List Round) (before after : Option (List ℕ))
        (ran : Ran f n j
        (SendsAdvice L.sends L.receives L.starves (Unit {0}))
        sender most rounds before after)
        → IsClean ran.serves.end.plant.journal
        → (life : Life) × IsLifeOf f n j ran.begins.view ran.serves.end.plant life }
{
    plants_keep_the_law();
}

/// What the threads of a pool did is one call of `drive` with the turns that they did. So the outcome
/// law, which holds after any calls of `drive` (`outcome_plant::plants_keep_the_law`), also holds if
/// threads are among them, and the seats of the sessions are as `tx_seats::seats_are_held` says.
pub fn runs_are_drives<K, R: Rules<K>>()
    ensures { (types : List K) (os ps : List (List ℕ)) (cs ds : List ℕ) (p q : Whole)
        → Drove (rule_at R.rule types) os cs p ps ds q
        → (d : Drive) × (m : List Moved) × DrivenBy d m p q }
{}

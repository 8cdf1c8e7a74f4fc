//! The laws. Lists of happenings have the oldest first, those of calls and stops the newest.

ghost use Rattle.std.specs.Prelude.{◌≡◌, ℕ, List, [], ◌∷◌, Option, Result, false};
ghost use Rattle.flow_model.specs.declared.flow.Flow.{Flow};
ghost use Rattle.outcome_calls.specs.Core.{OutcomeLaw, PlantDeed};
ghost use Rattle.outcome_calls.specs.Plant.{AbstractPlant};
ghost use Rattle.tx_history.specs.declared.journal.JournalView.{JournalView};
ghost use Rattle.outcome_history.specs.Looked.{id_view};
ghost use Rattle.tx_plant.specs.declared.turn.Outcome.{Outcome};
ghost use Rattle.tx_plant.specs.declared.turn.PlantError.{PlantError};
ghost use Rattle.tx_plant.specs.declared.turn.Turn.{Turn};
ghost use Rattle.tx_plant.specs.Steps.{Moved};
ghost use Rattle.tx_plant.specs.Plant.{GoesOn, IsClean, IsEngine, Seen, Turned, Whole};
ghost use Rattle.outcome_plant.specs.Mirrors.{StandsFor};
ghost use Rattle.outcome_plant.specs.Lives.{AreLives, HoldsOf, IsLeft, Life, MayLeave, Moves};
ghost use Rattle.tx_seats.specs.Drives.{AllDriven, Drive, IsMade};
ghost use Rattle.outcome_plant.specs.Lives.{all_calls, blank_view, calls_in};
ghost use Rattle.outcome_plant.specs.Decided.{AreDecided};

/// Each turn of a plant, done or not, is a list of small steps of the outcome law's plant that
/// represents it: a take, a call, the record of its reply, the write of entries, a stop, a cut, or
/// none. They add the calls and stops that happened.
pub fn turns_are_moves()
    ensures { (t : Turn) (r : Result Outcome PlantError) (m : List Moved) (p q : Whole)
        (a : AbstractPlant)
        → StandsFor a p → GoesOn t p q → IsClean q.journal → Turned t r m p q → Moves p q m a }
{}

/// The outcome law of a plant, after any calls of `drive`, `recover` and `take_ended`, including
/// refusals, faults, stops and cuts: if it holds of the calls made before and of the view that the
/// plant was made on, it holds of all calls ever made and of the journal that the written entries
/// make, alone or with any number of the next ones. The tables represent the written entries'
/// journal, unless a write has failed. This holds for the first plant on a blank journal, and for the
/// next one on the journal of the last. A write that fails may leave the tables as they are after all
/// its entries: they then represent the journal of these too. The disk has to have returned what was
/// written.
pub fn plants_keep_the_law()
    ensures kept { (f : Flow) (n : ℕ) (view : JournalView) (j : Seen) (before : List PlantDeed)
        (drives : List Drive) (m : List Moved) (p q : Whole)
        → IsMade f n view j p → OutcomeLaw before (id_view f view) → AllDriven drives m p q
        → IsClean q.journal → HoldsOf (all_calls f m view before) q }
    ensures blank { (f : Flow) (n : ℕ) (j : Seen) (drives : List Drive) (m : List Moved)
        (p q : Whole)
        → IsMade f n blank_view j p → AllDriven drives m p q
        → IsClean q.journal → HoldsOf (all_calls f m blank_view []) q }
    ensures again { (n : ℕ) (view : JournalView) (calls : List PlantDeed) (q p : Whole)
        → HoldsOf calls q → q.journal.failed ≡ false
        → IsMade q.core.world.flow n view q.journal p → IsClean p.journal
        → OutcomeLaw calls (id_view q.core.world.flow view) }
    ensures left { (calls : List PlantDeed) (q : Whole) (most : Option ℕ)
        → HoldsOf calls q → q.journal.failed ≡ false → MayLeave q most }
{}

/// A stop may come at any moment, within a write and within a recovery too. `Plant::drive` and
/// `recover` promise what it then leaves as `IsWritten`: tables that hold the journal of the entries
/// that are written, or of those of the write too. A plant made on such tables, opened again, goes
/// on: the outcome law holds of the calls made so far and of its view. So it holds life after life,
/// from a blank journal on. A recovery is a drive like any other.
pub fn stops_keep_the_law()
    ensures opened { (n more : ℕ) (view : JournalView) (calls : List PlantDeed) (q p : Whole)
        (j : Seen)
        → HoldsOf calls q → IsLeft q more j.tables
        → IsMade q.core.world.flow n view j p → IsClean p.journal
        → OutcomeLaw calls (id_view q.core.world.flow view) }
    ensures lives { (f : Flow) (l : Life) (before : List Life)
        → AreLives f (l ∷ before) → HoldsOf (calls_in f (l ∷ before)) l.last }
{}

/// After a restart, or a cut, each call of a transaction that the journal had is one of its
/// outcome, or restores its context before that: it is committed if it was committing, and otherwise
/// aborted.
pub fn restarts_decide()
    ensures { (t : Turn) (r : Result Outcome PlantError) (m : List Moved) (p q : Whole)
        → IsEngine p.core.world → Turned t r m p q → AreDecided p.core.world.start.view m }
{}

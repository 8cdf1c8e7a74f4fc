//! The outcome law, layer by layer. Trails and lists of calls have the newest first.

ghost use Rattle.std.specs.Prelude.{◌≡◌, ℕ, Bool, true, false, List, Option, None, Some, [], ◌∷◌};
ghost use Rattle.std.specs.Prelude.{◌++◌, ◌<◌, ◌+◌, length};
ghost use Rattle.std.specs.Prelude.{slice_index, nat_lt, if◌then◌else◌};
ghost use Rattle.flow_model.specs.declared.flow.Flow.{Flow};
ghost use Rattle.sw_participant.specs.declared.call.Call.{Call};
ghost use Rattle.sw_participant.specs.declared.call.Reply.{Reply};
ghost use Rattle.tx_machine.specs.declared.values.Item.{Item};
ghost use Rattle.tx_machine.specs.declared.values.Phase.TheVariants.{Committing, Undoing};
ghost use Rattle.tx_machine.specs.Table.{TxState, is_due};
ghost use Rattle.tx_machine.specs.Table as table;
ghost use Rattle.tx_machine.specs.Due.{due_of};
ghost use Rattle.tx_machine.specs.Row.{Row, row_of};
ghost use Rattle.outcome_calls.specs.Trail.{Deed, Told, Recovered, Stopped, InOrder, IdLaw, listed};
ghost use Rattle.outcome_calls.specs.Trail.{FollowsRows, is_committing};
ghost use Rattle.outcome_calls.specs.One.{One, Advice, Made, standing_row, Move, Moves, OneFits};
ghost use Rattle.outcome_calls.specs.One.{LawOfOne, Standing};
ghost use Rattle.outcome_calls.specs.One.{IdFits, Reopens, Reopened, FullReply, Follows, IsStanding};
ghost use Rattle.outcome_calls.specs.States.{FullState, Head, own, outcome_due, recovers, begin, due};
ghost use Rattle.outcome_calls.specs.States.{after, answers};
ghost use Rattle.outcome_calls.specs.States.{reopen, PhaseFits, standing, StateFits};
ghost use Rattle.outcome_calls.specs.Core.{IdView, IdEvent, PlantDeed, Halted, CoreFits, at};
ghost use Rattle.outcome_calls.specs.Core.{standing_of, CoreMove};
ghost use Rattle.outcome_calls.specs.Core.{AbstractCore, CoreRun, OutcomeLaw, ViewFits, Shuts, opened};
ghost use Rattle.outcome_calls.specs.Core.{written};
ghost use Rattle.outcome_calls.specs.Plant.{AbstractPlant, PlantMove, PlantMoves, PlantRun, unfinished};
ghost use Rattle.outcome_calls.specs.Plant.{made_on, view, shut_ids};
ghost use Rattle.outcome_calls.specs.Owning.{reply_of, replies, afters, told_row};
ghost use Rattle.outcome_calls.specs.Stations.{station_call, deed_of, with_context};
ghost use Rattle.outcome_calls.specs.Example.{SomeRun, ShelvingRun};
ghost use Rattle.outcome_calls.specs.Words.{has_untold, has_stop, is_open_call, cut_of, Adds};

/// Whatever may happen to one transaction keeps what `OneFits` says of it, and that gives the law. So
/// does an opening on a journal's view of which the law holds.
pub fn one_keeps()
    ensures opened { (known : Bool) (row : Option Row) (to : Option Standing) (t : List Deed)
        (advice : ℕ → Option (List ℕ))
        → (known ≡ false → (row ≡ None) × ((n : ℕ) → advice n ≡ None))
        → IdLaw t known row advice → Reopens row to
        → IdFits known to None (Stopped row ∷ t) advice }
    ensures moved { (mv : Move) (a b : One) → OneFits a → Moves mv a b → OneFits b }
    ensures lawful { (a : One) → OneFits a → LawOfOne a }
{}

/// The specified table gives what the law needs: for a taken transaction, for one that is reopened, and
/// after each reply to the call that is due; and the row is one that can be reopened.
pub fn table_is_sound()
    ensures begins { (f : Flow) (head : Head) → StateFits (begin f head) }
    ensures sound { (f : Flow) (st : FullState) → StateFits st → IsStanding (standing f st) }
    ensures leads { (f : Flow) (st : FullState) (x : FullReply)
        → StateFits st → answers (due f st) x ≡ true
        → StateFits (after f st x)
        × Follows (due f st) x (standing f st) (standing f (after f st x)) }
    ensures reopens { (f : Flow) (r : Row)
        → PhaseFits r → StateFits (reopen r) × Reopened r (standing f (reopen r)) }
    ensures row { (f : Flow) (st : FullState) (r : Row)
        → StateFits st → (standing f st).row ≡ Some r → PhaseFits r }
{}

/// If the outcome law holds of the calls made before and of the journal's view that is opened, it
/// holds after every list of moves of the core. It holds of a blank journal and no calls.
pub fn outcome_law()
    ensures kept { (f : Flow) (j : IdView) (cs : List IdEvent) (calls : List PlantDeed)
        (ts : List CoreMove) (d : AbstractCore)
        → OutcomeLaw calls j → ViewFits j → Shuts j cs → CoreRun f ts (opened j cs calls) d
        → OutcomeLaw d.calls (written f d) × ViewFits (written f d) }
    ensures blank { (j : IdView) → ((id : ℕ) → j.row id ≡ None)
        → ((id n : ℕ) → j.advice id n ≡ None) → OutcomeLaw [] j }
{}

/// The outcome law of a plant: if it holds of the calls made before and of the journal's view as the
/// plant is made, it holds of all calls and the journal's view after every list of the plant's steps,
/// including stops.
pub fn plant_law()
    ensures { (f : Flow) (j : IdView) (cs : List ℕ) (calls : List PlantDeed) (ts : List PlantMove)
        (q : AbstractPlant)
        → OutcomeLaw calls j → ViewFits j → Shuts j (shut_ids cs)
        → PlantRun f ts (made_on j cs calls) q
        → OutcomeLaw q.calls (view f q) × ViewFits (view f q) }
{}

/// There are such runs: one through two stops, with a participant that recovers its context twice,
/// and one with a selection, an advice and an end on the shelf.
pub fn some_run()
    ensures recovering { SomeRun }
    ensures shelving { ShelvingRun }
{}

/// The order of the calls of one transaction, and its outcome after a stop, in plain words. A
/// history that begins anew from what is written keeps what every history keeps. A turn's calls
/// may be added to any calls before them.
pub fn clauses()
    ensures told_again { (n p q : ℕ) (c e : Bool) (x y : Option (List ℕ)) (a b d : List Deed)
        → InOrder (a ++ (Told c p n x ∷ (b ++ (Told e q n y ∷ d)))) → has_untold n b ≡ true }
    ensures recovered_again { (n p q : ℕ) (a b d : List Deed)
        → InOrder (a ++ (Recovered p n ∷ (b ++ (Recovered q n ∷ d)))) → has_untold n b ≡ true }
    ensures no_stop_in { (a b d : List Deed) (m k : Deed)
        → is_open_call m ≡ true → is_open_call k ≡ true
        → InOrder (a ++ (m ∷ (b ++ (k ∷ d)))) → has_stop b ≡ false }
    ensures told_way { (r : Row) (c : Bool) (p n : ℕ) (x : Option (List ℕ)) (a b d : List Deed)
        → FollowsRows (a ++ (Told c p n x ∷ (b ++ (Stopped (Some r) ∷ d))))
        → has_stop b ≡ false → c ≡ is_committing r.phase }
    ensures cut { (f : Flow) (c : AbstractCore) → CoreFits f c → c.late ≡ []
        → ((id : ℕ) → (standing_row (standing_of f (at f c.start c.gone id)) ≡ None)
        × (unfinished f (at f c.start c.gone id) ≡ false))
        → CoreFits f (cut_of f c) }
    ensures adds { (f : Flow) (t : PlantMove) (p q : AbstractPlant) → PlantMoves f t p q
        → Adds f t p q }
{}

/// What a state is in the machine's words: for a transaction of this life, its table state after its
/// items, with the row of that state; for a journalled one, the outcome of the member that the row's
/// number names, after a recover call if its participant has the mark.
pub fn table_words()
    ensures items { (f : Flow) (s : TxState) (xs : List Item)
        → afters f (own s) (replies xs) ≡ own (table.after f s xs) }
    ensures rows { (f : Flow) (s : TxState) (xs : List Item)
        → (standing f (afters f (own s) (replies xs))).row ≡ row_of f (table.after f s xs) }
    ensures dues { (f : Flow) (s : TxState) (x : Item)
        → is_due s x ≡ answers (due f (own s)) (reply_of x) }
    ensures told { (f : Flow) (r : Row) (a : Option (List ℕ))
        → (standing f (after f (reopen r) (Advice a))).row
        ≡ (if nat_lt (r.told + 1) (length (listed r))
        then Some (told_row r (if is_committing r.phase then Committing else Undoing)) else None) }
    ensures recovery { (f : Flow) (r : Row) → r.told < length (listed r)
        → due f (reopen r)
        ≡ outcome_due (recovers f (slice_index (listed r) r.told))
        (slice_index (listed r) r.told) }
{}

/// The due call, made by its station, with the reply that the station gave, is a call of the core.
pub fn station_calls()
    ensures { (f : Flow) (id : ℕ) (st : FullState) (call : Call) (r : Reply)
        (w : List ℕ) (m : Deed)
        → station_call f id st (due_of f st.state) ≡ Some call
        → deed_of call.act call.participant st.state.told r ≡ Some m
        → Made (standing f st).due (with_context r w) (standing f st) m }
{}

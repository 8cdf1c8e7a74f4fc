//! The participants of the law are those of the switch.

ghost use Rattle.std.specs.Prelude.{◌≡◌, ℕ, Bool, List};
ghost use Rattle.sw_context.specs.Pairs.{Pairs};
ghost use Rattle.sw_parts.specs.Queries.{shown_query};
ghost use Rattle.sw_approvals.specs.Parts as part;
ghost use Rattle.sw_approvals.specs.Parts.{Prepares, PreparesForAbort};

use std::time::Clock;
use sw_participant::{Participant, Unjoined};
use sw_parts::{
    CheckFields, Forward, Limits, Link, Memory, QueryIssuer, Respond, Reverse, Route, StandIn,
};
use sw_timed::Timed;

/// What each participant of the switch states of its preparation is what the law of approvals takes it to do.
pub fn participants_prepare_so<L: Link, M: Memory, C: Clock + Drop>()
    ensures check { (id : ℕ) (o : List ℕ) (x : Pairs) (byte : ℕ) (p : List ℕ) (y : Pairs)
        → ⟦<CheckFields as Unjoined>⟧.prepares id o x byte p y
        → Prepares L.sends L.receives L.starves M.refused part.Check x byte y }
    ensures limits { (id : ℕ) (o : List ℕ) (x : Pairs) (byte : ℕ) (p : List ℕ) (y : Pairs)
        → ⟦<Limits as Participant>⟧.prepares id o x byte p y
        → Prepares L.sends L.receives L.starves M.refused part.Limits x byte y }
    ensures route { (id : ℕ) (o : List ℕ) (x : Pairs) (byte : ℕ) (p : List ℕ) (y : Pairs)
        → ⟦<Route as Unjoined>⟧.prepares id o x byte p y
        → Prepares L.sends L.receives L.starves M.refused part.Route x byte y }
    ensures reverse { (id : ℕ) (o : List ℕ) (x : Pairs) (byte : ℕ) (p : List ℕ) (y : Pairs)
        → ⟦<Reverse as Participant>⟧.prepares id o x byte p y
        → Prepares L.sends L.receives L.starves M.refused part.Reverse x byte y }
    ensures stand_in { (id : ℕ) (o : List ℕ) (x : Pairs) (byte : ℕ) (p : List ℕ) (y : Pairs)
        → ⟦<StandIn as Unjoined>⟧.prepares id o x byte p y
        → Prepares L.sends L.receives L.starves M.refused part.StandIn x byte y }
    ensures forward { (id : ℕ) (o : List ℕ) (x : Pairs) (byte : ℕ) (p : List ℕ) (y : Pairs)
        → ⟦<Forward as Participant>⟧.prepares id o x byte p y
        → Prepares L.sends L.receives L.starves M.refused part.Forward x byte y }
    ensures respond { (id : ℕ) (o : List ℕ) (x : Pairs) (byte : ℕ) (p : List ℕ) (y : Pairs)
        → ⟦<Respond as Unjoined>⟧.prepares id o x byte p y
        → Prepares L.sends L.receives L.starves M.refused part.Respond x byte y }
    ensures query { (id : ℕ) (o : List ℕ) (x : Pairs) (byte : ℕ) (p : List ℕ) (y : Pairs)
        → ⟦<Timed<QueryIssuer<L, M>, C> as Unjoined>⟧.prepares id o x byte p y
        → (has_stand_in : Bool) × (s : List ℕ) × (o ≡ shown_query has_stand_in s)
        × Prepares L.sends L.receives L.starves M.refused (part.Query has_stand_in) x byte y }
    ensures aborting { (id : ℕ) (o : List ℕ) (x : Pairs) (byte : ℕ) (p : List ℕ) (y : Pairs)
        → ⟦<Respond as Unjoined>⟧.prepares_for_abort id o x byte p y
        → PreparesForAbort L.sends L.receives L.starves M.refused part.Respond x y }
{}

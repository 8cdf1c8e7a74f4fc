//! What holds of every chain of calls (`specs/Chains.antt`), whatever the participants are, and of the numbers by which
//! a participant shows what it keeps (`specs/Shown.antt`).

ghost use Rattle.std.specs.Prelude.{◌≡◌, ◌≤◌, ◌<◌, ◌+◌, ◌-◌, ◌^◌, ◌++◌, ℕ, true, None, List, [], length, map};
ghost use Rattle.std.specs.Prelude.{get_or, min};
ghost use Rattle.std.specs.Coded.{Coded};
ghost use Rattle.sw_context.specs.Pairs.{Pairs};
ghost use Rattle.sw_participant.specs.Chains.{Contexts, ChainItem, Chain, begins, Among, Rule, rule_at};
ghost use Rattle.sw_participant.specs.Chains.{calls_to, counts_after};
ghost use Rattle.sw_participant.specs.Chains.{IsWider};
ghost use Rattle.sw_participant.specs.Shown.{shown};

/// What a participant of each type in K may do.
pub trait Rules<K> {
    /// By type: what `rule_of` gives for a station.
    ghost rule: { K → Rule };
}

/// Two chains, of which the second starts with the objects and contexts that the first ends with, are one chain.
/// `V` is what is written down at a stop.
pub fn chains_append<K, R: Rules<K>, V>()
    ensures { (recovered : V → Contexts) (types : List K) (m n : List (ChainItem V))
        (os ps qs : List (List ℕ)) (live mid now : Contexts)
        → Chain recovered (rule_at R.rule types) os live m ps mid
        → Chain recovered (rule_at R.rule types) ps mid n qs now
        → Chain recovered (rule_at R.rule types) os live (m ++ n) qs now }
{}

/// A chain from some contexts is also one from any contexts that these are among, if it begins no transaction that
/// has one of those. So a chain may be continued from fewer contexts than it ends with: those of transactions that
/// ended may be dropped.
pub fn chains_widen<K, R: Rules<K>, V>()
    ensures { (recovered : V → Contexts) (types : List K) (m : List (ChainItem V))
        (os ps : List (List ℕ)) (live start now : Contexts)
        → Among live start → ((id : ℕ) → begins id m ≡ true → start id ≡ None)
        → Chain recovered (rule_at R.rule types) os live m ps now
        → (end : Contexts) × Among now end
        × Chain recovered (rule_at R.rule types) os start m ps end }
{}

/// A chain by some rules is also one by any rules that allow at least as much.
pub fn rules_widen<K, R: Rules<K>, W: Rules<K>, V>()
    ensures { (recovered : V → Contexts) (types : List K) (m : List (ChainItem V))
        (os ps : List (List ℕ)) (live now : Contexts)
        → IsWider R.rule W.rule
        → Chain recovered (rule_at R.rule types) os live m ps now
        → Chain recovered (rule_at W.rule types) os live m ps now }
{}

/// A chain among stations is also one among any stations of the same types, such as these stations later on.
pub fn types_decide<S, K, R: Rules<K>, V>()
    ensures { (recovered : V → Contexts) (type : S → K) (ss ts : List S) (m : List (ChainItem V))
        (os ps : List (List ℕ)) (live now : Contexts)
        → map type ss ≡ map type ts
        → Chain recovered (rule_at (λ s. R.rule (type s)) ss) os live m ps now
        → Chain recovered (rule_at (λ s. R.rule (type s)) ts) os live m ps now }
{}

/// A chain has as many objects at its end as at its start, and a participant that it does not call keeps its object.
pub fn others_stay<K, R: Rules<K>, V>()
    ensures { (recovered : V → Contexts) (types : List K) (m : List (ChainItem V))
        (os ps : List (List ℕ)) (live now : Contexts)
        → Chain recovered (rule_at R.rule types) os live m ps now
        → (length ps ≡ length os)
        × ((k : ℕ) → calls_to k m ≡ 0 → get_or ps k [] ≡ get_or os k []) }
{}

/// The count of a station goes up by the number of its calls, but not beyond 2^64 - 1.
pub fn calls_are_counted<V>()
    ensures { (counts : List ℕ) (m : List (ChainItem V)) (k : ℕ)
        → k < length counts → get_or counts k 0 ≤ 2 ^ 64 - 1
        → get_or (counts_after counts m) k 0
        ≡ min (get_or counts k 0 + calls_to k m) (2 ^ 64 - 1) }
{}

/// No two values are shown alike, so what a relation says of the shown value it says of the value.
pub fn shown_apart<A>()
    ensures { (coded : Coded A) (x y : A) → shown coded x ≡ shown coded y → x ≡ y }
{}

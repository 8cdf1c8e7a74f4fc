//! Bounds of the participants' numbers, as laws: the functions do nothing.

ghost use Rattle.std.specs.Prelude.{◌≤◌, length, ℕ, List};
ghost use Rattle.std.specs.List.{All};
ghost use Rattle.flow_model.specs.Check.{IsChecked};
ghost use Rattle.flow_model.specs.Places.{IsOfParticipant, entries_named, parts_of};

use crate::flow::Flow;

/// A checked flow has at most 16,384 participants.
pub fn participants_are_few(flow: &Flow)
    requires { IsChecked flow.now }
    ensures { length (parts_of flow.now) ≤ 16384 }
{
    let _flow = flow;
}

/// The participant of an entry at its place is one of the flow's.
pub fn entries_have_participants(flow: &Flow)
    ensures { (name : List ℕ) → All (IsOfParticipant flow.now) (entries_named flow.now name) }
{
    let _flow = flow;
}

//! What both forms show of an item.

ghost use Rattle.std.specs.Prelude.{◌≡◌};
ghost use Rattle.tx_history.specs.History.{is_committing};
ghost use Rattle.cli_journal.specs.Items as spec;

use tx_machine::Phase;

pub fn phase_name(phase: Phase) -> &'static str
    ensures { result.now ≡ spec.phase_name phase }
{
    match phase {
        Phase::Preparing => "preparing",
        Phase::Aborting => "aborting",
        Phase::Committing => "committing",
        Phase::Undoing => "undoing",
    }
}

/// What a recovery notifies the participants of.
pub fn verdict_name(phase: Phase) -> &'static str
    ensures { result.now ≡ spec.verdict_name (is_committing phase) }
{
    match phase {
        Phase::Committing => "commit",
        _ => "abort",
    }
}

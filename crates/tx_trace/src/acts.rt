//! The names of calls.

ghost use Rattle.std.specs.Prelude.{◌≡◌};
ghost use Rattle.tx_trace.specs.Acts.{act_word};

use sw_participant::Act;

/// The name of a call, as `prepare_for_abort`.
pub fn act_word(act: Act) -> &'static str
    ensures { result.now ≡ act_word act }
{
    match act {
        Act::Prepare => "prepare",
        Act::PrepareForAbort => "prepare_for_abort",
        Act::Select => "select",
        Act::Commit { .. } => "commit",
        Act::Abort { .. } => "abort",
        Act::Recover { .. } => "recover",
    }
}

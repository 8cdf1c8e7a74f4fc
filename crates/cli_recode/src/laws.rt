//! The frames of the switch.

ghost use Rattle.cli_recode.specs.Streams.{OwnFramesAreTheSwitchs};

/// The frames of the switch's own form are those of `sw_frame`. This is a law; the function does nothing.
pub fn own_frames_are_the_switchs()
    ensures { OwnFramesAreTheSwitchs }
{}

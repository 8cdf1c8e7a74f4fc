//! `encode` and `decode`, one after the other.

ghost use Rattle.cli_encode.specs.Laws.{AreDecodedBack, AreEncodedBack, AreOne};

/// What `decode` prints for the frames that `encode` writes for a text is that text. This is a law; the function
/// does nothing.
pub fn texts_are_decoded()
    ensures { AreDecodedBack }
{}

/// A text is that of only one list of messages, so its frames are determined. This is a law; the function does
/// nothing.
pub fn texts_are_one()
    ensures { AreOne }
{}

/// What `decode` prints for frames, each of a message in the spelling that `encode` writes, is a text, and these
/// are its frames. This is a law; the function does nothing.
pub fn frames_are_encoded()
    ensures { AreEncodedBack }
{}

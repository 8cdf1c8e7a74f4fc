//! What a masked text shows of a message.

ghost use Rattle.cli_decode.specs.Decoded.{MaskedTextsHide};

/// Messages that differ only in what is masked have the same masked text. This is a law; the function does
/// nothing.
pub fn masked_texts_hide()
    ensures { MaskedTextsHide }
{}

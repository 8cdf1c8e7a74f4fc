//! The laws of codings, of messages that are cut off, and of the profile of ASCII.

ghost use Rattle.iso_dialect.specs.AsciiProfile.{ReadsAsToday, SpellsToday, TodaySpells};
ghost use Rattle.iso_dialect.specs.Codings.{HasOneText, ReadsBack};
ghost use Rattle.iso_dialect.specs.Cuts.{CutIsShort};
ghost use Rattle.iso_dialect.specs.Writings.{WritesAll, WritesFields};

/// What is written in a coding is read again, and bytes stand for one text of a length.
pub fn codings_are_exact()
    ensures back { ReadsBack }
    ensures one { HasOneText }
{}

/// A field that can be written is written so that it is read again, and no other field has bytes.
pub fn fields_are_written()
    ensures written { WritesFields }
    ensures all { WritesAll }
{}

/// The profile whose parts are all in ASCII, with a row for each field of the switch's table, is the
/// grammar of `iso_codec`, and bytes have the same first fault.
pub fn ascii_is_the_grammar()
    ensures reads { ReadsAsToday }
    ensures spells { SpellsToday }
    ensures spelled { TodaySpells }
{}

/// A message without its end is `Short`, wherever it is cut.
pub fn cut_messages_are_short()
    ensures { CutIsShort }
{}

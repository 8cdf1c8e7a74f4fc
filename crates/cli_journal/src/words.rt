//! Lines of one word with numbers or names after it.

ghost use Rattle.std.specs.Prelude.{◌≡◌, ◌++◌, OnOk};
ghost use Rattle.std.specs.List.{flat_map};
ghost use Rattle.cli_journal.specs.Text as spec;

use cli_decode::push_number;
use std::alloc::AllocError;
use sw_participant::Text;

/// Adds `WORD N`.
pub fn push_number_line(text: &mut Vec<u8>, word: &str, number: u64) -> Result<(), AllocError>
    ensures { OnOk result (text.new.items ≡ text.old.items ++ spec.number_line word.now number) }
{
    text.extend_from_slice(word.as_bytes())?;
    text.extend_from_slice(b" ")?;
    push_number(text, number)?;
    text.extend_from_slice(b"\n")
}

/// Adds a space and a name.
pub fn push_name(text: &mut Vec<u8>, name: &str) -> Result<(), AllocError>
    ensures { OnOk result (text.new.items ≡ text.old.items ++ spec.spaced name.now) }
{
    text.extend_from_slice(b" ")?;
    text.extend_from_slice(name.as_bytes())
}

/// Adds a space and a name for each of the names.
pub fn push_names(text: &mut Vec<u8>, names: &[Text]) -> Result<(), AllocError>
    ensures { OnOk result (text.new.items ≡ text.old.items ++ flat_map spec.spaced names.now) }
{
    for name in names {
        push_name(text, name.as_str())?;
    }
    Ok(())
}

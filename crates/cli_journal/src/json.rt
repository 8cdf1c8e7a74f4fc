//! Lists of names as JSON.

ghost use Rattle.std.specs.Prelude.{◌≡◌, ◌++◌, OnOk};
ghost use Rattle.std.specs.List.{flat_map};
ghost use Rattle.sw_json.specs.Json.{next_string, strings};

use std::alloc::AllocError;
use sw_json::{push_next_string, push_string};
use sw_participant::Text;

fn push_rest(text: &mut Vec<u8>, names: &[Text]) -> Result<(), AllocError>
    ensures { OnOk result (text.new.items ≡ text.old.items ++ flat_map next_string names.now) }
{
    for name in names {
        push_next_string(text, name.as_str().as_bytes())?;
    }
    Ok(())
}

/// Adds strings, separated by commas.
#[tactic(auto, unfolding(sw_json::specs::Json::strings))]
pub fn push_strings(text: &mut Vec<u8>, names: &[Text]) -> Result<(), AllocError>
    ensures { OnOk result (text.new.items ≡ text.old.items ++ strings names.now) }
{
    match names.split_first() {
        Some((first, rest)) => {
            push_string(text, first.as_str().as_bytes())?;
            push_rest(text, rest)
        }
        None => Ok(()),
    }
}

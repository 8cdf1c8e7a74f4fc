//! The members of an object.

ghost use Rattle.std.specs.Prelude.{◌≡◌, ◌++◌, OnOk, map};
ghost use Rattle.sw_json.specs.Json as spec;

use crate::strings::{push_number, push_string, push_strings};
use std::alloc::AllocError;

/// Adds `{"WORD":N`.
#[tactic(auto, unfolding(crate::specs::Json::opening))]
pub fn push_opening(text: &mut Vec<u8>, word: &str, number: u64) -> Result<(), AllocError>
    ensures { OnOk result (text.new.items ≡ text.old.items ++ spec.opening word.now number) }
{
    text.extend_from_slice(b"{\"")?;
    text.extend_from_slice(word.as_bytes())?;
    text.extend_from_slice(b"\":")?;
    push_number(text, number)
}

/// Adds `,"WORD":N`.
#[tactic(auto, unfolding(crate::specs::Json::number))]
pub fn push_number_member(text: &mut Vec<u8>, word: &str, number: u64) -> Result<(), AllocError>
    ensures { OnOk result (text.new.items ≡ text.old.items ++ spec.number word.now number) }
{
    text.extend_from_slice(b",\"")?;
    text.extend_from_slice(word.as_bytes())?;
    text.extend_from_slice(b"\":")?;
    push_number(text, number)
}

/// Adds `,"WORD":"TEXT"`.
#[tactic(auto, unfolding(crate::specs::Json::text))]
pub fn push_text_member(text: &mut Vec<u8>, word: &str, value: &[u8]) -> Result<(), AllocError>
    ensures { OnOk result (text.new.items ≡ text.old.items ++ spec.text word.now value.now) }
{
    text.extend_from_slice(b",\"")?;
    text.extend_from_slice(word.as_bytes())?;
    text.extend_from_slice(b"\":")?;
    push_string(text, value)
}

fn truth(value: bool) -> &'static str
    ensures { result.now ≡ spec.truth value }
{
    if value { "true" } else { "false" }
}

/// Adds `,"WORD":true`, or `false`.
#[tactic(auto, unfolding(crate::specs::Json::flag))]
pub fn push_flag_member(text: &mut Vec<u8>, word: &str, value: bool) -> Result<(), AllocError>
    ensures { OnOk result (text.new.items ≡ text.old.items ++ spec.flag word.now value) }
{
    text.extend_from_slice(b",\"")?;
    text.extend_from_slice(word.as_bytes())?;
    text.extend_from_slice(b"\":")?;
    text.extend_from_slice(truth(value).as_bytes())
}

/// Adds `,"WORD":["TEXT","TEXT"]`.
#[tactic(auto, unfolding(crate::specs::Json::texts))]
pub fn push_texts_member(text: &mut Vec<u8>, word: &str, values: &[&str]) -> Result<(), AllocError>
    ensures { OnOk result (text.new.items
        ≡ text.old.items ++ spec.texts word.now (map (λ v. v.now) values.now)) }
{
    text.extend_from_slice(b",\"")?;
    text.extend_from_slice(word.as_bytes())?;
    text.extend_from_slice(b"\":[")?;
    push_strings(text, values)?;
    text.extend_from_slice(b"]")
}

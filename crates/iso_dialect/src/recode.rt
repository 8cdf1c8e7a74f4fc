//! The bytes of another system for those of the ASCII profile.

ghost use Rattle.std.specs.Prelude.{◌≡◌, Err, Ok, IfErr, IfOk, List, MatchResult, length, true, ◌≤◌, ℕ};
ghost use Rattle.std.specs.List.{list_all};
ghost use Rattle.iso_msg.specs.Messages.{PlainMessage};
ghost use Rattle.iso_msg.specs.Values.{is_byte};
ghost use Rattle.iso_codec.specs.Grammar.{Spells};
ghost use Rattle.iso_codec.specs.Reads.{Answers, read};
ghost use Rattle.iso_dialect.specs.declared.error.WriteError.TheVariants.{OutOfMemory};
ghost use Rattle.iso_dialect.specs.Messages.{SpellsAs};
ghost use Rattle.iso_dialect.specs.Writings.{GivesBytes, IsWriteFault, IsWrittenOf, Refuses, kept, spelling_as};

use crate::error::WriteError;
use crate::look::look_over;
use crate::profile::Profile;
use crate::write_message::{first_unwritable, write_message};
use iso_codec::{DecodeError, decode};
use iso_msg::Message;
use std::alloc::Global;

fn recode(alloc: Global, profile: &Profile, message: &Message) -> Result<Vec<u8>, WriteError>
    ensures { GivesBytes (λ v. v.items) profile.now result (Ok message.now) }
{
    message.is_message();
    if let Some(number) = first_unwritable(profile, message) {
        return Err(WriteError::NotWritable(number));
    }
    match write_message(alloc, profile, message) {
        Ok(bytes) => Ok(bytes),
        Err(_) => Err(WriteError::OutOfMemory),
    }
}

/// The refusal to report of a text for whose message memory was refused. It is looked over for a fault
/// and for a field that cannot be written, which would come first.
fn look_again(profile: &Profile, text: &[u8]) -> WriteError
    ensures { Refuses profile.now result (read text.now) }
{
    match look_over(profile, text) {
        Ok(None) => WriteError::OutOfMemory,
        Ok(Some(number)) => WriteError::NotWritable(number),
        Err(fault) => WriteError::NotAMessage(fault),
    }
}

/// The refusal to report of a text that was not decoded.
fn to_report(e: DecodeError, profile: &Profile, text: &[u8]) -> WriteError
    requires { Answers (Err e) (read text.now) }
    ensures { Refuses profile.now result (read text.now) }
{
    match e {
        DecodeError::OutOfMemory => look_again(profile, text),
        fault => WriteError::NotAMessage(fault),
    }
}

fn answer(alloc: Global, profile: &Profile, text: &[u8]) -> Result<Vec<u8>, WriteError>
    ensures { GivesBytes (λ v. v.items) profile.now result (read text.now) }
{
    match decode(alloc, text) {
        Ok(message) => recode(alloc, profile, &message),
        Err(e) => Err(to_report(e, profile, text)),
    }
}

/// The bytes in the other profile of the message that a text spells in the ASCII profile, without the
/// fields whose rows say that they are not kept. Hexadecimal digits are in upper case, there is a
/// second bitmap only if a field above 64 is written, and a pad is the profile's.
///
/// A text that spells no message is refused with its first fault, and then the lowest field that has
/// no bytes in the other profile. Out of memory is reported only of a message that can be written.
pub fn from_ascii(alloc: Global, profile: &Profile, text: &[u8]) -> Result<Vec<u8>, WriteError>
    ensures found { IfOk result (λ v. IsWrittenOf profile.now text.now v.items) }
    ensures short { IfOk result (λ v. length v.items ≤ 9999) }
    ensures only { (m : PlainMessage) (bytes : List ℕ) → Spells text.now m
        → list_all is_byte bytes ≡ true → SpellsAs profile.now bytes (kept profile.now m)
        → MatchResult result (λ v. v.items ≡ spelling_as profile.now m) (λ e. e ≡ OutOfMemory) }
    ensures first_fault { IfErr result (λ e. IsWriteFault profile.now text.now e) }
{
    profile.is_checked();
    answer(alloc, profile, text)
}

//! The bytes of the ASCII profile for those of another system.

ghost use Rattle.std.specs.Prelude.{◌≡◌, ◌≤◌, length, IfErr, IfOk, IsErrOf, MatchResult, Err};
ghost use Rattle.iso_msg.specs.Messages.{PlainMessage};
ghost use Rattle.iso_codec.specs.Reads.{Answers, read};
ghost use Rattle.iso_codec.specs.Spelling.{spelling};
ghost use Rattle.iso_codec.specs.declared.error.DecodeError.TheVariants.{OutOfMemory};
ghost use Rattle.iso_dialect.specs.Ascii.{GivesText, IsAsciiOf};
ghost use Rattle.iso_dialect.specs.Messages.{SpellsAs};
ghost use Rattle.iso_dialect.specs.Readings.{read_as};

use crate::decode::decode_as;
use crate::profile::Profile;
use iso_codec::{DecodeError, encode};
use std::alloc::Global;

fn recode(alloc: Global, profile: &Profile, bytes: &[u8]) -> Result<Vec<u8>, DecodeError>
    ensures { GivesText (λ v. v.items) result (read_as profile.now bytes.now) }
{
    match decode_as(alloc, profile, bytes) {
        Ok(message) => match encode(alloc, &message) {
            Ok(text) => Ok(text),
            Err(_) => Err(DecodeError::OutOfMemory),
        },
        Err(e) => Err(e),
    }
}

/// The bytes of the ASCII profile for the message that all the bytes spell, without the fields that
/// are not kept. A refusal is the first fault from the left, in the order of `iso_codec::decode`;
/// `FieldNotInProfile` is of a number that has no row, and `BadLength` also of a value that is longer or
/// shorter than the field takes.
///
/// Out of memory is reported only if the bytes are those of a message.
pub fn to_ascii(alloc: Global, profile: &Profile, bytes: &[u8]) -> Result<Vec<u8>, DecodeError>
    ensures found { IfOk result (λ v. IsAsciiOf profile.now bytes.now v.items) }
    ensures only { (m : PlainMessage) → SpellsAs profile.now bytes.now m
        → MatchResult result (λ v. v.items ≡ spelling m) (λ e. e ≡ OutOfMemory) }
    ensures first_fault { IfErr result (λ e. Answers (Err e) (read_as profile.now bytes.now)) }
    ensures same { IfOk result (λ v. read v.items ≡ read_as profile.now bytes.now) }
    ensures short { IfOk result (λ v. length v.items ≤ 9999) }
    ensures memory_last { IsErrOf result OutOfMemory
        → (m : PlainMessage) × SpellsAs profile.now bytes.now m }
{
    profile.is_checked();
    recode(alloc, profile, bytes)
}

//! The type of a message.

ghost use Rattle.std.specs.Prelude.{◌≡◌, List, ℕ, IfOk, IsOk, OnErr};
ghost use Rattle.iso_msg.specs.Messages.{IsMti};
ghost use Rattle.iso_msg.specs.declared.error.MessageError.TheVariants.{BadMti};

use crate::error::MessageError;
use crate::table::Content;
use crate::value::takes_all;
use std::marker::Model;

/// A message type indicator: four digits, such as `0100` of an authorization request. Contracts see
/// the digits.
#[derive(Clone, Copy, PartialEq, Eq)]
pub struct Mti {
    digits: [u8; 4],
}

impl Model for Mti {
    ghost Value = { List ℕ };

    ghost view = { λ m. m.digits };

    ghost inverse = { λ v. record { digits = v } };

    ghost invariant = { λ m. IsMti m.digits };
}

impl Mti {
    /// The message type of these ASCII digits. `BadMti` is the only refusal.
    pub fn new(digits: &[u8]) -> Result<Mti, MessageError>
        ensures ok { IfOk result (λ mti. mti ≡ digits.now) }
        ensures valid { IfOk result (λ mti. IsMti mti) }
        ensures accepted { IsMti digits.now → IsOk result }
        ensures refused { OnErr result (result ≡ Err BadMti) }
    {
        if !takes_all(Content::Numeric, digits) {
            return Err(MessageError::BadMti);
        }
        match digits {
            [a, b, c, d] => Ok(Mti {
                digits: [*a, *b, *c, *d],
            }),
            _ => Err(MessageError::BadMti),
        }
    }

    /// The four ASCII digits.
    pub fn digits(&self) -> &[u8]
        ensures digits { result.now ≡ self.now }
        ensures valid { IsMti self.now }
    {
        &self.digits
    }
}

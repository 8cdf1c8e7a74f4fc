//! A message: a type, and values of fields.

ghost use Rattle.std.specs.Prelude.{◌≡◌, ◌<◌, [], length, IfOk, OnErr, OnOk, IfErr, IfSome, None, get_or, option_map};
ghost use Rattle.iso_msg.specs.Messages.{PlainMessage, IsMessage, numbers_of, value_at, with_value, without};
ghost use Rattle.iso_msg.specs.Values.{refusal, IsRefusal};

use crate::error::MessageError;
use crate::field::{Field, FieldNumbers};
use crate::mti::Mti;
use crate::storage;
use crate::value::refused;
use std::alloc::{AllocError, Global};
use std::marker::Model;

/// A message of ISO 8583:1987: its type, and values of some of the fields 2 to 128. A value is the
/// text of the field, without a length; that of a binary field (52, 64, 128) is its 8 bytes.
///
/// Contracts see the digits of the type, and a finite map of the fields: the list of numbers with
/// values in which the numbers rise.
pub struct Message {
    mti: Mti,
    fields: Vec<Field>,
}

// Written out, so that no caller proves again how its parts are dropped.
impl Drop for Message {
    fn drop(self) {
        let Message { mti: _, fields: _ } = self;
    }
}

impl Model for Message {
    ghost use Rattle.iso_msg.specs.Messages.{PlainMessage, IsMti, AreFields};
    ghost use Rattle.iso_msg.specs.Storage.{pairs};

    ghost Value = { PlainMessage };

    ghost view = { λ m. record { mti = m.mti; fields = pairs m.fields.items } };

    ghost invariant = { λ m. IsMti m.mti × AreFields 1 (pairs m.fields.items) };
}

impl Message {
    /// A message without fields. It takes no memory: the allocator is for the fields to come.
    pub fn new(alloc: Global, mti: Mti) -> Message
        ensures { result ≡ record { mti = mti; fields = [] } }
    {
        // The digits are looked at only for the proof that they are four.
        let _ = mti.digits();
        Message {
            mti,
            fields: Vec::new(alloc),
        }
    }

    /// The type. The contract also says that every message is valid, for callers that rely on it.
    pub fn mti(&self) -> Mti
        ensures mti { result ≡ self.now.mti }
        ensures valid { IsMessage self.now }
    {
        self.mti
    }

    /// States that the message is valid, for the proofs of its callers. It does nothing.
    pub fn is_message(&self)
        ensures { IsMessage self.now }
    {
        let _ = self.mti();
    }

    /// Puts a value at a number, in place of one that is there. The refusals are those of the
    /// table, in the order of `MessageError`, and out of memory if the table has none. A refusal
    /// leaves the message as it was.
    pub fn set(&mut self, alloc: Global, number: u8, value: &[u8]) -> Result<(), MessageError>
        ensures ok { OnOk result (self.new
            ≡ record {
              mti = self.old.mti;
              fields = with_value number value.now self.old.fields;
            }) }
        ensures taken { OnOk result (refusal number value.now ≡ None) }
        ensures refused { IfErr result (λ e. IsRefusal e number value.now) }
        ensures err { OnErr result (self.new ≡ self.old) }
    {
        if let Some(e) = refused(number, value) {
            return Err(e);
        }
        let value = Vec::from_slice(alloc, value)?;
        storage::put(&mut self.fields, number, value)
    }

    /// The value at a number, if there is one.
    pub fn get(&self, number: u8) -> Option<&[u8]>
        ensures value { option_map (λ v. v.now) result ≡ value_at number self.now.fields }
        // Whatever calls were made, a value that is there fits its field.
        ensures fits { IfSome result (λ v. refusal number v.now ≡ None) }
    {
        storage::get(&self.fields, number)
    }

    /// Removes the value at a number, and returns it if there was one.
    pub fn remove(&mut self, number: u8) -> Option<Vec<u8>>
        ensures value { option_map (λ v. v.items) result ≡ value_at number self.old.fields }
        ensures others { self.new
            ≡ record { mti = self.old.mti; fields = without number self.old.fields } }
    {
        storage::take(&mut self.fields, number)
    }

    /// The numbers of the fields, rising.
    pub fn fields(&self) -> FieldNumbers<'_>
        ensures { result ≡ numbers_of self.now.fields }
    {
        FieldNumbers::new(&self.fields)
    }

    /// A copy of the message, in memory of its own.
    pub fn copy(&self, alloc: Global) -> Result<Message, AllocError>
        ensures { IfOk result (λ m. m ≡ self.now) }
    {
        let fields = storage::copy(alloc, &self.fields)?;
        Ok(Message {
            mti: self.mti,
            fields,
        })
    }

    /// How many fields there are, for a walk with `field_at`.
    pub fn field_count(&self) -> usize
        ensures count { result ≡ length self.now.fields }
        ensures small { result < 128 }
    {
        self.fields.len()
    }

    /// The number and the value of the field at an index, counted from 0 in rising order.
    pub fn field_at(&self, index: usize) -> (u8, &[u8])
        requires { index < length self.now.fields }
        ensures field { (result.0, result.1.now) ≡ get_or self.now.fields index (0, []) }
        ensures valid { refusal result.0 result.1.now ≡ None }
    {
        let field = &self.fields[index];
        (field.number, &field.value)
    }

    /// Makes room for this many more fields, so that putting them moves none. Nothing else changes.
    pub fn reserve(&mut self, fields: usize) -> Result<(), AllocError>
        ensures { self.new ≡ self.old }
    {
        self.fields.reserve(fields)?;
        Ok(())
    }
}

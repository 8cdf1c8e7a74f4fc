//! Fields in rising order of their numbers.

ghost use Rattle.std.specs.Prelude.{◌≡◌, ◌++◌, ◌∷◌, [], List, ℕ, IsTrue, OnOk, OnErr, IfOk, IfErr, IfSome, None};
ghost use Rattle.std.specs.Prelude.{option_map};
ghost use Rattle.iso_msg.specs.Messages.{AreFields, value_at, with_value, without};
ghost use Rattle.iso_msg.specs.Values.{refusal};
ghost use Rattle.iso_msg.specs.Storage.{pairs, field_index};
ghost use Rattle.iso_msg.specs.declared.error.MessageError.TheVariants.{OutOfMemory};

use crate::error::MessageError;
use crate::field::Field;
use std::alloc::{AllocError, Global};

/// Where a number is, or else where it has to go.
fn index_of(fields: &[Field], number: u8) -> Result<usize, usize>
    requires { AreFields 1 (pairs fields.now) }
    ensures { result ≡ field_index number (pairs fields.now) }
{
    fields.binary_search_by_key(&number, |field| field.number)
}

/// Whether a number is above those of all fields, so that its field goes after them.
fn is_above(fields: &[Field], number: u8) -> bool
    requires { AreFields 1 (pairs fields.now) }
    ensures { IsTrue result → (value : List ℕ) → with_value number value (pairs fields.now)
        ≡ pairs fields.now ++ (number, value) ∷ [] }
{
    match fields.last() {
        Some(field) => field.number < number,
        None => true,
    }
}

fn put_last(fields: &mut Vec<Field>, number: u8, value: Vec<u8>) -> Result<(), MessageError>
    ensures ok { OnOk result (pairs fields.new.items
        ≡ pairs fields.old.items ++ (number, value.items) ∷ []) }
    ensures err { OnErr result (fields.new.items ≡ fields.old.items) }
    ensures memory { IfErr result (λ e. e ≡ OutOfMemory) }
{
    fields.push(Field { number, value })?;
    Ok(())
}

fn put_among(fields: &mut Vec<Field>, number: u8, value: Vec<u8>) -> Result<(), MessageError>
    requires { AreFields 1 (pairs fields.old.items) }
    ensures ok { OnOk result (pairs fields.new.items
        ≡ with_value number value.items (pairs fields.old.items)) }
    ensures err { OnErr result (fields.new.items ≡ fields.old.items) }
    ensures memory { IfErr result (λ e. e ≡ OutOfMemory) }
{
    match index_of(fields, number) {
        Ok(i) => fields[i] = Field { number, value },
        Err(i) => fields.insert(i, Field { number, value })?,
    }
    Ok(())
}

/// Puts a value at a number. Decoding puts each field after the others, which needs no search.
pub fn put(fields: &mut Vec<Field>, number: u8, value: Vec<u8>) -> Result<(), MessageError>
    requires { AreFields 1 (pairs fields.old.items) }
    ensures ok { OnOk result (pairs fields.new.items
        ≡ with_value number value.items (pairs fields.old.items)) }
    ensures err { OnErr result (fields.new.items ≡ fields.old.items) }
    ensures memory { IfErr result (λ e. e ≡ OutOfMemory) }
{
    if is_above(fields, number) {
        put_last(fields, number, value)
    } else {
        put_among(fields, number, value)
    }
}

pub fn get(fields: &[Field], number: u8) -> Option<&[u8]>
    requires { AreFields 1 (pairs fields.now) }
    ensures value { option_map (λ v. v.now) result ≡ value_at number (pairs fields.now) }
    ensures fits { IfSome result (λ v. refusal number v.now ≡ None) }
{
    match index_of(fields, number) {
        Ok(i) => Some(&fields[i].value),
        Err(_) => None,
    }
}

pub fn take(fields: &mut Vec<Field>, number: u8) -> Option<Vec<u8>>
    requires { AreFields 1 (pairs fields.old.items) }
    ensures value { option_map (λ v. v.items) result ≡ value_at number (pairs fields.old.items) }
    ensures others { pairs fields.new.items ≡ without number (pairs fields.old.items) }
{
    match index_of(fields, number) {
        Ok(i) => {
            let field = fields.remove(i);
            Some(field.value)
        }
        Err(_) => None,
    }
}

pub fn copy(alloc: Global, fields: &[Field]) -> Result<Vec<Field>, AllocError>
    ensures { IfOk result (λ v. pairs v.items ≡ pairs fields.now) }
{
    let mut all = Vec::with_capacity(alloc, fields.len())?;
    for field in fields {
        let value = Vec::from_slice(alloc, &field.value)?;
        all.push(Field {
            number: field.number,
            value,
        })?;
    }
    Ok(all)
}

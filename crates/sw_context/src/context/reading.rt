//! A context's bytes, read.

ghost use Rattle.std.specs.Prelude.{◌≡◌, ℕ, ◌≤◌, ◌<◌, ◌^◌, ◌↔◌, ◌++◌, List, length, is_some, IsTrue, IfSome};
ghost use Rattle.std.specs.Prelude.{IfNone, MatchResult};
ghost use Rattle.std.specs.List.{flat_map};
ghost use Rattle.sw_context.specs.Names.{is_name};
ghost use Rattle.sw_context.specs.Pairs.{Pairs, find, AreEntries, IsContext, IsEntry};
ghost use Rattle.sw_context.specs.Spelling.{name_bytes, value_bytes, entry_bytes, Spells, IsSpelled, IsReading};

use super::{Context, MOST_ENTRIES};
use crate::error::ContextError;
use crate::name::is_name_bytes;
use std::alloc::Global;
use std::str;

/// The name at the front, and what follows it.
fn name_at_front(bytes: &[u8]) -> Option<(&str, &[u8])>
    ensures found { IfSome result (λ r.
        IsTrue (is_name r.0.now) × (bytes.now ≡ name_bytes r.0.now ++ r.1.now)) }
    ensures none { IfNone result ((name rest : List ℕ)
        → IsTrue (is_name name) → bytes.now ≡ name_bytes name ++ rest → ⊥) }
{
    let (length, after) = bytes.split_first()?;
    let (name, rest) = after.split_at_checked(usize::from(*length))?;
    if !is_name_bytes(name) {
        return None;
    }
    match str::from_utf8(name) {
        Ok(name) => Some((name, rest)),
        Err(_) => None,
    }
}

/// The value at the front, and what follows it.
fn value_at_front(bytes: &[u8]) -> Option<(&[u8], &[u8])>
    ensures found { IfSome result (λ r.
        (length r.0.now < 2 ^ 16) × (bytes.now ≡ value_bytes r.0.now ++ r.1.now)) }
    ensures none { IfNone result ((value rest : List ℕ)
        → length value < 2 ^ 16 → bytes.now ≡ value_bytes value ++ rest → ⊥) }
{
    let (high, after) = bytes.split_first()?;
    let (low, after) = after.split_first()?;
    after.split_at_checked(256 * usize::from(*high) + usize::from(*low))
}

/// An entry at the front of bytes, and what follows it.
#[derive(Clone, Copy)]
struct Front<'a> {
    name: &'a str,
    value: &'a [u8],
    rest: &'a [u8],
}

fn entry_at_front(bytes: &[u8]) -> Option<Front<'_>>
    ensures found { IfSome result (λ f.
        IsEntry (f.name.now, f.value.now)
        × (bytes.now ≡ entry_bytes (f.name.now, f.value.now) ++ f.rest.now)) }
    ensures none { IfNone result ((e : List ℕ × List ℕ) (rest : List ℕ)
        → IsEntry e → bytes.now ≡ entry_bytes e ++ rest → ⊥) }
{
    let (name, after) = name_at_front(bytes)?;
    let (value, rest) = value_at_front(after)?;
    Some(Front { name, value, rest })
}

/// Whether one of the entries has the name.
fn has_name(name: &str, count: u8, bytes: &[u8]) -> bool
    ensures { (es : Pairs)
        → AreEntries es → length es ≡ count → bytes.now ≡ flat_map entry_bytes es
        → result ≡ is_some (find name.now es) }
{
    if count == 0 {
        return false;
    }
    match entry_at_front(bytes) {
        Some(front) => name == front.name || has_name(name, count - 1, front.rest),
        None => false,
    }
}

/// Whether the bytes are those of `count` entries with different names.
fn are_entries(count: u8, bytes: &[u8]) -> bool
    ensures { IsTrue result ↔ Spells count bytes.now }
{
    if count == 0 {
        return bytes.is_empty();
    }
    match entry_at_front(bytes) {
        Some(front) => {
            are_entries(count - 1, front.rest) && !has_name(front.name, count - 1, front.rest)
        }
        None => false,
    }
}

/// Puts `count` entries, one after the other.
fn put_entries(context: &mut Context, count: u8, bytes: &[u8]) -> Result<(), ContextError>
    ensures { (es : Pairs)
        → IsContext (context.old ++ es) → length es ≡ count → bytes.now ≡ flat_map entry_bytes es
        → MatchResult result (λ _. context.new ≡ context.old ++ es)
        (λ e. e ≡ ContextError.OutOfMemory) }
{
    if count == 0 {
        return Ok(());
    }
    match entry_at_front(bytes) {
        Some(front) => {
            context.put(front.name, front.value)?;
            put_entries(context, count - 1, front.rest)
        }
        None => Err(ContextError::BadBytes),
    }
}

impl Context {
    /// Whether the bytes are those that `to_bytes` gives for some context. It takes no memory.
    pub fn is_bytes(bytes: &[u8]) -> bool
        ensures { IsTrue result ↔ IsSpelled bytes.now }
    {
        match bytes.split_first() {
            Some((count, entries)) => {
                usize::from(*count) <= MOST_ENTRIES && are_entries(*count, entries)
            }
            None => false,
        }
    }

    /// The context whose bytes these are. `BadBytes` if they are those of none; `OutOfMemory` is reported only if
    /// there is one.
    pub fn from_bytes(alloc: Global, bytes: &[u8]) -> Result<Context, ContextError>
        ensures { IsReading bytes.now result }
    {
        if !Context::is_bytes(bytes) {
            return Err(ContextError::BadBytes);
        }
        let mut context = Context::new(alloc);
        if let Some((count, entries)) = bytes.split_first() {
            put_entries(&mut context, *count, entries)?;
        }
        Ok(context)
    }
}

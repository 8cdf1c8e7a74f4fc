ghost use Rattle.std.specs.Prelude.{◌≡◌, ℕ, ◌≤◌, ◌↔◌, IsTrue, List, [], length, Some, None, OnOk, OnErr};
ghost use Rattle.std.specs.Prelude.{IfOk, IfErr, option_map, slice_get};
ghost use Rattle.sw_context.specs.Pairs.{find, with_value, without, refusal, IsContext, IsRefusal};

mod comparing;
mod reading;
mod writing;

use crate::error::ContextError;
use crate::name::is_name;
use indexmap::IndexMap;
use std::alloc::{AllocError, Global};
use std::marker::Model;

/// The most entries of a context.
const MOST_ENTRIES: usize = 64;

/// The most bytes of a value.
const MOST_BYTES: usize = 65_535;

/// Named values in order. A contract sees the list of pairs of name and value.
pub struct Context {
    entries: IndexMap<String, Vec<u8>>,
}

// Written out, so that no caller proves again how its parts are dropped.
impl Drop for Context {
    fn drop(self) {
        let Context { entries: _ } = self;
    }
}

impl Model for Context {
    ghost use Rattle.std.specs.Prelude.{ℕ, List, map, string_bytes};
    ghost use Rattle.sw_context.specs.Pairs.{IsContext};

    ghost Value = { List (List ℕ × List ℕ) };

    ghost view = { λ c. map (λ e. (string_bytes e.0, e.1.items)) c.entries.entries };

    ghost invariant = { λ c. IsContext (map (λ e. (string_bytes e.0, e.1.items))
        c.entries.entries) };
}

impl Context {
    /// A context with no entry. It takes no memory: `alloc` is where later entries go.
    pub fn new(alloc: Global) -> Context
        ensures { result ≡ [] }
    {
        Context {
            entries: IndexMap::new(alloc),
        }
    }

    /// How many entries there are.
    pub fn len(&self) -> usize
        ensures len { result ≡ length self.now }
        ensures context { IsContext self.now }
    {
        self.entries.len()
    }

    /// Whether there is no entry.
    pub fn is_empty(&self) -> bool
        ensures { IsTrue result ↔ (self.now ≡ []) }
    {
        self.entries.is_empty()
    }

    /// The value under a name.
    pub fn get(&self, name: &str) -> Option<&[u8]>
        ensures { option_map (λ v. v.now) result ≡ find name.now self.now }
    {
        match self.entries.get(name) {
            Some(value) => Some(value.as_slice()),
            None => None,
        }
    }

    /// The name of the entry at an index, counted from 0.
    pub fn name_at(&self, index: usize) -> Option<&str>
        ensures { option_map (λ n. n.now) result
            ≡ option_map (λ e. e.0) (slice_get self.now index) }
    {
        match self.entries.get_index(index) {
            Some((name, _)) => Some(name.as_str()),
            None => None,
        }
    }

    /// The value of the entry at an index, counted from 0.
    pub fn value_at(&self, index: usize) -> Option<&[u8]>
        ensures { option_map (λ v. v.now) result
            ≡ option_map (λ e. e.1) (slice_get self.now index) }
    {
        match self.entries.get_index(index) {
            Some((_, value)) => Some(value.as_slice()),
            None => None,
        }
    }

    /// Why `put` would refuse a value under a name, memory aside.
    #[tactic(auto, unfolding(crate::specs::Pairs::refusal))]
    fn refusal(&self, name: &str, value: &[u8]) -> Option<ContextError>
        ensures { result ≡ refusal self.now name.now value.now }
    {
        if !is_name(name) {
            Some(ContextError::BadName)
        } else if value.len() > MOST_BYTES {
            Some(ContextError::ValueTooLong)
        } else if self.len() >= MOST_ENTRIES && self.get(name).is_none() {
            Some(ContextError::Full)
        } else {
            None
        }
    }

    /// Puts a value under a name. A name that is already there keeps its position, and a new one comes last.
    ///
    /// The refusals, in this order: `BadName`, `ValueTooLong`, `Full` (it would be the 65th name), `OutOfMemory`.
    pub fn put(&mut self, name: &str, value: &[u8]) -> Result<(), ContextError>
        ensures put { OnOk result (self.new ≡ with_value self.old name.now value.now) }
        ensures taken { OnOk result (refusal self.old name.now value.now ≡ None) }
        ensures refused { IfErr result (λ e. IsRefusal e (refusal self.old name.now value.now)) }
        ensures err { OnErr result (self.new ≡ self.old) }
    {
        if let Some(error) = self.refusal(name, value) {
            return Err(error);
        }
        let alloc = *self.entries.allocator();
        let name = String::from_str(alloc, name)?;
        let value = Vec::from_slice(alloc, value)?;
        self.entries.insert(name, value)?;
        Ok(())
    }

    /// Removes the entry under a name and gives its value. The other entries keep their order. It takes no memory.
    pub fn take(&mut self, name: &str) -> Option<Vec<u8>>
        ensures taken { option_map (λ v. v.items) result ≡ find name.now self.old }
        ensures left { self.new ≡ without name.now self.old }
    {
        self.entries.shift_remove(name)
    }

    /// A context with the same entries in the same order.
    pub fn copy(&self) -> Result<Context, AllocError>
        ensures { IfOk result (λ c. c ≡ self.now) }
    {
        Ok(Context {
            entries: self.entries.clone()?,
        })
    }
}

//! A context's bytes, written.

ghost use Rattle.std.specs.Prelude.{◌≡◌, ℕ, ◌≤◌, ◌<◌, ◌^◌, ◌++◌, length, OnOk, IfOk};
ghost use Rattle.sw_context.specs.Names.{is_name};
ghost use Rattle.sw_context.specs.Spelling.{bytes_of, entry_bytes};

use super::Context;
use std::alloc::AllocError;

/// Writes an entry at the end.
fn push_entry(out: &mut Vec<u8>, name: &str, value: &[u8]) -> Result<(), AllocError>
    requires name { length name.now < 2 ^ 8 }
    requires value { length value.now < 2 ^ 16 }
    ensures { OnOk result (out.new.items ≡ out.old.items ++ entry_bytes (name.now, value.now)) }
{
    let length = value.len();
    out.push(name.len() as u8)?;
    out.extend_from_slice(name.as_bytes())?;
    out.push((length / 256) as u8)?;
    out.push((length % 256) as u8)?;
    out.extend_from_slice(value)
}

impl Context {
    /// How many bytes `to_bytes` gives. It takes no memory.
    pub fn bytes_len(&self) -> usize
        ensures len { result ≡ length (bytes_of self.now) }
        ensures bound { result < 2 ^ 23 }
    {
        let mut total = 1;
        for (name, value) in &self.entries {
            total += 3 + name.len() + value.len();
        }
        total
    }

    /// The context's bytes: one byte with the number of entries, and for each entry one byte with the length of its
    /// name, the name, two bytes with the length of its value, the high byte first, and the value.
    pub fn to_bytes(&self) -> Result<Vec<u8>, AllocError>
        ensures { IfOk result (λ v. v.items ≡ bytes_of self.now) }
    {
        let mut out = Vec::with_capacity(*self.entries.allocator(), self.bytes_len())?;
        out.push(self.entries.len() as u8)?;
        for (name, value) in &self.entries {
            push_entry(&mut out, name.as_str(), value.as_slice())?;
        }
        Ok(out)
    }
}

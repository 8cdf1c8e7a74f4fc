//! Bytes that wait to be handed on.

ghost use Rattle.std.specs.Prelude.{◌≡◌, ◌<◌, [], OnOk, drop, false, length, min, take, true};
ghost use Rattle.run_recode.specs.Queues.{HandsOn};

use std::alloc::Global;
use std::io::{self, ErrorKind, Write};
use std::marker::Model;

/// After this many writes a writer that keeps being interrupted is given up.
const MOST_WRITES: u64 = u64::MAX;

/// Bytes that wait to be handed on, in their order. Contracts see those that still wait.
pub struct Queue {
    bytes: Vec<u8>,
    done: usize,
}

// Written out, so that no caller proves again how its parts are dropped.
impl Drop for Queue {
    fn drop(self) {
        let Queue { bytes: _, done: _ } = self;
    }
}

impl Model for Queue {
    ghost use Rattle.std.specs.Prelude.{List, ℕ, ◌≤◌, drop, length};

    ghost Value = { List ℕ };

    ghost view = { λ q. drop q.done q.bytes.items };

    ghost invariant = { λ q. q.done ≤ length q.bytes.items };
}

impl Queue {
    /// No bytes.
    pub fn new(alloc: Global) -> Queue
        ensures { result ≡ [] }
    {
        Queue {
            bytes: Vec::new(alloc),
            done: 0,
        }
    }

    /// Whether none wait.
    pub fn is_empty(&self) -> bool
        ensures empty { result ≡ true → self.now ≡ [] }
        ensures other { result ≡ false → 0 < length self.now }
    {
        self.done == self.bytes.len()
    }

    /// Has these bytes wait, where none did.
    pub fn put(&mut self, bytes: Vec<u8>)
        ensures { self.new ≡ bytes.items }
    {
        self.bytes = bytes;
        self.done = 0;
    }

    /// Hands on as many as there is room for; how many.
    pub fn take_into(&mut self, buf: &mut [u8]) -> usize
        ensures count { result ≡ min (length self.old) (length buf.old) }
        ensures taken { take result buf.new ≡ take result self.old }
        ensures rest { self.new ≡ drop result self.old }
    {
        let (_, waiting) = self.bytes.split_at(self.done);
        let count = waiting.len().min(buf.len());
        buf[..count].copy_from_slice(&waiting[..count]);
        self.done += count;
        count
    }

    // Writes some of them, none if the writer was interrupted.
    fn write_some<W: Write>(&mut self, out: &mut W) -> io::Result<()>
        ensures { HandsOn (W.contents out.old) (W.contents out.new) self.old self.new }
    {
        let (_, waiting) = self.bytes.split_at(self.done);
        match out.write(waiting) {
            Ok(0) => Err(io::Error::from(ErrorKind::WriteZero)),
            Ok(count) => {
                self.done += count;
                Ok(())
            }
            Err(error) if error.kind() == ErrorKind::Interrupted => Ok(()),
            Err(error) => Err(error),
        }
    }

    /// Writes all of them. After an error those that were not written still wait.
    pub fn write_to<W: Write>(&mut self, out: &mut W) -> io::Result<()>
        ensures written { HandsOn (W.contents out.old) (W.contents out.new) self.old self.new }
        ensures all { OnOk result (self.new ≡ []) }
    {
        for _ in 0..MOST_WRITES {
            if self.is_empty() {
                return Ok(());
            }
            self.write_some(out)?;
        }
        Err(io::Error::from(ErrorKind::TimedOut))
    }
}

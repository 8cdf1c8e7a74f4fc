//! Two disks whose calls are counted together: one call fails, alone or with all that follow it; for
//! tests of what a fault leaves.
//!
//! What `sqlite_disk` asks of a disk holds of both. They begin as the disks that they are over
//! ([`pair`]), and give these back ([`Once::into_inner`]). No contract says which call fails.
//!
//! # What is proved
//!
//! Two disks whose calls are counted together, for tests: one call fails, once or with all that follow.
//! They keep the kit's clauses of a disk. No contract says which call fails. `pair` gives two disks
//! over those handed in, with nothing refused yet, and `into_inner` gives each back.
#![tactic(auto)]

ghost use Rattle.std.specs.Prelude.{◌≡◌, ◌+◌, ◌&&◌, not, false, IfOk, IsErr};
ghost use Rattle.std.specs.Arc.{arc_value};
ghost use Rattle.test_disk.specs.Fresh.{IsOver};
ghost use Rattle.sqlite_disk.specs.Disk.{CountsFault};
ghost use Rattle.sqlite_disk.specs.Refusal.{finds_no_room};

use sqlite_disk::{Crash, Disk, Tally};
use std::alloc::{AllocError, Global};
use std::io;
use std::sync::Arc;
use std::sync::atomic::{AtomicU64, Ordering};
use std::thread::yield_now;

/// What happens at the call that finds the counter at 0.
#[derive(Clone, Copy)]
pub enum Fault {
    /// It fails, after this many yields of its thread, and those that follow do not.
    Once { yields: u64 },
    /// It fails, and so do all that follow, until a crash: the machine has stopped. (The calls come
    /// from one thread.)
    Stop,
}

/// A disk that passes each call on to the one that it is over, except those that its fault makes
/// fail.
#[derive(Drop)]
pub struct Once<D: Disk> {
    inner: D,
    calls_left: Arc<AtomicU64>,
    fault: Fault,
    refused: u64,
    sync_refused: bool,
}

/// Makes two disks over these two, with one counter: of all their calls together, the one after
/// `calls` others meets the fault.
pub fn pair<D: Disk + Drop>(
    alloc: Global,
    first: D,
    second: D,
    calls: u64,
    fault: Fault,
) -> Result<(Once<D>, Once<D>), AllocError>
    ensures first { IfOk result (λ disks. IsOver disks.0 first fault) }
    ensures second { IfOk result (λ disks. IsOver disks.1 second fault) }
    ensures counter { IfOk result (λ disks.
        arc_value disks.0.calls_left ≡ arc_value disks.1.calls_left) }
{
    let counter = Arc::new(alloc, AtomicU64::new(calls))?;
    let other = Arc::try_clone(&counter)?;
    Ok((
        Once {
            inner: first,
            calls_left: counter,
            fault,
            refused: 0,
            sync_refused: false,
        },
        Once {
            inner: second,
            calls_left: other,
            fault,
            refused: 0,
            sync_refused: false,
        },
    ))
}

impl<D: Disk> Once<D> {
    /// Hands back the disk that it is over.
    pub fn into_inner(self) -> D
        ensures { result ≡ self.inner }
    {
        let Once {
            inner,
            calls_left: _,
            fault: _,
            refused: _,
            sync_refused: _,
        } = self;
        inner
    }
}

fn spend(calls_left: &AtomicU64, fault: Fault, refused: &mut u64) -> io::Result<()>
    ensures faults { CountsFault result refused.old refused.new }
    ensures kind { finds_no_room result ≡ false }
{
    if calls_left.fetch_sub(1, Ordering::Relaxed) == 0 {
        match fault {
            Fault::Once { yields } => {
                for _ in 0..yields {
                    yield_now();
                }
            }
            Fault::Stop => calls_left.store(0, Ordering::Relaxed),
        }
        *refused = refused.saturating_add(1);
        return Err(io::Error::other("the call is refused"));
    }
    Ok(())
}

impl<D: Disk> Disk for Once<D> {
    ghost seen = { λ f. D.Disk.seen f.inner };

    ghost may_leave = { λ f. D.Disk.may_leave f.inner };

    ghost is_usable = { λ f. D.Disk.is_usable f.inner && not f.sync_refused };

    ghost faults = { λ f. D.Disk.faults f.inner + f.refused };

    ghost tally_of = { λ f. D.Disk.tally_of f.inner };

    ghost is_rotten = { λ f. D.Disk.is_rotten f.inner };

    ghost key_of = { λ f. D.Disk.key_of f.inner };

    ghost is_clean = { λ f. D.Disk.is_clean f.inner };

    ghost is_fair = { λ f. D.Disk.is_fair f.inner };

    ghost fair_if_clean = { λ f. D.Disk.fair_if_clean f.inner };

    ghost seen_may_stay = { λ f. D.Disk.seen_may_stay f.inner };

    ghost is_mixing = { λ f. D.Disk.is_mixing f.inner };

    fn mixes(&self) -> bool {
        self.inner.mixes()
    }

    fn key(&self) -> u64 {
        self.inner.key()
    }

    fn tally(&self) -> Tally {
        self.inner.tally()
    }

    fn may_be_used(&self) -> bool {
        self.inner.may_be_used() && !self.sync_refused
    }

    fn len(&mut self) -> io::Result<usize> {
        spend(&self.calls_left, self.fault, &mut self.refused)?;
        self.inner.len()
    }

    fn read_at(&mut self, at: usize, buf: &mut [u8]) -> io::Result<()> {
        spend(&self.calls_left, self.fault, &mut self.refused)?;
        self.inner.read_at(at, buf)
    }

    fn read_checked(&mut self, key: u64, want: u64, at: usize, buf: &mut [u8]) -> io::Result<()> {
        spend(&self.calls_left, self.fault, &mut self.refused)?;
        self.inner.read_checked(key, want, at, buf)
    }

    fn write_at(&mut self, at: usize, bytes: &[u8]) -> io::Result<()> {
        spend(&self.calls_left, self.fault, &mut self.refused)?;
        self.inner.write_at(at, bytes)
    }

    fn set_len(&mut self, len: usize) -> io::Result<()> {
        spend(&self.calls_left, self.fault, &mut self.refused)?;
        self.inner.set_len(len)
    }

    fn sync(&mut self) -> io::Result<()> {
        if let Err(error) = spend(&self.calls_left, self.fault, &mut self.refused) {
            self.sync_refused = true;
            return Err(error);
        }
        self.inner.sync()
    }
}

/// The machine comes back, and no later call is refused.
impl<D: Crash> Crash for Once<D> {
    fn crash(&mut self) {
        self.inner.crash();
        self.calls_left.store(u64::MAX, Ordering::Relaxed);
        self.sync_refused = false;
    }
}

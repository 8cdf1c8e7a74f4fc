//! Sessions in a run.

ghost use Rattle.std.specs.Prelude.{◌≡◌, vec_len};

use crate::run::Run;
use std::alloc::Global;
use std::sync::ledger::Share;
use sw_context::Context;
use sw_participant::Call;

/// A session, with the numbers of its entries in the run, and its share of their count.
#[derive(Drop)]
pub struct Session<K: Run> {
    pub index: usize,
    pub share: Share<K>,
    pub receipts: Vec<usize>,
    pub ghost one: { share.parts ≡ 1 },
    pub ghost counted: { share.amount ≡ vec_len receipts },
}

impl<K: Run> Session<K> {
    pub fn new(alloc: Global, index: usize, share: Share<K>) -> Session<K>
        requires parts { share.parts ≡ 1 }
        requires amount { share.amount ≡ 0 }
    {
        Session {
            index,
            share,
            receipts: Vec::new(alloc),
        }
    }
}

/// What a session does next.
#[derive(Drop)]
pub enum Plan {
    /// It asks again.
    Again,
    /// It got an offer from the intake, which has room now, and asks again.
    Admitted,
    /// It waits until its last entry is written.
    AwaitWrite,
    /// It waits until there is an offer, or none will come.
    AwaitOffer,
    /// It ends.
    Leave,
    /// It makes this call, with this context.
    Make(Call, Context),
}

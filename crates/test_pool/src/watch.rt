//! A gate that notes each call.

use std::alloc::{AllocError, Global};
use std::sync::{Mutex, Wait};
use sw_participant::Call;
use tx_pool::Gate;

/// A call, and the session whose thread made it.
#[derive(Clone, Copy)]
pub struct Called {
    pub session: usize,
    pub call: Call,
}

#[derive(Drop)]
struct Calls {
    list: Vec<Called>,
    // Whether memory was refused for one.
    is_short: bool,
}

/// A gate that notes each call, in the order in which they are entered.
pub struct Watch<'a, R: Wait> {
    rt: &'a R,
    calls: Mutex<Calls>,
}

impl<'a, R: Wait> Watch<'a, R> {
    pub fn new(rt: &'a R, alloc: Global) -> Watch<'a, R> {
        Watch {
            rt,
            calls: Mutex::new(Calls {
                list: Vec::new(alloc),
                is_short: false,
            }),
        }
    }

    /// The calls that were noted; out of memory if one is missing.
    pub fn into_calls(self) -> Result<Vec<Called>, AllocError> {
        let Watch { rt: _, calls } = self;
        let Calls { list, is_short } = calls.into_inner();
        if is_short {
            return Err(AllocError);
        }
        Ok(list)
    }
}

impl<'a, R: Wait> Drop for Watch<'a, R> {
    fn drop(self) {
        let Watch { rt: _, calls: _ } = self;
    }
}

impl<R: Wait> Gate for Watch<'_, R> {
    fn enter(&self, session: usize, call: &Call) {
        let mut calls = self.calls.lock(self.rt);
        let called = Called {
            session,
            call: *call,
        };
        // (once again, for tests that refuse one request for memory)
        if calls.list.push(called).is_err() && calls.list.push(called).is_err() {
            calls.is_short = true;
        }
    }

    fn leave(&self, _session: usize, _call: &Call) {}
}

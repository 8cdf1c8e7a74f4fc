//! Keys that wait: a key that waits already, and what ends at its time or is withdrawn. A query of the switch has one
//! request and one response, as `tests/hosts.py` shows them.

use crate::tests::messages::message_of;
use iso_msg::Message;
use std::alloc::Global;
use std::test::Fail;
use sw_mux::{Mux, MuxError};

/// Type, field 41 and field 11.
const KEY: &[u8] = b"01000000000TERM0001000042";

/// Whether the request waits from now on, up to the moment 5.
fn waits(mux: &mut Mux, message: &Message) -> bool {
    match mux.request(message, 5) {
        Ok(key) => key.bytes.as_slice() == KEY,
        Err(_) => false,
    }
}

fn waits_already(mux: &mut Mux, message: &Message) -> bool {
    matches!(mux.request(message, 5), Err(MuxError::DuplicateKey))
}

/// Whether so many requests end at this moment.
fn ends(alloc: Global, mux: &mut Mux, now: u64, count: usize) -> bool {
    match mux.expire(alloc, now) {
        Ok(ended) => ended.len() == count,
        Err(_) => false,
    }
}

fn is_withdrawn(mux: &mut Mux, message: &Message) -> bool {
    match mux.request(message, 5) {
        Ok(key) => {
            mux.withdraw(&key);
            mux.waiting() == 0
        }
        Err(_) => false,
    }
}

#[test]
fn what_waits_ends_at_its_time_or_is_withdrawn(rt: HostRuntime) -> Result<(), Fail> {
    let message = message_of(rt.alloc(), b"0100", &[(11, b"000042"), (41, b"TERM0001")])?;
    let mut mux = Mux::new(rt.alloc());
    assert!(rt; waits(&mut mux, &message) && waits_already(&mut mux, &message));
    assert!(rt; ends(rt.alloc(), &mut mux, 4, 0) && mux.waiting() == 1);
    assert!(rt; ends(rt.alloc(), &mut mux, 5, 1) && mux.waiting() == 0);
    assert!(rt; is_withdrawn(&mut mux, &message));
    Ok(())
}

//! The requests that wait for an answer of a host, and the answers that came.

ghost use Rattle.std.specs.Prelude.{◌≡◌, ◌<◌, ◌∷◌, ◌++◌, [], false, true, is_some, length, nat_le};
ghost use Rattle.std.specs.Prelude.{if◌then◌else◌, IfErr, IfOk, IfSome, OnErr, OnOk};
ghost use Rattle.sw_wire.specs.Answers.{asks, is_answered, is_busy, is_refused, is_under_way};
ghost use Rattle.sw_wire.specs.Boxes.{first_of, without_first};
ghost use Rattle.sw_wire.specs.Wanted.{has_key};

use crate::backlog::{Backlog, Picks};
use crate::expected::Expected;
use crate::received::Received;
use crate::suits::suits;
use iso_msg::Message;
use std::alloc::{AllocError, Global};
use sw_mux::Key;

/// The requests that wait for an answer, and the answers that were not taken yet, each in the order in which they came:
/// 64 at most of each, and of the requests no more than may be under way at the host. An answer is kept only for a
/// request that waits, and that waits no more then.
#[derive(Drop)]
pub struct Answers {
    asked: Backlog<Expected>,
    came: Backlog<Received>,
    /// How many requests may wait at most.
    most: usize,
}

// A key looks for the answers that have it, and for the requests that wait for one.
impl Picks<Received> for Key {
    ghost picks = { λ key received. has_key key.bytes received };

    fn picks(&self, item: &Received) -> bool {
        item.key.bytes.as_slice() == self.bytes.as_slice()
    }
}

impl Picks<Expected> for Key {
    ghost picks = { λ key expected. asks key.bytes expected };

    fn picks(&self, item: &Expected) -> bool {
        item.key.bytes.as_slice() == self.bytes.as_slice()
    }
}

// An answer with its key, which looks for its request.
#[derive(Drop)]
struct Reply<'a> {
    key: Key,
    message: &'a Message,
}

impl Picks<Expected> for Reply<'_> {
    ghost picks = { λ reply expected. is_answered reply.key.bytes reply.message.now expected };

    fn picks(&self, item: &Expected) -> bool {
        self.key.picks(item) && suits(&item.request, self.message)
    }
}

impl Answers {
    /// Without a request and an answer, for a host at which `most` requests may be under way at once. Refuses if
    /// there is no memory for 64 of each; their bytes are not counted.
    pub fn new(alloc: Global, most: usize) -> Result<Answers, AllocError>
        ensures asked { IfOk result (λ answers. answers.asked ≡ []) }
        ensures came { IfOk result (λ answers. answers.came ≡ []) }
        ensures most { IfOk result (λ answers. answers.most ≡ most) }
    {
        let asked = Backlog::new(alloc)?;
        let came = Backlog::new(alloc)?;
        Ok(Answers { asked, came, most })
    }

    // Whether a request with the key waits, or its answer was not taken yet.
    fn is_under_way(&self, key: &Key) -> bool
        ensures { result ≡ is_under_way key.now.bytes self.now.asked self.now.came }
    {
        self.asked.has::<Key>(key) || self.came.has::<Key>(key)
    }

    // Whether as many requests wait as may.
    fn is_busy(&self) -> bool
        ensures busy { result ≡ is_busy self.now.most self.now.asked }
        ensures few { result ≡ false → length self.now.asked < 64 }
    {
        self.asked.len() >= self.most || self.asked.is_full()
    }

    /// Has a request wait for its answer, last. Hands it back, with nothing changed, where one with its key is under
    /// way, and where as many wait as may.
    pub fn expect(&mut self, expected: Expected) -> Result<(), Expected>
        ensures waits { OnOk result (self.new.asked ≡ self.old.asked ++ expected ∷ []) }
        ensures alone { OnOk result
            (is_under_way expected.key.bytes self.old.asked self.old.came ≡ false) }
        ensures room { OnOk result (length self.old.asked < self.old.most) }
        ensures refused { OnErr result
            (is_refused self.old.most expected.key.bytes self.old.asked self.old.came ≡ true) }
        ensures handed_back { IfErr result (λ back. back ≡ expected) }
        ensures kept { OnErr result (self.new.asked ≡ self.old.asked) }
        ensures came { self.new.came ≡ self.old.came }
        ensures most { self.new.most ≡ self.old.most }
    {
        if self.is_under_way(&expected.key) || self.is_busy() {
            return Err(expected);
        }
        self.asked.put(expected);
        Ok(())
    }

    /// Keeps what came for the request that it answers, which waits no more; whether it was kept. It is not, and
    /// nothing changes, where no request with its key waits that it suits, or where 64 answers were not taken.
    pub fn put(&mut self, message: &Message, received: Received) -> bool
        ensures answered { result ≡ (if nat_le 64 (length self.old.came) then false else
            is_some (first_of (is_answered received.key.bytes message.now) self.old.asked)) }
        ensures waits_no_more { result ≡ true → self.new.asked
            ≡ without_first (is_answered received.key.bytes message.now) self.old.asked }
        ensures came { result ≡ true → self.new.came ≡ self.old.came ++ received ∷ [] }
        ensures asked_kept { result ≡ false → self.new.asked ≡ self.old.asked }
        ensures came_kept { result ≡ false → self.new.came ≡ self.old.came }
        ensures most { self.new.most ≡ self.old.most }
    {
        let reply = Reply {
            key: received.key,
            message,
        };
        if self.came.is_full() || !self.asked.has(&reply) {
            return false;
        }
        let _ = self.asked.take_one(&reply);
        self.came.put(received);
        true
    }

    /// Takes the answer with the key. The others stay.
    pub fn take(&mut self, key: &Key) -> Option<Received>
        ensures keyed { IfSome result (λ m. m.key.bytes ≡ key.now.bytes) }
        ensures taken { result ≡ first_of (has_key key.now.bytes) self.old.came }
        ensures left { self.new.came ≡ without_first (has_key key.now.bytes) self.old.came }
        ensures asked { self.new.asked ≡ self.old.asked }
        ensures most { self.new.most ≡ self.old.most }
    {
        self.came.take_one(key)
    }

    /// Drops the request with the key, and its answer; returns how many answers were dropped. The others stay.
    pub fn forget(&mut self, key: &Key) -> u64
        ensures dropped { result
            ≡ (if is_some (first_of (has_key key.now.bytes) self.old.came) then 1 else 0) }
        ensures asked { self.new.asked ≡ without_first (asks key.now.bytes) self.old.asked }
        ensures came { self.new.came ≡ without_first (has_key key.now.bytes) self.old.came }
        ensures most { self.new.most ≡ self.old.most }
    {
        let _: Option<Expected> = self.asked.take_one(key);
        match self.came.take_one::<Key>(key) {
            Some(_) => 1,
            None => 0,
        }
    }
}

//! The requests that wait for a response.

ghost use Rattle.std.specs.Prelude.{◌≡◌, ◌<◌, ◌≤◌, ◌++◌, ◌∷◌, [], Some, None, false, length};
ghost use Rattle.std.specs.Prelude.{map, IfOk, OnOk, OnErr, IfErr};
ghost use Rattle.std.specs.BTreeMap.{IsFromIterResult};
ghost use Rattle.std.specs.HashMap.{get, spare};
ghost use Rattle.std.specs.Map.{values_of};
ghost use Rattle.std.specs.Ordering.{nat_cmp};
ghost use Rattle.sw_mux.specs.declared.key.Key.{Key};
ghost use Rattle.sw_mux.specs.Keys.{key};
ghost use Rattle.sw_mux.specs.Numbered.{Rise, key_eq};
ghost use Rattle.sw_mux.specs.Times.{by_number, until, AreUntil};
ghost use Rattle.sw_mux.specs.Waiting.{waits, without, without_all, due, later};
ghost use Rattle.sw_mux.specs.Waiting.{refusal, IsRefusal, IsUnspent};
ghost use Rattle.sw_mux.specs.Outcomes.{Answers};

use crate::error::MuxError;
use crate::key::{Key, key_of};
use iso_msg::Message;
use std::alloc::{AllocError, Global};
use std::collections::{BTreeMap, HashMap};
use std::marker::Model;

/// What a message from the other side is.
#[derive(Drop)]
pub enum Response {
    /// The response to the request with this key, which waits no more.
    Matched(Key, Message),
    /// A message that is the response to no waiting request.
    Unhandled(Message),
}

/// Requests that wait, with their deadlines. Contracts see them as a list in order of request.
///
/// A deadline is a number that the caller chooses, such as a tick of a clock or the number of a
/// transaction; only `expire` gives it a meaning.
pub struct Mux {
    // The requests by number, the oldest first, and the number of each key: neither a response nor
    // a withdrawal moves the later ones. The keys by deadline and number: what is not due is
    // not looked at.
    requests: BTreeMap<u64, (Key, u64)>,
    numbers: HashMap<Key, u64>,
    deadlines: BTreeMap<(u64, u64), Key>,
    next: u64,
}

// Written out, so that no caller proves again how its parts are dropped.
impl Drop for Mux {
    fn drop(self) {
        let Mux {
            requests: _,
            numbers: _,
            deadlines: _,
            next: _,
        } = self;
    }
}

impl Model for Mux {
    ghost use Rattle.std.specs.Prelude.{ℕ, List};
    ghost use Rattle.std.specs.Map.{values_of};
    ghost use Rattle.std.specs.BTreeMap.{get as key_at};
    ghost use Rattle.std.specs.HashMap.{get};
    ghost use Rattle.sw_mux.specs.Waiting.{WaitingKeys};
    ghost use Rattle.sw_mux.specs.Numbered.{IsNumbered, key_eq, pair_cmp};

    ghost Value = { WaitingKeys };

    ghost view = { λ m. values_of m.requests.entries };

    ghost invariant = { λ m. IsNumbered
        m.requests.entries (get key_eq m.numbers) (key_at pair_cmp m.deadlines) m.next };
}

impl Mux {
    /// A multiplexer in which nothing waits. It takes no memory: `alloc` is where later requests
    /// go.
    pub fn new(alloc: Global) -> Mux
        ensures { result ≡ [] }
    {
        Mux {
            requests: BTreeMap::new(alloc),
            numbers: HashMap::new(alloc),
            deadlines: BTreeMap::new(alloc),
            next: 0,
        }
    }

    /// How many requests wait.
    pub fn waiting(&self) -> usize
        ensures { result ≡ length self.now }
    {
        self.requests.len()
    }

    /// Puts a request last among those that wait, and returns its key. The refusals, in this order:
    /// `NoKey` if the message lacks field 41 or field 11, `DuplicateKey` if its key waits already,
    /// `NumbersSpent`, `OutOfMemory`. The numbers begin again where nothing waits.
    pub fn request(&mut self, message: &Message, deadline: u64) -> Result<Key, MuxError>
        ensures key { IfOk result (λ k. Some k.bytes ≡ key message.now) }
        ensures waits { IfOk result (λ k. self.new ≡ self.old ++ (k, deadline) ∷ []) }
        ensures taken { OnOk result (refusal message.now self.old ≡ None) }
        ensures refused { IfErr result (λ e. IsRefusal e (refusal message.now self.old)) }
        ensures unspent { self.old ≡ [] → IfErr result IsUnspent }
        ensures kept { OnErr result (self.new ≡ self.old) }
    {
        let Some(key) = key_of(message) else {
            return Err(MuxError::NoKey);
        };
        if self.numbers.contains_key(&key) {
            return Err(MuxError::DuplicateKey);
        }
        let number = number_after(&self.requests, self.next);
        let Some(next) = number.checked_add(1) else {
            return Err(MuxError::NumbersSpent);
        };
        if room(&mut self.numbers).is_err() {
            return Err(MuxError::OutOfMemory);
        }
        let Ok(_none) = self.deadlines.insert((deadline, number), key) else {
            return Err(MuxError::OutOfMemory);
        };
        let Ok(_none) = self.requests.insert(number, (key, deadline)) else {
            let _ = self.deadlines.remove(&(deadline, number));
            return Err(MuxError::OutOfMemory);
        };
        let Ok(_none) = self.numbers.insert(key, number) else {
            unreachable!()
        };
        self.next = next;
        Ok(key)
    }

    // Takes the key out, if it waits; whether it did.
    fn take(&mut self, key: &Key) -> bool
        ensures waited { result ≡ waits key.now.bytes self.old }
        ensures left { self.new ≡ without key.now.bytes self.old }
        ensures kept { result ≡ false → self.new ≡ self.old }
    {
        let Some(number) = self.numbers.remove(key) else {
            return false;
        };
        let Some((_, deadline)) = self.requests.remove(&number) else {
            unreachable!()
        };
        let _ = self.deadlines.remove(&(deadline, number));
        true
    }

    /// Takes a message from the other side: `Matched` exactly if its key waits, which then waits no
    /// more; a second response with the key is `Unhandled`. It takes no memory. A message of a
    /// request's type has the request's own key, and is matched too.
    pub fn response(&mut self, message: Message) -> Response
        ensures { Answers message self.old result self.new }
    {
        let Some(key) = key_of(&message) else {
            return Response::Unhandled(message);
        };
        if !self.take(&key) {
            return Response::Unhandled(message);
        }
        Response::Matched(key, message)
    }

    /// Takes one key out, and changes nothing if it does not wait. It takes no memory.
    pub fn withdraw(&mut self, key: &Key)
        ensures { self.new ≡ without key.now.bytes self.old }
    {
        let _ = self.take(key);
    }

    /// Takes out the keys with a deadline of at most `tick`, and returns them in order of request.
    /// The only refusal is out of memory, after which all wait as before.
    pub fn expire(&mut self, alloc: Global, tick: u64) -> Result<Vec<Key>, AllocError>
        ensures due { IfOk result (λ ks. ks.items ≡ due tick self.old) }
        ensures later { OnOk result (self.new ≡ later tick self.old) }
        ensures kept { OnErr result (self.new ≡ self.old) }
    {
        let keys = self.due(alloc, tick)?;
        for key in &keys {
            self.withdraw(key);
        }
        Ok(keys)
    }

    // The keys with a deadline of at most `tick`, in order of request. No key waits twice, so
    // taking these out leaves the others.
    fn due(&self, alloc: Global, tick: u64) -> Result<Vec<Key>, AllocError>
        ensures due { IfOk result (λ ks. ks.items ≡ due tick self.now) }
        ensures others { without_all (due tick self.now) self.now ≡ later tick self.now }
    {
        let by_number = due_by_number(alloc, &self.deadlines, tick)?;
        keys_of(alloc, &by_number)
    }
}

fn keys_of(alloc: Global, by_number: &BTreeMap<u64, Key>) -> Result<Vec<Key>, AllocError>
    ensures { IfOk result (λ keys. keys.items ≡ values_of by_number.now.entries) }
{
    by_number.values().copied().collect(alloc)
}

// The keys with a deadline of at most `tick`, by number. What is due later is not looked at.
fn due_by_number(
    alloc: Global,
    deadlines: &BTreeMap<(u64, u64), Key>,
    tick: u64,
) -> Result<BTreeMap<u64, Key>, AllocError>
    ensures made { IfOk result (λ found.
        IsFromIterResult nat_cmp (map by_number (until tick deadlines.now.entries)) found) }
    ensures until { AreUntil tick deadlines.now }
{
    deadlines
        .range(..=(tick, u64::MAX))
        .map(|((_, number), key)| (*number, *key))
        .collect(alloc)
}

// The number of the next request, which is the first one where nothing waits.
fn number_after(requests: &BTreeMap<u64, (Key, u64)>, next: u64) -> u64
    requires rise { Rise 0 requests.now.entries next }
    ensures rise { Rise 0 requests.now.entries result }
    ensures low { result ≤ next }
    ensures first { requests.now.entries ≡ [] → result ≡ 0 }
{
    if requests.is_empty() { 0 } else { next }
}

// Room for one more key, so that putting it cannot be refused.
fn room(numbers: &mut HashMap<Key, u64>) -> Result<(), AllocError>
    ensures same { (k : Key) → get key_eq numbers.new k ≡ get key_eq numbers.old k }
    ensures room { OnOk result (0 < spare numbers.new) }
{
    numbers.reserve(1)?;
    Ok(())
}

//! A sink that gives the response of each transaction.

ghost use Rattle.std.specs.Prelude.{◌≡◌, ◌⊎◌, ◌∷◌, [], OnErr, OnOk, false, true, is_some, map, List, ℕ};
ghost use Rattle.std.specs.Io.KnownBytes.{Appends};
ghost use Rattle.cli_io.specs.Written.{AppendsBeginning};
ghost use Rattle.sw_context.specs.Pairs.{Pairs};
ghost use Rattle.sw_frame.specs.Stream.{AreFramed};
ghost use Rattle.run_responses.specs.Giving.{AreFound, Gives, giving_of};
ghost use Rattle.run_responses.specs.Responses.{above, responses};

use crate::error::ResponseError;
use crate::given::add_frame;
use crate::open::OpenIds;
use cli_io::write_out;
use run_watch::Watch;
use std::alloc::Global;
use std::collections::BTreeMap;
use std::io::Write;
use std::ops::Bound;
use std::sync::{Mutex, Wait};
use sw_context::Context;
use sw_participant::NoMemory;
use tx_history::Entry;
use tx_pool::Sink;

/// The order in which responses leave.
#[derive(Clone, Copy, Debug, PartialEq, Eq)]
pub enum ResponseOrder {
    /// By the ids of their transactions: a response is held back while an earlier transaction is under way.
    ById,
    /// As their transactions end.
    ByEnd,
}

/// What a sink of responses keeps from one transaction to the next.
pub struct Progress {
    pub(crate) order: ResponseOrder,
    /// The transactions whose responses are held back.
    pub(crate) held: BTreeMap<u64, Context>,
    /// The ids of the transactions whose responses were given, or that had none.
    pub(crate) given: Vec<u64>,
    pub(crate) fault: Option<ResponseError>,
    alloc: Global,
    open: Mutex<OpenIds>,
}

// Written out, so that no caller proves again how its parts are dropped.
impl Drop for Progress {
    fn drop(self) {
        let Progress {
            order: _,
            held: _,
            given: _,
            fault: _,
            alloc: _,
            open: _,
        } = self;
    }
}

/// Writes the responses of the transactions of a leg, each as soon as its order allows it. (What it keeps is a
/// type parameter, so that a caller knows what its output holds when it is dropped.)
pub struct Responses<'a, O: Write, T, K = Progress> {
    pub(crate) out: &'a mut O,
    rt: &'a T,
    watch: &'a Watch,
    pub(crate) kept: K,
}

impl<'a, O: Write, T> Responses<'a, O, T> {
    /// A sink for one leg, to this output.
    pub fn begin(
        rt: &'a T,
        alloc: Global,
        out: &'a mut O,
        order: ResponseOrder,
        watch: &'a Watch,
    ) -> Responses<'a, O, T>
        ensures same { result.out.ghost_name ≡ out.entry.ghost_name }
        ensures fresh { giving_of O.contents result ≡ record {
          order = order;
          out = O.contents out.old;
          held = [];
          given = [];
          failed = false;
        } }
    {
        let kept = Progress {
            order,
            held: BTreeMap::new(alloc),
            given: Vec::new(alloc),
            fault: None,
            alloc,
            open: Mutex::new(OpenIds::new(alloc)),
        };
        Responses {
            out,
            rt,
            watch,
            kept,
        }
    }

    // Gives the response of a transaction, if it has one.
    fn give(&mut self, id: u64, context: &Context)
        requires open { (giving_of O.contents self.old).failed ≡ false }
        ensures same { self.new.out.ghost_name ≡ self.old.out.ghost_name }
        ensures gives { Gives (giving_of O.contents self.old) ((id, context.now) ∷ [])
            (giving_of O.contents self.new) }
    {
        if self.kept.given.push(id).is_err() {
            self.kept.fault = Some(ResponseError::OutOfMemory);
            return;
        }
        if let Err(error) = write_response(self.kept.alloc, self.out, id, context) {
            self.kept.fault = Some(error);
        }
    }

    // Gives the responses that are held back of transactions with ids below this one, ids rising, or all of them.
    fn release(&mut self, below: Option<u64>)
        requires open { (giving_of O.contents self.old).failed ≡ false }
        requires order { self.old.kept.order ≡ ResponseOrder.ById }
        ensures same { self.new.out.ghost_name ≡ self.old.out.ghost_name }
        ensures gives { Gives (giving_of O.contents self.old) [] (giving_of O.contents self.new) }
    {
        for _ in 0..self.kept.held.len() {
            if self.kept.fault.is_some() || !has_below(&self.kept.held, below) {
                return;
            }
            let Some((id, context)) = self.kept.held.pop_first() else {
                return;
            };
            self.give(id, &context);
        }
    }

    // Holds the response of a transaction back, and gives those of transactions with ids below this one, or all.
    fn hold(&mut self, id: u64, context: &Context, below: Option<u64>)
        requires open { (giving_of O.contents self.old).failed ≡ false }
        requires order { self.old.kept.order ≡ ResponseOrder.ById }
        ensures same { self.new.out.ghost_name ≡ self.old.out.ghost_name }
        ensures gives { Gives (giving_of O.contents self.old) ((id, context.now) ∷ [])
            (giving_of O.contents self.new) }
    {
        let Ok(copy) = context.copy() else {
            self.kept.fault = Some(ResponseError::OutOfMemory);
            return;
        };
        if self.kept.held.insert(id, copy).is_err() {
            self.kept.fault = Some(ResponseError::OutOfMemory);
            return;
        }
        self.release(below);
    }

    // Gives the response of a transaction before which none has to leave, and then those with ids below this one, or all.
    fn give_next(&mut self, id: u64, context: &Context, below: Option<u64>)
        requires open { (giving_of O.contents self.old).failed ≡ false }
        requires order { self.old.kept.order ≡ ResponseOrder.ById }
        ensures same { self.new.out.ghost_name ≡ self.old.out.ghost_name }
        ensures gives { Gives (giving_of O.contents self.old) ((id, context.now) ∷ [])
            (giving_of O.contents self.new) }
    {
        self.give(id, context);
        if self.kept.fault.is_some() {
            return;
        }
        self.release(below);
    }

    /// Gives all responses that are still held back, ids rising. After a fault it does nothing.
    pub fn flush(&mut self)
        ensures same { self.new.out.ghost_name ≡ self.old.out.ghost_name }
        ensures gives { (giving_of O.contents self.old).failed ≡ false
            → Gives (giving_of O.contents self.old) [] (giving_of O.contents self.new) }
        ensures kept { (giving_of O.contents self.old).failed ≡ true
            → giving_of O.contents self.new ≡ giving_of O.contents self.old }
    {
        if self.kept.fault.is_some() {
            return;
        }
        match self.kept.order {
            ResponseOrder::ById => self.release(None),
            ResponseOrder::ByEnd => {}
        }
    }

    /// In which order responses leave.
    pub fn order(&self) -> ResponseOrder
        ensures { result ≡ (giving_of O.contents self.now).order }
    {
        self.kept.order
    }

    /// The ids of the transactions whose responses were given, in the order in which they were.
    pub fn given(&self) -> &[u64]
        ensures { result.now ≡ (giving_of O.contents self.now).given }
    {
        self.kept.given.as_slice()
    }

    /// The fault that it met, if any. It has none afterwards.
    pub fn take_fault(&mut self) -> Option<ResponseError>
        ensures same { self.new.out.ghost_name ≡ self.old.out.ghost_name }
        ensures out { self.new.out.now ≡ self.old.out.now }
        ensures fault { is_some result ≡ (giving_of O.contents self.old).failed }
        ensures given { (giving_of O.contents self.new).given
            ≡ (giving_of O.contents self.old).given }
    {
        self.kept.fault.take()
    }
}

impl<'a, O: Write, T, K: Drop> Drop for Responses<'a, O, T, K> {
    fn drop(self)
        ensures { self.exit.0.now ≡ self.entry.out.now }
    {
        let Responses {
            out: _,
            rt: _,
            watch: _,
            kept: _,
        } = self;
    }
}

impl<'a, O: Write, T: Wait> Sink for Responses<'a, O, T> {
    ghost use Rattle.std.specs.Prelude.{◌≡◌};
    ghost use Rattle.run_responses.specs.Giving.{TakesOne, giving_of};

    ghost takes = { λ z id x y. (y.out.ghost_name ≡ z.out.ghost_name)
        × TakesOne (giving_of O.contents z) id x (giving_of O.contents y) };

    fn take(&mut self, id: u64, context: &Context) -> Result<(), NoMemory> {
        if self.kept.fault.is_some() {
            return Ok(());
        }
        match self.kept.order {
            ResponseOrder::ByEnd => self.give(id, context),
            ResponseOrder::ById => {
                let below = self.kept.open.lock(self.rt).end(id);
                if is_next(&self.kept.held, id, below) {
                    self.give_next(id, context, below);
                } else {
                    self.hold(id, context, below);
                }
            }
        }
        if self.kept.fault.is_some() {
            self.watch.stop();
        }
        Ok(())
    }

    fn written(&self, entries: &[Entry]) {
        let ended = self.kept.open.lock(self.rt).note_all(entries);
        self.watch.wrote(entries.len(), ended);
    }

    fn over(&self) {
        self.watch.stop();
    }
}

// Whether the first of them has an id below this one, if one is given.
fn has_below(held: &BTreeMap<u64, Context>, below: Option<u64>) -> bool {
    match (held.first_key_value(), below) {
        (Some((id, _)), Some(below)) => *id < below,
        (Some(_), None) => true,
        (None, _) => false,
    }
}

// Whether no response has to leave before that of this transaction: no earlier one is held back or under way.
fn is_next(held: &BTreeMap<u64, Context>, id: u64, below: Option<u64>) -> bool {
    match below {
        Some(below) if below <= id => false,
        _ => !has_below(held, Some(id)),
    }
}

// Writes the frame of a transaction's response, if it has one.
fn write_response<O: Write>(
    alloc: Global,
    out: &mut O,
    id: u64,
    context: &Context,
) -> Result<(), ResponseError>
    ensures all { OnOk result ((text : List ℕ)
        × AreFramed text (responses ((id, context.now) ∷ []))
        × Appends (O.contents out.old) (O.contents out.new) text) }
    ensures some { OnErr result ((list : List (ℕ × Pairs)) × (text : List ℕ)
        × ((list ≡ []) ⊎ (list ≡ (id, context.now) ∷ []))
        × AreFramed text (responses list)
        × AppendsBeginning (O.contents out.old) (O.contents out.new) text) }
{
    let mut text = Vec::new(alloc);
    add_frame(alloc, &mut text, id, context)?;
    Ok(write_out(out, &text)?)
}

/// Whether these are the ids of the transactions that ended, above this id, ids rising.
pub fn are_given(ended: &BTreeMap<u64, Context>, last: u64, given: &[u64]) -> bool
    ensures { result ≡ true → (list : List (ℕ × Pairs)) → map (λ e. e.0) list ≡ given.now
        → AreFound ended.now.entries list → list ≡ above last ended.now.entries }
{
    let mut count: usize = 0;
    for (id, _) in ended.range((Bound::Excluded(last), Bound::Unbounded)) {
        match given.get(count) {
            Some(given) if *given == *id => count += 1,
            _ => return false,
        }
    }
    count == given.len()
}

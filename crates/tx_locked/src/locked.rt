//! What is under the engine's lock.

ghost use Rattle.std.specs.Prelude.{All, ◌≡◌, ◌+◌, ◌≤◌, ◌<◌, ℕ, [], ◌∷◌, length, map, IfOk, OnErr};
ghost use Rattle.sw_context.specs.Pairs.{Pairs};
ghost use Rattle.sw_participant.specs.Chains.{Began};
ghost use Rattle.journal_tables.specs.Small.{IsEntrySmall};
ghost use Rattle.tx_plant.specs.Turns.{Taken};
ghost use Rattle.tx_plant.specs.Plant.{IsEngine};
ghost use Rattle.tx_plant.specs.Wholes.{core_in, engine_in};
ghost use Rattle.tx_locked.specs.Since.{Since, locked_seen};
ghost use Rattle.tx_locked.specs.Finished.{AreKept, WereKept};

use crate::copies::copies;
use crate::fault::Fault;
use crate::finished::Finished;
use crate::run::Run;
use crate::session::{Plan, Session};
use crate::station::MadeCall;
use std::alloc::{AllocError, Global};
use std::marker::{Model, PhantomData};
use std::sync::Wait;
use std::sync::ledger::Book;
use sw_context::Context;
use sw_participant::{Call, Reply};
use tx_engine::Next;
use tx_history::{Entry, Event};
use tx_intake::{OfferGetter, OfferIntake};
use tx_plant::{Outcome, Running};

/// The intake of a run.
#[derive(Drop)]
pub struct RunIntake<K: Run> {
    pub intake: OfferIntake,
    pub of: PhantomData<K>,
    pub ghost own: { intake.id ≡ K.intake },
}

/// The engine with the live contexts, the intake's getter, the ledger's book, and the calls whose
/// replies are entries of the run.
#[derive(Drop)]
pub struct Locked<K: Run> {
    running: Running,
    getter: OfferGetter,
    book: Book<K>,
    made: Vec<MadeCall>,
    // The numbers of the entries of these calls.
    numbers: Vec<usize>,
    // How many sessions have left.
    left: usize,
    // Whether the source has ended, and all that it gave was put into the intake.
    fed: bool,
    // Whether no call was due when the last write ended, so that calls take less time than a write.
    is_quick: bool,
    // Whether the keeper waits until no call is due.
    gathers: bool,
    fault: Option<Fault>,
}

impl<K: Run> Model for Locked<K> {
    ghost use Rattle.std.specs.Prelude.{◌≡◌};
    ghost use Rattle.tx_plant.specs.Wholes.{core_in};
    ghost use Rattle.tx_locked.specs.Since.{Since, LockedSeen, locked_seen};

    ghost Value = { LockedSeen };

    ghost view = { λ l. locked_seen (core_in l.running)
        l.getter.passed l.book.total l.made.items };

    ghost invariant = { λ l. Since K.start (core_in l.running)
        l.getter.passed l.book.total l.made.items × (l.getter.intake ≡ K.intake) };
}

// The session takes the queue's first context.
fn take(running: &mut Running, alloc: Global, session: usize) -> Result<usize, Fault>
    ensures taken { IfOk result (λ n. (id : ℕ) × (x : Pairs)
        × Taken (core_in running.old) session n (Began id x ∷ [])
        (core_in running.new)) }
    ensures kept { OnErr result (core_in running.new
        ≡ core_in running.old) }
    ensures engine { IsEngine (engine_in running.new) }
{
    let taken = running.take(alloc, session);
    running.engine_is_sound();
    match taken {
        Ok(Outcome::Accepted(number)) => Ok(number),
        Ok(Outcome::Refused(error)) => Err(Fault::of_engine(error)),
        Ok(_) => Err(mismatch(running)),
        Err(AllocError) => Err(Fault::OutOfMemory),
    }
}

// The fault of a run that contradicts its history: the number is the one after its last entry.
fn mismatch(running: &Running) -> Fault {
    Fault::ReceiptMismatch(running.engine().history().len().saturating_add(1))
}

// The transactions of these ids, with copies of the contexts that they ended with.
fn finished(alloc: Global, running: &Running, ids: &[u64]) -> Result<Vec<Finished>, Fault>
    ensures ids { IfOk result (λ list. map (λ f. f.id) list.items ≡ ids.now) }
    ensures kept { IfOk result (λ list. AreKept (core_in running.now) list.items) }
{
    let Ok(list) = Vec::with_capacity(alloc, ids.len()) else {
        return Err(Fault::OutOfMemory);
    };
    let mut list = list;
    for id in ids {
        let Some(context) = running.ended(*id) else {
            return Err(mismatch(running));
        };
        let Ok(context) = context.copy() else {
            return Err(Fault::OutOfMemory);
        };
        list.push_reserved(Finished { id: *id, context });
    }
    Ok(list)
}

impl<K: Run> Locked<K> {
    /// What is under the lock when the run begins.
    pub fn new(alloc: Global, running: Running, getter: OfferGetter, book: Book<K>) -> Locked<K>
        requires start { core_in running ≡ K.start }
        requires queue { getter.intake ≡ K.intake }
        requires got { getter.passed ≡ [] }
        requires book { book.total ≡ 0 }
    {
        Locked {
            running,
            getter,
            book,
            made: Vec::new(alloc),
            numbers: Vec::new(alloc),
            left: 0,
            fed: false,
            is_quick: false,
            gathers: false,
            fault: None,
        }
    }

    /// Its parts, when the run has ended.
    pub fn into_parts(self) -> Left<K>
        ensures since { Since K.start (core_in result.running)
            result.getter.passed result.book.total result.made.items }
        ensures queue { result.getter.intake ≡ K.intake }
    {
        let Locked {
            running,
            getter,
            book,
            made,
            numbers,
            left: _,
            fed: _,
            is_quick: _,
            gathers: _,
            fault,
        } = self;
        Left {
            running,
            getter,
            book,
            made,
            numbers,
            fault,
        }
    }

    /// What a session does next, with at most one event.
    pub fn plan<R: Wait>(
        &mut self,
        rt: &R,
        alloc: Global,
        intake: &RunIntake<K>,
        session: &mut Session<K>,
    ) -> Plan {
        if self.fault.is_some() {
            return self.leave();
        }
        match self.running.engine().next(session.index) {
            Ok(Next::Due(call)) => self.lend(session, call),
            Ok(Next::Unwritten) => Plan::AwaitWrite,
            Ok(Next::Held(_)) => self.contradict(),
            Err(error) => self.stop(Fault::of_engine(error)),
            Ok(Next::Idle) => {
                if self.running.engine().queued() > 0 {
                    self.take(alloc, session)
                } else {
                    self.admit(rt, intake)
                }
            }
        }
    }

    // The session ends.
    fn leave(&mut self) -> Plan {
        self.left = self.left.saturating_add(1);
        Plan::Leave
    }

    // The due call, with a copy of its transaction's context.
    fn lend(&mut self, session: &Session<K>, call: Call) -> Plan {
        let Some(context) = self.running.context(session.index) else {
            return self.contradict();
        };
        match context.copy() {
            Ok(context) => Plan::Make(call, context),
            Err(AllocError) => self.stop(Fault::OutOfMemory),
        }
    }

    // The session takes the first context that waits.
    fn take(&mut self, alloc: Global, session: &mut Session<K>) -> Plan {
        if session.receipts.reserve(1).is_err() {
            return self.stop(Fault::OutOfMemory);
        }
        match take(&mut self.running, alloc, session.index) {
            Ok(number) => {
                self.book.add(&mut session.share, 1);
                session.receipts.push_reserved(number);
                Plan::Again
            }
            Err(fault) => self.stop(fault),
        }
    }

    // Offers a context from the intake. If there is none, and none will come, the session leaves.
    fn admit<R: Wait>(&mut self, rt: &R, intake: &RunIntake<K>) -> Plan {
        if let Err(error) = self.running.reserve_offer() {
            return self.stop(Fault::of_engine(error));
        }
        // The source's end is noted only after all was put: so if it is seen here and nothing is got
        // below, nothing will come.
        let fed = self.fed;
        match intake.intake.get(rt, &mut self.getter) {
            Some(offer) => {
                let _ = self.running.offer_reserved(offer);
                self.running.engine_is_sound();
                Plan::Admitted
            }
            None => {
                self.running.unreserve_offer();
                if fed { self.leave() } else { Plan::AwaitOffer }
            }
        }
    }

    /// Records the reply to the call, which left this context, if the call is due.
    pub fn record(
        &mut self,
        alloc: Global,
        session: &mut Session<K>,
        call: &Call,
        reply: Reply,
        after: Context,
    ) -> Plan {
        if session.receipts.reserve(1).is_err() {
            return self.stop(Fault::OutOfMemory);
        }
        if self.made.reserve(1).is_err() {
            return self.stop(Fault::OutOfMemory);
        }
        if self.numbers.reserve(1).is_err() {
            return self.stop(Fault::OutOfMemory);
        }
        let Ok(left) = after.copy() else {
            return self.stop(Fault::OutOfMemory);
        };
        match self
            .running
            .enter(alloc, session.index, call, &reply, after)
        {
            Ok((number, before)) => {
                self.running.engine_is_sound();
                self.book.add(&mut session.share, 1);
                self.made.push_reserved(MadeCall {
                    call: *call,
                    reply,
                    before,
                    after: left,
                });
                self.numbers.push_reserved(number);
                session.receipts.push_reserved(number);
                Plan::Again
            }
            Err(error) => self.stop(Fault::of_engine(error)),
        }
    }

    /// Whether the session waits until its last entry is written.
    pub fn awaits_write(&self, session: &Session<K>) -> bool {
        self.fault.is_none()
            && matches!(
                self.running.engine().next(session.index),
                Ok(Next::Unwritten)
            )
    }

    /// Gives the run up, since it contradicts its history.
    pub fn contradict(&mut self) -> Plan {
        let fault = mismatch(&self.running);
        self.stop(fault)
    }

    /// Gives the run up. The first fault is the one that is kept.
    pub fn stop(&mut self, fault: Fault) -> Plan {
        if self.fault.is_none() {
            self.fault = Some(fault);
        }
        Plan::Again
    }

    /// Notes that the source has ended, and that all that it gave was put into the intake.
    pub fn end(&mut self) {
        self.fed = true;
    }

    /// Whether the run was given up.
    pub fn is_stopped(&self) -> bool {
        self.fault.is_some()
    }

    // Whether all sessions have left.
    fn is_left(&self) -> bool {
        self.left >= self.running.engine().sessions()
    }

    /// Whether all sessions have left, and all is written.
    pub fn is_over(&self) -> bool {
        self.is_left() && self.running.unwritten().is_empty()
    }

    /// Whether the keeper has nothing to do: the run was not given up, it goes on, and it is not time to
    /// write anything.
    pub fn is_quiet(&self) -> bool {
        if self.fault.is_some() {
            return false;
        }
        if self.is_left() {
            return false;
        }
        !self.is_ripe()
    }

    /// Whether there is an entry to write that is not an offer's. (No session waits for an offer's: it is
    /// written with those that follow.)
    pub fn is_ripe(&self) -> bool {
        for entry in self.running.unwritten() {
            if !matches!(&entry.event, Event::Offered { .. }) {
                return true;
            }
        }
        false
    }

    /// Whether the keeper is to wait for calls: these take less time than a write, and one is due.
    pub fn gather(&mut self) -> bool {
        self.gathers = self.is_quick && self.is_called();
        self.gathers
    }

    /// Whether the keeper waited for calls, and none is due any more. Then it waits no longer.
    pub fn has_gathered(&mut self) -> bool {
        if !self.gathers || self.is_called() {
            return false;
        }
        self.gathers = false;
        true
    }

    // Whether a call is due to a session: it is being made, or will be.
    fn is_called(&self) -> bool {
        let engine = self.running.engine();
        for session in 0..engine.sessions() {
            if matches!(engine.next(session), Ok(Next::Due(_))) {
                return true;
            }
        }
        false
    }

    /// Copies of the entries above the mark.
    pub fn unwritten(&self, alloc: Global) -> Result<Vec<Entry>, AllocError>
        ensures small { IfOk result (λ late. All IsEntrySmall late.items) }
    {
        copies(alloc, self.running.unwritten())
    }

    /// The transactions of these ids, with copies of the contexts that they ended with. The fault is out of
    /// memory, or that one of them has not ended.
    pub fn finished(&self, alloc: Global, ids: &[u64]) -> Result<Vec<Finished>, Fault>
        ensures ids { IfOk result (λ list. map (λ f. f.id) list.items ≡ ids.now) }
        ensures kept { IfOk result (λ list. WereKept K.start list.items) }
    {
        finished(alloc, &self.running, ids)
    }

    /// Moves the mark over this many entries, which were written.
    pub fn wrote(&mut self, count: usize) {
        if count == 0 {
            return;
        }
        self.is_quick = !self.is_called();
        if self.running.wrote(count) {
            self.running.engine_is_sound();
        } else {
            let _ = self.contradict();
        }
    }
}

/// What is left under the lock when the run has ended.
#[derive(Drop)]
pub struct Left<K: Run> {
    pub running: Running,
    pub getter: OfferGetter,
    pub book: Book<K>,
    pub made: Vec<MadeCall>,
    pub numbers: Vec<usize>,
    pub fault: Option<Fault>,
}

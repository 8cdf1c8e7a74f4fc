//! One leg: a run of all sessions that goes on while requests come, and gives each response as its transaction ends.

ghost use Rattle.std.specs.Prelude.{◌≡◌, [], List, ℕ, IfOk, IfSome, OnErr, OnOk, MatchResult};
ghost use Rattle.std.specs.Prelude.{map, is_some, true, false, Ok, Some};
ghost use Rattle.sw_context.specs.Pairs.{Pairs};
ghost use Rattle.run_input.specs.Arrivals.{CameSince, IfLast, requests_of};
ghost use Rattle.run_responses.specs.Giving.{AreFound, giving_of};
ghost use Rattle.run_responses.specs.declared.sink.ResponseOrder.TheVariants.{ById};
ghost use Rattle.run_switch.specs.Led.{Led};
ghost use Rattle.run_switch.specs.Points.{IsAtRest, IsReady, RestsGiven, all_answered, ended_at};
ghost use Rattle.run_switch.specs.Points.{point_of, unanswered};
ghost use Rattle.run_switch.specs.Rounds.{returning};
ghost use Rattle.run_switch.specs.Stopped.{GivesEnded, HaltsHeard, HaltsThen};
ghost use Rattle.run_switch.specs.Traces.{Answered, Finishes, log_of};

use crate::edge::Edge;
use crate::error::ServeError;
use crate::passing::pass_over;
use crate::switch::Switch;
use run_input::{Arrivals, Heard, Input, Leg, LegLimits, LegSource, PassedOver};
use run_responses::{ResponseOrder, Responses};
use run_watch::Watch;
use sqlite::Alter;
use std::alloc::Global;
use std::io::Write;
use std::marker::Brand;
use std::sync::Wait;
use std::thread::Threads;
use std::time::Clock;
use tx_pool::Streams;

/// How a leg is run.
#[derive(Clone, Copy)]
pub(crate) struct LegPlan<'a> {
    /// The order in which its responses leave.
    pub(crate) order: ResponseOrder,
    /// Whether a request may wait for a host.
    pub(crate) asks_hosts: bool,
    /// When it ends though requests come.
    pub(crate) limits: LegLimits,
    pub(crate) watch: &'a Watch,
}

// What a leg left: the switch and its source, or why it did not end well.
type LegEnd<'a, S, B, L, T> = Result<(Switch<S>, LegSource<'a, B, L, T>), ServeError>;

// Refuses a fault that the sink met. Where the order of ids is wanted, the ids of the transactions whose responses were
// given are compared with those that ended.
fn check_given<S: Alter, O: Write, T>(
    switch: &Switch<S>,
    sink: &mut Responses<'_, O, T>,
) -> Result<(), ServeError>
    ensures same { sink.new.out.ghost_name ≡ sink.old.out.ghost_name }
    ensures out { sink.new.out.now ≡ sink.old.out.now }
    ensures whole { OnOk result ((giving_of O.contents sink.old).failed ≡ false) }
    ensures given { OnOk result ((giving_of O.contents sink.old).order ≡ ById
        → (list : List (ℕ × Pairs))
        → map (λ e. e.0) list ≡ (giving_of O.contents sink.old).given
        → AreFound (ended_at (point_of S.Store switch.now)) list
        → list ≡ unanswered (point_of S.Store switch.now)) }
{
    let order = sink.order();
    if let Some(fault) = sink.take_fault() {
        return Err(ServeError::from(fault));
    }
    match order {
        ResponseOrder::ByEnd => Ok(()),
        ResponseOrder::ById => {
            if switch.has_given(sink.given()) {
                Ok(())
            } else {
                Err(ServeError::OtherResponses)
            }
        }
    }
}

// (Apart, so that no caller proves again how what was noted before is dropped.)
fn note<E: Drop>(noted: &mut Option<E>, end: E)
    ensures { noted.new ≡ Some end }
{
    *noted = Some(end);
}

// What a leg left whose responses were checked.
fn end_of<'a, S: Alter + Drop, B: Input, L: Leg, T>(
    switch: Switch<S>,
    source: LegSource<'a, B, L, T>,
    checked: Result<(), ServeError>,
) -> LegEnd<'a, S, B, L, T>
    ensures switch { IfOk result (λ done. point_of S.Store done.0 ≡ point_of S.Store switch) }
    ensures source { IfOk result (λ done. done.1.got ≡ source.entry.got) }
    ensures checked { OnOk result (checked ≡ Ok tt) }
{
    match checked {
        Ok(()) => Ok((switch, source)),
        Err(error) => Err(error),
    }
}

// Runs a leg, and notes what it left. (The sink is the whole result, so that a caller knows what its output holds.)
fn note_leg<
    'a,
    's,
    S: Alter + Drop,
    B: Input + Send + Sync,
    L: Leg + Send,
    T: Threads + Wait + Clock + Sync,
    O: Write,
>(
    rt: &T,
    alloc: Global,
    switch: Switch<S>,
    source: LegSource<'a, B, L, T>,
    sink: Responses<'s, O, T>,
    led: &mut Option<LegEnd<'a, S, B, L, T>>,
) -> Responses<'s, O, T>
    requires rest { IsAtRest (point_of S.Store switch) }
    requires held { (giving_of O.contents sink).held ≡ [] }
    requires given { (giving_of O.contents sink).given ≡ [] }
    requires whole { (giving_of O.contents sink).failed ≡ false }
    ensures same { result.out.ghost_name ≡ sink.entry.out.ghost_name }
    ensures some { is_some led.new ≡ true }
    ensures led { IfSome led.new (λ end. MatchResult end
        (λ done. Led sink.entry.kept.order (requests_of source.entry.got) (requests_of done.1.got)
        (point_of S.Store switch) (point_of S.Store done.0)
        (O.contents sink.entry.out.now) (O.contents result.out.now))
        (λ _. GivesEnded (point_of S.Store switch)
        (O.contents sink.entry.out.now) (O.contents result.out.now))) }
{
    match switch.run_leg(rt, alloc, Streams { source, sink }) {
        Ok((switch, streams)) => {
            let (source, mut sink) = streams.into_parts();
            sink.flush();
            let checked = check_given(&switch, &mut sink);
            note(led, end_of(switch, source, checked));
            sink
        }
        Err((error, mut sink)) => {
            sink.flush();
            note(led, Err(error));
            sink
        }
    }
}

// Runs a leg over what comes of an input, and gives its responses.
fn lead_leg<
    'a,
    S: Alter + Drop,
    B: Input + Send + Sync,
    L: Leg + Send,
    T: Threads + Wait + Clock + Sync,
    O: Write,
>(
    rt: &'a T,
    alloc: Global,
    switch: Switch<S>,
    arrivals: Arrivals<'a, B, T>,
    plan: LegPlan<'_>,
    out: &mut O,
) -> Result<(Switch<S>, Heard<'a, B, T>), ServeError>
    requires before { arrivals ≡ L.before }
    requires rest { IsAtRest (point_of S.Store switch) }
    ensures led { IfOk result (λ done. Led plan.entry.order
        (requests_of arrivals.entry) (requests_of done.1.arrivals)
        (point_of S.Store switch) (point_of S.Store done.0)
        (O.contents out.old) (O.contents out.new)) }
    ensures came { IfOk result (λ done.
        CameSince arrivals.entry done.1.arrivals done.1.passed.items) }
    ensures end { IfOk result (λ done. IfLast done.1.end done.1.arrivals) }
    ensures some { OnErr result (GivesEnded (point_of S.Store switch)
        (O.contents out.old) (O.contents out.new)) }
{
    let source = LegSource::<B, L, T>::begin(alloc, arrivals, plan.limits)?;
    let sink = Responses::begin(rt, alloc, out, plan.order, plan.watch);
    let mut led = None;
    let _given = note_leg(rt, alloc, switch, source, sink, &mut led);
    match led {
        Some(Ok((switch, source))) => Ok((switch, source.finish())),
        Some(Err(error)) => Err(error),
        None => unreachable!(),
    }
}

impl<S: Alter + Drop> Switch<S> {
    // Counts the responses of a leg, writes the lines of its messages that are passed over and gives their headers back, runs
    // what is on the shelf, and writes the lines of the trace.
    fn finish_leg<T: Clock, O: Write, E: Write>(
        &mut self,
        edge: &mut Edge<'_, T, E>,
        passed: &[PassedOver],
        out: &mut O,
    ) -> Result<(), ServeError>
        requires { RestsGiven (point_of S.Store self.old) }
        ensures finishes { OnOk result (Finishes (map (λ m. m.header.items) passed.now)
            (point_of S.Store self.old) (O.contents out.old) (log_of E.contents edge.old.stderr)
            (point_of S.Store self.new) (O.contents out.new) (log_of E.contents edge.new.stderr)) }
        ensures ready { OnOk result (IsReady (point_of S.Store self.new)) }
        ensures halts { OnErr result (HaltsThen (returning (map (λ m. m.header.items) passed.now))
            (all_answered (point_of S.Store self.old))
            (O.contents out.old) (O.contents out.new)) }
    {
        self.note_given(edge.alloc)?;
        pass_over(edge, passed, out)?;
        self.drain(edge, out)?;
        self.cut_traced(edge)
    }
}

/// Runs a leg over what comes of an input, and what comes after it. If that ends with an error, the lines of the history are
/// written all the same, unless the leg was given up.
pub(crate) fn answer_leg<
    'a,
    S: Alter + Drop,
    B: Input + Send + Sync,
    T: Threads + Wait + Clock + Sync,
    O: Write,
    E: Write,
>(
    edge: &mut Edge<'a, T, E>,
    switch: Switch<S>,
    arrivals: Arrivals<'a, B, T>,
    plan: LegPlan<'_>,
    out: &mut O,
) -> Result<(Switch<S>, Heard<'a, B, T>), ServeError>
    requires ready { IsReady (point_of S.Store switch) }
    ensures answered { IfOk result (λ done. Answered plan.entry.order
        arrivals.entry (point_of S.Store switch) (O.contents out.old)
        (log_of E.contents edge.old.stderr)
        done.1.arrivals (point_of S.Store done.0) (O.contents out.new)
        (log_of E.contents edge.new.stderr)) }
    ensures ready { IfOk result (λ done. IsReady (point_of S.Store done.0)) }
    ensures end { IfOk result (λ done. IfLast done.1.end done.1.arrivals) }
    ensures halts { OnErr result (HaltsHeard B.header plan.entry.order B.input
        arrivals.entry
        (point_of S.Store switch) (O.contents out.old) (O.contents out.new)) }
{
    arrivals.has_come();
    edge.stderr.begin();
    let before = switch.answered.counts.requests();
    let led = lead_leg::<S, B, Brand, T, O>(edge.rt, edge.alloc, switch, arrivals, plan, out)?;
    let (mut switch, heard) = led;
    heard.arrivals.has_come();
    match switch.finish_leg(edge, &heard.passed, out) {
        Ok(()) => {
            switch.show_since(edge, before);
            Ok((switch, heard))
        }
        Err(error) => {
            let _lines = edge.stderr.trace(edge.alloc, switch.engine());
            Err(error)
        }
    }
}

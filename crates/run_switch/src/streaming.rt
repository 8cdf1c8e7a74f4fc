//! Requests answered as they come: in legs, or in turn where one comes alone.

ghost use Rattle.std.specs.Prelude.{◌≡◌, ℕ, List, IfOk, OnErr, Some};
ghost use Rattle.sw_issuers.specs.Sending.{SendsAdvice};
ghost use Rattle.run_input.specs.Requests.{ReadTo};
ghost use Rattle.run_switch.specs.Legs.{AdvancesFor, stage};
ghost use Rattle.run_input.specs.Arrivals.{IfLast};
ghost use Rattle.run_switch.specs.Points.{IsReady, point_of};
ghost use Rattle.run_switch.specs.Stopped.{HaltsHeard, StopsWithin};
ghost use Rattle.run_switch.specs.Traces.{Answered, log_of};

use crate::advices::{Advisor, send_between};
use crate::alone::answer_alone;
use crate::edge::Edge;
use crate::error::ServeError;
use crate::leg::{LegPlan, answer_leg};
use crate::switch::{MANY_ENTRIES, Switch};
use run_input::{Arrivals, Heard, Input, LegLimits, StreamEnd};
use run_responses::ResponseOrder;
use run_watch::Watch;
use sqlite::Alter;
use std::io::{Read, Write};
use std::sync::{Arc, Wait};
use std::thread::Threads;
use std::time::{Clock, Duration};
use sw_parts::Link;

/// How long a leg goes on at most where lines or advices are due, in milliseconds.
const LONGEST: u64 = 1_000;

// When the next leg ends though requests come: with its history, where the next line of numbers is due, with a message whose
// header is given back, and after some time where lines are wanted or advices may be sent.
fn limits_of<S: Alter, T: Clock, L: Link, E: Write>(
    edge: &Edge<'_, T, E>,
    switch: &Switch<S>,
    advisor: &Advisor<L>,
    header: usize,
) -> LegLimits {
    let is_timed = edge.stderr.is_live() || advisor.most() > 0;
    LegLimits {
        entries: MANY_ENTRIES as u64,
        requests: edge.stderr.requests_left(switch.answered.counts.requests()),
        // So its header is given back soon.
        passed: if header > 0 { 1 } else { usize::MAX },
        time: if is_timed {
            Some(Duration::from_millis(LONGEST))
        } else {
            None
        },
    }
}

/// The input of a run with threads, and how it is answered.
#[derive(Drop)]
pub(crate) struct Stream<R: Read> {
    pub(crate) input: R,
    /// How many bytes the header before each message of a frame has.
    pub(crate) header: usize,
    /// The order in which the responses of a leg leave.
    pub(crate) order: ResponseOrder,
    /// Whether a request may wait for a host. If not, one that comes alone is answered in turn: so it takes no longer than
    /// without threads. If so, it is answered in a leg, and others are answered while it waits.
    pub(crate) asks_hosts: bool,
}

// Answers what has come: in turn if it came alone and asks no host, otherwise in a leg.
fn answer_arrivals<
    'a,
    S: Alter + Drop,
    B: Input + Send + Sync,
    T: Threads + Wait + Clock + Sync,
    O: Write,
    E: Write,
>(
    edge: &mut Edge<'a, T, E>,
    switch: Switch<S>,
    arrivals: Arrivals<'a, B, T>,
    plan: LegPlan<'_>,
    out: &mut O,
) -> Result<(Switch<S>, Heard<'a, B, T>), ServeError>
    requires ready { IsReady (point_of S.Store switch) }
    ensures answered { IfOk result (λ done. Answered plan.entry.order
        arrivals.entry (point_of S.Store switch) (O.contents out.old)
        (log_of E.contents edge.old.stderr)
        done.1.arrivals (point_of S.Store done.0) (O.contents out.new)
        (log_of E.contents edge.new.stderr)) }
    ensures ready { IfOk result (λ done. IsReady (point_of S.Store done.0)) }
    ensures end { IfOk result (λ done. IfLast done.1.end done.1.arrivals) }
    ensures halts { OnErr result (HaltsHeard B.header plan.entry.order B.input
        arrivals.entry
        (point_of S.Store switch) (O.contents out.old) (O.contents out.new)) }
{
    if plan.asks_hosts || arrivals.waiting() > 1 {
        answer_leg(edge, switch, arrivals, plan, out)
    } else {
        answer_alone(edge, switch, arrivals, plan, out)
    }
}

/// Answers all requests of an input, in legs or in turn. Stored advices are sent between two legs.
pub(crate) fn answer_stream<
    S: Alter + Drop,
    T: Threads + Wait + Clock + Clone + Drop + Send + Sync + 'static,
    B: Input + Send + Sync + 'static,
    L: Link,
    R: Read + Drop + Send + 'static,
    O: Write,
    E: Write,
>(
    edge: &mut Edge<'_, T, E>,
    switch: Switch<S>,
    advisor: &mut Advisor<L>,
    stream: Stream<R>,
    out: &mut O,
) -> Result<(Switch<S>, StreamEnd), ServeError>
    requires ready { IsReady (point_of S.Store switch) }
    requires input { R.remaining stream.input ≡ B.input }
    requires header { stream.header ≡ B.header }
    ensures serves { IfOk result (λ served. (frames : List (List ℕ))
        × ReadTo served.1 B.input frames
        × AdvancesFor B.header (SendsAdvice L.sends L.receives L.starves (Unit {0})) (Some stream.order) frames
        (stage advisor.old (point_of S.Store switch) (O.contents out.old))
        (log_of E.contents edge.old.stderr)
        (stage advisor.new (point_of S.Store served.0) (O.contents out.new))
        (log_of E.contents edge.new.stderr)) }
    ensures ready { IfOk result (λ served. IsReady (point_of S.Store served.0)) }
    ensures stops { OnErr result (StopsWithin B.header
        (SendsAdvice L.sends L.receives L.starves (Unit {0})) (Some stream.order) B.input
        (stage advisor.old (point_of S.Store switch) (O.contents out.old))
        (O.contents out.new)) }
{
    let Stream {
        input,
        header,
        order,
        asks_hosts,
    } = stream;
    let watch = Arc::new(edge.alloc, Watch::new())?;
    let mut arrivals = Arrivals::<B, T>::open(edge.rt, edge.alloc, input, header, &watch)?;
    let mut switch = switch;
    for _ in edge.rt.forever() {
        arrivals.wait();
        let limits = limits_of(edge, &switch, advisor, header);
        let plan = LegPlan {
            order,
            asks_hosts,
            limits,
            watch: &watch,
        };
        let led = answer_arrivals(edge, switch, arrivals, plan, out)?;
        let (after, heard) = led;
        switch = after;
        let Heard {
            arrivals: got,
            passed: _,
            end,
        } = heard;
        arrivals = got;
        arrivals.has_come();
        match end {
            Some(Ok(end)) => return Ok((switch, end)),
            Some(Err(error)) => return Err(ServeError::from(error)),
            None => send_between(edge, &mut switch, advisor)?,
        }
    }
    unreachable!()
}

//! What comes alone, answered in turn between two legs.

ghost use Rattle.std.specs.Prelude.{◌++◌, IfOk, OnErr, OnOk, map, option_to_list};
ghost use Rattle.run_input.specs.Arrivals.{IfLast};
ghost use Rattle.run_switch.specs.Points.{IsReady, point_of};
ghost use Rattle.run_switch.specs.Rounds.{offering, returning};
ghost use Rattle.run_switch.specs.Stopped.{Halts, HaltsHeard, HaltsThen};
ghost use Rattle.run_switch.specs.Traces.{Answered, InTurn, Reports, log_of};

use crate::edge::Edge;
use crate::error::ServeError;
use crate::leg::LegPlan;
use crate::passing::pass_over;
use crate::switch::Switch;
use run_input::{Arrivals, Heard, Input, PassedOver};
use sqlite::Alter;
use std::io::Write;
use std::sync::Wait;
use std::time::Clock;
use sw_context::Context;

impl<S: Alter> Switch<S> {
    // Answers a request, if there is one.
    fn answer_if_any<T: Clock, O: Write, E: Write>(
        &mut self,
        edge: &mut Edge<'_, T, E>,
        request: Option<Context>,
        out: &mut O,
    ) -> Result<(), ServeError>
        requires ready { IsReady (point_of S.Store self.old) }
        ensures serves { OnOk result (Reports (offering (option_to_list request)) 0
            (point_of S.Store self.old) (O.contents out.old) (log_of E.contents edge.old.stderr)
            (point_of S.Store self.new) (O.contents out.new) (log_of E.contents edge.new.stderr)) }
        ensures halts { OnErr result (Halts (offering (option_to_list request))
            (point_of S.Store self.old) (O.contents out.old) (O.contents out.new)) }
        ensures ready { OnOk result (IsReady (point_of S.Store self.new)) }
    {
        match request {
            Some(request) => self.answer(edge, request, out),
            None => Ok(()),
        }
    }

    // Passes messages over, answers a request, if there is one, runs what is on the shelf, and writes the lines of the
    // trace: as after a leg.
    fn answer_one<T: Clock, O: Write, E: Write>(
        &mut self,
        edge: &mut Edge<'_, T, E>,
        request: Option<Context>,
        passed: &[PassedOver],
        out: &mut O,
    ) -> Result<(), ServeError>
        requires ready { IsReady (point_of S.Store self.old) }
        ensures answered { OnOk result (InTurn (option_to_list request)
            (map (λ m. m.header.items) passed.now)
            (point_of S.Store self.old) (O.contents out.old) (log_of E.contents edge.old.stderr)
            (point_of S.Store self.new) (O.contents out.new) (log_of E.contents edge.new.stderr)) }
        ensures ready { OnOk result (IsReady (point_of S.Store self.new)) }
        ensures halts { OnErr result (HaltsThen
            (returning (map (λ m. m.header.items) passed.now) ++ offering (option_to_list request))
            (point_of S.Store self.old) (O.contents out.old) (O.contents out.new)) }
    {
        pass_over(edge, passed, out)?;
        self.answer_if_any(edge, request, out)?;
        self.drain(edge, out)?;
        self.cut_traced(edge)
    }
}

/// Answers what came alone in this thread, so that it waits for no other, and then what is on the shelf. If that ends with an error,
/// the lines of the history are written all the same.
pub(crate) fn answer_alone<
    'a,
    S: Alter + Drop,
    B: Input + Send + Sync,
    T: Wait + Clock,
    O: Write,
    E: Write,
>(
    edge: &mut Edge<'a, T, E>,
    switch: Switch<S>,
    arrivals: Arrivals<'a, B, T>,
    plan: LegPlan<'_>,
    out: &mut O,
) -> Result<(Switch<S>, Heard<'a, B, T>), ServeError>
    requires ready { IsReady (point_of S.Store switch) }
    ensures answered { IfOk result (λ done. Answered plan.entry.order
        arrivals.entry (point_of S.Store switch) (O.contents out.old)
        (log_of E.contents edge.old.stderr)
        done.1.arrivals (point_of S.Store done.0) (O.contents out.new)
        (log_of E.contents edge.new.stderr)) }
    ensures ready { IfOk result (λ done. IsReady (point_of S.Store done.0)) }
    ensures end { IfOk result (λ done. IfLast done.1.end done.1.arrivals) }
    ensures halts { OnErr result (HaltsHeard B.header plan.entry.order B.input
        arrivals.entry
        (point_of S.Store switch) (O.contents out.old) (O.contents out.new)) }
{
    arrivals.has_come();
    let before = switch.answered.counts.requests();
    let next = arrivals.hear_one(edge.alloc)?;
    let (request, heard) = next;
    heard.arrivals.has_come();
    let mut switch = switch;
    match switch.answer_one(edge, request, &heard.passed, out) {
        Ok(()) => {
            switch.show_since(edge, before);
            Ok((switch, heard))
        }
        Err(error) => {
            let _lines = edge.stderr.trace(edge.alloc, switch.engine());
            Err(error)
        }
    }
}

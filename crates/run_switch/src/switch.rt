//! The plant of the switch, one transaction after the other.

ghost use Rattle.std.specs.Prelude.{◌≡◌, ◌≤◌, ◌∷◌, ◌++◌, List, ℕ, [], Option, IfErr, IfOk, OnErr, OnOk, map, true};
ghost use Rattle.std.specs.Io.KnownBytes.{Appends};
ghost use Rattle.sw_context.specs.Pairs.{Pairs};
ghost use Rattle.sw_frame.specs.Stream.{AreFramed};
ghost use Rattle.tx_engine.specs.Calls.{waits};
ghost use Rattle.tx_seats.specs.Seated.{Seated};
ghost use Rattle.tx_pool.specs.Sinks.{SinkTook};
ghost use Rattle.tx_plant.specs.Wholes.{core_of, engine_of};
ghost use Rattle.run_switch.specs.Points.{IsAtRest, IsReady, RestsGiven, all_answered, ended_at, point_of};
ghost use Rattle.run_responses.specs.Giving.{AreFound};
ghost use Rattle.run_responses.specs.Responses.{responses};
ghost use Rattle.run_switch.specs.Points.{unanswered};
ghost use Rattle.run_switch.specs.Led.{TookSome};
ghost use Rattle.run_switch.specs.Rounds.{Completed, Does, IsDone, Together, Transacts};
ghost use Rattle.run_switch.specs.Rounds.{offering};
ghost use Rattle.run_switch.specs.Stopped.{GivesSome, Halts};
ghost use Rattle.run_switch.specs.Traces.{Cuts, IsLive, IsOver, Reports, log_of};

use crate::edge::Edge;
use crate::error::ServeError;
use crate::given::{count_above, last_above};
use crate::progress::Progress;
use cli_io::write_out;
use run_responses::{are_given, text_above};
use sqlite::Alter;
use std::alloc::Global;
use std::io::Write;
use std::sync::Wait;
use std::thread::Threads;
use std::time::Clock;
use sw_context::Context;
use tx_engine::Engine;
use tx_intake::Source;
use tx_plant::{Outcome, Plant, Turn};
use tx_pool::{Open, Pool, Sink, Streams};

/// A history of this many entries is cut between two transactions. Contracts do not know this number, which keeps
/// a long run small, but only a bound: half of what a history may have.
pub(crate) const MANY_ENTRIES: usize = 8_192;

// From how many entries on a history is cut between two transactions. With the trace or the log it is cut each time,
// so that all lines of a transaction are written, each once, before the next one is offered.
fn entries_kept(live: bool) -> usize
    ensures bound { result ≤ 524288 }
    ensures live { live ≡ true → result ≡ 1 }
{
    if live { 1 } else { MANY_ENTRIES }
}

/// The most requests of a leg that are offered and not taken.
const MOST_OFFERED: usize = 256;

/// More steps than a transaction has: 1,000 answers and choices, then as many tolds.
const MAX_STEPS: usize = 2_002;

/// The plant of the switch over a journal, driven by session 0, except in legs. After each of its calls all
/// entries are written, unless it is refused.
pub(crate) struct Switch<S: Alter> {
    pub(crate) plant: Plant<S>,
    /// Which responses were given, and what was counted.
    pub(crate) answered: Progress,
}

impl<S: Alter + Drop> Drop for Switch<S> {
    fn drop(self) {
        let Switch {
            plant: _,
            answered: _,
        } = self;
    }
}

impl<S: Alter + Drop> Switch<S> {
    /// Runs a leg: the requests of a source, by all sessions at once. What ends goes to the sink. If the leg is given up, the
    /// switch is lost with it.
    pub(crate) fn run_leg<F: Source + Send, Z: Sink, T: Threads + Wait + Sync>(
        self,
        rt: &T,
        alloc: Global,
        streams: Streams<F, Z>,
    ) -> Result<(Switch<S>, Streams<F, Z>), (ServeError, Z)>
        requires { IsAtRest (point_of S.Store self) }
        ensures together { IfOk result (λ done. (requests : List Pairs)
            × (F.given done.1.source ≡ F.given streams.source ++ requests)
            × Together requests (point_of S.Store self) (point_of S.Store done.0)) }
        ensures took { IfOk result (λ done. SinkTook Z.takes
            (engine_of self.plant) (core_of done.0.plant) streams.sink done.1.sink) }
        ensures some { IfErr result (λ e. TookSome Z.takes (core_of self.plant) streams.sink e.1) }
    {
        let Switch { plant, answered } = self;
        plant.engine_is_sound();
        match Pool::run_into(rt, alloc, plant, streams, MOST_OFFERED, &Open) {
            Ok((plant, streams, _)) => Ok((Switch { plant, answered }, streams)),
            Err((error, sink)) => Err((ServeError::from_pool(error), sink)),
        }
    }
}

// A refusal of the engine is an error.
fn unless_refused(outcome: Outcome) -> Result<Outcome, ServeError>
    ensures { IfOk result (λ done. (done ≡ outcome) × IsDone outcome) }
{
    match outcome {
        Outcome::Refused(error) => Err(ServeError::from(error)),
        other => Ok(other),
    }
}

impl<S: Alter> Switch<S> {
    /// Its engine.
    pub(crate) fn engine(&self) -> &Engine
        ensures { result.now ≡ engine_of self.now.plant }
    {
        self.plant.engine()
    }

    /// Does a turn, and writes its entry.
    pub(crate) fn act(&mut self, alloc: Global, turn: Turn) -> Result<Outcome, ServeError>
        requires seated { Seated (point_of S.Store self.old).plant.core }
        ensures does { IfOk result (λ outcome. Does turn outcome
            (point_of S.Store self.old) (point_of S.Store self.new)) }
        ensures seated { OnOk result (Seated (point_of S.Store self.new).plant.core) }
    {
        let turns = [turn, Turn::Write(None)];
        let outcomes = match self.plant.drive(alloc, &turns) {
            Ok(outcomes) => outcomes,
            Err(fault) => return Err(ServeError::from(fault.cause)),
        };
        match outcomes.into_iter().next() {
            Some(outcome) => unless_refused(outcome),
            None => unreachable!(),
        }
    }

    // Runs the transaction of the queue's first context to its end.
    fn run_next(&mut self, alloc: Global) -> Result<(), ServeError>
        requires rest { IsAtRest (point_of S.Store self.old) }
        ensures transacts { OnOk result ((own : Option Pairs) × Transacts
            (point_of S.Store self.old) own (point_of S.Store self.new)) }
        ensures seated { OnOk result (Seated (point_of S.Store self.new).plant.core) }
    {
        self.act(alloc, Turn::Take(0))?;
        for _ in 0..MAX_STEPS {
            if let Outcome::Idle = self.act(alloc, Turn::Step(0))? {
                return Ok(());
            }
        }
        Err(ServeError::Endless)
    }

    /// Whether these are the ids of the transactions that ended and whose responses were not given yet, ids rising.
    pub(crate) fn has_given(&self, given: &[u64]) -> bool
        ensures { result ≡ true → (list : List (ℕ × Pairs)) → map (λ e. e.0) list ≡ given.now
            → AreFound (ended_at (point_of S.Store self.now)) list
            → list ≡ unanswered (point_of S.Store self.now) }
    {
        are_given(self.plant.ended(), self.answered.last, given)
    }

    /// Counts the responses of the transactions that ended since. Then the contexts of all transactions that ended are
    /// dropped, so that a long run keeps none of them.
    pub(crate) fn note_given(&mut self, alloc: Global) -> Result<(), ServeError>
        requires rests { RestsGiven (point_of S.Store self.old) }
        ensures answered { OnOk result (point_of S.Store self.new
            ≡ all_answered (point_of S.Store self.old)) }
        ensures rest { OnOk result (IsAtRest (point_of S.Store self.new)) }
    {
        let last = self.answered.last;
        count_above(alloc, &mut self.answered.counts, self.plant.ended(), last)?;
        self.answered.last = last_above(self.plant.ended(), last);
        let _given = self.plant.take_ended(alloc);
        Ok(())
    }

    /// Writes the responses that were not given yet, those of the transactions that ended since, and counts them.
    pub(crate) fn give<O: Write>(&mut self, alloc: Global, out: &mut O) -> Result<(), ServeError>
        requires rests { RestsGiven (point_of S.Store self.old) }
        ensures gives { OnOk result ((text : List ℕ)
            × AreFramed text (responses (unanswered (point_of S.Store self.old)))
            × Appends (O.contents out.old) (O.contents out.new) text) }
        ensures answered { OnOk result (point_of S.Store self.new
            ≡ all_answered (point_of S.Store self.old)) }
        ensures stopped { OnErr result (GivesSome (point_of S.Store self.old)
            (O.contents out.old) (O.contents out.new)) }
        ensures rest { OnOk result (IsAtRest (point_of S.Store self.new)) }
    {
        let text = text_above(alloc, self.plant.ended(), self.answered.last)?;
        write_out(out, &text)?;
        self.note_given(alloc)
    }

    // Cuts a history between two transactions, if it is long or its lines are wanted; these are written first.
    // With the trace, no line is then left to write.
    fn cut_between<T: Clock, E: Write>(
        &mut self,
        edge: &mut Edge<'_, T, E>,
    ) -> Result<(), ServeError>
        requires rest { IsAtRest (point_of S.Store self.old) }
        ensures cuts { OnOk result (Cuts
            (point_of S.Store self.old) (log_of E.contents edge.old.stderr)
            (point_of S.Store self.new) (log_of E.contents edge.new.stderr)) }
        ensures rest { OnOk result (IsAtRest (point_of S.Store self.new)) }
        ensures queue { OnOk result (waits (engine_of self.new.plant)
            ≡ waits (engine_of self.old.plant)) }
        ensures live { OnOk result (IsLive
            (log_of E.contents edge.old.stderr) (engine_of self.new.plant)) }
        ensures once { OnErr result (IsOver (log_of E.contents edge.new.stderr)) }
    {
        let entries = entries_kept(edge.stderr.is_live());
        if self.engine().history().len() < entries {
            return Ok(());
        }
        edge.stderr.trace(edge.alloc, self.engine())?;
        match self.act(edge.alloc, Turn::Cut) {
            Ok(_) => Ok(()),
            Err(error) => {
                // Its lines are written, and none of them is written again when the run ends.
                edge.stderr.finish();
                Err(error)
            }
        }
    }

    /// Cuts a history that is long or whose lines are wanted; these are written first. So the lines of the trace
    /// are written before the run waits for input.
    pub(crate) fn cut_traced<T: Clock, E: Write>(
        &mut self,
        edge: &mut Edge<'_, T, E>,
    ) -> Result<(), ServeError>
        requires rest { IsAtRest (point_of S.Store self.old) }
        requires empty { waits (engine_of self.old.plant) ≡ [] }
        ensures cuts { OnOk result (Cuts
            (point_of S.Store self.old) (log_of E.contents edge.old.stderr)
            (point_of S.Store self.new) (log_of E.contents edge.new.stderr)) }
        ensures ready { OnOk result (IsReady (point_of S.Store self.new)) }
        ensures live { OnOk result (IsLive
            (log_of E.contents edge.old.stderr) (engine_of self.new.plant)) }
    {
        self.cut_between(edge)
    }

    /// Runs the transaction of the queue's first context to its end, and writes its response; then the lines of
    /// the trace so far, if it is wanted.
    pub(crate) fn answer_next<T: Clock, O: Write, E: Write>(
        &mut self,
        edge: &mut Edge<'_, T, E>,
        out: &mut O,
    ) -> Result<(), ServeError>
        requires rest { IsAtRest (point_of S.Store self.old) }
        ensures serves { OnOk result (Reports (Completed ∷ []) 0
            (point_of S.Store self.old) (O.contents out.old) (log_of E.contents edge.old.stderr)
            (point_of S.Store self.new) (O.contents out.new) (log_of E.contents edge.new.stderr)) }
        ensures halts { OnErr result (Halts (Completed ∷ [])
            (point_of S.Store self.old) (O.contents out.old) (O.contents out.new)) }
        ensures rest { OnOk result (IsAtRest (point_of S.Store self.new)) }
        ensures live { OnOk result (IsLive
            (log_of E.contents edge.old.stderr) (engine_of self.new.plant)) }
    {
        edge.stderr.begin();
        self.run_next(edge.alloc)?;
        self.give(edge.alloc, out)?;
        self.cut_between(edge)
    }

    /// Runs the transaction of a request to its end, and writes its response; then the lines of the trace so far,
    /// if it is wanted.
    pub(crate) fn answer<T: Clock, O: Write, E: Write>(
        &mut self,
        edge: &mut Edge<'_, T, E>,
        request: Context,
        out: &mut O,
    ) -> Result<(), ServeError>
        requires ready { IsReady (point_of S.Store self.old) }
        ensures serves { OnOk result (Reports (offering (request ∷ [])) 0
            (point_of S.Store self.old) (O.contents out.old) (log_of E.contents edge.old.stderr)
            (point_of S.Store self.new) (O.contents out.new) (log_of E.contents edge.new.stderr)) }
        ensures halts { OnErr result (Halts (offering (request ∷ []))
            (point_of S.Store self.old) (O.contents out.old) (O.contents out.new)) }
        ensures ready { OnOk result (IsReady (point_of S.Store self.new)) }
        ensures live { OnOk result (IsLive
            (log_of E.contents edge.old.stderr) (engine_of self.new.plant)) }
    {
        self.act(edge.alloc, Turn::Offer(request))?;
        self.answer_next(edge, out)
    }
}

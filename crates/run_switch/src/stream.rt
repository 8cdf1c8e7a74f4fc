//! The frames of a stream, answered as they come, one transaction after the other.

ghost use Rattle.std.specs.Prelude.{◌∷◌, ℕ, List, [], IfOk, None, OnErr, OnOk, length};
ghost use Rattle.sw_frame.specs.Feeds.{messages};
ghost use Rattle.sw_issuers.specs.Sending.{SendsAdvice};
ghost use Rattle.run_input.specs.Arrivals.{AreMessages, headers_of, readings_of};
ghost use Rattle.run_input.specs.Requests.{ReadTo, passed_over, readings};
ghost use Rattle.run_switch.specs.Legs.{AdvancesFor, stage};
ghost use Rattle.run_switch.specs.Points.{IsReady, point_of};
ghost use Rattle.run_switch.specs.Rounds.{answering};
ghost use Rattle.run_switch.specs.Stopped.{Halts, StopsWithin};
ghost use Rattle.run_switch.specs.Traces.{Reports, log_of};

use crate::advices::{Advisor, send_between};
use crate::edge::Edge;
use crate::error::ServeError;
use crate::passing::pass_one;
use crate::switch::Switch;
use cli_io::IoError;
use run_input::{Arrival, Frames, PIECE, Piece, StreamEnd, arrival_of};
use sqlite::Alter;
use std::io::{Read, Write};
use std::time::Clock;
use sw_parts::Link;

impl<S: Alter> Switch<S> {
    // Answers a request, and then writes the numbers of the run, if they are due; or passes a message over.
    fn answer_arrival<T: Clock, O: Write, E: Write>(
        &mut self,
        edge: &mut Edge<'_, T, E>,
        arrival: Arrival,
        out: &mut O,
    ) -> Result<(), ServeError>
        requires ready { IsReady (point_of S.Store self.old) }
        requires message { AreMessages (arrival ∷ []) }
        ensures serves { OnOk result (Reports (answering (readings_of (arrival ∷ [])))
            (length (headers_of (arrival ∷ [])))
            (point_of S.Store self.old) (O.contents out.old) (log_of E.contents edge.old.stderr)
            (point_of S.Store self.new) (O.contents out.new) (log_of E.contents edge.new.stderr)) }
        ensures halts { OnErr result (Halts (answering (readings_of (arrival ∷ [])))
            (point_of S.Store self.old) (O.contents out.old) (O.contents out.new)) }
        ensures ready { OnOk result (IsReady (point_of S.Store self.new)) }
    {
        match arrival {
            Arrival::Request(request) => {
                let before = self.answered.counts.requests();
                self.answer(edge, request, out)?;
                self.show_since(edge, before);
                Ok(())
            }
            Arrival::Passed(message) => pass_one(edge, &message, out),
            Arrival::Ended(_) => unreachable!(),
        }
    }
}

// Answers the messages of frames, one after the other, or passes them over.
fn answer_messages<S: Alter, T: Clock, O: Write, E: Write>(
    edge: &mut Edge<'_, T, E>,
    switch: &mut Switch<S>,
    header: usize,
    count: &mut u64,
    list: &[Vec<u8>],
    out: &mut O,
) -> Result<(), ServeError>
    requires ready { IsReady (point_of S.Store switch.old) }
    ensures serves { OnOk result (Reports (answering (readings header (messages list.now)))
        (passed_over header (messages list.now))
        (point_of S.Store switch.old) (O.contents out.old) (log_of E.contents edge.old.stderr)
        (point_of S.Store switch.new) (O.contents out.new) (log_of E.contents edge.new.stderr)) }
    ensures halts { OnErr result (Halts (answering (readings header (messages list.now)))
        (point_of S.Store switch.old) (O.contents out.old) (O.contents out.new)) }
    ensures ready { OnOk result (IsReady (point_of S.Store switch.new)) }
{
    for frame in list {
        *count = count.saturating_add(1);
        let arrival = arrival_of(edge.alloc, *count, header, frame)?;
        switch.answer_arrival(edge, arrival, out)?;
    }
    Ok(())
}

/// Answers all messages of an input, each after a header of `header` bytes, as they come, and sends stored advices between two reads.
pub(crate) fn answer_input<S: Alter, T: Clock, L: Link, R: Read, O: Write, E: Write>(
    edge: &mut Edge<'_, T, E>,
    switch: &mut Switch<S>,
    advisor: &mut Advisor<L>,
    header: usize,
    input: &mut R,
    out: &mut O,
) -> Result<StreamEnd, ServeError>
    requires ready { IsReady (point_of S.Store switch.old) }
    ensures serves { IfOk result (λ end. (frames : List (List ℕ))
        × ReadTo end (R.remaining input.old) frames
        × AdvancesFor header (SendsAdvice L.sends L.receives L.starves (Unit {0})) None frames
        (stage advisor.old (point_of S.Store switch.old) (O.contents out.old))
        (log_of E.contents edge.old.stderr)
        (stage advisor.new (point_of S.Store switch.new) (O.contents out.new))
        (log_of E.contents edge.new.stderr)) }
    ensures stops { OnErr result (StopsWithin header
        (SendsAdvice L.sends L.receives L.starves (Unit {0})) None (R.remaining input.old)
        (stage advisor.old (point_of S.Store switch.old) (O.contents out.old))
        (O.contents out.new)) }
    ensures ready { OnOk result (IsReady (point_of S.Store switch.new)) }
{
    let mut frames = Frames::new(edge.alloc);
    let mut buf = vec![in edge.alloc; 0u8; PIECE]?;
    // More reads than any run makes.
    for _ in 0..u64::MAX {
        let Piece { messages, end } = frames.read(edge.alloc, input, buf.as_mut_slice())?;
        answer_messages(edge, switch, header, &mut frames.count, &messages, out)?;
        if let Some(end) = end {
            return Ok(end);
        }
        send_between(edge, switch, advisor)?;
    }
    Ok(StreamEnd::Unread(IoError::TooManyReads))
}

//! The lines of a run's numbers.

ghost use Rattle.std.specs.Prelude.{◌≡◌, ◌/◌, ◌-◌, ◌^◌, [], min};
ghost use Rattle.std.specs.Duration.{as_nanos};
ghost use Rattle.run_switch.specs.Numbers.{given_since, numbers_at};
ghost use Rattle.run_switch.specs.Points.{point_of};
ghost use Rattle.run_switch.specs.Shown.{ShowsNumbers, ShowsSince, every_of, hosts_of, is_due};
ghost use Rattle.run_switch.specs.Traces.{Tells, log_of};

use crate::edge::Edge;
use crate::reporter::Reporter;
use crate::switch::Switch;
use cli_io::write_whole;
use sqlite::Alter;
use std::alloc::Global;
use std::io::Write;
use std::time::{Clock, Duration, Instant};
use sw_stats::{Beside, Counts};

/// Which lines of numbers a run writes: one at its end, and more if `every` is given.
#[derive(Clone, Copy)]
pub struct Stats {
    /// A line is also written each time this many more requests are answered.
    pub every: Option<u64>,
    /// When the run began; `None` if the clock could not be read: then the lines say 0 seconds.
    pub started: Option<Instant>,
}

/// How many whole milliseconds a time has; the number does not go beyond 2^64 - 1.
pub(crate) fn milliseconds_of(time: Duration) -> u64
    ensures { result ≡ min (as_nanos time / 1000000) (2 ^ 64 - 1) }
{
    u64::try_from(time.as_millis()).unwrap_or(u64::MAX)
}

impl Stats {
    /// The lines of a run that begins now.
    pub fn begin<C: Clock>(rt: &C, every: Option<u64>) -> Stats
        ensures { result.every ≡ every }
    {
        Stats {
            every,
            started: Instant::now(rt).ok(),
        }
    }

    // The time since the run began.
    fn milliseconds<C: Clock>(&self, rt: &C) -> u64 {
        let Some(started) = self.started else {
            return 0;
        };
        match started.elapsed(rt) {
            Ok(time) => milliseconds_of(time),
            Err(_) => 0,
        }
    }
}

impl<'a, E: Write, K: Clock> Reporter<'a, E, K> {
    /// How many requests may be answered before a line is due, if `now` of them were answered.
    pub(crate) fn requests_left(&self, now: u64) -> u64 {
        match self.stats {
            Some(
                Stats {
                    every: Some(every),
                    ..
                },
            ) if every > 0 => every - now % every,
            _ => u64::MAX,
        }
    }

    // Whether a line is due once `now` requests are answered, if `before` of them were answered earlier.
    fn is_due(&self, before: u64, now: u64) -> bool
        ensures { result ≡ is_due (every_of self.now.stats) before now }
    {
        match self.stats {
            Some(
                Stats {
                    every: Some(every),
                    ..
                },
            ) => every > 0 && before / every < now / every,
            _ => false,
        }
    }

    // Writes the numbers of a run, if they are wanted. If memory is refused, the line is lost, as when a write
    // fails.
    fn show<C: Clock>(&mut self, rt: &C, alloc: Global, counts: &Counts, stored: u64)
        ensures shows { ShowsNumbers
            (record { tally = counts.now; passed = self.old.passed; stored = stored })
            (log_of E.contents self.old) (log_of E.contents self.new) }
        ensures words { self.new.words ≡ self.old.words }
    {
        let Some(stats) = self.stats else {
            return;
        };
        let beside = Beside {
            passed: self.passed,
            stored,
            milliseconds: stats.milliseconds(rt),
        };
        let Ok(line) = counts.line(alloc, beside) else {
            self.lost = true;
            return;
        };
        match write_whole(self.err, &line) {
            Ok(()) => {}
            Err(_) => self.lost = true,
        }
    }
}

impl<S: Alter> Switch<S> {
    // How many advices members gave since the run began.
    fn given_since(&self) -> u64
        ensures { result ≡ given_since (point_of S.Store self.now) }
    {
        let stored = self.engine().advices().len() as u64;
        let all = stored.saturating_add(self.answered.counts.delivered());
        all.saturating_sub(self.answered.found)
    }

    /// Writes the numbers of the run so far, if they are wanted. If standard error takes nothing, or memory is
    /// refused, the line is lost, and nothing else changes.
    pub(crate) fn show<T: Clock, E: Write>(&self, edge: &mut Edge<'_, T, E>)
        ensures shows { ShowsNumbers (numbers_at (point_of S.Store self.now) edge.old.stderr.passed)
            (log_of E.contents edge.old.stderr) (log_of E.contents edge.new.stderr) }
        ensures words { edge.new.stderr.words ≡ edge.old.stderr.words }
    {
        let counts = &self.answered.counts;
        let given = self.given_since();
        edge.stderr.show(edge.rt, edge.alloc, counts, given);
    }

    /// Writes what has become new of the hosts; then the numbers and the hosts' counts, if they have become due since
    /// `before` requests were answered.
    pub(crate) fn show_since<T: Clock, E: Write>(&self, edge: &mut Edge<'_, T, E>, before: u64)
        ensures since { ShowsSince (every_of edge.old.stderr.stats) before
            (numbers_at (point_of S.Store self.now) edge.old.stderr.passed)
            (hosts_of edge.old.stderr.words)
            (log_of E.contents edge.old.stderr) (log_of E.contents edge.new.stderr) }
        ensures tells { Tells [] 0
            (log_of E.contents edge.old.stderr) (log_of E.contents edge.new.stderr) }
    {
        edge.stderr.say_news();
        if edge.stderr.is_due(before, self.answered.counts.requests()) {
            self.show(edge);
            edge.stderr.say_counts();
        }
    }
}

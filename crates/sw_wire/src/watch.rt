//! Whether a host that nothing is written to is still there.

ghost use Rattle.std.specs.Prelude.{◌≡◌, ◌+◌, ◌%◌, None, Some};
ghost use Rattle.sw_wire.specs.Watches.{due, due_in_silence, duty, next_test, rest_or_test, tests_with, unanswered};

use crate::moment::Moment;
use crate::times::HostTimes;
use std::time::Duration;

/// The greatest STAN.
const LAST_STAN: u32 = 999_999;

/// The echo tests that were written since something was read from the host.
#[derive(Clone, Copy)]
pub struct EchoTests {
    /// From when on nobody waits for the answer to the first of them.
    pub deadline: Moment,
    /// How often something had been read from the host when they were written.
    pub heard: u64,
    /// How many there are.
    pub count: u64,
}

/// What the thread that writes to a host knows of it.
#[derive(Clone, Copy)]
pub struct Watch {
    /// When it wrote last, or opened the direction.
    pub written: Moment,
    /// The last echo tests that it wrote, since the direction was opened.
    pub tests: Option<EchoTests>,
    /// When it wrote the last echo test, which may be before the direction was opened.
    pub tested: Option<Moment>,
    /// The STAN of the last echo test; 0 before the first.
    pub stan: u32,
}

/// What the thread does when no frame waits.
#[derive(Clone, Copy)]
pub enum Duty {
    /// It sleeps, at most up to that moment.
    Rests(Moment),
    /// It writes an echo test.
    Tests,
    /// It gives the host up, even if a frame waits, since no answer to this many echo tests came in time.
    GivesUp(u64),
}

impl Watch {
    /// Nothing was written yet.
    pub fn new() -> Watch
        ensures written { result.written.micros ≡ 0 }
        ensures none { (result.tests ≡ None) × (result.tested ≡ None) }
        ensures stan { result.stan ≡ 0 }
    {
        Watch {
            written: Moment { micros: 0 },
            tests: None,
            tested: None,
            stan: 0,
        }
    }

    /// Notes that the direction was opened.
    pub fn opened(&mut self, now: Moment)
        ensures { self.new ≡ record self.old { written = now; tests = None } }
    {
        self.written = now;
        self.tests = None;
    }

    /// Notes that a frame was written.
    pub fn wrote(&mut self, now: Moment)
        ensures { self.new ≡ record self.old { written = now } }
    {
        self.written = now;
    }

    /// Notes that an echo test was written, when something had been read from the host `heard` times.
    pub fn tested(&mut self, now: Moment, heard: u64, times: &HostTimes)
        ensures { self.new ≡ record self.old {
          written = now;
          tests = Some (tests_with (unanswered self.old heard) now.micros heard times.now.timeout);
          tested = Some now;
        } }
    {
        let tests = match self.unanswered(heard) {
            Some(earlier) => EchoTests {
                count: earlier.count.saturating_add(1),
                ..earlier
            },
            None => EchoTests {
                deadline: now.after(times.timeout),
                heard,
                count: 1,
            },
        };
        self.written = now;
        self.tests = Some(tests);
        self.tested = Some(now);
    }

    /// The STAN of the next echo test: one more than the last one's, and 1 after the greatest.
    pub fn next_stan(&mut self) -> u32
        ensures stan { result ≡ self.old.stan % 999999 + 1 }
        ensures kept { self.new ≡ record self.old { stan = self.old.stan % 999999 + 1 } }
    {
        self.stan = self.stan % LAST_STAN + 1;
        self.stan
    }

    // The echo tests since which nothing was read from the host.
    fn unanswered(&self, heard: u64) -> Option<EchoTests>
        ensures { result ≡ unanswered self.now heard }
    {
        match self.tests {
            Some(tests) if tests.heard == heard => Some(tests),
            _ => None,
        }
    }

    // When the next echo test is due if the host is not silent, and gets any.
    fn due(&self, echo: Duration) -> Option<Moment>
        ensures { result ≡ due self.now echo }
    {
        if echo.is_zero() {
            None
        } else {
            Some(self.written.after(echo))
        }
    }

    // When the next echo test is due if the host is silent, and tested from a moment on.
    fn due_in_silence(&self, from: Moment, retry: Duration) -> Moment
        ensures { result ≡ due_in_silence self.now from retry }
    {
        match self.tested {
            Some(tested) => from.or_later(tested.after(retry)),
            None => from,
        }
    }

    // When the next echo test is due. If the host is not silent, an unanswered one is waited for.
    fn next_test(
        &self,
        heard: u64,
        tested_from: Option<Moment>,
        times: &HostTimes,
    ) -> Option<Moment>
        ensures { result ≡ next_test self.now heard tested_from times.now }
    {
        match (tested_from, self.unanswered(heard)) {
            (Some(from), _) => Some(self.due_in_silence(from, times.retry)),
            (None, Some(_)) => None,
            (None, None) => self.due(times.echo),
        }
    }

    /// What is to be done now. Something was read from the host `heard` times; if it is silent, it is tested from
    /// `tested_from` on.
    pub fn duty(
        &self,
        now: Moment,
        heard: u64,
        tested_from: Option<Moment>,
        times: &HostTimes,
    ) -> Duty
        ensures { result ≡ duty self.now now.micros heard tested_from times.now }
    {
        let next_test = self.next_test(heard, tested_from, times);
        match self.unanswered(heard) {
            Some(tests) if now.is_past(tests.deadline) => Duty::GivesUp(tests.count),
            Some(tests) => rest_or_test(next_test, tests.deadline, now),
            None => rest_or_test(next_test, Moment::LAST, now),
        }
    }
}

// Whether the next echo test is due now; otherwise the thread sleeps until it is, or until an earlier deadline.
fn rest_or_test(next_test: Option<Moment>, deadline: Moment, now: Moment) -> Duty
    ensures { result ≡ rest_or_test next_test deadline now.micros }
{
    match next_test {
        Some(due) if now.is_past(due) => Duty::Tests,
        Some(due) => Duty::Rests(due.or_earlier(deadline)),
        None => Duty::Rests(deadline),
    }
}

//! The source of a leg.

ghost use Rattle.std.specs.Prelude.{◌≡◌, ◌<◌, ◌||◌, ◌++◌, List, IfOk, IfNone, OnErr, is_none, false};
ghost use Rattle.std.specs.Prelude.{⊤, option_to_list};
ghost use Rattle.sw_context.specs.Pairs.{Pairs};
ghost use Rattle.run_input.specs.Arrivals.{CameSince, IfLast, heard, requests_of};

use crate::arrival::{PassedOver, ReadError};
use crate::arrivals::Arrivals;
use crate::frames::StreamEnd;
use crate::queue::Input;
use run_watch::Watch;
use std::alloc::{AllocError, Global};
use std::marker::{Brand, Model, PhantomData};
use std::sync::Wait;
use std::time::{Clock, Duration, Instant};
use sw_context::Context;
use sw_participant::NoMemory;
use tx_intake::Source;

/// The most messages of a leg that are passed over, whatever its limits.
const MOST_PASSED: usize = 64;

/// How long a leg goes on when nothing is under way, in milliseconds.
const LINGERING: u64 = 20;

/// When a leg ends though requests come.
#[derive(Clone, Copy)]
pub struct LegLimits {
    /// Once this many entries were written in it.
    pub entries: u64,
    /// Once it has offered this many requests.
    pub requests: u64,
    /// Once it has passed this many messages over, or 64.
    pub passed: usize,
    /// Once it has gone on for this long, if anything is due then.
    pub time: Option<Duration>,
}

/// A leg, as contracts name it: what had come when it began.
pub trait Leg {
    ghost use Rattle.std.specs.Prelude.{List};
    ghost use Rattle.run_input.specs.declared.arrival.Arrival.{Arrival};

    ghost before: { List Arrival };
}

impl Leg for Brand {
    ghost use Rattle.std.specs.Prelude.{[]};

    ghost before = { [] };
}

/// Gives the requests that come, for as long as more come or something is under way.
#[derive(Drop)]
pub struct LegSource<'a, B: Input, L: Leg, T> {
    arrivals: Arrivals<'a, B, T>,
    passed: Vec<PassedOver>,
    end: Option<Result<StreamEnd, ReadError>>,
    ended: bool,
    limits: LegLimits,
    /// How many requests it gave.
    given: u64,
    /// When it began; `None` if the clock could not be read.
    began: Option<Instant>,
    of: PhantomData<L>,
}

impl<'a, B: Input, L: Leg, T> Model for LegSource<'a, B, L, T> {
    ghost use Rattle.std.specs.Prelude.{◌≤◌, length, vec_capacity};
    ghost use Rattle.run_input.specs.Arrivals.{CameSince, Hearing, IfLast};

    ghost Value = { Hearing };

    ghost view = { λ s. record {
      got = s.arrivals;
      passed = length s.passed.items;
      end = s.end;
      ended = s.ended;
    } };

    ghost invariant = { λ s. CameSince L.before s.arrivals s.passed.items
        × IfLast s.end s.arrivals × (64 ≤ vec_capacity s.passed) };
}

/// What a leg heard: the arrivals, its messages that are passed over, and how the input ended, if it did.
#[derive(Drop)]
pub struct Heard<'a, B: Input, T> {
    pub arrivals: Arrivals<'a, B, T>,
    pub passed: Vec<PassedOver>,
    pub end: Option<Result<StreamEnd, ReadError>>,
}

impl<'a, B: Input, T: Wait> Arrivals<'a, B, T> {
    /// What came next, outside a leg: the request, if it is one, and what was heard.
    pub fn hear_one(self, alloc: Global) -> Result<(Option<Context>, Heard<'a, B, T>), AllocError>
        ensures request { IfOk result (λ next. requests_of next.1.arrivals
            ≡ requests_of self.entry ++ option_to_list next.0) }
        ensures came { IfOk result (λ next.
            CameSince self.entry next.1.arrivals next.1.passed.items) }
        ensures end { IfOk result (λ next. IfLast next.1.end next.1.arrivals) }
    {
        let mut passed = Vec::with_capacity(alloc, 1)?;
        let mut end = None;
        let mut arrivals = self;
        let Some(arrival) = arrivals.get() else {
            let heard = Heard {
                arrivals,
                passed,
                end,
            };
            return Ok((None, heard));
        };
        let request = arrival.hand_out(&mut passed, &mut end);
        let heard = Heard {
            arrivals,
            passed,
            end,
        };
        Ok((request, heard))
    }
}

impl<'a, B: Input, L: Leg, T: Clock> LegSource<'a, B, L, T> {
    /// A leg over these arrivals.
    pub fn begin(
        alloc: Global,
        arrivals: Arrivals<'a, B, T>,
        limits: LegLimits,
    ) -> Result<LegSource<'a, B, L, T>, AllocError>
        requires { arrivals ≡ L.before }
        ensures got { IfOk result (λ source. source.got ≡ arrivals.entry) }
        ensures fresh { IfOk result (λ source. source.ended ≡ false) }
    {
        arrivals.watch().begin();
        let began = Instant::now(arrivals.rt).ok();
        Ok(LegSource {
            arrivals,
            passed: Vec::with_capacity(alloc, MOST_PASSED)?,
            end: None,
            ended: false,
            limits,
            given: 0,
            began,
            of: PhantomData,
        })
    }

    /// What it heard.
    pub fn finish(self) -> Heard<'a, B, T>
        ensures got { result.arrivals ≡ self.entry.got }
        ensures came { CameSince L.before self.entry.got result.passed.items }
        ensures end { IfLast result.end self.entry.got }
    {
        let LegSource {
            arrivals,
            passed,
            end,
            ended: _,
            limits: _,
            given: _,
            began: _,
            of: _,
        } = self;
        Heard {
            arrivals,
            passed,
            end,
        }
    }

    fn watch(&self) -> &Watch {
        self.arrivals.watch()
    }

    // Whether it has gone on for as long as it may.
    fn is_late(&self) -> bool {
        let (Some(most), Some(began)) = (self.limits.time, self.began) else {
            return false;
        };
        match began.elapsed(self.arrivals.rt) {
            Ok(time) => time >= most,
            Err(_) => false,
        }
    }

    // Whether it gives no more, whatever comes.
    fn is_over(&self) -> bool
        ensures ends { result ≡ false → self.now.end ≡ None }
        ensures room { result ≡ false → self.now.passed < 64 }
    {
        let passed = self.limits.passed.min(MOST_PASSED);
        if self.end.is_some() || self.passed.len() >= passed {
            return true;
        }
        let watch = self.watch();
        self.given >= self.limits.requests
            || watch.is_over()
            || watch.entries() >= self.limits.entries
            || self.is_late()
    }
}

impl<'a, B: Input, L: Leg, T: Wait + Clock> LegSource<'a, B, L, T> {
    // Sleeps until something changes. Whether nothing did while nothing was under way.
    fn is_quiet_after(&self, rings: u64) -> bool {
        let watch = self.watch();
        if !watch.is_idle() {
            watch.sleep(self.arrivals.rt, rings);
            return false;
        }
        let time = Duration::from_millis(LINGERING);
        watch.sleep_for(self.arrivals.rt, rings, time);
        watch.rings() == rings
    }

    // Gets what came next: a request, or `None` if it was something else. `None` if nothing has come.
    fn hear(&mut self) -> Option<Option<Context>>
        requires open { self.old.end ≡ None }
        requires room { self.old.passed < 64 }
        ensures given { requests_of self.new.got ≡ requests_of self.old.got ++ heard result }
        ensures ended { self.new.ended ≡ self.old.ended }
    {
        let arrival = self.arrivals.get()?;
        let request = arrival.hand_out(&mut self.passed, &mut self.end);
        self.given = self.given.saturating_add(u64::from(request.is_some()));
        Some(request)
    }
}

impl<'a, B: Input, L: Leg, T: Wait + Clock> Source for LegSource<'a, B, L, T> {
    ghost use Rattle.std.specs.Prelude.{⊤};
    ghost use Rattle.run_input.specs.Arrivals.{requests_of};

    ghost given = { λ s. requests_of s.got };

    ghost ended = { λ s. s.ended };

    ghost ends_with = { λ s all. ⊤ };

    fn next(&mut self) -> Result<Option<Context>, NoMemory>
        ensures given { IfOk result (λ next.
            requests_of self.new.got ≡ requests_of self.old.got ++ option_to_list next) }
        ensures ended { IfOk result (λ next. self.new.ended ≡ (is_none next || self.old.ended)) }
        ensures whole { IfOk result (λ next. IfNone next ⊤) }
        ensures plan { (all : List Pairs) → ⊤ → ⊤ }
        ensures given_kept { OnErr result (requests_of self.new.got ≡ requests_of self.old.got) }
        ensures ended_kept { OnErr result (self.new.ended ≡ self.old.ended) }
    {
        for _ in self.arrivals.rt.forever() {
            if self.is_over() {
                break;
            }
            let rings = self.watch().rings();
            match self.hear() {
                Some(Some(context)) => {
                    self.watch().offer();
                    return Ok(Some(context));
                }
                Some(None) => {}
                None => {
                    if self.is_quiet_after(rings) {
                        break;
                    }
                }
            }
        }
        self.ended = true;
        Ok(None)
    }
}

// Fails to compile unless a source can go to another thread.
fn crosses<T: Send>() {}

// For any input, any leg and any runtime.
fn all_cross<'a, B: Input + Send + Sync, L: Leg + Send, T: Sync + 'a>() {
    crosses::<Arrivals<'a, B, T>>();
    crosses::<LegSource<'a, B, L, T>>();
}

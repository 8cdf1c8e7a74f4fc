//! The line of the numbers of a run.

ghost use Rattle.std.specs.Prelude.{◌≡◌, ◌++◌, IfOk, OnOk, string_bytes};
ghost use Rattle.sw_stats.specs.Line.{advices_text, answered_text, declined_member, declined_text};
ghost use Rattle.sw_stats.specs.Line.{others_text, per_second, stats_line, time_text};
ghost use Rattle.sw_stats.specs.Numbers.{numbers};

use crate::counts::{CodeBytes, Counts};
use std::alloc::{AllocError, Global};
use std::collections::BTreeMap;

/// What the line says beside the counts.
#[derive(Clone, Copy)]
pub struct Beside {
    /// How many messages were passed over.
    pub passed: u64,
    /// How many advices were stored.
    pub stored: u64,
    /// How long the run has taken so far.
    pub milliseconds: u64,
}

// ` declined-CODE=COUNT`
fn add_declined(
    alloc: Global,
    text: &mut Vec<u8>,
    code: &CodeBytes,
    count: u64,
) -> Result<(), AllocError>
    ensures { OnOk result (text.new.items ≡ text.old.items ++ declined_member (code.now, count)) }
{
    let number = format!(in alloc; "={count}")?;
    text.extend_from_slice(b" declined-")?;
    text.extend_from_slice(code)?;
    text.extend_from_slice(number.as_bytes())
}

// The codes in rising order, each with its count.
fn declined_text(alloc: Global, declined: &BTreeMap<CodeBytes, u64>) -> Result<Vec<u8>, AllocError>
    ensures { IfOk result (λ text. text.items ≡ declined_text declined.now.entries) }
{
    let mut text = Vec::new(alloc);
    for (code, count) in declined {
        add_declined(alloc, &mut text, code, *count)?;
    }
    Ok(text)
}

// Requests a second; less than a millisecond counts as one.
fn per_second(requests: u64, milliseconds: u64) -> u128
    ensures { result ≡ per_second requests milliseconds }
{
    requests as u128 * 1_000 / milliseconds.max(1) as u128
}

fn answered_text(alloc: Global, requests: u64, approved: u64) -> Result<String, AllocError>
    ensures { IfOk result (λ text. string_bytes text ≡ answered_text requests approved) }
{
    format!(in alloc; "cardswitch: stats: requests={requests} approved={approved}")
}

fn others_text(
    alloc: Global,
    passed: u64,
    stand_ins: u64,
    reversals: u64,
) -> Result<String, AllocError>
    ensures { IfOk result (λ text. string_bytes text ≡ others_text passed stand_ins reversals) }
{
    format!(in alloc; " passed-over={passed} stand-ins={stand_ins} reversals={reversals}")
}

fn advices_text(alloc: Global, stored: u64, delivered: u64) -> Result<String, AllocError>
    ensures { IfOk result (λ text. string_bytes text ≡ advices_text stored delivered) }
{
    format!(in alloc; " advices-stored={stored} advices-delivered={delivered}")
}

// The time and the rate, with the line feed.
fn time_text(alloc: Global, milliseconds: u64, rate: u128) -> Result<String, AllocError>
    ensures { IfOk result (λ text. string_bytes text ≡ time_text milliseconds rate) }
{
    let whole = milliseconds / 1_000;
    let (a, b, c) = (
        milliseconds / 100 % 10,
        milliseconds / 10 % 10,
        milliseconds % 10,
    );
    format!(in alloc; " seconds={whole}.{a}{b}{c} per-second={rate}\n")
}

impl Counts {
    /// The line of the numbers of a run, with its line feed: each member as `NAME=NUMBER`, in a fixed order, and
    /// for the declined requests one member for each code, in rising order. Out of memory is the only error.
    pub fn line(&self, alloc: Global, beside: Beside) -> Result<Vec<u8>, AllocError>
        ensures { IfOk result (λ line. line.items
            ≡ stats_line (numbers self.now beside) beside.milliseconds) }
    {
        let Beside {
            passed,
            stored,
            milliseconds,
        } = beside;
        let answered = answered_text(alloc, self.requests, self.approved)?;
        let declined = declined_text(alloc, &self.declined)?;
        let others = others_text(alloc, passed, self.stand_ins, self.reversals)?;
        let advices = advices_text(alloc, stored, self.delivered)?;
        let rate = per_second(self.requests, milliseconds);
        let time = time_text(alloc, milliseconds, rate)?;
        let mut line = Vec::from_slice(alloc, answered.as_bytes())?;
        line.extend_from_slice(&declined)?;
        line.extend_from_slice(others.as_bytes())?;
        line.extend_from_slice(advices.as_bytes())?;
        line.extend_from_slice(time.as_bytes())?;
        Ok(line)
    }
}

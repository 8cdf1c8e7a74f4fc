//! The lines of an image, one after the other.

ghost use Rattle.std.specs.Prelude.{ℕ, List, Result, Bool, ◌≡◌, ◌+◌, ◌<◌, ◌^◌, length, IfOk, true, false};
ghost use Rattle.flow_load.specs.declared.error.LoadError.{LoadError};
ghost use Rattle.flow_load.specs.Reads.{Exactly, GivesImage};
ghost use Rattle.flow_load.specs.LookOver.{form_over};
ghost use Rattle.flow_load.specs.Forms as spec;
ghost use Rattle.flow_load.specs.Bounds.{IsSmall};

use crate::error::LoadError;
use crate::lines::{GroupWords, ImageHeader, Lines, PartWords};
use crate::words::{kind_at, line_at, name_at, number_at, number_of, word_at, word_is};
use flow_asm::{GroupStart, Step};
use flow_model::Part;
use std::alloc::Global;
use sw_participant::{Sequence, Text};

/// A kind of lines after the first one.
pub(crate) trait Line: Drop {
    ghost form: { LoadError → List ℕ → Result (ℕ × Self) LoadError };

    /// Whether it is a participant that recovers, so that the image is of version 2.
    ghost recovers: { Self → Bool };

    /// What a line says, with its own number in front.
    fn read(alloc: Global, error: LoadError, line: &[u8]) -> Result<(usize, Self), LoadError>
        ensures { GivesImage (λ p. p) result (form error line.now) };

    /// The line's own number, and whether what it says recovers. This takes no memory.
    fn look(error: LoadError, line: &[u8]) -> Result<(usize, bool), LoadError>
        ensures { Exactly (λ p. p) result (form_over form recovers error line.now) };
}

#[tactic(auto, unfolding(crate::specs::Forms::part_form))]
fn part_line(error: LoadError, line: &[u8]) -> Result<PartWords<'_>, LoadError>
    ensures { Exactly spec.part_said result (spec.part_form error line.now) }
{
    let rest = word_is(error, b"part", line)?;
    let (number, rest) = number_at(error, rest)?;
    let (name, rest) = name_at(error, rest)?;
    let kind = kind_at(error, rest)?;
    Ok(PartWords { number, name, kind })
}

impl Line for Part {
    ghost use Rattle.flow_load.specs.Forms.{part_form};

    ghost form = { part_form };

    ghost recovers = { λ p. p.kind.recovers };

    #[tactic(auto, using(crate::proofs::ItemLoop::fails_when))]
    fn read(alloc: Global, error: LoadError, line: &[u8]) -> Result<(usize, Part), LoadError> {
        let said = part_line(error, line)?;
        let name = Text::from_str(alloc, said.name)?;
        Ok((
            said.number,
            Part {
                name,
                kind: said.kind,
            },
        ))
    }

    fn look(error: LoadError, line: &[u8]) -> Result<(usize, bool), LoadError> {
        let said = part_line(error, line)?;
        Ok((said.number, said.kind.recovers))
    }
}

#[tactic(auto, unfolding(crate::specs::Forms::group_form))]
fn group_line(error: LoadError, line: &[u8]) -> Result<GroupWords<'_>, LoadError>
    ensures { Exactly spec.group_said result (spec.group_form error line.now) }
{
    let rest = word_is(error, b"group", line)?;
    let (number, rest) = number_at(error, rest)?;
    let (name, rest) = name_at(error, rest)?;
    let first = number_of(error, rest)?;
    Ok(GroupWords {
        number,
        name,
        first,
    })
}

impl Line for GroupStart {
    ghost use Rattle.flow_load.specs.Forms.{group_form};

    ghost form = { group_form };

    ghost recovers = { λ _. false };

    #[tactic(auto, using(crate::proofs::ItemLoop::fails_when))]
    fn read(
        alloc: Global,
        error: LoadError,
        line: &[u8],
    ) -> Result<(usize, GroupStart), LoadError> {
        let said = group_line(error, line)?;
        let name = Text::from_str(alloc, said.name)?;
        Ok((
            said.number,
            GroupStart {
                name,
                first: said.first,
            },
        ))
    }

    fn look(error: LoadError, line: &[u8]) -> Result<(usize, bool), LoadError> {
        let said = group_line(error, line)?;
        Ok((said.number, false))
    }
}

fn step_named(error: LoadError, word: &[u8], participant: usize) -> Result<Step, LoadError>
    ensures { Exactly (λ s. s) result (spec.step_named error word.now participant) }
{
    if word == "call".as_bytes() {
        Ok(Step::Call(participant))
    } else if word == "pick".as_bytes() {
        Ok(Step::Pick(participant))
    } else {
        Err(error)
    }
}

#[tactic(auto, unfolding(crate::specs::Forms::step_of))]
fn step_of(error: LoadError, text: &[u8]) -> Result<Step, LoadError>
    ensures { Exactly (λ s. s) result (spec.step_of error text.now) }
{
    if text == "return".as_bytes() {
        return Ok(Step::Return);
    }
    let (word, rest) = word_at(error, text)?;
    let participant = number_of(error, rest)?;
    step_named(error, word, participant)
}

#[tactic(auto, unfolding(crate::specs::Forms::step_form))]
fn step_line(error: LoadError, line: &[u8]) -> Result<(usize, Step), LoadError>
    ensures { Exactly (λ p. p) result (spec.step_form error line.now) }
{
    let (number, rest) = number_at(error, line)?;
    let step = step_of(error, rest)?;
    Ok((number, step))
}

impl Line for Step {
    ghost use Rattle.flow_load.specs.Forms.{step_form};

    ghost form = { step_form };

    ghost recovers = { λ _. false };

    #[tactic(auto, using(crate::proofs::ItemLoop::gives_exactly))]
    fn read(_alloc: Global, error: LoadError, line: &[u8]) -> Result<(usize, Step), LoadError> {
        step_line(error, line)
    }

    fn look(error: LoadError, line: &[u8]) -> Result<(usize, bool), LoadError> {
        let (number, _) = step_line(error, line)?;
        Ok((number, false))
    }
}

#[tactic(auto, unfolding(crate::specs::Forms::header_form))]
fn header_form(line: &[u8]) -> Result<ImageHeader, LoadError>
    ensures { Exactly (λ h. h) result (spec.header_form line.now) }
{
    let rest = word_is(LoadError::BadHeader, b"image", line)?;
    let (version, rest) = number_at(LoadError::BadHeader, rest)?;
    let (retries, rest) = number_at(LoadError::BadHeader, rest)?;
    let (parts, rest) = number_at(LoadError::BadHeader, rest)?;
    let (groups, rest) = number_at(LoadError::BadHeader, rest)?;
    let steps = number_of(LoadError::BadHeader, rest)?;
    Ok(ImageHeader {
        version,
        retries,
        parts,
        groups,
        steps,
    })
}

fn is_header(h: ImageHeader) -> bool
    ensures { result ≡ spec.is_header h }
{
    (1 <= h.version && h.version <= 2)
        && ((h.retries <= 100 && h.parts <= 16_384) && (h.groups <= 256 && h.steps <= 33_024))
}

#[tactic(auto, unfolding(crate::specs::Forms::header_at))]
pub fn header_at(bytes: &[u8]) -> Result<(ImageHeader, &[u8]), LoadError>
    ensures read { Exactly (λ p. (p.0, p.1.now)) result (spec.header_at bytes.now) }
    ensures limits { IfOk result (λ p. spec.is_header p.0 ≡ true) }
{
    let (line, rest) = line_at(LoadError::BadHeader, bytes)?;
    let header = header_form(line)?;
    if is_header(header) {
        Ok((header, rest))
    } else {
        Err(LoadError::BadHeader)
    }
}

/// Refuses the line `at` unless its own number is its index among the lines of its kind.
pub fn check_number(own: usize, number: usize, at: usize) -> Result<(), LoadError>
    ensures { Exactly (λ u. u) result (spec.in_place own number at) }
{
    if own == number {
        Ok(())
    } else {
        Err(LoadError::BadNumber(at))
    }
}

// The item of this number, on the line of the number `at`, and the text after it.
#[tactic(auto, using(crate::proofs::ItemLoop::fails_when))]
fn item_at<T: Line>(
    alloc: Global,
    number: usize,
    at: usize,
    bytes: &[u8],
) -> Result<(T, &[u8]), LoadError>
    ensures { GivesImage (λ p. (p.0, p.1.now)) result (spec.line_at T.form number at bytes.now) }
{
    let (line, rest) = line_at(LoadError::BadLine(at), bytes)?;
    let (own, item) = T::read(alloc, LoadError::BadLine(at), line)?;
    check_number(own, number, at)?;
    Ok((item, rest))
}

// `count` items, from the line of the number `at` on.
fn read_items<T: Line>(
    alloc: Global,
    count: usize,
    at: usize,
    bytes: &[u8],
) -> Result<(Vec<T>, &[u8]), LoadError>
    requires { at + count < 2 ^ 32 }
    ensures read { GivesImage (λ p. (p.0.items, p.1.now)) result
        (spec.items_at T.form count 0 at bytes.now) }
    ensures count { IfOk result (λ p. length p.0.items ≡ count) }
{
    let mut items = Vec::new(alloc);
    let mut rest = bytes;
    for k in 0..count {
        let (item, after) = item_at(alloc, k, at + k, rest)?;
        items.push(item)?;
        rest = after;
    }
    Ok((items, rest))
}

/// Refuses anything after the last line.
pub fn check_rest(header: ImageHeader, rest: &[u8]) -> Result<(), LoadError>
    requires { spec.is_header header ≡ true }
    ensures { Exactly (λ u. u) result (spec.ended header rest.now) }
{
    if rest.is_empty() {
        Ok(())
    } else {
        Err(LoadError::BadLine(2 + header.parts + header.groups + header.steps))
    }
}

/// What the lines of an image say, or the first line that is not of its form.
#[tactic(auto, using(crate::proofs::ItemLoop::fails_when), unfolding(crate::specs::Forms::lines_in))]
pub fn read_lines(alloc: Global, bytes: &[u8]) -> Result<Lines, LoadError>
    ensures read { GivesImage (λ l. l) result (spec.lines_in bytes.now) }
    ensures small { IfOk result IsSmall }
{
    let (header, rest) = header_at(bytes)?;
    let (parts, rest) = read_items(alloc, header.parts, 2, rest)?;
    let (starts, rest) = read_items(alloc, header.groups, 2 + header.parts, rest)?;
    let (steps, rest) = read_items(alloc, header.steps, 2 + header.parts + header.groups, rest)?;
    check_rest(header, rest)?;
    Ok(Lines {
        version: header.version,
        retries: header.retries as u8,
        parts: Sequence::new(parts),
        starts: Sequence::new(starts),
        steps: Sequence::new(steps),
    })
}

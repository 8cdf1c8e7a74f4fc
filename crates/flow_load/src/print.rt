//! From the steps to their image.

ghost use Rattle.std.specs.Prelude.{◌≡◌, Some, IfOk, ℕ};
ghost use Rattle.flow_load.specs.Image as spec;

use flow_asm::{Code, GroupStart, Step};
use flow_model::Part;
use std::alloc::{AllocError, Global};
use std::fmt;
use sw_participant::Kind;

/// The marks of a participant as an image spells them.
pub(crate) fn kind_word(kind: Kind) -> &'static str
    ensures { result.now ≡ spec.kind_text kind }
{
    match (kind.selector, kind.abort_aware, kind.recovers) {
        (false, false, false) => "plain",
        (true, false, false) => "select",
        (false, true, false) => "aware",
        (true, true, false) => "select+aware",
        (false, false, true) => "recover",
        (true, false, true) => "select+recover",
        (false, true, true) => "aware+recover",
        (true, true, true) => "select+aware+recover",
    }
}

#[derive(Drop)]
struct PartLine<'a> {
    number: usize,
    part: &'a Part,
}

impl fmt::Display for PartLine<'_> {
    ghost output = { λ l. Some (spec.part_text l.number l.part.now) };

    fn fmt<W: fmt::Write>(&self, f: &mut fmt::Formatter<W>) -> fmt::Result {
        let number = self.number;
        let name = self.part.name.as_str();
        let kind = kind_word(self.part.kind);
        write!(f, "part {number} {name} {kind}")
    }
}

#[derive(Drop)]
struct GroupLine<'a> {
    number: usize,
    start: &'a GroupStart,
}

impl fmt::Display for GroupLine<'_> {
    ghost output = { λ l. Some (spec.group_text l.number l.start.now) };

    fn fmt<W: fmt::Write>(&self, f: &mut fmt::Formatter<W>) -> fmt::Result {
        let number = self.number;
        let name = self.start.name.as_str();
        let first = self.start.first;
        write!(f, "group {number} {name} {first}")
    }
}

#[derive(Drop)]
struct StepLine {
    number: usize,
    step: Step,
}

impl fmt::Display for StepLine {
    ghost output = { λ l. Some (spec.step_text l.number l.step) };

    fn fmt<W: fmt::Write>(&self, f: &mut fmt::Formatter<W>) -> fmt::Result {
        let number = self.number;
        match self.step {
            Step::Call(participant) => write!(f, "{number} call {participant}"),
            Step::Pick(participant) => write!(f, "{number} pick {participant}"),
            Step::Return => write!(f, "{number} return"),
        }
    }
}

// The lines of participants, numbered from 0; likewise of groups and of steps.
#[derive(Drop)]
struct PartLines<'a>(&'a [Part]);

impl fmt::Display for PartLines<'_> {
    ghost output = { λ p. Some (spec.lines_text spec.part_text 0 p.0.now) };

    fn fmt<W: fmt::Write>(&self, f: &mut fmt::Formatter<W>) -> fmt::Result {
        for (number, part) in self.0.iter().enumerate() {
            let line = PartLine { number, part };
            write!(f, "{line}\n")?;
        }
        Ok(())
    }
}

#[derive(Drop)]
struct GroupLines<'a>(&'a [GroupStart]);

impl fmt::Display for GroupLines<'_> {
    ghost output = { λ g. Some (spec.lines_text spec.group_text 0 g.0.now) };

    fn fmt<W: fmt::Write>(&self, f: &mut fmt::Formatter<W>) -> fmt::Result {
        for (number, start) in self.0.iter().enumerate() {
            let line = GroupLine { number, start };
            write!(f, "{line}\n")?;
        }
        Ok(())
    }
}

#[derive(Drop)]
struct StepLines<'a>(&'a [Step]);

impl fmt::Display for StepLines<'_> {
    ghost output = { λ s. Some (spec.lines_text spec.step_text 0 s.0.now) };

    fn fmt<W: fmt::Write>(&self, f: &mut fmt::Formatter<W>) -> fmt::Result {
        for (number, step) in self.0.iter().enumerate() {
            let step = *step;
            let line = StepLine { number, step };
            write!(f, "{line}\n")?;
        }
        Ok(())
    }
}

// 2 if a participant recovers, otherwise 1.
fn version_of(parts: &[Part]) -> usize
    ensures { result ≡ spec.version_of parts.now }
{
    for part in parts {
        if part.kind.recovers {
            return 2;
        }
    }
    1
}

// The first line.
#[derive(Drop)]
struct HeaderLine {
    version: usize,
    retries: u8,
    parts: usize,
    groups: usize,
    steps: usize,
}

impl fmt::Display for HeaderLine {
    ghost output = { λ h. Some (spec.header_text h.version h.retries h.parts h.groups h.steps) };

    fn fmt<W: fmt::Write>(&self, f: &mut fmt::Formatter<W>) -> fmt::Result {
        let HeaderLine {
            version,
            retries,
            parts,
            groups,
            steps,
        } = *self;
        write!(f, "image {version} {retries} {parts} {groups} {steps}")
    }
}

#[derive(Drop)]
struct ImageText<'a>(&'a Code);

impl fmt::Display for ImageText<'_> {
    ghost output = { λ i. Some (spec.image_of i.0.now) };

    #[tactic(auto, unfolding(crate::specs::Image::image_of))]
    fn fmt<W: fmt::Write>(&self, f: &mut fmt::Formatter<W>) -> fmt::Result {
        let code = self.0;
        let header = HeaderLine {
            version: version_of(code.participants()),
            retries: code.retries(),
            parts: code.participants().len(),
            groups: code.groups().len(),
            steps: code.steps().len(),
        };
        let parts = PartLines(code.participants());
        let groups = GroupLines(code.groups());
        let steps = StepLines(code.steps());
        write!(f, "{header}\n{parts}{groups}{steps}")
    }
}

/// The image of the steps: the lines that [`load`](crate::load) reads. The only refusal is out of
/// memory.
pub fn image(alloc: Global, code: &Code) -> Result<Vec<u8>, AllocError>
    ensures { IfOk result (λ bytes. bytes.items ≡ spec.image_of code.now) }
{
    let image = ImageText(code);
    let text = format!(in alloc; "{image}")?;
    Ok(text.into_bytes())
}

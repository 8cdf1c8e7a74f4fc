//! From an image to the steps.

ghost use Rattle.std.specs.Prelude.{◌≡◌, None, Ok, Err, IfOk};
ghost use Rattle.flow_model.specs.Check.{IsChecked, first_fault};
ghost use Rattle.flow_model.specs.declared.flow.Flow.{Flow as Shown};
ghost use Rattle.flow_load.specs.declared.error.LoadError.TheVariants.{OutOfMemory};
ghost use Rattle.flow_load.specs.Image.{image_of};
ghost use Rattle.flow_load.specs.Reads.{Fails, GivesImage};
ghost use Rattle.flow_load.specs.Load as spec;

use crate::error::LoadError;
use crate::forms::read_lines;
use crate::groups::read_flow;
use crate::look::{check_version, look_over};
use flow_asm::{Code, assemble};
use flow_model::{Flow, Part};
use std::alloc::Global;

// The line of the first participant that recovers.
fn first_recovering(parts: &[Part]) -> Option<usize>
    ensures { result ≡ spec.first_recovering 2 parts.now }
{
    for (number, part) in parts.iter().enumerate() {
        if part.kind.recovers {
            return Some(2 + number);
        }
    }
    None
}

fn check(alloc: Global, flow: &Flow) -> Result<(), LoadError>
    ensures checked { IfOk result (λ u. IsChecked flow.now) }
    ensures read { GivesImage (λ u. flow.now) result (spec.sound flow.now (first_fault flow.now)) }
{
    match flow.check_by_map(alloc)? {
        Ok(()) => Ok(()),
        Err(fault) => Err(LoadError::Flow(fault)),
    }
}

// Reads the flow whose image the bytes are.
#[tactic(auto, unfolding(crate::specs::Load::load_of))]
fn read_image(alloc: Global, bytes: &[u8]) -> Result<Flow, LoadError>
    ensures read { GivesImage (λ f. f) result (spec.load_of bytes.now) }
    ensures checked { IfOk result IsChecked }
{
    let lines = read_lines(alloc, bytes)?;
    check_version(lines.version, first_recovering(lines.parts.as_slice()))?;
    let flow = read_flow(alloc, &lines)?;
    check(alloc, &flow)?;
    Ok(flow)
}

fn read_code(alloc: Global, bytes: &[u8]) -> Result<Code, LoadError>
    ensures { GivesImage (λ code. code) result (spec.load_of bytes.now) }
{
    let flow = read_image(alloc, bytes)?;
    Ok(assemble(alloc, &flow)?)
}

// The refusal to report when reading stopped with this one. If that was out of memory, the bytes are
// looked over for a fault that is reported without memory.
fn to_report(e: LoadError, bytes: &[u8]) -> LoadError
    requires { Fails e (spec.load_of bytes.now) }
    ensures read { Fails result (spec.load_of bytes.now) }
    ensures last { result ≡ OutOfMemory → spec.line_fault bytes.now ≡ None }
{
    match e {
        LoadError::OutOfMemory => match look_over(bytes) {
            Ok(()) => LoadError::OutOfMemory,
            Err(fault) => fault,
        },
        fault => fault,
    }
}

/// The steps of the checked flow whose image the bytes are. Other bytes are refused for their first
/// fault: first each line by itself, from the first line on (`BadHeader`, `BadLine`, `BadNumber`), then
/// the version (`BadLine`, `BadHeader`), then the lines together (`BadTarget`, `NoReturn`), and last the
/// flow (`Flow`).
///
/// `OutOfMemory` is reported only if no line by itself has a fault, nor the version. It may hide a fault of
/// the lines together or of the flow, since those are found only in lines that are kept.
pub fn load(alloc: Global, bytes: &[u8]) -> Result<Code, LoadError>
    ensures exact { GivesImage (λ code. code) result (spec.load_of bytes.now) }
    ensures last { result ≡ Err OutOfMemory → spec.line_fault bytes.now ≡ None }
    ensures found { IfOk result (λ code. bytes.now ≡ image_of code) }
    ensures only { (f : Shown) → IsChecked f → bytes.now ≡ image_of f
        → GivesImage (λ code. code) result (Ok f) }
{
    match read_code(alloc, bytes) {
        Ok(code) => Ok(code),
        Err(e) => Err(to_report(e, bytes)),
    }
}

//! Looking bytes over without memory: which line has a fault by itself, and whether the version has one.

ghost use Rattle.std.specs.Prelude.{◌+◌, ◌<◌, ◌^◌};
ghost use Rattle.flow_load.specs.Reads.{Exactly};
ghost use Rattle.flow_load.specs.Load.{misversioned};
ghost use Rattle.flow_load.specs.LookOver.{items_over, line_over, lines_over};
ghost use Rattle.sw_base.specs.Refusals.{refused};

use crate::error::LoadError;
use crate::forms::{Line, check_number, check_rest, header_at};
use crate::words::line_at;
use flow_asm::{GroupStart, Step};
use flow_model::Part;

/// Refuses a version that does not fit the participants, of which the first that recovers is on the line
/// `recovering`.
pub fn check_version(version: usize, recovering: Option<usize>) -> Result<(), LoadError>
    ensures { Exactly (λ u. u) result (refused (misversioned version recovering)) }
{
    match recovering {
        None => {
            if version == 1 {
                Ok(())
            } else {
                Err(LoadError::BadHeader)
            }
        }
        Some(line) => {
            if version == 2 {
                Ok(())
            } else {
                Err(LoadError::BadLine(line))
            }
        }
    }
}

// Whether the item of this number recovers, on the line of the number `at`, and the text after it.
fn look_at<T: Line>(number: usize, at: usize, bytes: &[u8]) -> Result<(bool, &[u8]), LoadError>
    ensures { Exactly (λ p. (p.0, p.1.now)) result
        (line_over T.form T.recovers number at bytes.now) }
{
    let (line, rest) = line_at(LoadError::BadLine(at), bytes)?;
    let (own, recovers) = T::look(LoadError::BadLine(at), line)?;
    check_number(own, number, at)?;
    Ok((recovers, rest))
}

// The line of the first of `count` items that recovers, and the text after them.
fn look_items<T: Line>(
    count: usize,
    at: usize,
    bytes: &[u8],
) -> Result<(Option<usize>, &[u8]), LoadError>
    requires { at + count < 2 ^ 32 }
    ensures { Exactly (λ p. (p.0, p.1.now)) result
        (items_over T.form T.recovers count at bytes.now) }
{
    let mut recovering = None;
    let mut rest = bytes;
    for k in 0..count {
        let (recovers, after) = look_at::<T>(k, at + k, rest)?;
        recovering = recovering.or(recovers.then_some(at + k));
        rest = after;
    }
    Ok((recovering, rest))
}

/// Refuses bytes in which a line by itself has a fault, or the version.
#[tactic(auto, unfolding(crate::specs::LookOver::lines_over))]
pub fn look_over(bytes: &[u8]) -> Result<(), LoadError>
    ensures { Exactly (λ u. u) result (lines_over bytes.now) }
{
    let (header, rest) = header_at(bytes)?;
    let (recovering, rest) = look_items::<Part>(header.parts, 2, rest)?;
    let (_, rest) = look_items::<GroupStart>(header.groups, 2 + header.parts, rest)?;
    let (_, rest) = look_items::<Step>(header.steps, 2 + header.parts + header.groups, rest)?;
    check_rest(header, rest)?;
    check_version(header.version, recovering)
}

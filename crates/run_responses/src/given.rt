//! The responses of the transactions that ended, as frames.

ghost use Rattle.std.specs.Prelude.{◌≡◌, ◌++◌, ℕ, List, [], IfOk, option_map};
ghost use Rattle.sw_frame.specs.Stream.{AreFramed};
ghost use Rattle.run_responses.specs.Responses.{above, response, responses, with_response};

use crate::error::ResponseError;
use std::alloc::Global;
use std::collections::BTreeMap;
use std::ops::Bound;
use sw_context::Context;
use sw_frame::{FrameError, frame};

// What the frame of a response has, if a context has one: the header of its request, and the response.
fn content_of(alloc: Global, context: &Context) -> Result<Option<Vec<u8>>, ResponseError>
    ensures { IfOk result (λ content.
        option_map (λ v. v.items) content ≡ response context.now) }
{
    let Some(response) = context.get("response") else {
        return Ok(None);
    };
    let mut content = Vec::new(alloc);
    if let Some(header) = context.get("header") {
        content.extend_from_slice(header)?;
    }
    content.extend_from_slice(response)?;
    Ok(Some(content))
}

/// Adds the frame of the response that a context has, if it has one.
pub(crate) fn add_frame(
    alloc: Global,
    text: &mut Vec<u8>,
    id: u64,
    context: &Context,
) -> Result<(), ResponseError>
    ensures { IfOk result (λ _. (framed : List ℕ)
        × AreFramed framed (with_response (response context.now) [])
        × (text.new.items ≡ text.old.items ++ framed)) }
{
    let Some(content) = content_of(alloc, context)? else {
        return Ok(());
    };
    match frame(alloc, &content) {
        Ok(bytes) => Ok(text.extend_from_slice(&bytes)?),
        Err(FrameError::OutOfMemory) => Err(ResponseError::OutOfMemory),
        Err(_) => Err(ResponseError::Long(id)),
    }
}

/// The frames of the responses of the transactions with ids above this one, ids rising. `Long` if a response
/// with its header is longer than the 9,999 bytes that a frame may have.
pub fn text_above(
    alloc: Global,
    ended: &BTreeMap<u64, Context>,
    id: u64,
) -> Result<Vec<u8>, ResponseError>
    ensures { IfOk result (λ text. AreFramed text.items (responses (above id ended.now.entries))) }
{
    let mut text = Vec::new(alloc);
    for (number, context) in ended.range((Bound::Excluded(id), Bound::Unbounded)) {
        add_frame(alloc, &mut text, *number, context)?;
    }
    Ok(text)
}

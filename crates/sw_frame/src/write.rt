ghost use Rattle.std.specs.Prelude.{◌≡◌};
ghost use Rattle.sw_frame.specs.Feeds.{IsFrame};

use crate::digits::digits_of;
use crate::error::FrameError;
use std::alloc::Global;

/// The most bytes of a message.
const MOST_BYTES: usize = 9_999;

/// The frame of a message: its length in four digits, and its bytes. `TooLong` over 9,999 bytes.
pub fn frame(alloc: Global, message: &[u8]) -> Result<Vec<u8>, FrameError>
    ensures { IsFrame message.now result }
{
    if message.len() > MOST_BYTES {
        return Err(FrameError::TooLong);
    }
    let mut text = Vec::with_capacity(alloc, 4 + message.len())?;
    text.extend_from_slice(&digits_of(message.len() as u16))?;
    text.extend_from_slice(message)?;
    Ok(text)
}

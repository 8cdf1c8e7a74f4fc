//! How frames are read and shown.

use cli_forms::Masking;

/// How the frames of a stream are read and shown.
#[derive(Clone, Copy)]
pub struct FrameStyle {
    /// Whether what sensitive fields hold is masked.
    pub masking: Masking,
    /// How many bytes at the front of each frame are a header, which is not part of the message.
    pub header: usize,
}

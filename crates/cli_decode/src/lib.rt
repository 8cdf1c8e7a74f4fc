//! `decode`: from the frames of a stream to the fields of their messages, as text.
//!
//! Promised here: what [`decode_stream`] writes for the bytes that its input gives is the text that
//! `specs/Decoded.antt` specifies for the frames of these bytes, in whatever pieces they came: a
//! paragraph for each message, numbered from 1, or one line that says why it is refused, and a last
//! line for a bad length or an unfinished frame. It also answers whether anything was refused.
//!
//! A [`FrameStyle`] says how many bytes at the front of each frame are a header. The paragraph shows it in hexadecimal, also of a
//! message that is refused; a frame that is shorter has no bytes of a message. [`push_frame`] adds the text of one message without
//! a header, for callers that get their messages in another way.
//!
//! With [`Masking::On`](cli_forms::Masking) sensitive fields are masked, and [`masked_texts_hide`] says what a masked text shows:
//! frames with the same header whose messages differ only in what is masked have the same text.
//!
//! # What is proved
//!
//! What `decode_stream` writes for the bytes that its reader gives, where these are known, is the text
//! of `specs/Decoded.antt` for the frames of these bytes, however they came in pieces: of each frame its own
//! header, and the message after it. It answers whether anything was refused; TooManyReads only where the
//! reads are spent.
//!
//! With `Masking::On` the text is the same but for the lines of sensitive fields (`masked_line`).
//! After the same header, messages that differ in what is masked alone have the same text (`masked_texts_hide`). Of
//! field 2 the first six digits, the last four and the length show, or the length alone where it has
//! fewer than eleven digits. Of fields 35, 45, 52, 55, 64 and 128 the length shows.
//!
//! # Decisions
//!
//! - **A header is shown with `Masking::On` too**, since the switch puts no data of a card into it. A sender that does
//!   has to leave the header out of what is passed on.
//! - **`decode` prints the bare name of a refusal** (`Short`, `BadLength`, ..); `message N` counts
//!   refused messages too. Fewer than four bytes at the end are Truncated, whatever they are; K counts
//!   all bytes after the last frame. After a bad length nothing more is read.
//! - **A stream of which anything is refused ends with status 1** and one line on standard error.
#![tactic(auto)]

mod decoder;
mod laws;
mod mask;
mod masking;
mod stream;
mod style;
mod text;

pub use laws::masked_texts_hide;
pub use stream::decode_stream;
pub use style::FrameStyle;
pub use text::{push_frame, push_number};

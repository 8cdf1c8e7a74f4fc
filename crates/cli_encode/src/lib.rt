//! `encode`: from the text that `decode` prints back to frames.
//!
//! Promised here, of a text whose bytes are known: if [`encode_stream`] succeeds, the text is exactly what
//! `decode` prints for some messages, numbered from 1, and what is written is the frames of these messages, each
//! spelled as `iso_codec` writes it. A text is refused only if it is the text of no messages, or if memory, a read
//! or a write fails. A refusal names the first line that is not allowed where it is, and the frames of the
//! messages that end before it are written. [`texts_are_decoded`] says that `decode` prints the text again.
//!
//! Before each message may be a header of a fixed number of bytes, at most 64. The text gives it in hexadecimal
//! digits, and the frame has it before the message.
//!
//! # What is proved
//!
//! Of a text whose bytes are known, where `encode_stream` answers, there are valid messages whose text,
//! as `decode` prints it, is these bytes, and what is written is their frames, each with its own header, of the
//! wanted number of bytes, before the message in the spelling of `iso_codec::encode` (`encoded`). A refusal
//! of the text (`refused`) says that it is the text of no messages. So the text of messages is refused only
//! where memory, a read or a write fails. The refusal
//! gives the number of the first line at fault: the lines before it begin the text of messages, and
//! with it they do not (`IsRefusal`). The frames of the messages that end before it are written. What
//! the refusal's text says of the line is only tested. Three laws: what `decode` prints of the frames
//! of a text is that text (`texts_are_decoded`). A text has one list of messages (`texts_are_one`).
//! Where each frame of a stream has the spelling that is written, what `decode` prints of the stream is
//! a text, and its frames are these (`frames_are_encoded`).
//!
//! # Decisions
//!
//! - **A message whose header is missing is refused**, and none is made up, so that a text has one reading.
#![tactic(auto)]

mod cut;
mod encoder;
mod error;
mod explain;
mod header;
mod laws;
mod line;
mod stream;
mod text;

pub use error::{Awaited, EncodeError, Fault, TextError};
pub use laws::{frames_are_encoded, texts_are_decoded, texts_are_one};
pub use stream::encode_stream;

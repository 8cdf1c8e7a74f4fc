//! How another system writes the frames of its stream.

ghost use Rattle.std.specs.Prelude.{◌≡◌, IfOk};
ghost use Rattle.toml.specs.View.{table_view};
ghost use Rattle.dialect_toml.specs.Frames as spec;

use crate::keys::Key;
use crate::look::number_at;
use crate::words::{FrameLength, word_in};
use hex::{FromHexError, decode};
use std::alloc::{AllocError, Global};
use sw_participant::Bytes;
use toml::Table;
use toml_tables::{flag_at, table_at, text_at};

/// How another system writes the frames of its stream: a length, a header, and a message.
pub struct Frame {
    pub length: FrameLength,
    /// Whether the length counts its own bytes too.
    pub counts_itself: bool,
    /// What stands between the length and the message, at most 64 bytes. The length counts it.
    pub header: Bytes,
    /// How many bytes a message has at most, 1 to 65,535.
    pub most: u16,
}

// Written out, so that no caller proves again how its parts are dropped.
impl Drop for Frame {
    fn drop(self) {
        let Frame {
            length: _,
            counts_itself: _,
            header: _,
            most: _,
        } = self;
    }
}

fn header_of(alloc: Global, text: &str) -> Result<Bytes, AllocError>
    ensures { IfOk result (λ b. b ≡ spec.bytes_of text.now) }
{
    match decode(alloc, text.as_bytes()) {
        Ok(bytes) => Ok(Bytes::new(bytes)),
        Err(FromHexError::OutOfMemory) => Err(AllocError),
        Err(_) => Ok(Bytes::new(Vec::new(alloc))),
    }
}

fn length_of(table: &Table) -> FrameLength
    ensures { result ≡ spec.length_of (table_view table.now) }
{
    let length = word_in(FrameLength::all(), text_at(table, Key::FrameLength));
    length.unwrap_or(FrameLength::Ascii4)
}

fn frame_in(alloc: Global, table: &Table) -> Result<Frame, AllocError>
    ensures { IfOk result (λ f. f ≡ spec.frame_in (table_view table.now)) }
{
    let header = header_of(alloc, text_at(table, Key::Header))?;
    Ok(Frame {
        length: length_of(table),
        counts_itself: flag_at(table, Key::CountsItself).unwrap_or(false),
        header,
        most: number_at(table, Key::Most, 65_535).unwrap_or(9_999),
    })
}

/// The frame that a document states, if it states one.
#[tactic(auto, unfolding(crate::specs::Frames::frame_of))]
pub(crate) fn frame_of(alloc: Global, top: &Table) -> Result<Option<Frame>, AllocError>
    ensures { IfOk result (λ f. f ≡ spec.frame_of (table_view top.now)) }
{
    match table_at(top, Key::Frame) {
        Some(table) => Ok(Some(frame_in(alloc, table)?)),
        None => Ok(None),
    }
}

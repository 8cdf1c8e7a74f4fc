//! What the form of a frame amounts to.

ghost use Rattle.std.specs.Prelude.{◌≡◌, ◌<◌, ◌≤◌, ◌+◌, ◌^◌};
ghost use Rattle.dialect_frame.specs.Forms as spec;
ghost use Rattle.dialect_frame.specs.Writings.{greatest as greatest_of};

use dialect_toml::{Frame, FrameLength};

/// How many bytes a length takes.
pub fn width(length: FrameLength) -> usize
    ensures { result ≡ spec.width length }
{
    match length {
        FrameLength::Ascii4 | FrameLength::Binary4 => 4,
        FrameLength::Binary2 | FrameLength::Packed2 => 2,
    }
}

/// The greatest number that a length spells.
pub fn greatest(length: FrameLength) -> usize
    ensures { result ≡ greatest_of length }
{
    match length {
        FrameLength::Ascii4 | FrameLength::Packed2 => 9_999,
        FrameLength::Binary2 => 65_535,
        FrameLength::Binary4 => 4_294_967_295,
    }
}

fn own(form: &Frame) -> usize
    ensures result { result ≡ spec.own form.now }
    ensures small { result ≤ 4 }
{
    if form.counts_itself {
        width(form.length)
    } else {
        0
    }
}

/// How many bytes are counted beside those of the message.
pub fn beside(form: &Frame) -> usize
    ensures result { result ≡ spec.beside form.now }
    ensures small { result < 2 ^ 63 + 4 }
{
    own(form) + form.header.as_slice().len()
}

/// How many bytes stand before the message.
pub fn start(form: &Frame) -> usize
    ensures result { result ≡ spec.start form.now }
    ensures small { result < 2 ^ 63 + 4 }
{
    width(form.length) + form.header.as_slice().len()
}

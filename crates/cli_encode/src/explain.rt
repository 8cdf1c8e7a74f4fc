//! What is wrong with a line that is refused.

use crate::cut::{after, cut_at};
use crate::encoder::{Encoder, Stage, last_number};
use crate::error::{Awaited, Fault};
use crate::line::number_in;
use cli_io::Quoted;
use iso_msg::{Message, form_at};

// Why a field's number or its value is refused.
fn field_fault(message: &Message, number: u8, value: &[u8]) -> Fault {
    let last = last_number(message);
    if form_at(number).is_none() {
        Fault::UnknownField(number)
    } else if number == last {
        Fault::Repeated(number)
    } else if number < last {
        Fault::Order { number, last }
    } else {
        Fault::Value {
            number,
            found: Quoted::of(value),
            length: value.len(),
        }
    }
}

// The number of a masked field: digits and an asterisk.
fn masked_number(word: &[u8]) -> Option<u8> {
    match word {
        [digits @ .., b'*'] => number_in(digits),
        _ => None,
    }
}

// Why a line after a message's type is refused.
fn line_fault(message: &Message, line: &[u8], next: u64) -> Fault {
    let found = Quoted::of(line);
    let Some((word, value)) = cut_at(line, b' ') else {
        return Fault::Unknown { found, next };
    };
    if let Some(number) = masked_number(word) {
        return Fault::Masked(number);
    }
    match number_in(word) {
        Some(number) => field_fault(message, number, value),
        None => Fault::Unknown { found, next },
    }
}

// What an encoder awaits after a heading.
fn awaited(encoder: &Encoder) -> Awaited {
    if encoder.header.len() == encoder.size {
        Awaited::MessageType
    } else {
        Awaited::Header(encoder.size.saturating_mul(2))
    }
}

// Why a line after a heading is refused.
fn opening_fault(encoder: &Encoder, line: &[u8]) -> Fault {
    let found = Quoted::of(line);
    if encoder.size == 0 && after(line, b"header ").is_some() {
        return Fault::NoHeader { found };
    }
    Fault::Opening {
        found,
        expected: awaited(encoder),
    }
}

/// Why a text may not end where it does, after a heading.
pub fn end_fault(encoder: &Encoder) -> Fault {
    Fault::Ended(awaited(encoder))
}

/// Why an encoder has refused a line.
pub fn fault_of(encoder: &Encoder, line: &[u8]) -> Fault {
    if line.last() == Some(&b'\r') {
        return Fault::CarriageReturn;
    }
    let number = encoder.count.saturating_add(1);
    match &encoder.stage {
        Stage::Between => Fault::Heading {
            found: Quoted::of(line),
            expected: number,
        },
        Stage::Headed => opening_fault(encoder, line),
        Stage::Open(message) => line_fault(message, line, number.saturating_add(1)),
    }
}

//! Messages from the lines of a text, and their frames.

ghost use Rattle.std.specs.Prelude.{◌≡◌, ◌≤◌, ◌++◌, IfOk, length};
ghost use Rattle.cli_encode.specs.Reading as spec;
ghost use Rattle.cli_encode.specs.Frames.{AddsFrame};
ghost use Rattle.iso_codec.specs.Spelling.{spelling};

use crate::header::read_header;
use crate::line::Line;
use iso_codec::encode;
use iso_msg::{Message, MessageError, Mti};
use itoa::Buffer;
use std::alloc::{AllocError, Global};
use sw_frame::{FrameError, frame};

/// What was read of the message that is not ended yet.
#[derive(Drop)]
pub enum Stage {
    /// Nothing: no message is begun.
    Between,
    /// Its heading, and perhaps its header.
    Headed,
    /// Its type and perhaps fields; it may have more.
    Open(Message),
}

/// An encoder of a text: what the lines that were taken so far have made.
#[derive(Drop)]
pub struct Encoder {
    /// How many bytes the header before each message has.
    pub(crate) size: usize,
    pub(crate) stage: Stage,
    /// The header of the message that is begun, as far as it was read.
    pub(crate) header: Vec<u8>,
    /// How many messages are ended.
    pub(crate) count: u64,
    /// The frames of these messages.
    pub(crate) frames: Vec<u8>,
}

// A header and the message after it, as its frame has them.
fn content_of(alloc: Global, header: &[u8], message: &Message) -> Result<Vec<u8>, AllocError>
    requires { length header.now ≤ 64 }
    ensures parts { IfOk result (λ content. content.items ≡ header.now ++ spelling message.now) }
    ensures short { IfOk result (λ content. length content.items ≤ 9999) }
{
    message.is_message();
    let bytes = encode(alloc, message)?;
    let mut content = Vec::with_capacity(alloc, header.len() + bytes.len())?;
    content.extend_from_slice(header)?;
    content.extend_from_slice(&bytes)?;
    Ok(content)
}

// Adds the frame of a message, which comes after its header.
fn push_frame(
    alloc: Global,
    frames: &mut Vec<u8>,
    header: &[u8],
    message: &Message,
) -> Result<(), AllocError>
    requires { length header.now ≤ 64 }
    ensures { IfOk result (λ _.
        AddsFrame frames.old.items header.now message.now frames.new.items) }
{
    let content = content_of(alloc, header, message)?;
    match frame(alloc, &content) {
        Ok(frame) => frames.extend_from_slice(&frame),
        Err(FrameError::OutOfMemory) => Err(AllocError),
        Err(FrameError::TooLong | FrameError::BadLength) => unreachable!(),
    }
}

/// The number of the last field; 1 if there is none, since no field has that number.
pub fn last_number(message: &Message) -> u8
    ensures { result ≡ spec.last_of message.now.fields }
{
    let count = message.field_count();
    if count == 0 {
        return 1;
    }
    message.field_at(count - 1).0
}

// Adds a field after the last one. Answers whether the field is allowed there.
fn add_field(
    alloc: Global,
    message: &mut Message,
    number: u8,
    value: &[u8],
) -> Result<bool, AllocError>
    ensures { IfOk result (spec.AddsField message.old number value.now message.new) }
{
    message.is_message();
    if number <= last_number(message) {
        return Ok(false);
    }
    match message.set(alloc, number, value) {
        Ok(()) => Ok(true),
        Err(MessageError::OutOfMemory) => Err(AllocError),
        Err(_) => Ok(false),
    }
}

impl Encoder {
    ghost use Rattle.std.specs.Prelude.{◌≡◌, ◌<◌, ◌≤◌, ◌+◌, ◌^◌, IfOk, length};
    ghost use Rattle.cli_encode.specs.Reading as spec;
    ghost use Rattle.cli_encode.specs.Lines.{Field, Header, Heading, MessageType, plain_line};

    /// An encoder that has read nothing, of messages with headers of `size` bytes.
    pub fn new(alloc: Global, size: usize) -> Encoder
        ensures { spec.IsBlank size result }
    {
        Encoder {
            size,
            stage: Stage::Between,
            header: Vec::new(alloc),
            count: 0,
            frames: Vec::new(alloc),
        }
    }

    // Ends the message that was begun, if it has a type.
    fn close(&mut self, alloc: Global) -> Result<(), AllocError>
        requires room { self.old.count < 2 ^ 63 }
        requires short { length self.old.header.items ≤ 64 }
        ensures closed { IfOk result (λ _. spec.Closes self.old self.new) }
        ensures counted { self.new.count ≤ self.old.count + 1 }
        ensures short { length self.new.header.items ≤ 64 }
    {
        if let Stage::Open(message) = &self.stage {
            push_frame(alloc, &mut self.frames, &self.header, message)?;
            self.count += 1;
            self.stage = Stage::Between;
        }
        Ok(())
    }

    // Takes a heading, which ends the message before it.
    fn head(&mut self, alloc: Global, word: &[u8]) -> Result<bool, AllocError>
        requires room { self.old.count < 2 ^ 63 }
        requires short { length self.old.header.items ≤ 64 }
        ensures taken { IfOk result (spec.Takes self.old (Heading word.now) self.new) }
        ensures counted { self.new.count ≤ self.old.count + 1 }
        ensures short { length self.new.header.items ≤ 64 }
    {
        if let Stage::Headed = self.stage {
            return Ok(false);
        }
        self.close(alloc)?;
        let mut buffer = Buffer::new();
        if word != buffer.format(self.count + 1).as_bytes() {
            return Ok(false);
        }
        self.header.clear();
        self.stage = Stage::Headed;
        Ok(true)
    }

    // Takes a header, which is allowed only after a heading, and once.
    fn name(&mut self, alloc: Global, digits: &[u8]) -> Result<bool, AllocError>
        requires short { length self.old.header.items ≤ 64 }
        ensures taken { IfOk result (spec.Takes self.old (Header digits.now) self.new) }
        ensures counted { self.new.count ≡ self.old.count }
        ensures short { length self.new.header.items ≤ 64 }
    {
        let Stage::Headed = self.stage else {
            return Ok(false);
        };
        if !self.header.is_empty() {
            return Ok(false);
        }
        let Some(header) = read_header(alloc, self.size, digits)? else {
            return Ok(false);
        };
        self.header = header;
        Ok(true)
    }

    // Takes a message's type, which is allowed only after a heading and the header.
    fn begin(&mut self, alloc: Global, mti: Mti) -> bool
        ensures taken { spec.Takes self.old (MessageType mti) self.new result }
        ensures counted { self.new.count ≡ self.old.count }
        ensures same { self.new.header ≡ self.old.header }
    {
        let Stage::Headed = self.stage else {
            return false;
        };
        if self.header.len() != self.size {
            return false;
        }
        // Called only for the proof: that there are four digits.
        let _ = mti.digits();
        self.stage = Stage::Open(Message::new(alloc, mti));
        true
    }

    // Takes a field, which is allowed after the type and after fields with lower numbers.
    fn add(&mut self, alloc: Global, number: u8, value: &[u8]) -> Result<bool, AllocError>
        ensures taken { IfOk result (spec.Takes self.old (Field number value.now) self.new) }
        ensures counted { self.new.count ≡ self.old.count }
        ensures same { self.new.header ≡ self.old.header }
    {
        let Stage::Open(message) = &mut self.stage else {
            return Ok(false);
        };
        add_field(alloc, message, number, value)
    }

    /// Takes a line, and answers whether it is allowed there.
    pub fn take(&mut self, alloc: Global, line: &Line<'_>) -> Result<bool, AllocError>
        requires room { self.old.count < 2 ^ 63 }
        requires short { length self.old.header.items ≤ 64 }
        ensures taken { IfOk result (spec.Takes self.old (plain_line line.now) self.new) }
        ensures counted { self.new.count ≤ self.old.count + 1 }
        ensures short { length self.new.header.items ≤ 64 }
    {
        match line {
            Line::Heading(word) => self.head(alloc, word),
            Line::Header(digits) => self.name(alloc, digits),
            Line::MessageType(mti) => Ok(self.begin(alloc, *mti)),
            Line::Field(number, value) => self.add(alloc, *number, value.as_slice()),
        }
    }

    /// Ends the text. Answers whether it may end there: after a heading it may not.
    pub fn finish(&mut self, alloc: Global) -> Result<bool, AllocError>
        requires room { self.old.count < 2 ^ 63 }
        requires short { length self.old.header.items ≤ 64 }
        ensures { IfOk result (spec.Finishes self.old self.new) }
    {
        if let Stage::Headed = self.stage {
            return Ok(false);
        }
        self.close(alloc)?;
        Ok(true)
    }
}

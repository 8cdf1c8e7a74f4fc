//! What comes of an input.

ghost use Rattle.std.specs.Prelude.{◌≡◌, ◌<◌, ◌++◌, ◌∷◌, [], IfOk, option_to_list, vec_capacity, vec_len};
ghost use Rattle.std.specs.Prelude.{codes, map, take};
ghost use Rattle.run_input.specs.Arrivals.{IsArrivalOf, end_after, headers_of, requests_of};
ghost use Rattle.run_input.specs.Requests.{header_entry, header_of, message_in};

use crate::frames::StreamEnd;
use iso_codec::{DecodeError, decode, type_in};
use std::alloc::{AllocError, Global};
use sw_context::{Context, ContextError};
use sw_participant::NoMemory;

/// A message that is passed over, since it cannot be read.
#[derive(Drop)]
pub struct PassedOver {
    /// Its number, from 1.
    pub number: u64,
    /// The header before it. None if the frame is shorter than a header.
    pub header: Vec<u8>,
    pub error: DecodeError,
}

/// Why an input is given up.
#[derive(Drop)]
pub enum ReadError {
    OutOfMemory,
    /// The message of this number cannot be put in a context. No message causes this error.
    Request(u64, ContextError),
}

impl From<AllocError> for ReadError {
    fn from(_error: AllocError) -> ReadError {
        ReadError::OutOfMemory
    }
}

impl From<NoMemory> for ReadError {
    fn from(_error: NoMemory) -> ReadError {
        ReadError::OutOfMemory
    }
}

/// What comes of an input, in its order.
#[derive(Drop)]
pub enum Arrival {
    /// A request, in the context that it is offered in.
    Request(Context),
    /// A message that cannot be read.
    Passed(PassedOver),
    /// How the input ended, or why it was given up. Nothing comes after it.
    Ended(Result<StreamEnd, ReadError>),
}

impl Arrival {
    // Puts it where it belongs. A request is returned.
    pub(crate) fn hand_out(
        self,
        passed: &mut Vec<PassedOver>,
        end: &mut Option<Result<StreamEnd, ReadError>>,
    ) -> Option<Context>
        requires { vec_len passed.old < vec_capacity passed.old }
        ensures request { option_to_list result ≡ requests_of (self ∷ []) }
        ensures passed { map (λ p. p.header.items) passed.new.items
            ≡ map (λ p. p.header.items) passed.old.items ++ headers_of (self ∷ []) }
        ensures capacity { vec_capacity passed.new ≡ vec_capacity passed.old }
        ensures end { end.new ≡ end_after end.old self }
    {
        match self {
            Arrival::Request(context) => Some(context),
            Arrival::Passed(message) => {
                passed.push_reserved(message);
                None
            }
            Arrival::Ended(ended) => {
                *end = Some(ended);
                None
            }
        }
    }
}

// The context of a request: its header, if that has bytes, and its message.
fn request_with(alloc: Global, header: &[u8], message: &[u8]) -> Result<Context, ContextError>
    ensures { IfOk result (λ request.
        request ≡ header_entry header.now ++ (codes "request", message.now) ∷ []) }
{
    let mut request = Context::new(alloc);
    if !header.is_empty() {
        request.put("header", header)?;
    }
    request.put("request", message)?;
    Ok(request)
}

// The context that the request of this number is offered in.
fn context_of(
    alloc: Global,
    number: u64,
    header: &[u8],
    message: &[u8],
) -> Result<Context, ReadError>
    ensures { IfOk result (λ request.
        request ≡ header_entry header.now ++ (codes "request", message.now) ∷ []) }
{
    match request_with(alloc, header, message) {
        Ok(request) => Ok(request),
        Err(ContextError::OutOfMemory) => Err(ReadError::OutOfMemory),
        Err(error) => Err(ReadError::Request(number, error)),
    }
}

// The header of a frame, which has this many bytes, and the message after it. A frame that is shorter has no message.
fn split_frame(frame: &[u8], header: usize) -> (&[u8], &[u8])
    ensures header { result.0.now ≡ take header frame.now }
    ensures message { result.1.now ≡ message_in header frame.now }
{
    if header < frame.len() {
        frame.split_at(header)
    } else {
        frame.split_at(frame.len())
    }
}

// The header of a frame, which has this many bytes. A frame that is shorter has none.
fn header_in(frame: &[u8], header: usize) -> &[u8]
    ensures { result.now ≡ header_of header frame.now }
{
    if header <= frame.len() {
        &frame[..header]
    } else {
        &frame[..0]
    }
}

/// What the frame of this number is: a request, or passed over. Its message comes after a header of `header` bytes.
pub fn arrival_of(
    alloc: Global,
    number: u64,
    header: usize,
    frame: &[u8],
) -> Result<Arrival, ReadError>
    ensures { IfOk result (λ arrival. IsArrivalOf header frame.now arrival) }
{
    let (before, message) = split_frame(frame, header);
    // A message that can be read is only checked here; it is decoded where its fields are needed.
    if type_in(message).is_some() {
        return Ok(Arrival::Request(context_of(alloc, number, before, message)?));
    }
    let error = match decode(alloc, message) {
        Ok(_) => unreachable!(),
        Err(DecodeError::OutOfMemory) => return Err(ReadError::OutOfMemory),
        Err(error) => error,
    };
    Ok(Arrival::Passed(PassedOver {
        number,
        header: Vec::from_slice(alloc, header_in(frame, header))?,
        error,
    }))
}

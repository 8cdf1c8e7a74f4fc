//! The messages of the switch: what a request is for, and what is made of it.
//!
//! - [`Class`] is what a request is for, by its message type; [`ResponseCode`] is its field 39.
//!   [`fault_of`] says why a request is invalid, [`amount_of`] what the digits of field 4 spell.
//! - A transaction's context carries the request as the entry `request`, which [`request_in`]
//!   reads, and of which [`class_in`] reads only what it is for. Notes are beside it ([`note`]):
//!   `rc` (response code), `auth` (approval code), `sent` and `late` (the request went to an
//!   issuer, and its answer has not come), `standin` (the switch approved by itself) and
//!   `response`.
//! - [`response_to`], [`reversal_of`], [`authorization_advice`] and [`reversal_advice`] make from a
//!   request its response, its reversal, and the advices that issuers get later.
//!
//! `specs/` has each of them as a function of the message and the context.
//!
//! # What is proved
//!
//! What a request is for, why it is refused, and what is made of it: `class_in`, `fault_of`,
//! `response_to`, `reversal_of`, `authorization_advice` and `reversal_advice` are functions of the
//! message and the notes in its context.
//!
//! # Decisions
//!
//! - An amount of 0 is invalid in every request that has field 4, of whatever class.
#![tactic(auto)]

mod advices;
mod amount;
mod build;
mod class;
mod faults;
mod notes;
mod response;
mod response_code;
mod reversal;

pub use advices::{authorization_advice, reversal_advice};
pub use amount::amount_of;
pub use build::{copy_fields, put_field, put_part};
pub use class::{Class, class_of};
pub use faults::fault_of;
pub use notes::{
    APPROVAL, CODE, LATE, REQUEST, RESPONSE, SENT, STAND_IN, class_in, is_stand_in, note,
    note_code, request_in,
};
pub use response::{response_to, response_type};
pub use response_code::{ResponseCode, is_approved};
pub use reversal::reversal_of;

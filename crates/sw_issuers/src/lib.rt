//! The other side of the links: the simulated issuer, and the sending of stored advices.
//!
//! - [`Issuer`] is a [`sw_parts::Link`] that answers each request by a specified rule
//!   (`specs/Issuing.antt`) in the order in which the requests were sent, or answers nothing at all.
//!   It may run out of memory when a request is sent, but never when an answer is received.
//! - [`Sender`] sends an advice once, over the link of the group that the route of the card number
//!   names, and returns whether its issuer accepted it: a response with the advice's key and response
//!   code 00 came within eight receives (`specs/Delivery.antt`, `specs/Sending.antt`).
//!
//! Whether a message reaches an issuer, and whether an issuer that accepts an advice is heard, is up
//! to the link: no contract promises either of a link that is not simulated.
//!
//! # What is proved
//!
//! `Issuer` is the simulated issuer, a `Link`. Its relation `Sends` says which answer is added to those
//! that wait (`answer_to`: by the last two digits of the amount; advices are accepted). `Receives` says
//! that the first one is taken. `Sender::send` sends an advice once, over the link of its route if
//! there is one. It answers true exactly where a message with its key and response code 00 came within
//! eight receives (`Delivers`, `SendsAdvice`), memory refused after the send aside. `Issuer::receive`
//! is never refused memory.
//!
//! # Decisions
//!
//! - `Sender::send` can be out of memory before the message is sent, and none after it.
//! - The simulated issuer and the sending of advices are a crate of their own, `sw_issuers`, above the
//!   participants; the messages that participants make, `sw_messages`, are one below them.
#![tactic(auto)]

mod delivery;
mod issuer;
mod sender;
mod verdict;

pub use issuer::Issuer;
pub use sender::{GroupLink, Sender};

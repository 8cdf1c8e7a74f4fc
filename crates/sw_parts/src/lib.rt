//! The participants of the switch.
//!
//! They read the request of a transaction's context and leave notes for one another beside it, as
//! `sw_messages` has them.
//!
//! - [`CheckFields`] refuses invalid requests, [`Limits`] holds, spends and gives back the amounts
//!   of cards, [`Route`] chooses the group that asks the issuer, [`QueryIssuer`] asks it over a
//!   [`Link`]. The first message with the request's key within eight receives is the answer
//!   ([`hear`]); it is lost only if [`Memory`] is refused.
//! - [`StandIn`] decides if the issuer's answer is late, [`Reverse`] and [`Forward`] give the
//!   advices that are stored for the issuer, [`Respond`] writes the response.
//!
//! Each states what each call of a participant may do, as a relation in `specs/`. What is not named
//! there does nothing: a preparation answers that the participant is ready and does not join, and an
//! outcome has no effect. Those that never join are [`Unjoined`](sw_participant::Unjoined), and
//! [`Bystander`](sw_participant::Bystander) makes participants of them. A participant that is
//! refused memory has changed nothing.
//!
//! # What is proved
//!
//! Each participant states for each of its calls a relation in the trade's words: `ChecksFields`,
//! `Holds`/`committed`/`aborted` (limits), `ChecksRoute`/`chosen_group` (route), `Queries` (query),
//! `StandsIn` (up to its amount), `committed_advice`/`aborted_advice` (reverse), `forwarded` (forward),
//! `responded` (respond). Wherever nothing outside chooses they are functions of the request, the notes
//! in the context, and what the participant keeps. A `Link` states relations of its own for `send` and
//! `receive`. `Queries` says that the request is sent once, that the first message with its key within
//! eight receives is the answer, and what is then noted. An answer is lost only where the link's
//! receive or a call of `Memory` was refused (`Hears`, `Ends`). A participant that is refused memory
//! has changed nothing. Those that never join state only what they prepare and select (`Unjoined`), and
//! `Bystander` makes a participant of each.
//!
//! A query of a host without stand-in refuses with 91 what gets no answer (`Unanswered`); whether it
//! has one is part of what contracts see of it (`shown_query`).
//!
//! # Decisions
//!
//! - A card without a route is refused with 91, also where the request has no card number.
//! - Forward gives 0120 for any request that was stood in for, whatever its class, and otherwise 0420
//!   for a reversal. Field 38 or 39 of the request stays where the note is missing or does not fit its
//!   field.
//! - Field 90 of a reversal is put as any value, where its field takes it; it always does, as its parts
//!   have 4, 6, 10, 11 and 11 digits (that is not said by a clause of its own).
//! - A query's `DuplicateKey` cannot come: each query has a multiplexer of its own, which is
//!   empty when its request comes, so no relation names it. After the send, out of memory counts as no
//!   match, for the notes of the answer all or nothing. What hears and notes is generic in its
//!   `Memory`, so that it can claim a refusal only where a call of that was refused. Alternative: to
//!   say nothing of when an answer is lost.
//! - Of equally long prefixes the first is routed.
//! - **A commit of an authorization looks its request over for the type alone** (`class_in`), and reads
//!   no message of it: the book has the amount under the transaction's id, and a message costs an
//!   allocation a field. A reversal is read, for what it names.
//! - **What never joins is `Unjoined`**, and `Bystander` makes a participant of it: five of the eight
//!   say only what they prepare and select, and that an outcome does nothing is written and proved
//!   once. Alternative: a default body of `Participant`, which would have to be proved for every
//!   implementor's relation, or a macro that writes an `impl`, which the gate does not take.
#![tactic(auto)]

mod answers;
mod check;
mod forward;
mod limits;
mod link;
mod memory;
mod query;
mod respond;
mod reverse;
mod route;
mod stand_in;

pub use check::CheckFields;
pub use forward::Forward;
pub use limits::{Limits, asked, original};
pub use link::Link;
pub use memory::{Heap, Memory};
pub use query::{QueryIssuer, hear};
pub use respond::Respond;
pub use reverse::Reverse;
pub use route::{Route, Routing, copy_routes, route_of};
pub use stand_in::StandIn;

//! What the participants are set up with, and which has which name.

ghost use Rattle.std.specs.Prelude.{◌≡◌, ◌≤◌, codes, nat_eq};
ghost use Rattle.std.specs.List.{starts_with};
ghost use Rattle.sw_book.specs.Most.{max_limit};

use crate::participant::Simulated;
use std::alloc::{AllocError, Global};
use sw_book::Book;
use sw_issuers::Issuer;
use sw_participant::{Bystander, Sequence};
use sw_parts::{
    CheckFields, Forward, Limits, QueryIssuer, Respond, Reverse, Route, Routing, StandIn,
    copy_routes,
};

/// What the switch's participants are set up with.
#[derive(Drop)]
pub struct SimulatedSetup {
    /// What a card may spend, in minor units, at most 999,999,999,999,999.
    pub limit: u64,
    /// The greatest amount that is stood in for, in minor units.
    pub stand_in: u64,
    /// Which group of the flow asks the issuer of a card.
    pub routes: Sequence<Routing>,
    ghost within: { limit ≤ max_limit },
}

// A new book with a limit, at most the greatest one.
fn book(alloc: Global, limit: u64) -> Book
    requires { limit ≤ max_limit }
{
    match Book::new(alloc, limit) {
        Ok(book) => book,
        Err(_) => unreachable!(),
    }
}

// Whether a participant of this name asks an issuer.
fn asks_issuer(name: &str) -> bool
    ensures { result ≡ starts_with nat_eq name.now (codes "query_") }
{
    name.as_bytes().starts_with(b"query_")
}

impl SimulatedSetup {
    ghost use Rattle.std.specs.Prelude.{IfOk, option_map};
    ghost use Rattle.sw_simulated.specs.Named.{part_named, part_of};

    /// The switch's participant of a name; `None` if it has none of this name. Every `query_..` asks an issuer of its own.
    pub fn participant(&self, alloc: Global, name: &str) -> Result<Option<Simulated>, AllocError>
        ensures { IfOk result (λ part. option_map part_of part ≡ part_named name.now) }
    {
        let part = match name {
            "check" => Simulated::Check(Bystander::new(CheckFields::new(alloc))),
            "limits" => Simulated::Limits(Limits::new(alloc, book(alloc, self.limit))),
            "route" => {
                let routes = copy_routes(alloc, self.routes.as_slice())?;
                Simulated::Route(Bystander::new(Route::new(alloc, routes)))
            }
            "reverse" => Simulated::Reverse(Reverse::new(alloc)),
            "standin" => Simulated::StandIn(Bystander::new(StandIn::new(alloc, self.stand_in))),
            "forward" => Simulated::Forward(Forward::new(alloc)),
            "respond" => Simulated::Respond(Bystander::new(Respond::new(alloc))),
            _ if asks_issuer(name) => {
                let issuer = Issuer::new(alloc, false);
                Simulated::Query(Bystander::new(QueryIssuer::new(alloc, issuer, true)))
            }
            _ => return Ok(None),
        };
        Ok(Some(part))
    }
}

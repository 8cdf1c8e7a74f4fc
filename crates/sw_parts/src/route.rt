//! Which group of the flow asks the issuer of a card.

ghost use Rattle.std.specs.Prelude.{◌≡◌, List, [], IfOk, OnErr, option_map};
ghost use Rattle.sw_messages.specs.Requests.{request_in};
ghost use Rattle.sw_parts.specs.declared.route.Routing.{Routing};
ghost use Rattle.sw_parts.specs.Quiet.{PassesOver};
ghost use Rattle.sw_parts.specs.Routes.{longer, if_prefix, route_for, route_of, route_fault};
ghost use Rattle.sw_parts.specs.Routes.{ChecksRoute, group_by, chosen_group, shown_routes};

use crate::answers::{PASSES, decide};
use iso_msg::Message;
use std::alloc::{AllocError, Global};
use sw_context::Context;
use sw_messages::{CODE, Class, ResponseCode, class_of, request_in};
use sw_participant::{NoMemory, Sequence, Text, Unjoined};

/// A route: the group of the flow that asks the issuer of the cards whose numbers begin with a
/// prefix.
pub struct Routing {
    /// The first digits of the card numbers.
    pub prefix: Text,
    /// The name of the group.
    pub group: Text,
}

// Written out, so that no caller proves again how its parts are dropped.
impl Drop for Routing {
    fn drop(self) {
        let Routing {
            prefix: _,
            group: _,
        } = self;
    }
}

impl Routing {
    /// A copy of the route; the only refusal is out of memory.
    pub fn copy(&self) -> Result<Routing, AllocError>
        ensures { IfOk result (λ routing. routing ≡ self.now) }
    {
        Ok(Routing {
            prefix: self.prefix.copy()?,
            group: self.group.copy()?,
        })
    }
}

/// Copies of routes; the only refusal is out of memory.
pub fn copy_routes(alloc: Global, routes: &[Routing]) -> Result<Sequence<Routing>, AllocError>
    ensures { IfOk result (λ copy. copy ≡ routes.now) }
{
    let mut copy = Vec::new(alloc);
    for routing in routes {
        copy.push(routing.copy()?)?;
    }
    Ok(Sequence::new(copy))
}

/// Chooses the group that asks the issuer of a card: that of the longest prefix of the card number.
/// An authorization whose card has none of the prefixes is refused with 91, issuer inoperative.
pub struct Route {
    alloc: Global,
    routes: Sequence<Routing>,
}

// Written out, so that no caller proves again how its parts are dropped.
impl Drop for Route {
    fn drop(self) {
        let Route {
            alloc: _,
            routes: _,
        } = self;
    }
}

/// The one of two with the longer prefix, or the first if they are equally long.
fn longer<'a>(first: Option<&'a Routing>, second: Option<&'a Routing>) -> Option<&'a Routing>
    ensures { option_map (λ r. r.now) result
        ≡ longer (option_map (λ r. r.now) first.entry) (option_map (λ r. r.now) second.entry) }
{
    let Some(one) = first else {
        return second;
    };
    let Some(other) = second else {
        return first;
    };
    if one.prefix.as_str().len() < other.prefix.as_str().len() {
        Some(other)
    } else {
        Some(one)
    }
}

fn if_prefix<'a>(card: &[u8], routing: &'a Routing) -> Option<&'a Routing>
    ensures { option_map (λ r. r.now) result ≡ if_prefix card.now routing.now }
{
    if card.starts_with(routing.prefix.as_str().as_bytes()) {
        Some(routing)
    } else {
        None
    }
}

/// The route of a card number.
fn route_for<'a>(card: &[u8], routes: &'a [Routing]) -> Option<&'a Routing>
    ensures { option_map (λ r. r.now) result ≡ route_for card.now routes.now }
{
    let mut best = None;
    for routing in routes {
        best = longer(best, if_prefix(card, routing));
    }
    best
}

/// The route of a message, by its card number.
pub fn route_of<'a>(message: &Message, routes: &'a [Routing]) -> Option<&'a Routing>
    ensures { option_map (λ r. r.now) result ≡ route_of message.now routes.now }
{
    let card = message.get(2)?;
    route_for(card, routes)
}

fn route_fault(request: &Option<Message>, routes: &[Routing]) -> Option<ResponseCode>
    ensures { result ≡ route_fault request.now routes.now }
{
    let Some(message) = request else {
        return None;
    };
    let Some(Class::Authorization) = class_of(message.mti().digits()) else {
        return None;
    };
    match route_of(message, routes) {
        Some(_) => None,
        None => Some(ResponseCode::IssuerInoperative),
    }
}

fn chosen<'a>(request: &Option<Message>, routes: &'a [Routing]) -> &'a str
    ensures { result.now ≡ group_by request.now routes.now }
{
    let Some(message) = request else {
        return "";
    };
    let Some(Class::Authorization) = class_of(message.mti().digits()) else {
        return "";
    };
    match route_of(message, routes) {
        Some(routing) => routing.group.as_str(),
        None => "",
    }
}

impl Route {
    /// A participant that chooses by these routes. It takes no memory: `alloc` is for the messages
    /// that it reads.
    pub fn new(alloc: Global, routes: Sequence<Routing>) -> Route
        ensures { ⟦<Route as Unjoined>⟧.object result ≡ shown_routes routes }
    {
        Route { alloc, routes }
    }
}

impl Unjoined for Route {
    ghost object = { λ route. shown_routes route.routes };

    ghost prepares = { λ id o x byte p y. (rs : List Routing)
        × (o ≡ shown_routes rs) × (p ≡ o) × ChecksRoute rs x byte y };

    ghost prepares_for_abort = { λ id o x byte p y. PassesOver o x byte p y };

    ghost selects = { λ id o x text p. (rs : List Routing)
        × (o ≡ shown_routes rs) × (p ≡ o) × (text ≡ chosen_group rs x) };

    fn prepare(&mut self, id: u64, context: &mut Context) -> Result<u8, NoMemory> {
        let request = request_in(self.alloc, context)?;
        decide(route_fault(&request, self.routes.as_slice()), context)
    }

    fn prepare_for_abort(&mut self, id: u64, context: &mut Context) -> Result<u8, NoMemory> {
        Ok(PASSES)
    }

    fn select(&mut self, id: u64, context: &Context) -> Result<Text, NoMemory> {
        if context.get(CODE).is_some() {
            return Ok(Text::from_str(self.alloc, "")?);
        }
        let request = request_in(self.alloc, context)?;
        let group = chosen(&request, self.routes.as_slice());
        Ok(Text::from_str(self.alloc, group)?)
    }
}

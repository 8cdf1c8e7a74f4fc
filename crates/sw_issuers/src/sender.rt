//! The sending of stored advices, each to the issuer of its card.

ghost use Rattle.std.specs.Prelude.{◌≡◌, ◌<◌, List, map, length, IfOk, OnErr};
ghost use Rattle.sw_mux.specs.Keys.{key};
ghost use Rattle.sw_parts.specs.declared.route.Routing.{Routing};
ghost use Rattle.sw_issuers.specs.Delivery.{Delivers};
ghost use Rattle.sw_issuers.specs.Sending.{DeliversTo, link_states, repeated, SendsAdvice};

use crate::delivery::deliver;
use iso_codec::{DecodeError, decode};
use iso_msg::Message;
use std::alloc::{AllocError, Global};
use std::marker::Model;
use sw_participant::{NoMemory, Sequence, Text};
use sw_parts::{Heap, Link, Memory, Routing, route_of};

/// The link to the issuers that a group of the flow asks.
pub struct GroupLink<L: Link> {
    /// The name of the group.
    pub group: Text,
    /// The link.
    pub link: L,
}

// Written out, so that no caller proves again how its parts are dropped.
impl<L: Link + Drop> Drop for GroupLink<L> {
    fn drop(self) {
        let GroupLink { group: _, link: _ } = self;
    }
}

/// Sends advices, each over the link of the group that the route of its card number names.
/// Contracts see the routes, and each group with the state of its link.
pub struct Sender<L: Link, M: Memory = Heap> {
    alloc: Global,
    memory: M,
    routes: Sequence<Routing>,
    links: Vec<GroupLink<L>>,
}

// Written out, so that no caller proves again how its parts are dropped.
impl<L: Link + Drop, M: Memory + Drop> Drop for Sender<L, M> {
    fn drop(self) {
        let Sender {
            alloc: _,
            memory: _,
            routes: _,
            links: _,
        } = self;
    }
}

impl<L: Link, M: Memory> Model for Sender<L, M> {
    ghost use Rattle.sw_issuers.specs.Sending.{PlainSender, link_states};

    ghost Value = { PlainSender };

    ghost view = { λ s. record {
      routes = s.routes;
      links = link_states L.state s.links.items;
    } };
}

impl<L: Link> Sender<L, Heap> {
    /// A sender by these routes, over these links. It takes no memory: `alloc` is for the messages
    /// that it reads.
    pub fn new(
        alloc: Global,
        routes: Sequence<Routing>,
        links: Vec<GroupLink<L>>,
    ) -> Sender<L, Heap>
        ensures { result ≡ record {
          routes = routes;
          links = link_states L.state links.items;
        } }
    {
        Sender {
            alloc,
            memory: Heap::new(alloc),
            routes,
            links,
        }
    }
}

impl<L: Link, M: Memory> Sender<L, M> {
    /// Sends an advice once, as a repeat if `repeat` says so (the last digit of its type is then
    /// 1), and returns whether a response with its key and response code 00 came within eight
    /// receives. For bytes that are not a message, a card number without a route and a group
    /// without a link it returns `false`, and nothing is sent. Out of memory before the message is
    /// sent is the only refusal, and changes nothing; afterwards, out of memory counts as no
    /// response.
    pub fn send(&mut self, advice: &[u8], repeat: bool) -> Result<bool, NoMemory>
        ensures sent { IfOk result (λ accepted.
            SendsAdvice L.sends L.receives L.starves M.refused
            advice.now repeat self.old accepted self.new) }
        ensures kept { OnErr result (self.new ≡ self.old) }
    {
        let message = match decode(self.alloc, advice) {
            Ok(message) => message,
            Err(DecodeError::OutOfMemory) => return Err(NoMemory),
            Err(_) => return Ok(false),
        };
        let Some(routing) = route_of(&message, self.routes.as_slice()) else {
            return Ok(false);
        };
        let bytes = repeated(self.alloc, advice, repeat)?;
        let group = routing.group.as_str();
        deliver_to(
            self.alloc,
            &self.memory,
            &mut self.links,
            group,
            &bytes,
            &message,
        )
    }
}

// The bytes of an advice, under the type of a repeat if it is one.
fn repeated(alloc: Global, advice: &[u8], repeat: bool) -> Result<Vec<u8>, AllocError>
    ensures { IfOk result (λ v. v.items ≡ repeated repeat advice.now) }
{
    let mut bytes = Vec::from_slice(alloc, advice)?;
    if repeat && bytes.len() > 3 {
        bytes[3] = b'1';
    }
    Ok(bytes)
}

// Over the first link of the group, if there is one.
fn deliver_to<M: Memory, L: Link>(
    alloc: Global,
    memory: &M,
    links: &mut Vec<GroupLink<L>>,
    group: &str,
    bytes: &[u8],
    advice: &Message,
) -> Result<bool, NoMemory>
    ensures delivered { IfOk result (λ accepted.
        DeliversTo (Delivers L.sends L.receives L.starves M.refused bytes.now (key advice.now))
        group.now
        (link_states L.state links.old.items) accepted
        (link_states L.state links.new.items)) }
    ensures kept { OnErr result
        (link_states L.state links.new.items ≡ link_states L.state links.old.items) }
{
    let mut index = 0;
    while index < links.len() {
        if links[index].group.as_str() == group {
            return deliver(alloc, memory, &mut links[index].link, bytes, advice);
        }
        index += 1;
    }
    Ok(false)
}

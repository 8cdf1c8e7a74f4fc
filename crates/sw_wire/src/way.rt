//! The way to a host and back, as a link goes it.

ghost use Rattle.std.specs.Prelude.{◌≡◌, ℕ, Option, IfOk, IfSome, OnErr};
ghost use Rattle.sw_mux.specs.declared.key.Key.{Key};
ghost use Rattle.sw_wire.specs.declared.expected.Expected.{Expected};
ghost use Rattle.sw_wire.specs.declared.frame.Frame.{Frame};
ghost use Rattle.sw_wire.specs.declared.look.Look.{Look};
ghost use Rattle.sw_wire.specs.declared.moment.Moment.{Moment};
ghost use Rattle.sw_wire.specs.declared.outgoing.Awaited.{Awaited};
ghost use Rattle.sw_wire.specs.declared.sent.Sent.{Sent};
ghost use Rattle.sw_wire.specs.Ways.{AnswersLook, AnswersTo, KeyedFor, ReceivesOver, SeesLast, SendsOver};
ghost use Rattle.sw_wire.specs.Ways.{awaited_of};

use crate::expected::Expected;
use crate::frame::Frame;
use crate::look::Look;
use crate::moment::{Moment, Naps};
use crate::outgoing::{Awaited, outgoing_of};
use crate::sent::Sent;
use std::alloc::{AllocError, Global};
use sw_mux::Key;
use sw_participant::NoMemory;

/// The way to a host and back. What is done over it is proved for every way: no contract says anything of
/// the threads of a host.
///
/// A call that changes something leads from one state of the way to another, so that contracts can say that it was
/// made once.
pub trait Way: Drop {
    /// A request that is to wait for its answer, or a message without one, and the deadline if the host is asked.
    ghost enters: { Self → Option Expected → Option Moment → Self → Type 0 };

    /// The key and the frame that it was handed, and what had been seen of the host if it took the frame.
    ghost takes: { Self → Option Key → Frame → Option Sent → Self → Type 0 };

    /// The key of a request that waits no more.
    ghost forgets: { Self → Key → Self → Type 0 };

    /// What its look of that number showed of an answer that is waited for.
    ghost shows: { Self → Awaited → ℕ → Look → Type 0 };

    /// Has a request wait for its answer, after those with its key, and has the directions opened. Returns the moment
    /// from which nobody waits for the answer; `None` if the host is not asked, and then the request does not wait.
    fn enter(&mut self, expected: Option<Expected>) -> Option<Moment>
        ensures { enters self.old expected result self.new };

    /// Hands a frame to the host's thread; `None` if the frame is not on its way, and then the request with the key
    /// waits no more.
    fn send(&mut self, key: Option<Key>, frame: Frame) -> Option<Sent>
        ensures { takes self.old key frame result self.new };

    /// Has the request with the key wait no more. An answer that came for it is late.
    fn forget(&mut self, key: &Key)
        ensures { forgets self.old key.now self.new };

    /// Looks for an answer. The looks for one answer are numbered from 0, for contracts only. After one that shows
    /// that none comes the request waits no more.
    fn look(&self, awaited: &Awaited, number: u64) -> Look
        ensures shown { shows self.now awaited.now number result }
        ensures keyed { AnswersLook awaited.now result };

    /// Sleeps until the next look.
    fn nap(&self, naps: &mut Naps);

    /// Whether more than one request may be under way at the host at once.
    fn is_shared(&self) -> bool;

    /// Another way to the same host.
    fn copy(&self) -> Result<Self, AllocError>;
}

// The answer that is waited for once a frame is on its way; a message without a key has none.
fn awaited_of(key: Option<Key>, deadline: Moment, sent: Option<Sent>) -> Option<Awaited>
    ensures { result ≡ awaited_of key deadline sent }
{
    match (key, sent) {
        (Some(key), Some(sent)) => Some(Awaited {
            key,
            deadline,
            sent,
        }),
        _ => None,
    }
}

/// Sends a message, and returns the answer to wait for. No answer is waited for if the message is too long
/// for a frame, if it has no key, if the host is not asked, or if its frame is not on its way. Out of memory comes
/// before anything is sent.
pub fn send_over<W: Way>(
    way: &mut W,
    alloc: Global,
    message: &[u8],
) -> Result<Option<Awaited>, NoMemory>
    ensures sent { IfOk result (SendsOver W.enters W.takes way.old message.now way.new) }
    ensures waits { IfOk result (KeyedFor message.now) }
    ensures kept { OnErr result (way.new ≡ way.old) }
{
    let Some(outgoing) = outgoing_of(alloc, message)? else {
        return Ok(None);
    };
    let key = outgoing.key();
    let (bytes, expected) = outgoing.into_parts();
    let Some(deadline) = way.enter(expected) else {
        return Ok(None);
    };
    let sent = way.send(key, Frame { bytes, deadline });
    Ok(awaited_of(key, deadline, sent))
}

// Looks until there is more to be seen than nothing yet.
fn look_over<W: Way>(way: &W, awaited: &Awaited) -> Look
    ensures seen { SeesLast (W.shows way.now awaited.now) result }
    ensures keyed { AnswersLook awaited.now result }
{
    let mut naps = Naps::new();
    for number in 0..u64::MAX {
        let look = way.look(awaited, number);
        if !look.is_open() {
            return look;
        }
        way.nap(&mut naps);
    }
    way.look(awaited, u64::MAX)
}

/// Waits for an answer; `None` if none is waited for, or none comes.
pub fn receive_over<W: Way>(way: &W, awaited: Option<Awaited>) -> Option<Vec<u8>>
    ensures received { ReceivesOver (W.shows way.now) awaited result }
    ensures keyed { IfSome result (λ v. AnswersTo awaited v.items) }
{
    let awaited = awaited?;
    look_over(way, &awaited).into_answer()
}

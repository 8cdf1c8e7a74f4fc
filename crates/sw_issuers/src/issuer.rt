//! The simulated issuer.

ghost use Rattle.std.specs.Prelude.{◌≡◌, [], drop, length, IfOk};
ghost use Rattle.iso_msg.specs.Messages.{IsMti, value_at};
ghost use Rattle.sw_issuers.specs.Issuing.{response, approval, authorized, answer_to, answer_of};
ghost use Rattle.sw_issuers.specs.Issuing.{shown_issuer, Sends, Receives};

use crate::verdict::{Verdict, verdict_of};
use iso_codec::{DecodeError, decode, encode};
use iso_msg::{Message, Mti};
use std::alloc::Global;
use std::collections::VecDeque;
use sw_messages::{copy_fields, put_field};
use sw_participant::{Bytes, NoMemory};
use sw_parts::Link;

/// The fields that a response copies from its request.
const COPIED: [u8; 7] = [2, 3, 4, 7, 11, 41, 49];

/// A link to a simulated issuer. It decides an authorization by the last two digits of the amount,
/// accepts every advice, and answers nothing else. A silent one answers nothing at all.
pub struct Issuer {
    alloc: Global,
    silent: bool,
    waiting: VecDeque<Bytes>,
}

// Written out, so that no caller proves again how its parts are dropped.
impl Drop for Issuer {
    fn drop(self) {
        let Issuer {
            alloc: _,
            silent: _,
            waiting: _,
        } = self;
    }
}

fn response(
    alloc: Global,
    mti: &[u8; 4],
    code: &[u8],
    request: &Message,
) -> Result<Message, NoMemory>
    requires { IsMti mti.now }
    ensures { IfOk result (λ m. m ≡ response mti.now code.now request.now) }
{
    let Ok(mti) = Mti::new(mti) else {
        unreachable!()
    };
    let mut response = Message::new(alloc, mti);
    copy_fields(alloc, &COPIED, request, &mut response)?;
    put_field(alloc, &mut response, 39, Some(code))?;
    Ok(response)
}

fn approval(alloc: Global, request: &Message) -> Result<Message, NoMemory>
    ensures { IfOk result (λ m. m ≡ approval request.now) }
{
    let mut approval = response(alloc, b"0110", b"00", request)?;
    put_field(alloc, &mut approval, 38, request.get(11))?;
    Ok(approval)
}

// The last two of the twelve digits of an amount.
fn last_two(amount: &[u8]) -> &[u8]
    requires { length amount.now ≡ 12 }
    ensures { result.now ≡ drop 10 amount.now }
{
    &amount[10..]
}

fn authorized(alloc: Global, request: &Message) -> Result<Option<Message>, NoMemory>
    ensures { IfOk result (λ m. m ≡ authorized (value_at 4 request.now.fields) request.now) }
{
    let Some(amount) = request.get(4) else {
        return Ok(Some(approval(alloc, request)?));
    };
    let ending = last_two(amount);
    match verdict_of(ending) {
        Verdict::Approved => Ok(Some(approval(alloc, request)?)),
        Verdict::Refused => Ok(Some(response(alloc, b"0110", ending, request)?)),
        Verdict::Silent => Ok(None),
    }
}

fn answer_to(alloc: Global, request: &Message) -> Result<Option<Message>, NoMemory>
    ensures { IfOk result (λ m. m ≡ answer_to request.now) }
{
    let mti = request.mti();
    let digits = mti.digits();
    if digits == b"0100".as_slice() || digits == b"0101".as_slice() {
        authorized(alloc, request)
    } else if digits == b"0120".as_slice() || digits == b"0121".as_slice() {
        Ok(Some(response(alloc, b"0130", b"00", request)?))
    } else if digits == b"0420".as_slice() || digits == b"0421".as_slice() {
        Ok(Some(response(alloc, b"0430", b"00", request)?))
    } else {
        Ok(None)
    }
}

fn answer_of(alloc: Global, bytes: &[u8]) -> Result<Option<Bytes>, NoMemory>
    ensures { IfOk result (λ answer. answer ≡ answer_of bytes.now) }
{
    let request = match decode(alloc, bytes) {
        Ok(request) => request,
        Err(DecodeError::OutOfMemory) => return Err(NoMemory),
        Err(_) => return Ok(None),
    };
    let Some(answer) = answer_to(alloc, &request)? else {
        return Ok(None);
    };
    Ok(Some(Bytes::new(encode(alloc, &answer)?)))
}

impl Issuer {
    /// An issuer with no answers waiting. It takes no memory: `alloc` is for the messages that it
    /// reads and writes.
    pub fn new(alloc: Global, silent: bool) -> Issuer
        ensures { ⟦<Issuer as Link>⟧.state result ≡ shown_issuer silent [] }
    {
        Issuer {
            alloc,
            silent,
            waiting: VecDeque::new(alloc),
        }
    }
}

impl Link for Issuer {
    ghost state = { λ issuer. shown_issuer issuer.silent issuer.waiting.items };

    ghost sends = { λ s bytes t. Sends s bytes t };

    ghost receives = { λ s answer t. Receives s answer t };

    // An answer takes its memory when the request is sent.
    ghost starves = { λ s. ⊥ };

    fn send(&mut self, message: &[u8]) -> Result<(), NoMemory> {
        if self.silent {
            return Ok(());
        }
        let Some(answer) = answer_of(self.alloc, message)? else {
            return Ok(());
        };
        self.waiting.push_back(answer)?;
        Ok(())
    }

    fn receive(&mut self) -> Result<Option<Vec<u8>>, NoMemory> {
        match self.waiting.pop_front() {
            Some(answer) => Ok(Some(answer.into_vec())),
            None => Ok(None),
        }
    }
}

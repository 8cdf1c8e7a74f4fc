//! Counting the contexts of transactions that ended.

ghost use Rattle.std.specs.Prelude.{◌≡◌, IfOk, OnOk, OnErr, is_some, option_map};
ghost use Rattle.sw_stats.specs.Tallies.{code_of, is_reversal, no_tally, one_more, with_code};
ghost use Rattle.sw_stats.specs.Tallies.{with_context, with_declined, with_delivered};

use iso_codec::{DecodeError, decode};
use std::alloc::{AllocError, Global};
use std::collections::BTreeMap;
use std::marker::Model;
use sw_context::Context;
use sw_messages::{Class, RESPONSE, class_in, is_stand_in};

/// A response code: the two characters of field 39.
pub(crate) type CodeBytes = [u8; 2];

/// How requests were answered. A count that has come to `u64::MAX` stays there.
pub struct Counts {
    pub(crate) requests: u64,
    pub(crate) approved: u64,
    pub(crate) declined: BTreeMap<CodeBytes, u64>,
    pub(crate) stand_ins: u64,
    pub(crate) reversals: u64,
    pub(crate) delivered: u64,
}

// Written out, so that no caller proves again how its parts are dropped.
impl Drop for Counts {
    fn drop(self) {
        let Counts {
            requests: _,
            approved: _,
            declined: _,
            stand_ins: _,
            reversals: _,
            delivered: _,
        } = self;
    }
}

impl Model for Counts {
    ghost use Rattle.sw_stats.specs.Tallies.{Tally};

    ghost Value = { Tally };

    ghost view = { λ c. record {
      requests = c.requests;
      approved = c.approved;
      declined = c.declined.entries;
      stand_ins = c.stand_ins;
      reversals = c.reversals;
      delivered = c.delivered;
    } };
}

// The response code of the response that a context has; `None` if it has no response, or one without a code.
fn code_in(alloc: Global, context: &Context) -> Result<Option<CodeBytes>, AllocError>
    ensures { IfOk result (λ code. code ≡ code_of context.now) }
{
    let Some(response) = context.get(RESPONSE) else {
        return Ok(None);
    };
    let message = match decode(alloc, response) {
        Ok(message) => message,
        Err(DecodeError::OutOfMemory) => return Err(AllocError),
        Err(_) => return Ok(None),
    };
    let Some(code) = message.get(39) else {
        return Ok(None);
    };
    match CodeBytes::try_from(code) {
        Ok(code) => Ok(Some(code)),
        Err(_) => unreachable!(),
    }
}

fn is_reversal(context: &Context) -> bool
    ensures { result ≡ is_reversal context.now }
{
    matches!(class_in(context), Some(Class::Reversal))
}

// One more if a test says so.
fn one_more(count: u64, more: bool) -> u64
    ensures { result ≡ one_more more count }
{
    if more { count.saturating_add(1) } else { count }
}

impl Counts {
    /// Nothing counted yet. It takes no memory: `alloc` is where the codes will go.
    pub fn new(alloc: Global) -> Counts
        ensures { result ≡ no_tally }
    {
        Counts {
            requests: 0,
            approved: 0,
            declined: BTreeMap::new(alloc),
            stand_ins: 0,
            reversals: 0,
            delivered: 0,
        }
    }

    // Counts a response code other than 00.
    fn decline(&mut self, code: CodeBytes) -> Result<(), AllocError>
        ensures ok { OnOk result (self.new ≡ with_declined code self.old) }
        ensures err { OnErr result (self.new ≡ self.old) }
    {
        let count = self.declined.get(&code).copied().unwrap_or(0);
        match self.declined.insert(code, count.saturating_add(1)) {
            Ok(_) => Ok(()),
            Err(_) => Err(AllocError),
        }
    }

    // Counts a response by its code.
    fn add_code(&mut self, code: Option<CodeBytes>) -> Result<(), AllocError>
        ensures ok { OnOk result (self.new ≡ with_code code self.old) }
        ensures err { OnErr result (self.new ≡ self.old) }
    {
        match code {
            None => Ok(()),
            Some(code) if code == *b"00" => {
                self.approved = self.approved.saturating_add(1);
                Ok(())
            }
            Some(code) => self.decline(code),
        }
    }

    /// Counts the context that a transaction ended with. Out of memory is the only error, and nothing is counted
    /// then.
    pub fn count(&mut self, alloc: Global, context: &Context) -> Result<(), AllocError>
        ensures ok { OnOk result (self.new ≡ with_context context.now self.old) }
        ensures err { OnErr result (self.new ≡ self.old) }
    {
        let code = code_in(alloc, context)?;
        self.add_code(code)?;
        self.requests = self.requests.saturating_add(1);
        self.stand_ins = one_more(self.stand_ins, is_stand_in(context));
        self.reversals = one_more(self.reversals, is_reversal(context));
        Ok(())
    }

    /// Counts an advice that its issuer accepted.
    pub fn deliver(&mut self)
        ensures { self.new ≡ with_delivered self.old }
    {
        self.delivered = self.delivered.saturating_add(1);
    }

    /// How many contexts were counted.
    pub fn requests(&self) -> u64
        ensures { result ≡ self.now.requests }
    {
        self.requests
    }

    /// How many advices were accepted.
    pub fn delivered(&self) -> u64
        ensures { result ≡ self.now.delivered }
    {
        self.delivered
    }
}

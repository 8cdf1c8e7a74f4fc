//! Participants whose replies are drawn at random.

ghost use Rattle.std.specs.Prelude.{◌≡◌, ◌<◌, [], OnErr};

use rand_core::Rng;
use rand_pcg::Pcg32;
use std::alloc::Global;
use sw_context::{Context, ContextError};
use sw_participant::{
    AdviceResult, Bytes, NO_JOIN, NoMemory, PREPARED, Participant, READONLY, RETRY, Text,
};

/// A bit that no answer has.
const UNKNOWN: u8 = 0x04;

/// A participant that draws its replies at random. Each preparation appends a byte to the context's
/// entry `path`: the participant's number; each outcome appends that number with the highest bit set.
#[derive(Drop)]
pub struct Chance {
    alloc: Global,
    number: u8,
    random: Pcg32,
    // The names that it selects from.
    groups: Vec<Text>,
}

// Appends the mark to the path.
fn note(alloc: Global, context: &mut Context, mark: u8) -> Result<(), NoMemory>
    ensures { OnErr result (context.new ≡ context.old) }
{
    let mut path = Vec::from_slice(alloc, context.get("path").unwrap_or(&[]))?;
    path.push(mark)?;
    match context.put("path", path.as_slice()) {
        Err(ContextError::OutOfMemory) => Err(NoMemory),
        _ => Ok(()),
    }
}

impl Chance {
    /// The participant with this number, below 128. As a selector it selects some of these groups.
    /// Its generator is seeded with the seed and the number.
    pub fn new(alloc: Global, number: u8, groups: Vec<Text>, seed: u64) -> Chance
        requires { number < 128 }
        ensures { ⟦<Chance as Participant>⟧.object result ≡ [] }
    {
        Chance {
            alloc,
            number,
            random: Pcg32::new(seed, u64::from(number)),
            groups,
        }
    }

    // A number below the bound.
    fn draw(&mut self, bound: u32) -> u32
        requires { 0 < bound }
        ensures { result < bound }
    {
        self.random.next_u32() % bound
    }

    // The bits in one of `cases` cases, otherwise none.
    fn bits(&mut self, bits: u8, cases: u32) -> u8
        requires { 0 < cases }
    {
        if self.draw(cases) == 0 { bits } else { 0 }
    }

    // Seven of eight answers are prepared, and one of 32 is bad.
    fn answer(&mut self) -> u8 {
        (PREPARED ^ self.bits(PREPARED, 8))
            | self.bits(RETRY, 2)
            | self.bits(NO_JOIN, 4)
            | self.bits(READONLY, 4)
            | self.bits(UNKNOWN, 32)
    }

    // No name in half of all cases, otherwise one or two.
    fn choose(&mut self) -> Result<Text, NoMemory> {
        let count = self.draw(4).saturating_sub(1);
        let mut text = String::new(self.alloc);
        for _ in 0..count {
            let at = self.random.next_u32() as usize % self.groups.len().max(1);
            if let Some(name) = self.groups.get(at) {
                text.push_str(name.as_str())?;
                text.push_str(", ")?;
            }
        }
        Ok(Text::new(text))
    }

    // An advice in one of four cases.
    fn advise(&mut self) -> AdviceResult {
        if self.draw(4) > 0 {
            return Ok(None);
        }
        let body = self.random.next_u32().to_be_bytes();
        Ok(Some(Bytes::new(Vec::from_slice(self.alloc, &body)?)))
    }

    fn tell(&mut self, context: &mut Context) -> AdviceResult
        ensures { OnErr result (context.new ≡ context.old) }
    {
        let advice = self.advise()?;
        note(self.alloc, context, self.number | 0x80)?;
        Ok(advice)
    }
}

// Contracts see nothing of it, and it promises nothing.
impl Participant for Chance {
    ghost use Rattle.std.specs.Prelude.{⊤};

    ghost object = { λ chance. [] };

    ghost prepares = { λ id o x byte p y. ⊤ };

    ghost prepares_for_abort = { λ id o x byte p y. ⊤ };

    ghost selects = { λ id o x text p. ⊤ };

    ghost commits = { λ id recovering o x advice p y. ⊤ };

    ghost aborts = { λ id recovering o x advice p y. ⊤ };

    ghost recovers = { λ id commit o x p y. ⊤ };

    fn prepare(&mut self, _id: u64, context: &mut Context) -> Result<u8, NoMemory> {
        note(self.alloc, context, self.number)?;
        Ok(self.answer())
    }

    fn prepare_for_abort(&mut self, _id: u64, context: &mut Context) -> Result<u8, NoMemory> {
        note(self.alloc, context, self.number)?;
        Ok(self.answer())
    }

    fn select(&mut self, _id: u64, _context: &Context) -> Result<Text, NoMemory> {
        self.choose()
    }

    fn commit(&mut self, _id: u64, context: &mut Context, _recovering: bool) -> AdviceResult {
        self.tell(context)
    }

    fn abort(&mut self, _id: u64, context: &mut Context, _recovering: bool) -> AdviceResult {
        self.tell(context)
    }

    fn recover(&mut self, _id: u64, _context: &mut Context, _commit: bool) -> Result<(), NoMemory> {
        Ok(())
    }
}

//! The names in a selector's text, one after the other.

ghost use Rattle.std.specs.Prelude.{◌≡◌, ◌⊎◌, ◌≤◌, ◌∷◌, [], true, length, take, drop, IfSome, IfNone};
ghost use Rattle.tx_machine.specs.Names.{begins_with_name, is_gap as is_gap_of, names_of};
ghost use Rattle.tx_machine.specs.Runs.{run_of};

/// How many names of a selection count.
const MAX_NAMES: u8 = 16;

fn is_gap(byte: u8) -> bool
    ensures { result ≡ is_gap_of byte }
{
    byte == b' ' || byte == b','
}

// The text from its first name on; empty if it has none.
fn skip_gaps(text: &[u8]) -> &[u8]
    ensures names { names_of result.now ≡ names_of text.now }
    ensures begins { (result.now ≡ []) ⊎ (begins_with_name result.now ≡ true) }
{
    for (number, byte) in text.iter().enumerate() {
        if !is_gap(*byte) {
            return &text[number..];
        }
    }
    &[]
}

// How many bytes there are before the first gap.
fn run_len(text: &[u8]) -> usize
    ensures value { result ≡ run_of text.now }
    ensures within { result ≤ length text.now }
{
    for (number, byte) in text.iter().enumerate() {
        if is_gap(*byte) {
            return number;
        }
    }
    text.len()
}

// A name, and the text after it.
#[derive(Clone, Copy)]
struct FirstName<'a> {
    name: &'a [u8],
    rest: &'a [u8],
}

// The first name of a text; `None` if it has none.
#[tactic(auto, using(crate::proofs::NameRuns::names_of_run))]
fn first_name(text: &[u8]) -> Option<FirstName<'_>>
    ensures found { IfSome result (λ first.
        names_of text.now ≡ first.name.now ∷ names_of first.rest.now) }
    ensures none { IfNone result (names_of text.now ≡ []) }
{
    let text = skip_gaps(text);
    if text.is_empty() {
        return None;
    }
    let (name, rest) = text.split_at(run_len(text));
    Some(FirstName { name, rest })
}

/// Names of a selection's text, in order, as an iterator.
#[derive(Drop)]
pub struct FirstNames<'a> {
    rest: &'a [u8],
    left: u8,
}

impl<'a> Iterator for FirstNames<'a> {
    ghost use Rattle.std.specs.Prelude.{take};
    ghost use Rattle.std.specs.Iterator.{YieldsFirstRef, item_count};
    ghost use Rattle.tx_machine.specs.Names.{names_of};

    type Item = &'a [u8];

    ghost next_gives = { YieldsFirstRef (λ s. take s.left (names_of s.rest.now)) };

    ghost remaining = { item_count (λ s. take s.left (names_of s.rest.now)) };

    fn next(&mut self) -> Option<&'a [u8]> {
        if self.left == 0 {
            return None;
        }
        let first = first_name(self.rest)?;
        self.rest = first.rest;
        self.left -= 1;
        Some(first.name)
    }
}

/// The names that count in a selection's text: its first 16, known or not.
pub fn first_names(text: &str) -> FirstNames<'_>
    ensures { take result.left (names_of result.rest.now) ≡ take 16 (names_of text.now) }
{
    FirstNames {
        rest: text.as_bytes(),
        left: MAX_NAMES,
    }
}

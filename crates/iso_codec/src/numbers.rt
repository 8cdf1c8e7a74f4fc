//! A list of up to 128 numbers, which takes no memory from an allocator.

ghost use Rattle.std.specs.Prelude.{◌≡◌, ◌<◌, ◌≤◌, ◌+◌, ℕ, List, [], ◌∷◌, ◌++◌, length, take};
ghost use Rattle.iso_codec.specs.Digits.{bit, nibble};
ghost use Rattle.iso_codec.specs.Reads.{field_numbers};

use crate::bitmap::fields_of;
use std::marker::Model;

/// A list of up to 128 field numbers, with bit 1 among them if there is a second bitmap. Contracts see
/// the list.
#[derive(Drop)]
pub struct Numbers {
    list: [u8; 128],
    len: usize,
}

impl Model for Numbers {
    ghost Value = { List ℕ };

    ghost view = { λ s. take s.len s.list };

    ghost invariant = { λ s. s.len ≤ 128 };
}

impl Numbers {
    pub fn new() -> Numbers
        ensures { result ≡ [] }
    {
        Numbers {
            list: [0; 128],
            len: 0,
        }
    }

    /// The numbers without bit 1, which is not a field.
    pub fn fields(&self) -> &[u8]
        ensures { result.now ≡ field_numbers self.now }
    {
        fields_of(self.as_slice())
    }

    pub fn as_slice(&self) -> &[u8]
        ensures { result.now ≡ self.now }
    {
        &self.list[..self.len]
    }

    pub fn push(&mut self, number: u8)
        requires { length self.old < 128 }
        ensures { self.new ≡ self.old ++ number ∷ [] }
    {
        self.list[self.len] = number;
        self.len += 1;
    }

    fn push_if(&mut self, number: u8, is_set: bool)
        requires { length self.old < 128 }
        ensures pushed { self.new ≡ self.old ++ bit number is_set }
        ensures small { length self.new ≤ length self.old + 1 }
    {
        if is_set {
            self.list[self.len] = number;
            self.len += 1;
        }
    }

    /// Adds the numbers of the set bits of a hexadecimal digit, whose highest bit has this number.
    pub fn push_digit(&mut self, number: u8, digit: u8)
        requires room { length self.old < 125 }
        requires fits { number < 253 }
        ensures pushed { self.new ≡ self.old ++ nibble number digit }
        ensures small { length self.new ≤ length self.old + 4 }
    {
        self.push_if(number, digit >= 8);
        self.push_if(number + 1, digit % 8 >= 4);
        self.push_if(number + 2, digit % 4 >= 2);
        self.push_if(number + 3, digit % 2 >= 1);
    }
}

//! A field of a message, and the numbers of several.

ghost use Rattle.std.specs.Prelude.{◌≡◌, List, ℕ, map};
ghost use Rattle.std.specs.Iterator.{YieldsFirst, item_count};

use std::marker::Model;

/// A field's number and its value.
#[derive(Drop)]
pub struct Field {
    pub number: u8,
    pub value: Vec<u8>,
}

/// The numbers of a message's fields, rising. Contracts see the list of those that are to come.
#[derive(Drop)]
pub struct FieldNumbers<'a> {
    fields: &'a [Field],
}

impl<'a> Model for FieldNumbers<'a> {
    ghost Value = { List ℕ };

    ghost view = { λ s. map (λ f. f.number) s.fields.now };
}

impl<'a> FieldNumbers<'a> {
    pub(crate) fn new(fields: &'a [Field]) -> Self
        ensures { result ≡ map (λ f. f.number) fields.now }
    {
        FieldNumbers { fields }
    }
}

impl<'a> Iterator for FieldNumbers<'a> {
    type Item = u8;

    ghost next_gives = { YieldsFirst (λ numbers. numbers) };

    ghost remaining = { item_count (λ numbers. numbers) };

    fn next(&mut self) -> Option<u8> {
        let (first, others) = self.fields.split_first()?;
        self.fields = others;
        Some(first.number)
    }
}

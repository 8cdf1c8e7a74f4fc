//! What a book is about.

/// A card: the digits of field 2, the primary account number, with spaces after them up to 19
/// bytes.
#[derive(Clone, Copy, PartialEq, Eq, Hash)]
pub struct Card {
    /// The 19 bytes.
    pub digits: [u8; 19],
}

/// What distinguishes two requests of a card: the card in 19 bytes, then the terminal (field 41),
/// the STAN (field 11) and the transmission date and time (field 7).
#[derive(Clone, Copy, PartialEq, Eq, Hash)]
pub struct BookKey {
    /// The 43 bytes.
    pub bytes: [u8; 43],
}

/// How far an item has come.
#[derive(Clone, Copy, PartialEq, Eq)]
pub enum State {
    /// Held for a transaction that may commit.
    Open,
    /// Spent.
    Used,
    /// Spent and given back. Its key stays taken.
    Reversed,
}

/// An amount of a card.
#[derive(Clone, Copy)]
pub struct Item {
    /// Whose it is.
    pub card: Card,
    /// The request that it is for.
    pub key: BookKey,
    /// How much, in the unit of field 4.
    pub amount: u64,
    /// How far it has come.
    pub state: State,
}

/// What a card has spent, and what is held for it.
#[derive(Clone, Copy)]
pub struct Totals {
    /// The sum of its used items.
    pub used: u64,
    /// The sum of its open items.
    pub reserved: u64,
}

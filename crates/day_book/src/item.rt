//! What a book of days is about.

ghost use Rattle.std.specs.Prelude.{◌≡◌};
ghost use Rattle.day_book.specs.Items.{card_day, request_day};

/// How far an item has come.
#[derive(Clone, Copy)]
pub enum State {
    /// Held for a transaction that may commit.
    Open,
    /// Spent.
    Used,
    /// Nothing is held or spent, and the request stays known: the amount was given back, or the
    /// transaction was aborted by recovery.
    Reversed,
}

/// An amount of a card on a day.
#[derive(Clone, Copy)]
pub struct DayItem {
    /// Whose it is: the salted SHA-256 of the card.
    pub card: [u8; 32],
    /// The request that it is for: the salted SHA-256 of the request's key.
    pub request: [u8; 32],
    /// How much, in the unit of field 4.
    pub amount: u64,
    /// The day for which it counts, in days since 1970-01-01.
    pub day: u32,
    /// How far it has come.
    pub state: State,
}

/// A card on a day: what a limit holds for.
#[derive(Clone, Copy, PartialEq, Eq, Hash)]
pub struct CardDay {
    /// The salted SHA-256 of the card.
    pub card: [u8; 32],
    /// Days since 1970-01-01.
    pub day: u32,
}

/// A request on a day.
#[derive(Clone, Copy, PartialEq, Eq, Hash)]
pub struct RequestDay {
    /// The salted SHA-256 of the request's key.
    pub request: [u8; 32],
    /// Days since 1970-01-01.
    pub day: u32,
}

impl DayItem {
    /// The card and the day.
    pub fn card_day(&self) -> CardDay
        ensures { result ≡ card_day self.now }
    {
        CardDay {
            card: self.card,
            day: self.day,
        }
    }

    /// The request and the day.
    pub fn request_day(&self) -> RequestDay
        ensures { result ≡ request_day self.now }
    {
        RequestDay {
            request: self.request,
            day: self.day,
        }
    }
}

/// What a card has spent on a day, and what is held for it.
#[derive(Clone, Copy)]
pub struct Totals {
    /// The sum of its used items.
    pub used: u64,
    /// The sum of its open items.
    pub reserved: u64,
}

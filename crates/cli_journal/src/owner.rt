//! Whose context is shown.

ghost use Rattle.std.specs.Prelude.{◌≡◌};
ghost use Rattle.cli_journal.specs.Owners as spec;

/// Whose context is shown, by its id.
#[derive(Clone, Copy)]
pub enum Owner {
    Transaction(u64),
    Shelf(u64),
}

impl Owner {
    pub fn word(self) -> &'static str
        ensures { result.now ≡ spec.word_of self }
    {
        match self {
            Owner::Transaction(_) => "transaction",
            Owner::Shelf(_) => "shelf",
        }
    }

    pub fn id(self) -> u64
        ensures { result ≡ spec.id_of self }
    {
        match self {
            Owner::Transaction(id) | Owner::Shelf(id) => id,
        }
    }
}

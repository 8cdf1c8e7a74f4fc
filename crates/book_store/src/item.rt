//! Items, and the hashes of their cards and requests.

/// A card or a request as the file has it: the SHA-256 of the book's salt and of its bytes.
#[derive(Clone, Copy)]
pub struct Hashed {
    /// The 32 bytes.
    pub bytes: [u8; 32],
}

/// An authorization that was settled.
#[derive(Clone, Copy)]
pub struct Item {
    /// The id of its transaction, below 2^63.
    pub id: u64,
    /// Whose it is.
    pub card: Hashed,
    /// The request that it is for.
    pub request: Hashed,
    /// How much, in minor units, below 2^63.
    pub amount: u64,
    /// The day, in days since 1970-01-01 UTC.
    pub day: u32,
    /// Whether it was reversed.
    pub reversed: bool,
}

/// The cells of an item, as the statements put them.
#[derive(Clone, Copy)]
pub struct ItemCells<'a> {
    pub id: i64,
    pub card: &'a [u8],
    pub request: &'a [u8],
    pub amount: i64,
    pub day: i64,
    pub reversed: i64,
}

//! Rows of the tables, as the statements put them.

/// A row of `tx`.
#[derive(Clone, Copy)]
pub struct TxRow<'x> {
    pub id: i64,
    pub phase: i64,
    pub told: i64,
    pub doing: &'x [u8],
    pub tries: i64,
    pub context: &'x [u8],
}

/// A row of `joined`: the member at a place of a transaction, by the number of its part.
#[derive(Clone, Copy)]
pub struct JoinedRow {
    pub id: i64,
    pub place: i64,
    pub part: i64,
}

//! What a run reports.

/// What a run reports.
pub struct Report {
    /// For each session the numbers of its entries in the run: its takes, answers, choices, tolds and
    /// recovers, in order.
    pub receipts: Vec<Vec<usize>>,
    /// How many transactions ended by `done`.
    pub finished: usize,
    /// How many ended on the shelf.
    pub shelved: usize,
}

// Written out, so that no caller proves again how its parts are dropped.
impl Drop for Report {
    fn drop(self) {
        let Report {
            receipts: _,
            finished: _,
            shelved: _,
        } = self;
    }
}

//! Theorems about the writing of a history.

ghost use Rattle.journal_store.specs.Histories.{EntriesFit, HistoriesAreKept};

/// `write` takes the entries of every lawful history from a sound start.
pub fn entries_fit()
    ensures { EntriesFit }
{}

/// After each write of a history's next entries the tables represent the journal after them, and no
/// row of them is at fault: so `view` returns that journal and refuses none of its rows.
pub fn histories_are_kept()
    ensures { HistoriesAreKept }
{}

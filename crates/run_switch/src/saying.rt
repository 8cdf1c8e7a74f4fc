//! What a run reports in words.

ghost use Rattle.std.specs.Prelude.{◌≡◌, ◌≤◌, [], length, string_bytes, true, IfErr, IfOk};
ghost use Rattle.run_switch.specs.Shown.{SaysCounts, SaysNews, SaysReady, Writes, hosts_of};
ghost use Rattle.run_switch.specs.Shown.{committing_in, unfinished_in};
ghost use Rattle.run_switch.specs.Traces.{log_of};

use crate::reporter::Reporter;
use cli_io::write_whole;
use run_reports::Recovered;
use std::alloc::{AllocError, Global};
use std::io::Write;
use std::time::Clock;
use tx_history::{JournalView, Row};
use tx_machine::Phase;

// How many of these transactions are committing.
fn committing_in(rows: &[(u64, Row)]) -> usize
    ensures count { result ≡ committing_in rows.now }
    ensures some { result ≤ length rows.now }
{
    let mut count = 0;
    for (_, row) in rows {
        if matches!(row.phase, Phase::Committing) {
            count += 1;
        }
    }
    count
}

/// The unfinished transactions of a journal, by the outcome that a recovery gives them.
pub(crate) fn unfinished_in(view: &JournalView) -> Recovered
    ensures { result ≡ unfinished_in view.now }
{
    let rows = view.rows.as_slice();
    let committed = committing_in(rows);
    Recovered {
        committed,
        aborted: rows.len() - committed,
    }
}

impl<'a, E: Write, K: Clock> Reporter<'a, E, K> {
    // Writes lines. If there was no memory for them, they are lost, as when a write fails.
    fn write_words(&mut self, lines: Result<String, AllocError>)
        ensures written { IfOk lines (λ l. Writes (string_bytes l)
            (log_of E.contents self.old) (log_of E.contents self.new)) }
        ensures lost { IfErr lines (λ _. (self.new.lost ≡ true) × Writes []
            (log_of E.contents self.old) (log_of E.contents self.new)) }
        ensures words { self.new.words ≡ self.old.words }
        ensures stats { self.new.stats ≡ self.old.stats }
    {
        let Ok(lines) = lines else {
            self.lost = true;
            return;
        };
        match write_whole(self.err, lines.as_bytes()) {
            Ok(()) => {}
            Err(_) => self.lost = true,
        }
    }

    /// Writes that the run is ready, if words are wanted, and before that what it recovered.
    pub(crate) fn say_ready(&mut self, alloc: Global, recovered: Recovered)
        ensures { SaysReady self.old.words recovered
            (log_of E.contents self.old) (log_of E.contents self.new) }
    {
        let Some(words) = &self.words else {
            return;
        };
        let lines = words.ready.lines(alloc, recovered);
        self.write_words(lines);
    }

    /// Writes a line for each host whose state is not the one that was reported last, if words are wanted.
    pub fn say_news(&mut self)
        ensures says { SaysNews (hosts_of self.old.words)
            (log_of E.contents self.old) (log_of E.contents self.new) }
        ensures hosts { hosts_of self.new.words ≡ hosts_of self.old.words }
        ensures stats { self.new.stats ≡ self.old.stats }
    {
        let Some(words) = self.words.take() else {
            return;
        };
        let mut words = words;
        let lines = words.hosts.news();
        self.words = Some(words);
        self.write_words(lines);
    }

    /// Writes a line for each host, with its counts so far, if words and the numbers of the run are wanted.
    pub fn say_counts(&mut self)
        ensures { SaysCounts (hosts_of self.old.words)
            (log_of E.contents self.old) (log_of E.contents self.new) }
    {
        if self.stats.is_none() {
            return;
        }
        let Some(words) = &self.words else {
            return;
        };
        let lines = words.hosts.counts();
        self.write_words(lines);
    }
}

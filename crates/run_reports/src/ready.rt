//! That a run is ready, and what it recovered.

ghost use Rattle.std.specs.Prelude.{◌≡◌, IfOk, string_bytes};
ghost use Rattle.run_reports.specs.Ready.{hosts_text, journal_text, ready_line, ready_lines, recovered_line};

use std::alloc::{AllocError, Global};
use sw_participant::{Sequence, Text};

/// How many transactions a journal had unfinished, by their outcome.
#[derive(Clone, Copy)]
pub struct Recovered {
    /// Those that were committing, and are committed now.
    pub committed: usize,
    /// All others: they are aborted now.
    pub aborted: usize,
}

/// What a run is ready with.
pub struct Ready {
    /// The path of its flow file.
    pub flow: Text,
    /// The names of its hosts, those of simulated ones too.
    pub hosts: Sequence<Text>,
    /// The path of its journal; `None` if it is in memory.
    pub journal: Option<Text>,
    /// How many sessions it has.
    pub sessions: usize,
}

// Written out, so that no caller proves again how its parts are dropped.
impl Drop for Ready {
    fn drop(self) {
        let Ready {
            flow: _,
            hosts: _,
            journal: _,
            sessions: _,
        } = self;
    }
}

impl Ready {
    fn journal_text(&self) -> &str
        ensures { result.now ≡ journal_text self.now.journal }
    {
        match &self.journal {
            Some(path) => path.as_str(),
            None => "in memory",
        }
    }

    // The names of the hosts, each after a space.
    fn hosts_text(&self, alloc: Global) -> Result<String, AllocError>
        ensures { IfOk result (λ text. string_bytes text ≡ hosts_text self.now.hosts) }
    {
        let mut text = String::new(alloc);
        for name in self.hosts.as_slice() {
            text.push_str(" ")?;
            text.push_str(name.as_str())?;
        }
        Ok(text)
    }

    fn line(&self, alloc: Global) -> Result<String, AllocError>
        ensures { IfOk result (λ line. string_bytes line ≡ ready_line self.now) }
    {
        let (flow, journal) = (self.flow.as_str(), self.journal_text());
        let hosts = self.hosts_text(alloc)?;
        let sessions = self.sessions;
        format!(in alloc;
            "cardswitch: ready: flow {flow}, hosts{hosts}, journal {journal}, sessions {sessions}\n"
        )
    }

    fn recovered_line(&self, alloc: Global, recovered: Recovered) -> Result<String, AllocError>
        ensures { IfOk result (λ line. string_bytes line ≡ recovered_line self.now recovered) }
    {
        let journal = self.journal_text();
        let Recovered { committed, aborted } = recovered;
        format!(in alloc;
            "cardswitch: journal {journal}: recovered {committed} committed, {aborted} aborted\n"
        )
    }

    /// The line that the run is ready; before it, what it recovered of its journal, if that had unfinished
    /// transactions.
    pub fn lines(&self, alloc: Global, recovered: Recovered) -> Result<String, AllocError>
        ensures { IfOk result (λ text. string_bytes text ≡ ready_lines self.now recovered) }
    {
        if recovered.committed == 0 && recovered.aborted == 0 {
            return self.line(alloc);
        }
        let mut text = self.recovered_line(alloc, recovered)?;
        text.push_str(self.line(alloc)?.as_str())?;
        Ok(text)
    }
}

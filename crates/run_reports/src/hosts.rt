//! What is reported of the hosts of a run that are reached by streams.

ghost use Rattle.std.specs.Prelude.{◌≡◌, ◌∷◌, ◌++◌, [], IfOk, OnOk, string_bytes};
ghost use Rattle.sw_wire.specs.declared.state.HostState.TheVariants.{Reached};
ghost use Rattle.run_reports.specs.Hosts.{AreHostLines, AreNews, Reports, names_in, states_in};

use std::alloc::{AllocError, Global};
use sw_hosts::HostReport;
use sw_participant::Text;
use sw_wire::HostState;

/// A host that is reached by streams.
struct NamedHost {
    name: Text,
    report: HostReport,
    /// The state that was reported last.
    reported: HostState,
}

// Written out, so that no caller proves again how its parts are dropped.
impl Drop for NamedHost {
    fn drop(self) {
        let NamedHost {
            name: _,
            report: _,
            reported: _,
        } = self;
    }
}

impl NamedHost {
    // The line that reports its state, if another one was reported last; otherwise nothing.
    fn news(&mut self, alloc: Global) -> Result<String, AllocError>
        ensures name { self.new.name ≡ self.old.name }
        ensures news { IfOk result (λ line. Reports self.old.name
            self.old.reported self.new.reported (string_bytes line)) }
    {
        let Some(state) = self.reported.news(self.report.state()) else {
            return Ok(String::new(alloc));
        };
        self.reported = state;
        state.line(alloc, self.name.as_str(), &self.report.times())
    }
}

/// The hosts of a run that are reached by streams, in the order of the configuration.
pub struct Hosts {
    alloc: Global,
    hosts: Vec<NamedHost>,
}

// Written out, so that no caller proves again how its parts are dropped.
impl Drop for Hosts {
    fn drop(self) {
        let Hosts { alloc: _, hosts: _ } = self;
    }
}

impl Hosts {
    /// No hosts.
    pub fn new(alloc: Global) -> Hosts
        ensures { names_in result ≡ [] }
    {
        Hosts {
            alloc,
            hosts: Vec::new(alloc),
        }
    }

    /// Adds a host, of which nothing was reported yet. Out of memory is the only refusal.
    pub fn add(&mut self, name: Text, report: HostReport) -> Result<(), AllocError>
        ensures names { OnOk result (names_in self.new ≡ names_in self.old ++ name ∷ []) }
        ensures states { OnOk result (states_in self.new ≡ states_in self.old ++ Reached ∷ []) }
    {
        self.hosts.push(NamedHost {
            name,
            report,
            reported: HostState::Reached,
        })?;
        Ok(())
    }

    /// A line for each host whose state is not the one that was reported last. From now on it is, even if memory is
    /// refused and the lines are lost.
    pub fn news(&mut self) -> Result<String, AllocError>
        ensures names { names_in self.new ≡ names_in self.old }
        ensures news { IfOk result (λ text. AreNews (names_in self.old) (string_bytes text)) }
    {
        let mut text = String::new(self.alloc);
        for host in self.hosts.iter_mut() {
            let line = host.news(self.alloc)?;
            text.push_str(line.as_str())?;
        }
        Ok(text)
    }

    /// A line for each host, with its counts so far.
    pub fn counts(&self) -> Result<String, AllocError>
        ensures { IfOk result (λ text. AreHostLines (names_in self.now) (string_bytes text)) }
    {
        let mut lines = String::new(self.alloc);
        for host in self.hosts.as_slice() {
            let line = host.report.counts().line(self.alloc, host.name.as_str())?;
            lines.push_str(line.as_str())?;
        }
        Ok(lines)
    }
}

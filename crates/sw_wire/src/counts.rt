//! What was lost between a host and its links, what was not sent and what was not answered.

ghost use Rattle.std.specs.Prelude.{◌≡◌, IfOk, string_bytes};
ghost use Rattle.sw_wire.specs.HostLine.{asked_text, host_line, lost_text};

use std::alloc::{AllocError, Global};

/// What was lost between a host and its links, what was not sent and what was not answered, since the
/// host was started.
#[derive(Clone, Copy, Debug, PartialEq, Eq)]
pub struct Counts {
    /// Messages that came when no link waited for them, or none did any more.
    pub late: u64,
    /// Messages that could not be read or have no key, and those for which there was no memory.
    pub unreadable: u64,
    /// Messages that were to be sent, and not written: they were too late, a direction was closed, or 64 waited
    /// already.
    pub dropped: u64,
    /// Messages that were not sent, because the host was paused.
    pub unasked: u64,
    /// Echo tests that were written.
    pub tests: u64,
    /// Echo tests that the host did not answer, so that its direction was closed.
    pub unanswered: u64,
}

impl Counts {
    // What was not sent, and the echo tests.
    fn asked_text(&self, alloc: Global, name: &str) -> Result<String, AllocError>
        ensures { IfOk result (λ text. string_bytes text ≡ asked_text name.now self.now) }
    {
        let (unasked, tests, unanswered) = (self.unasked, self.tests, self.unanswered);
        format!(in alloc;
            "cardswitch: host {name}: not-asked={unasked} echo-tests={tests} unanswered={unanswered}"
        )
    }

    // What was lost, with the line feed.
    fn lost_text(&self, alloc: Global) -> Result<String, AllocError>
        ensures { IfOk result (λ text. string_bytes text ≡ lost_text self.now) }
    {
        let (late, unreadable, dropped) = (self.late, self.unreadable, self.dropped);
        format!(in alloc; " late={late} unreadable={unreadable} dropped={dropped}\n")
    }

    /// The line of the counts of the host with this name.
    pub fn line(&self, alloc: Global, name: &str) -> Result<String, AllocError>
        ensures { IfOk result (λ line. string_bytes line ≡ host_line name.now self.now) }
    {
        let mut line = self.asked_text(alloc, name)?;
        line.push_str(self.lost_text(alloc)?.as_str())?;
        Ok(line)
    }
}

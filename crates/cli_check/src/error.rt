//! Why a flow and a configuration are not taken together.

ghost use Rattle.std.specs.Prelude.{◌≡◌};
ghost use Rattle.cli_check.specs.declared.error.CheckError.TheVariants.{OutOfMemory};

use std::alloc::{AllocError, AllocFailed};
use std::fmt;
use sw_participant::Text;
use sw_rules::{Finding, Rule};
use thiserror::Error;

/// A name in `allow` that no rule has.
#[derive(Drop)]
pub struct UnknownRule {
    /// The path of the configuration file.
    pub path: Text,
    pub name: Text,
    /// The rule that was probably meant.
    pub nearest: Option<Text>,
}

/// The mistakes of a flow and a configuration.
#[derive(Drop)]
pub struct Mistakes {
    /// The path of the flow file.
    pub flow: Text,
    /// The path of the configuration file; without one the mistakes of the switch's own routes are the flow's.
    pub config: Option<Text>,
    /// Whether the routes are the switch's own.
    pub has_own_routes: bool,
    pub found: Vec<Finding>,
}

/// Why a flow and a configuration are not taken together.
#[derive(Drop, Error)]
pub enum CheckError {
    /// No memory was left.
    #[error("out of memory")]
    OutOfMemory,
    /// The configuration allows a rule that there is not.
    #[error("{0}")]
    UnknownRule(UnknownRule),
    /// There are mistakes.
    #[error("{0}")]
    Mistakes(Mistakes),
}

/// The names of all rules, for a message.
#[derive(Drop)]
struct Known;

impl fmt::Display for Known {
    fn fmt<W: fmt::Write>(&self, f: &mut fmt::Formatter<W>) -> fmt::Result {
        let mut gap = "";
        for rule in Rule::all() {
            write!(f, "{gap}{rule}")?;
            gap = ", ";
        }
        Ok(())
    }
}

impl fmt::Display for UnknownRule {
    fn fmt<W: fmt::Write>(&self, f: &mut fmt::Formatter<W>) -> fmt::Result {
        let (path, name) = (self.path.as_str(), self.name.as_str());
        write!(
            f,
            "{path}: run: key allow has an unknown rule: expected one of {Known}; found {name}"
        )?;
        match &self.nearest {
            Some(near) => write!(f, "; the nearest is {}", near.as_str()),
            None => Ok(()),
        }
    }
}

impl Mistakes {
    // Whose route a mistake is of, if it is of one that no file states.
    fn whose(&self, finding: &Finding) -> &'static str {
        if self.has_own_routes && !finding.is_of_flow() {
            "the switch's own "
        } else {
            ""
        }
    }

    // The path of the file in which a mistake stands.
    fn path_of(&self, finding: &Finding) -> &str {
        match &self.config {
            Some(config) if !finding.is_of_flow() => config.as_str(),
            _ => self.flow.as_str(),
        }
    }
}

// A line for each mistake. Each line but the first begins as the first does where it is reported.
impl fmt::Display for Mistakes {
    fn fmt<W: fmt::Write>(&self, f: &mut fmt::Formatter<W>) -> fmt::Result {
        let mut gap = "";
        for finding in self.found.as_slice() {
            let (path, whose) = (self.path_of(finding), self.whose(finding));
            write!(f, "{gap}{path}: {whose}{finding}")?;
            gap = "\ncardswitch: ";
        }
        Ok(())
    }
}

// By hand: a person is shown the same text, and a derived `fmt` is slow to prove.
impl fmt::Debug for CheckError {
    fn fmt<W: fmt::Write>(&self, f: &mut fmt::Formatter<W>) -> fmt::Result {
        fmt::Display::fmt(self, f)
    }
}

impl From<AllocError> for CheckError {
    ghost from_gives = { λ _ f. f ≡ OutOfMemory };

    fn from(_error: AllocError) -> CheckError {
        CheckError::OutOfMemory
    }
}

impl<T: Drop> From<AllocFailed<T>> for CheckError {
    ghost from_gives = { λ _ f. f ≡ OutOfMemory };

    fn from(_error: AllocFailed<T>) -> CheckError {
        CheckError::OutOfMemory
    }
}

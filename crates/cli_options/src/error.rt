//! Why a command line gives no options.
ghost use Rattle.std.specs.Prelude.{◌≡◌, ◌==◌, not};
ghost use Rattle.cli_options.specs.Conversion.{Carries};
ghost use Rattle.cli_options.specs.Refusal.{kind_status, status_of};
ghost use Rattle.cli_options.specs.declared.error.OptionsError.TheVariants.{OutOfMemory};

use clap::error::ErrorKind;
use cli_io::Quoted;
use std::alloc::AllocError;
use std::fmt;
use thiserror::Error;

/// Why a command line gives no options. Each text ends in a line feed.
#[derive(Drop, Error)]
pub enum OptionsError {
    /// Words that the table refuses, or a wish for help or the version. The text is clap's.
    #[error("{0}")]
    BadCommandLine(clap::Error),
    /// Words that name no subcommand.
    #[error("error: a subcommand was expected; try '--help'\n")]
    NoSubcommand,
    /// The text of an option is not the number that it takes.
    #[error("error: invalid value {found} for '--{name} <N>': expected {expected}\n")]
    BadNumber {
        name: &'static str,
        expected: &'static str,
        found: Quoted,
    },
    /// The value of `--trace` is not a form of the trace.
    #[error("error: invalid value {0} for '--trace <FORM>': expected text or json\n")]
    BadForm(Quoted),
    /// `recode` is given no profile file, or two.
    #[error("error: expected one of '--from <FILE>' and '--to <FILE>'\n")]
    OneProfile,
    /// No memory was left to read the words.
    #[error("error: out of memory\n")]
    OutOfMemory,
}

// A person is shown the same text.
impl fmt::Debug for OptionsError {
    fn fmt<W: fmt::Write>(&self, f: &mut fmt::Formatter<W>) -> fmt::Result {
        fmt::Display::fmt(self, f)
    }
}

impl OptionsError {
    /// The program's exit status: 0 if the text is the help or the version, 2 for a bad command
    /// line, 4 for out of memory.
    pub fn status(&self) -> u8
        ensures { result ≡ status_of self.now }
    {
        match self {
            OptionsError::BadCommandLine(error) => kind_status(error.kind()),
            OptionsError::NoSubcommand
            | OptionsError::BadNumber { .. }
            | OptionsError::BadForm(_)
            | OptionsError::OneProfile => 2,
            OptionsError::OutOfMemory => 4,
        }
    }

    /// Whether the text goes to standard error. Help and the version go to standard output.
    pub fn use_stderr(&self) -> bool
        ensures { result ≡ not (status_of self.now == 0) }
    {
        self.status() != 0
    }
}

/// The status of clap's refusals of this kind.
fn kind_status(kind: ErrorKind) -> u8
    ensures { result ≡ kind_status kind }
{
    match kind {
        ErrorKind::DisplayHelp | ErrorKind::DisplayVersion => 0,
        _ => 2,
    }
}

impl From<AllocError> for OptionsError {
    ghost from_gives = { λ _ r. r ≡ OutOfMemory };

    fn from(_error: AllocError) -> OptionsError {
        OptionsError::OutOfMemory
    }
}

impl From<clap::Error> for OptionsError {
    ghost from_gives = { Carries };

    fn from(error: clap::Error) -> OptionsError {
        match error.kind() {
            ErrorKind::OutOfMemory => OptionsError::OutOfMemory,
            _ => OptionsError::BadCommandLine(error),
        }
    }
}

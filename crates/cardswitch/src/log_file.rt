//! Where the log of a run goes.

ghost use Rattle.std.specs.Prelude.{IfErr};
ghost use Rattle.cardswitch.specs.Runs.{IsLogFault};

use crate::error::RunError;
use std::alloc::Global;
use std::fs::{File, OpenOptions};
use std::io::{self, Stderr, Write};
use sw_participant::Text;

/// Where a run writes besides its responses.
#[derive(Drop)]
pub enum Sink {
    /// Standard error.
    Reporter(Stderr),
    /// A file, at its end.
    File(File),
    /// What is written is not kept.
    Nowhere,
}

impl Write for Sink {
    fn write(&mut self, buf: &[u8]) -> io::Result<usize> {
        match self {
            Sink::Reporter(writer) => writer.write(buf),
            Sink::File(file) => file.write(buf),
            Sink::Nowhere => Ok(buf.len()),
        }
    }

    fn flush(&mut self) -> io::Result<()> {
        match self {
            Sink::Reporter(writer) => writer.flush(),
            Sink::File(file) => file.flush(),
            Sink::Nowhere => Ok(()),
        }
    }
}

// The error of a file that is not opened as a log.
fn refusal(alloc: Global, path: &str, cause: io::Error) -> RunError
    ensures { IsLogFault path.now result }
{
    match Text::from_str(alloc, path) {
        Ok(path) => RunError::LogFile { path, cause },
        Err(_) => RunError::OutOfMemory,
    }
}

/// Opens the log at a path, to which lines are added. If there is no file, one is made; `-` is standard error.
pub fn open_log(alloc: Global, rt: &HostRuntime, path: &str) -> Result<Sink, RunError>
    ensures { IfErr result (IsLogFault path.now) }
{
    if path == "-" {
        return Ok(Sink::Reporter(rt.stderr()));
    }
    let mut options = OpenOptions::new();
    options.append(true);
    options.create(true);
    match options.open(rt, path) {
        Ok(file) => Ok(Sink::File(file)),
        Err(cause) => Err(refusal(alloc, path, cause)),
    }
}

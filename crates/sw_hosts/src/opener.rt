//! How the directions of a host are opened.

ghost use Rattle.std.specs.Prelude.{◌≡◌, true};
ghost use Rattle.std.specs.Fs.{new_options, with_read, with_write};

use std::fs::{File, OpenOptions};
use std::io::{self, Read, Write};
use std::rt::Files;

/// Opens the direction to a host, each time it is ordered to.
pub trait OpenWriter: Drop {
    /// Where the frames are written.
    type Writer: Write + Drop + Send + 'static;

    /// Opens it anew. It may wait as long as it likes: only the host's own thread calls it.
    fn open(&mut self) -> io::Result<Self::Writer>;
}

/// Opens the direction from a host, each time it is ordered to.
pub trait OpenReader: Drop {
    /// Where the frames are read.
    type Reader: Read + Drop + Send + 'static;

    /// Opens it anew. It may wait as long as it likes: only the host's own thread calls it.
    fn open(&mut self) -> io::Result<Self::Reader>;
}

// To write to what is there: nothing is created or truncated.
fn for_writing() -> OpenOptions
    ensures { result ≡ with_write new_options true }
{
    let mut options = OpenOptions::new();
    options.write(true);
    options
}

// To read what is there.
fn for_reading() -> OpenOptions
    ensures { result ≡ with_read new_options true }
{
    let mut options = OpenOptions::new();
    options.read(true);
    options
}

/// A path that is opened for writing, such as a named pipe. It is neither created nor truncated.
#[derive(Drop)]
pub struct WritePath<R: Files<File = File> + Drop> {
    rt: R,
    path: String,
}

impl<R: Files<File = File> + Drop> WritePath<R> {
    /// An opener of this path.
    pub fn new(rt: R, path: String) -> WritePath<R>
        ensures { result.path ≡ path }
    {
        WritePath { rt, path }
    }
}

impl<R: Files<File = File> + Drop> OpenWriter for WritePath<R> {
    type Writer = File;

    fn open(&mut self) -> io::Result<File> {
        self.rt.open_file(&for_writing(), self.path.as_str())
    }
}

/// A path that is opened for reading, such as a named pipe.
#[derive(Drop)]
pub struct ReadPath<R: Files<File = File> + Drop> {
    rt: R,
    path: String,
}

impl<R: Files<File = File> + Drop> ReadPath<R> {
    /// An opener of this path.
    pub fn new(rt: R, path: String) -> ReadPath<R>
        ensures { result.path ≡ path }
    {
        ReadPath { rt, path }
    }
}

impl<R: Files<File = File> + Drop> OpenReader for ReadPath<R> {
    type Reader = File;

    fn open(&mut self) -> io::Result<File> {
        self.rt.open_file(&for_reading(), self.path.as_str())
    }
}

//! An input recoded by the profile file that an option names.

ghost use Rattle.std.specs.Prelude.{IfErr, IfOk, OnOk, false};
ghost use Rattle.std.specs.Io.KnownBytes.{Keeps};
ghost use Rattle.iso_dialect.specs.declared.profile.Peer.TheVariants.{Acquirer};
ghost use Rattle.cli_recode.specs.Inputs.{IsInputError, IsLoadError, IsRecodedInput};
ghost use Rattle.cli_recode.specs.Profiles.{IsOfAFile};

use crate::error::{InputError, InputRefusal, ProfileLoadError};
use crate::message::Way;
use crate::profile::profile_at;
use crate::stream::recode_stream;
use cli_io::{Input, IoError};
use dialect_toml::ProfileFile;
use std::alloc::Global;
use std::fs::Files;
use std::io::{Read, Write};
use sw_participant::Text;

/// By which profile file an input is recoded, and which way.
#[derive(Clone, Copy)]
pub struct ByFile<'a> {
    /// The path of the profile file.
    pub path: &'a str,
    pub way: Way,
}

// The profile of the file at a path, with the errors of an input.
fn load<F: Files>(alloc: Global, files: &F, path: &str) -> Result<ProfileFile, InputError>
    ensures of_a_file { IfOk result (λ f. IsOfAFile Acquirer f) }
    ensures refused { IfErr result (IsLoadError path.now) }
{
    match profile_at(alloc, files, path) {
        Ok(file) => Ok(file),
        Err(ProfileLoadError::Io(IoError::OutOfMemory)) => {
            Err(InputError::Io(IoError::OutOfMemory))
        }
        Err(cause) => Err(InputError::Refused(InputRefusal::Profile {
            path: Text::from_str(alloc, path)?,
            cause,
        })),
    }
}

/// Writes to `out` the frames of what the messages of an input are recoded to, by a profile file, as
/// `recode_stream` does. Where nothing is refused, nothing is reported on `err`. If the profile file is
/// not taken, nothing is read.
pub fn recode<F: Files, R: Read + Drop, O: Write, E: Write>(
    alloc: Global,
    files: &F,
    by: ByFile<'_>,
    input: R,
    out: &mut O,
    err: &mut E,
) -> Result<(), InputError>
    ensures recoded { OnOk result (IsRecodedInput by.entry.way
        (R.remaining input) (O.contents out.old) (O.contents out.new) false) }
    ensures quiet { OnOk result (Keeps (E.contents err.old) (E.contents err.new)) }
    ensures failed { IfErr result (IsInputError by.entry.path.now by.entry.way
        (R.remaining input) (O.contents out.old) (O.contents out.new)) }
{
    let file = load(alloc, files, by.path)?;
    let mut input = Input::new(input);
    if recode_stream(alloc, by.way, file, &mut input, out, err)? {
        return Err(InputError::Refused(InputRefusal::Messages));
    }
    Ok(())
}

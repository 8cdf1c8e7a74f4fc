//! The profile file that an option names.

ghost use Rattle.std.specs.Prelude.{◌≡◌, IfErr, IfOk};
ghost use Rattle.iso_dialect.specs.declared.profile.Peer.TheVariants.{Acquirer};
ghost use Rattle.dialect_toml.specs.ProfileFile.{IsProfileFile};
ghost use Rattle.cli_recode.specs.Profiles.{IsOfAFile, RefusesBytes, RefusesProfile, StatesProfile};

use crate::error::ProfileLoadError;
use cli_io::{Input, read_input};
use dialect_toml::{ProfileFile, read_profile};
use iso_dialect::Peer;
use std::alloc::Global;
use std::fs::{File, Files};
use std::io::{self, Read};

/// What a profile file states, once for what comes from the other system and once for what goes to it.
#[derive(Drop)]
pub struct TwoProfiles {
    pub from: ProfileFile,
    pub to: ProfileFile,
}

// The profile that the bytes of a file state.
fn profile_in(alloc: Global, bytes: &[u8], peer: Peer) -> Result<ProfileFile, ProfileLoadError>
    ensures states { IfOk result (λ f. IsProfileFile peer f bytes.now) }
    ensures refused { IfErr result (RefusesBytes peer bytes.now) }
{
    let text = str::from_utf8(bytes)?;
    Ok(read_profile(alloc, text, peer)?)
}

// The profile that a reader gives.
fn profile_from<R: Read + Drop>(
    alloc: Global,
    input: R,
    peer: Peer,
) -> Result<TwoProfiles, ProfileLoadError>
    ensures of_a_file { IfOk result (λ f. IsOfAFile peer f.from) }
    ensures from { IfOk result (λ f. StatesProfile peer (R.remaining input) f.from) }
    ensures to { IfOk result (λ f. StatesProfile peer (R.remaining input) f.to) }
    ensures refused { IfErr result (RefusesProfile peer (R.remaining input)) }
{
    let mut input = Input::new(input);
    let bytes = read_input(alloc, &mut input)?;
    let from = profile_in(alloc, bytes.as_slice(), peer)?;
    let to = profile_in(alloc, bytes.as_slice(), peer)?;
    Ok(TwoProfiles { from, to })
}

// The profile of a file that was opened, if it was.
fn profile_opened<R: Read + Drop>(
    alloc: Global,
    opened: io::Result<R>,
    peer: Peer,
) -> Result<TwoProfiles, ProfileLoadError>
    ensures of_a_file { IfOk result (λ f. IsOfAFile peer f.from) }
    ensures from { IfOk opened (λ input.
        IfOk result (λ f. StatesProfile peer (R.remaining input) f.from)) }
    ensures to { IfOk opened (λ input.
        IfOk result (λ f. StatesProfile peer (R.remaining input) f.to)) }
    ensures refused { IfOk opened (λ input.
        IfErr result (RefusesProfile peer (R.remaining input))) }
    ensures not_opened { IfErr opened (λ error. result ≡ Err (ProfileLoadError.Open error)) }
{
    match opened {
        Ok(input) => profile_from(alloc, input, peer),
        Err(error) => Err(ProfileLoadError::Open(error)),
    }
}

/// The profile of the file at a path, checked as that of a host or of an acquirer, for both directions. No
/// contract can say what a file holds.
pub fn two_profiles_at<F: Files>(
    alloc: Global,
    files: &F,
    path: &str,
    peer: Peer,
) -> Result<TwoProfiles, ProfileLoadError>
    ensures of_a_file { IfOk result (λ f. IsOfAFile peer f.from) }
{
    profile_opened(alloc, File::open(files, path), peer)
}

/// The same of an acquirer, for one direction.
pub fn profile_at<F: Files>(
    alloc: Global,
    files: &F,
    path: &str,
) -> Result<ProfileFile, ProfileLoadError>
    ensures of_a_file { IfOk result (λ f. IsOfAFile Acquirer f) }
{
    match two_profiles_at(alloc, files, path, Peer::Acquirer) {
        Ok(TwoProfiles { from, to: _ }) => Ok(from),
        Err(error) => Err(error),
    }
}

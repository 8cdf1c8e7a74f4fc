//! From a text to the profile that it states.

ghost use Rattle.std.specs.Prelude.{◌≡◌, IfOk, IfErr};
ghost use Rattle.toml.specs.View.{table_view};
ghost use Rattle.dialect_toml.specs.ProfileFile as spec;

use crate::error::ProfileFileError;
use crate::faults::first_fault;
use crate::frame::{Frame, frame_of};
use crate::rows::draft_of;
use iso_dialect::{Peer, Profile};
use std::alloc::Global;
use toml::Table;

/// What a profile file states.
#[derive(Drop)]
pub struct ProfileFile {
    /// `None` if the file does not say how frames are written.
    pub frame: Option<Frame>,
    pub profile: Profile,
}

fn read_document(alloc: Global, top: &Table, peer: Peer) -> Result<ProfileFile, ProfileFileError>
    ensures { spec.GivesFile result (spec.states peer (table_view top.now)) }
{
    if let Some(fault) = first_fault(alloc, top)? {
        return Err(ProfileFileError::Table(fault));
    }
    let frame = frame_of(alloc, top)?;
    match Profile::check(draft_of(alloc, top)?, peer) {
        Ok(profile) => Ok(ProfileFile { frame, profile }),
        Err(refusal) => Err(ProfileFileError::Profile(refusal)),
    }
}

/// The profile that a profile file states, for a peer of this kind.
///
/// The crate's page has the order of the faults. An integer of more than 64 bits is not TOML.
/// `OutOfMemory` is reported only if an allocation failed.
#[tactic(auto, unfolding(crate::specs::ProfileFile::reading))]
pub fn read_profile(alloc: Global, text: &str, peer: Peer) -> Result<ProfileFile, ProfileFileError>
    ensures file { IfOk result (λ f. spec.IsProfileFile peer f text.now) }
    ensures refused { IfErr result (spec.Refuses peer text.now) }
{
    match toml::table_from_str(alloc, text) {
        Ok(table) => read_document(alloc, &table, peer),
        Err(e) => {
            if e.is_memory() {
                Err(ProfileFileError::OutOfMemory)
            } else {
                Err(ProfileFileError::Toml(e))
            }
        }
    }
}

//! Both directions towards another system.

ghost use Rattle.std.specs.Prelude.{◌≡◌, [], IfNone, IfOk, IfSome, None, Ok};
ghost use Rattle.std.specs.Arc.{arc_value};
ghost use Rattle.cli_recode.specs.Recodings.{own_form};
ghost use Rattle.run_recode.specs.Passages.{ArePassagesOf, IsPassageOf, instead_of, plain};
ghost use Rattle.run_recode.specs.Readers.{IsNew};
ghost use Rattle.run_recode.specs.Writers.{IsWrittenSo};

use crate::reader::RecodedReader;
use crate::writer::RecodedWriter;
use cli_io::IoError;
use cli_recode::{
    Instead, Plan, ProfileLoadError, Recoding, TwoProfiles, Way, plan_of, two_profiles_at,
};
use dialect_toml::Frame;
use iso_dialect::Peer;
use std::alloc::{AllocError, Global};
use std::fs::Files;
use std::io::{Read, Write};
use std::sync::Arc;
use sw_participant::Text;

/// How what comes from another system is recoded, or what goes to it: as often as it is opened.
pub struct Passage {
    recoding: Arc<Recoding>,
    /// The form of the frames that are read.
    form: Frame,
}

// Written out, so that no caller proves again how its parts are dropped.
impl Drop for Passage {
    fn drop(self) {
        let Passage {
            recoding: _,
            form: _,
        } = self;
    }
}

/// Both directions; `None` where bytes pass as they are.
#[derive(Drop)]
pub struct Passages {
    pub from: Option<Passage>,
    pub to: Option<Passage>,
}

/// How reports name both directions, as `standard input: `, and how many bytes the header of a frame has.
#[derive(Drop)]
pub struct Edges {
    pub from: Text,
    pub to: Text,
    pub header: u8,
}

fn copy_of(form: &Frame) -> Result<Frame, AllocError>
    ensures { IfOk result (λ f. f ≡ form.now) }
{
    Ok(Frame {
        length: form.length,
        counts_itself: form.counts_itself,
        header: form.header.copy()?,
        most: form.most,
    })
}

/// A reader of `inner`, which recodes if there is a passage. The only refusal is out of memory.
pub fn reader_over<R: Read + Drop, E: Write + Drop>(
    alloc: Global,
    passage: &Option<Passage>,
    inner: R,
    told: E,
) -> Result<RecodedReader<R, E>, AllocError>
    ensures inner { IfOk result (λ r. r.inner ≡ inner) }
    ensures plain { IfNone passage.now (IfOk result (λ r. r.side ≡ None)) }
    ensures begun { IfSome passage.now (λ p. IfOk result (λ r.
        IsNew p.form (arc_value p.recoding) r.side)) }
{
    match passage {
        None => Ok(RecodedReader::plain(inner)),
        Some(passage) => {
            let form = copy_of(&passage.form)?;
            let recoding = Arc::try_clone(&passage.recoding)?;
            Ok(RecodedReader::new(alloc, recoding, form, inner, told))
        }
    }
}

/// A writer to `inner`, which recodes if there is a passage. The only refusal is out of memory.
pub fn writer_over<W: Write + Drop, E: Write + Drop>(
    alloc: Global,
    passage: &Option<Passage>,
    inner: W,
    told: E,
) -> Result<RecodedWriter<W, E>, AllocError>
    ensures inner { IfOk result (λ w. w.inner ≡ inner) }
    ensures plain { IfNone passage.now (IfOk result (λ w. w.side ≡ None)) }
    ensures begun { IfSome passage.now (λ p. IfOk result (λ w. IfSome w.side
        (IsWrittenSo own_form (arc_value p.recoding) [] []))) }
{
    match passage {
        None => Ok(RecodedWriter::plain(inner)),
        Some(passage) => {
            let recoding = Arc::try_clone(&passage.recoding)?;
            Ok(RecodedWriter::new(alloc, recoding, inner, told))
        }
    }
}

// What stands instead of a message that is not recoded: towards the switch a frame with its header, so that messages keep
// their numbers; towards an acquirer, who waits for a response, one of format error; towards a host nothing.
fn instead_of(way: Way, peer: Peer) -> Instead
    ensures { result ≡ instead_of way peer }
{
    match (way, peer) {
        (Way::FromOther, _) => Instead::EmptyFrame,
        (Way::ToOther, Peer::Acquirer) => Instead::FormatError,
        (Way::ToOther, Peer::Host) => Instead::Nothing,
    }
}

fn passage_of(
    alloc: Global,
    plan: Plan,
    peer: Peer,
    header: u8,
    place: Text,
) -> Result<Passage, AllocError>
    ensures { IfOk result (IsPassageOf plan.recoding plan.form peer header place) }
{
    let mut plan = plan;
    plan.recoding.header = header;
    plan.recoding.instead = instead_of(plan.recoding.way, peer);
    plan.recoding.place = place;
    let form = plan.form;
    let recoding = Arc::new(alloc, plan.recoding)?;
    Ok(Passage { recoding, form })
}

fn passages_of(
    alloc: Global,
    files: TwoProfiles,
    peer: Peer,
    edges: Edges,
) -> Result<Passages, AllocError>
    ensures { IfOk result (ArePassagesOf files peer edges) }
{
    let TwoProfiles { from, to } = files;
    let Edges {
        from: from_place,
        to: to_place,
        header,
    } = edges;
    let from = plan_of(alloc, Way::FromOther, from);
    let to = plan_of(alloc, Way::ToOther, to);
    Ok(Passages {
        from: Some(passage_of(alloc, from, peer, header, from_place)?),
        to: Some(passage_of(alloc, to, peer, header, to_place)?),
    })
}

/// The passages by the profile file at a path, checked as that of a host or of an acquirer; without a path bytes
/// pass as they are. No contract can say what a file holds.
pub fn passages_at<F: Files>(
    alloc: Global,
    files: &F,
    path: Option<&str>,
    peer: Peer,
    edges: Edges,
) -> Result<Passages, ProfileLoadError>
    ensures { IfNone path.entry (result ≡ Ok plain) }
{
    let Some(path) = path else {
        return Ok(Passages {
            from: None,
            to: None,
        });
    };
    let files = two_profiles_at(alloc, files, path, peer)?;
    match passages_of(alloc, files, peer, edges) {
        Ok(passages) => Ok(passages),
        Err(_) => Err(ProfileLoadError::Io(IoError::OutOfMemory)),
    }
}

//! `recode`: frames of messages as another system writes them, turned into the switch's own, and back.
//!
//! [`recode`] does so with an input, by the profile file at a path. [`recode_stream`] reads frames from an
//! input and writes those of the recoded messages, piece by piece. [`profile_at`] reads the profile file
//! that says how the other system writes. A [`Recoder`] recodes a stream for a caller that reads and writes
//! by itself, as the crate `run_recode` does: there a header may stand before each message, and something
//! else may be written for one that is not recoded (`Recoding`).
//!
//! # What is proved
//!
//! Of an input whose bytes are known, `recode_stream` writes the frames of what its messages are recoded
//! to, in their order, however the bytes came in pieces (`IsRecodedStream`). Towards the switch a message
//! becomes the one spelling, in ASCII, of the message that its bytes spell in the profile; towards the
//! other system the spelling in the profile (`IsRecoded`, by `iso_dialect`). A message is left out only
//! for a fault that it has, or since its frame cannot count it (`IsRefusal`). For each piece of a stream a
//! `Recoder` gives the frames of its messages after their headers, and of one that has a fault exactly what
//! `Recoding` says (`RecodesPiece`, `IsInstead`). The answer of `recode_stream` tells whether
//! anything was left out, or the input has a bad length or ends within a frame. Where it says no, nothing
//! was written to standard error (`quiet`). The frames of the switch are those of `sw_frame`
//! (`own_frames_are_the_switchs`).
//!
//! Of a file's bytes that are known `profile_at` gives exactly the profile that they state, or a fault
//! that they have (`profile_opened`). Of a file at a path no contract knows the bytes: the profile is one
//! that some bytes state (`IsOfAFile`). `recode` writes nothing if it takes no profile (`IsInputRefusal`).
//! What the reports say is only tested.
//!
//! # Decisions
//!
//! - **A message that is refused is reported by its number and left out**, and the stream goes on: the
//!   next frame begins where the last one ended. After a bad length nothing more is read.
//! - **The frames of each read are written at once and flushed**, so that it can stand in a pipe between
//!   two systems that wait for each other.
//! - **Without the table `frame`, the other system's frames are those of the switch.**
//! - **The profile is checked as that of an acquirer.** Whether messages go to a host or come from an
//!   acquirer is not known here.
#![tactic(auto)]

mod by_file;
mod error;
mod instead;
mod laws;
mod message;
mod profile;
mod recoder;
mod stream;

pub use by_file::{ByFile, recode};
pub use error::{InputError, InputRefusal, ProfileLoadError, RecodeError};
pub use laws::own_frames_are_the_switchs;
pub use message::{Instead, Recoding, Way, own_form, recode_message};
pub use profile::{TwoProfiles, profile_at, two_profiles_at};
pub use recoder::Recoder;
pub use stream::{Plan, plan_of, recode_stream};

//! How another system writes messages.

ghost use Rattle.std.specs.Prelude.{◌≡◌, true, Some, None, MatchResult};
ghost use Rattle.iso_dialect.specs.Profiles.{counts, first_refusal, refusal_in, row_of};
ghost use Rattle.iso_dialect.specs.Writings.{is_sound_at};

use crate::coding::Coding;
use crate::error::ProfileError;
use crate::refuse::{refuse, row_at};
use crate::row::Row;
use std::marker::Model;

/// Who writes messages so.
#[derive(Clone, Copy, PartialEq, Eq)]
pub enum Peer {
    /// It sends requests to the switch.
    Acquirer,
    /// The switch sends requests to it.
    Host,
}

/// A profile that is not checked yet: the codings of the message type and of the bitmaps, and the
/// row of each field number, which is its index.
#[derive(Drop)]
pub struct Draft {
    pub mti: Coding,
    pub bitmap: Coding,
    pub rows: [Option<Row>; 129],
}

/// How another system writes messages: a draft in which there is nothing to refuse. Contracts see
/// the draft.
#[derive(Drop)]
pub struct Profile {
    draft: Draft,
}

impl Model for Profile {
    ghost use Rattle.std.specs.Prelude.{◌≡◌, None};
    ghost use Rattle.iso_dialect.specs.declared.profile.Draft.{Draft};
    ghost use Rattle.iso_dialect.specs.Profiles.{refusal_in};

    ghost Value = { Draft };

    ghost view = { λ p. p.draft };

    ghost invariant = { λ p. refusal_in p.draft ≡ None };
}

impl Profile {
    /// The profile of a draft, or what is wrong with it first, in the order of `ProfileError`.
    pub fn check(draft: Draft, peer: Peer) -> Result<Profile, ProfileError>
        ensures { MatchResult result
            (λ p. (p ≡ draft) × (first_refusal peer draft ≡ None))
            (λ e. first_refusal peer draft ≡ Some e) }
    {
        match refuse(&draft, peer) {
            Some(e) => Err(e),
            None => Ok(Profile { draft }),
        }
    }

    /// States that there is nothing to refuse, for the proofs of its callers. It does nothing.
    pub(crate) fn is_checked(&self)
        ensures { refusal_in self.now ≡ None }
    {
        let _mti = self.draft.mti;
    }

    /// How the type is written.
    pub(crate) fn mti(&self) -> Coding
        ensures { result ≡ self.now.mti }
    {
        self.draft.mti
    }

    /// How a bitmap is written.
    pub(crate) fn bitmap(&self) -> Coding
        ensures { result ≡ self.now.bitmap }
    {
        self.draft.bitmap
    }

    /// How the field of a number is written.
    pub(crate) fn row(&self, number: u8) -> Option<Row>
        ensures row { result ≡ row_of self.now.rows number }
        ensures counts { counts result ≡ true }
        ensures sound { is_sound_at result ≡ true }
    {
        row_at(&self.draft.rows, number)
    }
}

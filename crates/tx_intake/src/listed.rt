//! A list as a source.

ghost use Rattle.std.specs.Prelude.{◌≡◌, ◌||◌, ◌++◌, IfOk, IfNone, OnErr, is_none, false};
ghost use Rattle.std.specs.Prelude.{List, option_to_list};
ghost use Rattle.sw_context.specs.Pairs.{Pairs};
ghost use Rattle.tx_intake.specs.Listings.{listing, given_of, GivesListed};

use crate::source::Source;
use std::marker::Model;
use sw_context::Context;
use sw_participant::NoMemory;

/// A source that gives the contexts of a list, in order. It keeps the list and hands out copies.
/// Contracts see the list, how many of it were given, and whether it has answered that there is
/// none left.
pub struct Listed {
    contexts: Vec<Context>,
    count: usize,
    ended: bool,
}

// Written out, so that no caller proves again how its parts are dropped.
impl Drop for Listed {
    fn drop(self) {
        let Listed {
            contexts: _,
            count: _,
            ended: _,
        } = self;
    }
}

impl Model for Listed {
    ghost use Rattle.std.specs.Prelude.{◌≤◌, vec_len};
    ghost use Rattle.tx_intake.specs.Listings.{Listing, listing};

    ghost Value = { Listing };

    ghost view = { λ l. listing l.contexts.items l.count l.ended };

    ghost invariant = { λ l. l.count ≤ vec_len l.contexts };
}

impl Listed {
    /// Makes a source of these contexts, none of which was given yet. It takes no memory.
    pub fn new(contexts: Vec<Context>) -> Listed
        ensures { result ≡ listing contexts.items 0 false }
    {
        Listed {
            contexts,
            count: 0,
            ended: false,
        }
    }
}

impl Source for Listed {
    ghost use Rattle.std.specs.Prelude.{◌≡◌};
    ghost use Rattle.tx_intake.specs.Listings.{given_of};

    ghost given = { given_of };

    ghost ended = { λ l. l.ended };

    ghost ends_with = { λ l all. all ≡ l.list };

    fn next(&mut self) -> Result<Option<Context>, NoMemory>
        ensures given { IfOk result (λ next.
            given_of self.new ≡ given_of self.old ++ option_to_list next) }
        ensures ended { IfOk result (λ next. self.new.ended ≡ (is_none next || self.old.ended)) }
        ensures whole { IfOk result (λ next. IfNone next (given_of self.new ≡ self.old.list)) }
        ensures plan { (all : List Pairs) → all ≡ self.new.list → all ≡ self.old.list }
        ensures given_kept { OnErr result (given_of self.new ≡ given_of self.old) }
        ensures ended_kept { OnErr result (self.new.ended ≡ self.old.ended) }
        ensures gives { IfOk result (λ next. GivesListed self.old next self.new) }
        ensures kept { OnErr result (self.new ≡ self.old) }
    {
        let Some(context) = self.contexts.get(self.count) else {
            self.ended = true;
            return Ok(None);
        };
        let copy = context.copy()?;
        self.count += 1;
        Ok(Some(copy))
    }
}

//! Where transactions stand, as lines show it.

ghost use Rattle.std.specs.Prelude.{Some};
ghost use Rattle.cli_step.specs.Places.{call_text, called_entry, calls_text, held_text, step_text};
ghost use Rattle.cli_step.specs.Places.{where_text};

use std::fmt;
use tx_trace::{Names, PhaseText, Place, act_word};

/// `CALL NAME`
#[derive(Drop)]
struct CallText<'a> {
    names: Names<'a>,
    place: Place,
}

impl fmt::Display for CallText<'_> {
    ghost output = { λ c. Some (call_text c.names.code.now c.place) };

    fn fmt<W: fmt::Write>(&self, f: &mut fmt::Formatter<W>) -> fmt::Result {
        let call = self.place.call;
        let word = act_word(call.act);
        let name = self.names.participant(call.participant as usize);
        write!(f, "{word} {name}")
    }
}

/// ` GROUP/INDEX`, if an entry is called.
#[derive(Drop)]
struct CalledEntry<'a> {
    names: Names<'a>,
    group: Option<usize>,
    index: Option<usize>,
}

impl fmt::Display for CalledEntry<'_> {
    ghost output = { λ e. Some (called_entry e.names.code.now e.group e.index) };

    fn fmt<W: fmt::Write>(&self, f: &mut fmt::Formatter<W>) -> fmt::Result {
        let Some(group) = self.group else {
            return Ok(());
        };
        let Some(index) = self.index else {
            return Ok(());
        };
        let group = self.names.group(group);
        write!(f, " {group}/{index}")
    }
}

/// ` step N`, if there is one.
#[derive(Drop)]
struct StepText {
    step: Option<usize>,
}

impl fmt::Display for StepText {
    ghost output = { λ s. Some (step_text s.step) };

    fn fmt<W: fmt::Write>(&self, f: &mut fmt::Formatter<W>) -> fmt::Result {
        match self.step {
            Some(step) => write!(f, " step {step}"),
            None => Ok(()),
        }
    }
}

/// `held S CALL NAME[ GROUP/INDEX]`
#[derive(Drop)]
pub struct HeldText<'a> {
    pub names: Names<'a>,
    pub session: usize,
    pub place: Place,
}

impl fmt::Display for HeldText<'_> {
    ghost output = { λ h. Some (held_text h.names.code.now h.session h.place) };

    fn fmt<W: fmt::Write>(&self, f: &mut fmt::Formatter<W>) -> fmt::Result {
        let (names, place) = (self.names, self.place);
        let session = self.session;
        let call = CallText { names, place };
        let entry = CalledEntry {
            names,
            group: place.group,
            index: place.index,
        };
        write!(f, "held {session} {call}{entry}")
    }
}

/// `where ID PHASE CALL NAME[ step N GROUP/INDEX]`
#[derive(Drop)]
pub struct WhereText<'a> {
    pub names: Names<'a>,
    pub place: Place,
}

impl fmt::Display for WhereText<'_> {
    ghost output = { λ w. Some (where_text w.names.code.now w.place) };

    fn fmt<W: fmt::Write>(&self, f: &mut fmt::Formatter<W>) -> fmt::Result {
        let (names, place) = (self.names, self.place);
        let id = place.id;
        let phase = PhaseText(place.phase);
        let call = CallText { names, place };
        let step = StepText { step: place.step };
        let entry = CalledEntry {
            names,
            group: place.group,
            index: place.index,
        };
        write!(f, "where {id} {phase} {call}{step}{entry}")
    }
}

/// `calls NAME COUNT`
#[derive(Drop)]
pub struct CallsText<'a> {
    pub name: &'a str,
    pub count: u64,
}

impl fmt::Display for CallsText<'_> {
    ghost output = { λ c. Some (calls_text c.name.now c.count) };

    fn fmt<W: fmt::Write>(&self, f: &mut fmt::Formatter<W>) -> fmt::Result {
        let (name, count) = (self.name, self.count);
        write!(f, "calls {name} {count}")
    }
}

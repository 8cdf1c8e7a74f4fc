//! The pieces of a trace line, each with what it prints.

ghost use Rattle.std.specs.Prelude.{◌≡◌, ◌<◌, Some, ◌++◌, codes, if◌then◌else◌, map};
ghost use Rattle.sw_participant.specs.Answers.{is_bad, is_readonly, stays_out};
ghost use Rattle.tx_trace.specs.Trace.{answer_text, bound_text, call_text, comma_list};
ghost use Rattle.tx_trace.specs.Trace.{due_text, head_text, hex_digit};
ghost use Rattle.tx_trace.specs.Trace.{hex_text, phase_text, spot_text, told_text, word_if};

use crate::names::Names;
use std::fmt;
use sw_participant::read_answer;
use tx_machine::{Due, Phase, Spot};

/// The phase as its letter.
pub(crate) fn phase_letter(phase: Phase) -> &'static str
    ensures { result.now ≡ phase_text phase }
{
    match phase {
        Phase::Preparing => "P",
        Phase::Aborting => "A",
        Phase::Committing => "C",
        Phase::Undoing => "U",
    }
}

/// The phase as its letter: `P`, `A`, `C` or `U`.
#[derive(Drop)]
pub struct PhaseText(pub Phase);

impl fmt::Display for PhaseText {
    ghost output = { λ p. Some (phase_text p.0) };

    fn fmt<W: fmt::Write>(&self, f: &mut fmt::Formatter<W>) -> fmt::Result {
        f.write_str(phase_letter(self.0))
    }
}

/// An entry as `NAME GROUP/INDEX`.
#[derive(Drop)]
struct SpotText<'a> {
    names: Names<'a>,
    spot: Spot,
}

impl fmt::Display for SpotText<'_> {
    ghost output = { λ s. Some (spot_text s.names.code.now s.spot) };

    fn fmt<W: fmt::Write>(&self, f: &mut fmt::Formatter<W>) -> fmt::Result {
        let name = self.names.participant(self.spot.participant);
        let group = self.names.group(self.spot.group);
        let index = self.spot.index;
        write!(f, "{name} {group}/{index}")
    }
}

/// The call that is due, or the end, as in `prepare NAME GROUP/INDEX`, `commit NAME` and `done`.
#[derive(Drop)]
pub struct NextText<'a> {
    pub names: Names<'a>,
    pub due: Due,
}

impl fmt::Display for NextText<'_> {
    ghost output = { λ n. Some (due_text n.names.code.now n.due) };

    fn fmt<W: fmt::Write>(&self, f: &mut fmt::Formatter<W>) -> fmt::Result {
        let names = self.names;
        match self.due {
            Due::Prepare(spot) => {
                let place = SpotText { names, spot };
                write!(f, "prepare {place}")
            }
            Due::PrepareForAbort(spot) => {
                let place = SpotText { names, spot };
                write!(f, "prepare_for_abort {place}")
            }
            Due::Select(spot) => {
                let place = SpotText { names, spot };
                write!(f, "select {place}")
            }
            Due::Commit(member) => {
                let name = names.participant(member);
                write!(f, "commit {name}")
            }
            Due::Abort(member) => {
                let name = names.participant(member);
                write!(f, "abort {name}")
            }
            Due::Shelve => f.write_str("shelve"),
            Due::Done => f.write_str("done"),
        }
    }
}

/// The call that is due, or the end; instead of an outcome, the `recover` call that comes before it.
#[derive(Drop)]
pub struct CallText<'a> {
    pub next: NextText<'a>,
    /// The participant of the `recover` call, and whether to commit.
    pub restores: Option<(usize, bool)>,
}

impl fmt::Display for CallText<'_> {
    ghost output = { λ c. Some (call_text c.next.names.code.now c.restores c.next.due) };

    fn fmt<W: fmt::Write>(&self, f: &mut fmt::Formatter<W>) -> fmt::Result {
        match self.restores {
            Some((member, _)) => {
                let name = self.next.names.participant(member);
                write!(f, "recover {name}")
            }
            None => {
                let next = &self.next;
                write!(f, "{next}")
            }
        }
    }
}

/// `ID PHASE CALL `, the call being the one that was due.
#[derive(Drop)]
pub struct Head<'a> {
    pub id: u64,
    pub phase: Phase,
    pub call: CallText<'a>,
}

impl fmt::Display for Head<'_> {
    ghost output = { λ h. Some (head_text h.id h.phase
        (call_text h.call.next.names.code.now h.call.restores h.call.next.due)) };

    fn fmt<W: fmt::Write>(&self, f: &mut fmt::Formatter<W>) -> fmt::Result {
        let id = self.id;
        let phase = PhaseText(self.phase);
        let call = &self.call;
        write!(f, "{id} {phase} {call} ")
    }
}

/// A byte as two lower case hexadecimal digits.
#[derive(Drop)]
pub struct Hex(pub u8);

fn digit(value: u8) -> u8
    requires { value < 16 }
    ensures { result ≡ hex_digit value }
{
    match value {
        0..=9 => b'0' + value,
        _ => b'a' - 10 + value,
    }
}

/// The two digits of a byte.
pub(crate) fn hex_digits(byte: u8) -> [u8; 2]
    ensures { result ≡ hex_text byte }
{
    [digit(byte / 16), digit(byte % 16)]
}

impl fmt::Display for Hex {
    ghost output = { λ b. Some (hex_text b.0) };

    fn fmt<W: fmt::Write>(&self, f: &mut fmt::Formatter<W>) -> fmt::Result {
        let high = digit(self.0 / 16) as char;
        let low = digit(self.0 % 16) as char;
        write!(f, "{high}{low}")
    }
}

fn bad_word(byte: u8) -> &'static str
    ensures { result.now ≡ word_if (is_bad byte) (codes "bad ") }
{
    if read_answer(byte).bad { "bad " } else { "" }
}

fn join_word(byte: u8) -> &'static str
    ensures { result.now ≡ (if stays_out byte then codes "nojoin " else codes "join ") }
{
    if read_answer(byte).answer.stays_out() {
        "nojoin "
    } else {
        "join "
    }
}

fn context_word(byte: u8) -> &'static str
    ensures { result.now ≡ (if is_readonly byte then codes "noctx " else codes "ctx ") }
{
    if read_answer(byte).answer.is_readonly() {
        "noctx "
    } else {
        "ctx "
    }
}

/// `bound ` if the bound has dropped what was still to come.
pub fn bound_word(bound: bool) -> &'static str
    ensures { result.now ≡ bound_text bound }
{
    if bound { "bound " } else { "" }
}

/// `recovering ` if the transaction comes from the journal.
pub fn recovering_word(recovering: bool) -> &'static str
    ensures { result.now ≡ word_if recovering (codes "recovering ") }
{
    if recovering { "recovering " } else { "" }
}

/// An answer byte as `HH [bad ]JOIN CTX `.
#[derive(Drop)]
pub struct AnswerText(pub u8);

impl fmt::Display for AnswerText {
    ghost output = { λ a. Some (answer_text a.0) };

    fn fmt<W: fmt::Write>(&self, f: &mut fmt::Formatter<W>) -> fmt::Result {
        let hex = Hex(self.0);
        let bad = bad_word(self.0);
        let join = join_word(self.0);
        let context = context_word(self.0);
        write!(f, "{hex} {bad}{join}{context}")
    }
}

/// `advice PLACE ` if an advice was given.
#[derive(Drop)]
pub struct ToldText {
    pub advised: bool,
    pub place: usize,
}

impl fmt::Display for ToldText {
    ghost output = { λ t. Some (told_text t.advised t.place) };

    fn fmt<W: fmt::Write>(&self, f: &mut fmt::Formatter<W>) -> fmt::Result {
        let place = self.place;
        if self.advised {
            write!(f, "advice {place} ")
        } else {
            Ok(())
        }
    }
}

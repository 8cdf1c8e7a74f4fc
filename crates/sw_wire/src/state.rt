//! What is reported of a host: its state, by the last sign of it.

ghost use Rattle.std.specs.Prelude.{◌≡◌, ◌≢◌, ◌<◌, None, Some, IfOk, string_bytes};
ghost use Rattle.sw_wire.specs.States.{IsOpeningText, IsStateLine, IsStateText, after, pause_text};
ghost use Rattle.sw_wire.specs.States.{sign_of, state_word};
ghost use Rattle.sw_wire.specs.declared.state.HostState.{HostState};

use crate::look::Look;
use crate::times::HostTimes;
use std::alloc::{AllocError, Global};
use std::io;

/// What was last seen of a host.
#[derive(Clone, Copy, PartialEq, Eq)]
pub enum HostState {
    /// Something was read from it since, or nothing has happened yet.
    Reached,
    /// A message was not sent, because a direction was not open yet.
    NotOpen,
    /// A direction could not be opened. With the system's number of the error; 0 if it has none.
    CannotOpen(u32),
    /// A direction that was open was closed: at its end, or because a read or a write failed, or because what came
    /// was not a frame.
    Lost,
    /// A message or an echo test was not answered in time.
    Silent,
}

/// What a thread or a link of a host sees of it.
#[derive(Clone, Copy)]
pub enum HostSign {
    /// Something was read.
    Read,
    /// A message was not sent, because a direction is not open.
    Unsent,
    /// A direction could not be opened, with the number of the error.
    NotOpened(u32),
    /// A direction that was open was closed.
    Closed,
    /// No answer came in time.
    Late,
}

impl HostSign {
    /// The sign of an opening that failed.
    pub fn of_error(error: &io::Error) -> HostSign {
        let number = error.raw_os_error().unwrap_or(0);
        HostSign::NotOpened(u32::try_from(number).unwrap_or(0))
    }

    /// The sign that a look for an answer is, if it is one. (An answer was read already.)
    pub fn of_look(look: &Look) -> Option<HostSign>
        ensures { result ≡ sign_of look.now }
    {
        match look {
            Look::Late => Some(HostSign::Late),
            Look::Answer(_) | Look::Closed | Look::Open => None,
        }
    }
}

// For how long a silent host is not asked.
fn pause_text(alloc: Global, times: &HostTimes) -> Result<String, AllocError>
    ensures { IfOk result (λ text. string_bytes text ≡ pause_text times.now) }
{
    if times.retry.is_zero() {
        return Ok(String::new(alloc));
    }
    if times.tests_silence() {
        return String::from_str(alloc, "; not asked until it sends something");
    }
    let retry = times.retry.as_millis();
    format!(in alloc; "; not asked for {retry} ms")
}

// That a host cannot be opened, and why, by the system's number of the error.
fn opening_text(alloc: Global, number: u32) -> Result<String, AllocError>
    ensures { IfOk result (λ text. IsOpeningText number (string_bytes text)) }
{
    if number == 0 {
        return String::from_str(alloc, "cannot be opened");
    }
    let error = io::Error::from_raw_os_error(i32::try_from(number).unwrap_or(0));
    let cause = format!(in alloc; "{error}")?;
    format!(in alloc; "cannot be opened: {cause}")
}

impl HostState {
    /// The state after a sign. A message that was not sent says nothing new of a host that was lost, is silent or
    /// cannot be opened.
    pub fn after(self, sign: HostSign) -> HostState
        ensures { result ≡ after self sign }
    {
        match sign {
            HostSign::Read => HostState::Reached,
            HostSign::Unsent if self == HostState::Reached => HostState::NotOpen,
            HostSign::Unsent => self,
            HostSign::NotOpened(number) => HostState::CannotOpen(number),
            HostSign::Closed => HostState::Lost,
            HostSign::Late => HostState::Silent,
        }
    }

    /// The state as a word.
    pub fn word(self) -> u64
        ensures { result ≡ state_word self }
    {
        match self {
            HostState::Reached => 0,
            HostState::NotOpen => 1,
            HostState::Lost => 2,
            HostState::Silent => 3,
            HostState::CannotOpen(number) => 4 + number as u64,
        }
    }

    /// The state of a word. (Every word that is stored is that of a state.)
    pub fn of_word(word: u64) -> HostState
        ensures { (state : HostState) → word < 4294967300 → word ≡ state_word state
            → result ≡ state }
    {
        match word {
            0 => HostState::Reached,
            1 => HostState::NotOpen,
            2 => HostState::Lost,
            3 => HostState::Silent,
            _ => HostState::CannotOpen(u32::try_from(word - 4).unwrap_or(0)),
        }
    }

    /// What is to be reported, if this state was reported last and the host is in state `now`: nothing if that is
    /// the same.
    pub fn news(self, now: HostState) -> Option<HostState>
        ensures same { now ≡ self → result ≡ None }
        ensures other { now ≢ self → result ≡ Some now }
    {
        if now == self { None } else { Some(now) }
    }

    // What the line says of the host.
    fn text(self, alloc: Global, times: &HostTimes) -> Result<String, AllocError>
        ensures { IfOk result (λ text. IsStateText times.now self (string_bytes text)) }
    {
        match self {
            HostState::Reached => String::from_str(alloc, "is back"),
            HostState::NotOpen => String::from_str(alloc, "is not open yet"),
            HostState::CannotOpen(number) => opening_text(alloc, number),
            HostState::Lost => String::from_str(alloc, "connection lost"),
            HostState::Silent => {
                let pause = pause_text(alloc, times)?;
                format!(in alloc; "no answer in time{pause}")
            }
        }
    }

    /// The line that reports that the host with this name and these times is in this state now.
    pub fn line(self, alloc: Global, name: &str, times: &HostTimes) -> Result<String, AllocError>
        ensures { IfOk result (λ line.
            IsStateLine name.now times.now self (string_bytes line)) }
    {
        let text = self.text(alloc, times)?;
        format!(in alloc; "cardswitch: host {name}: {text}\n")
    }
}

//! Echo tests: network management requests (0800) to a host that gets nothing else or is silent.

ghost use Rattle.std.specs.Prelude.{◌≡◌, ◌+◌, ◌*◌, ◌/◌, ◌%◌, ◌<◌, length, pos, true, IfOk, None, OnOk, Some};
ghost use Rattle.std.specs.List.{list_all};
ghost use Rattle.iso_msg.specs.Messages.{with_value};
ghost use Rattle.iso_msg.specs.Values.{refusal};
ghost use Rattle.jiff_core.specs.Date.{epoch_day};
ghost use Rattle.sw_base.specs.Digits.{is_digit, number_of};
ghost use Rattle.sw_wire.specs.Echoes.{IsEcho, IsStamp, echo_message, stamp_of};

use iso_codec::encode;
use iso_msg::{Message, MessageError, Mti};
use jiff_core::civil::Date;
use std::alloc::Global;
use sw_base::two_digits;
use sw_frame::{FrameError, frame};
use sw_participant::NoMemory;

/// The seconds of a day.
const DAY: u64 = 86_400;

/// The days from 1970-01-01 to 9999-12-31.
const DAYS: u64 = 2_932_897;

// The date this many seconds after the start of 1970; after the year 9999 the dates begin again with
// 1970.
fn date_of(seconds: u64) -> Date
    ensures { epoch_day result ≡ pos (seconds / 86400 % 2932897) }
{
    let Ok(date) = Date::from_unix_epoch_day((seconds / DAY % DAYS) as i64) else {
        unreachable!()
    };
    date
}

// Month, day, hour, minute and second.
fn stamp_of(date: Date, seconds: u64) -> [u8; 10]
    ensures shown { result ≡ stamp_of date (seconds % 86400) }
    ensures digits { list_all is_digit result ≡ true }
{
    let time = seconds % DAY;
    let month = two_digits(date.month);
    let day = two_digits(date.day);
    let hour = two_digits((time / 3_600) as u8);
    let minute = two_digits((time / 60 % 60) as u8);
    let second = two_digits((time % 60) as u8);
    [
        month[0], month[1], day[0], day[1], hour[0], hour[1], minute[0], minute[1], second[0],
        second[1],
    ]
}

// The six digits of a STAN.
fn stan_digits(stan: u32) -> [u8; 6]
    requires { stan < 1000000 }
    ensures shown { number_of result ≡ Some stan }
    ensures digits { list_all is_digit result ≡ true }
{
    [
        b'0' + (stan / 100_000) as u8,
        b'0' + (stan / 10_000 % 10) as u8,
        b'0' + (stan / 1_000 % 10) as u8,
        b'0' + (stan / 100 % 10) as u8,
        b'0' + (stan / 10 % 10) as u8,
        b'0' + (stan % 10) as u8,
    ]
}

// Puts a value at a field that takes it.
fn put(alloc: Global, message: &mut Message, number: u8, value: &[u8]) -> Result<(), NoMemory>
    requires { refusal number value.now ≡ None }
    ensures { OnOk result (message.new ≡ record {
      mti = message.old.mti;
      fields = with_value number value.now message.old.fields;
    }) }
{
    match message.set(alloc, number, value) {
        Ok(()) => Ok(()),
        Err(MessageError::OutOfMemory) => Err(NoMemory),
        Err(_) => unreachable!(),
    }
}

// The message, by its fields 7 and 11.
fn message_of(alloc: Global, stamp: &[u8], stan: &[u8]) -> Result<Message, NoMemory>
    requires stamp { length stamp.now ≡ 10 }
    requires stamp_digits { list_all is_digit stamp.now ≡ true }
    requires stan { length stan.now ≡ 6 }
    requires stan_digits { list_all is_digit stan.now ≡ true }
    ensures { IfOk result (λ message. message ≡ echo_message stamp.now stan.now) }
{
    let Ok(mti) = Mti::new(b"0800") else {
        unreachable!()
    };
    let mut message = Message::new(alloc, mti);
    put(alloc, &mut message, 7, stamp)?;
    put(alloc, &mut message, 11, stan)?;
    put(alloc, &mut message, 70, b"301")?;
    Ok(message)
}

/// The frame of an echo test that is made this many seconds after the start of 1970, with this STAN. Its date and time
/// are in UTC; after the year 9999 they begin again with 1970. Refuses only if there is no memory for it.
pub fn echo_frame(alloc: Global, seconds: u64, stan: u32) -> Result<Vec<u8>, NoMemory>
    requires { stan < 1000000 }
    ensures { IfOk result (λ bytes. IsEcho seconds stan bytes.items) }
{
    let stamp = stamp_of(date_of(seconds), seconds);
    let message = message_of(alloc, &stamp, &stan_digits(stan))?;
    let text = encode(alloc, &message)?;
    match frame(alloc, &text) {
        Ok(bytes) => Ok(bytes),
        Err(FrameError::OutOfMemory) => Err(NoMemory),
        Err(_) => unreachable!(),
    }
}

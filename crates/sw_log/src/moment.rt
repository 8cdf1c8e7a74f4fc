//! A moment as a text.

ghost use Rattle.std.specs.Prelude.{◌≡◌, ◌/◌, ◌%◌, ◌<◌, pos};
ghost use Rattle.jiff_core.specs.Date.{epoch_day};
ghost use Rattle.sw_log.specs.Moments.{IsMoment, clock_text, date_text, four_digits};
ghost use Rattle.sw_log.specs.Moments.{three_digits};

use jiff_core::civil::Date;
use sw_base::two_digits;

/// The milliseconds of a day.
const DAY: u64 = 86_400_000;

/// The days from 1970-01-01 to 9999-12-31.
const DAYS: u64 = 2_932_897;

// The date this many milliseconds after the start of 1970; after the year 9999 the dates begin again with 1970.
fn date_of(milliseconds: u64) -> Date
    ensures { epoch_day result ≡ pos (milliseconds / 86400000 % 2932897) }
{
    let Ok(date) = Date::from_unix_epoch_day((milliseconds / DAY % DAYS) as i64) else {
        unreachable!()
    };
    date
}

fn three_digits(number: u16) -> [u8; 3]
    requires { number < 1000 }
    ensures { result ≡ three_digits number }
{
    [
        b'0' + (number / 100) as u8,
        b'0' + (number / 10 % 10) as u8,
        b'0' + (number % 10) as u8,
    ]
}

// The number of a year, which is below 10,000.
fn four_digits(number: u16) -> [u8; 4]
    requires { number < 10000 }
    ensures { result ≡ four_digits number }
{
    [
        b'0' + (number / 1_000) as u8,
        b'0' + (number / 100 % 10) as u8,
        b'0' + (number / 10 % 10) as u8,
        b'0' + (number % 10) as u8,
    ]
}

// A date, as `2026-11-29`.
fn date_text(date: Date) -> [u8; 10]
    ensures { result ≡ date_text date }
{
    let year = four_digits(date.year.unsigned_abs());
    let month = two_digits(date.month);
    let day = two_digits(date.day);
    [
        year[0], year[1], year[2], year[3], b'-', month[0], month[1], b'-', day[0], day[1],
    ]
}

// The time of day after this many milliseconds of it, as `10:53:44.007`.
fn clock_text(milliseconds: u64) -> [u8; 12]
    requires { milliseconds < 86400000 }
    ensures { result ≡ clock_text milliseconds }
{
    let hour = two_digits((milliseconds / 3_600_000) as u8);
    let minute = two_digits((milliseconds / 60_000 % 60) as u8);
    let second = two_digits((milliseconds / 1_000 % 60) as u8);
    let part = three_digits((milliseconds % 1_000) as u16);
    [
        hour[0], hour[1], b':', minute[0], minute[1], b':', second[0], second[1], b'.', part[0],
        part[1], part[2],
    ]
}

/// The moment this many milliseconds after the start of 1970 in UTC, as `2026-11-29T10:53:44.007Z`. After the year
/// 9999 the years begin again with 1970.
pub fn moment_text(milliseconds: u64) -> [u8; 24]
    ensures { IsMoment milliseconds result }
{
    let date = date_text(date_of(milliseconds));
    let time = clock_text(milliseconds % DAY);
    [
        date[0], date[1], date[2], date[3], date[4], date[5], date[6], date[7], date[8], date[9],
        b'T', time[0], time[1], time[2], time[3], time[4], time[5], time[6], time[7], time[8],
        time[9], time[10], time[11], b'Z',
    ]
}

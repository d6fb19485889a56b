//! When something happened, in UTC.

ghost use Rattle.std.specs.Prelude.{◌≡◌, ◌<◌, ◌≤◌, ◌/◌, ◌%◌, pos, unsigned_abs, IfOk, IfSome, IfNone};
ghost use Rattle.jiff_core.specs.Date.{epoch_day};
ghost use Rattle.event_log.specs.Moment.{IsTimeText, clock_text, date_text, time_end, two};

use jiff_core::civil::Date;
use std::alloc::{AllocError, Global};

// How many seconds a day has.
const DAY: u64 = 86_400;

// The first second of the year 10000.
const TIME_END: u64 = 253_402_300_800;

/// The date of a time so many seconds after 1970 began, in UTC. Past the year 9999 there is none.
pub(crate) fn date_of(seconds: u64) -> Option<Date>
    ensures some { IfSome result (λ date. epoch_day date ≡ pos (seconds / 86400)) }
    ensures none { IfNone result (time_end ≤ seconds) }
{
    if seconds >= TIME_END {
        return None;
    }
    match Date::from_unix_epoch_day((seconds / DAY) as i64) {
        Ok(date) => Some(date),
        Err(_) => None,
    }
}

/// The text of a time with this date, as ISO 8601 writes it in UTC: `2026-11-27T18:13:55Z`.
pub(crate) fn time_text(alloc: Global, date: Date, seconds: u64) -> Result<Vec<u8>, AllocError>
    requires { epoch_day date ≡ pos (seconds / 86400) }
    ensures { IfOk result (λ text. IsTimeText seconds text.items) }
{
    let mut text = Vec::from_slice(alloc, &date_text(date))?;
    text.extend_from_slice(b"T")?;
    text.extend_from_slice(&clock_text((seconds % DAY) as u32))?;
    text.extend_from_slice(b"Z")?;
    Ok(text)
}

// A date from the year 0 on.
fn date_text(date: Date) -> [u8; 10]
    ensures { result ≡ date_text date }
{
    let year = year_of(date);
    let century = two((year / 100) as u8);
    let year = two((year % 100) as u8);
    let month = two(date.month);
    let day = two(date.day);
    [
        century[0], century[1], year[0], year[1], b'-', month[0], month[1], b'-', day[0], day[1],
    ]
}

// A date's year, without a sign.
fn year_of(date: Date) -> u16
    ensures value { result ≡ unsigned_abs date.year }
    ensures few { result < 10000 }
{
    date.year.unsigned_abs()
}

// The time of day.
fn clock_text(second: u32) -> [u8; 8]
    requires { second < 86400 }
    ensures { result ≡ clock_text second }
{
    let hour = two((second / 3600) as u8);
    let minute = two((second % 3600 / 60) as u8);
    let second = two((second % 60) as u8);
    [
        hour[0], hour[1], b':', minute[0], minute[1], b':', second[0], second[1],
    ]
}

// A number below 100 in two digits.
fn two(number: u8) -> [u8; 2]
    requires { number < 100 }
    ensures { result ≡ two number }
{
    [b'0' + number / 10, b'0' + number % 10]
}

//! Dates as values of conditions, in whole seconds since 1970-01-01T00:00:00Z.

ghost use Rattle.std.specs.Prelude.{◌≡◌, ◌↔◌, ℤ, IsTrue, MatchOption, length};
ghost use Rattle.std.specs.Char.{is_ascii_digit};
ghost use Rattle.std.specs.List.{AllPass};
ghost use Rattle.cond_ops.specs.Moment.{IsDay, IsDayAndTime, IsMoment, IsSeconds};
ghost use Rattle.cond_ops.specs.Fields.{IsReadDigits, IsReadDay, IsReadClock, IsReadSecond};

use crate::cuts::{cut_at, cut_twice_at};
use jiff::civil::DateTime;

/// Year, month and day as they are written; the day may be none of the calendar.
#[derive(Clone, Copy)]
struct Day {
    year: i16,
    month: i8,
    day: i8,
}

/// Hour, minute and second as they are written.
#[derive(Clone, Copy)]
struct Clock {
    hour: i8,
    minute: i8,
    second: i8,
}

const MIDNIGHT: Clock = Clock {
    hour: 0,
    minute: 0,
    second: 0,
};

fn is_digits(text: &str, width: usize) -> bool
    ensures { IsTrue result ↔ ((length text.now ≡ width) × AllPass is_ascii_digit text.now) }
{
    text.len() == width && text.bytes().all(|byte| byte.is_ascii_digit())
}

/// A number of four digits.
fn read_year(text: &str) -> Option<i16>
    ensures { IsReadDigits 4 text.now result }
{
    if is_digits(text, 4) {
        text.parse().ok()
    } else {
        None
    }
}

/// A number of two digits.
fn read_pair(text: &str) -> Option<i8>
    ensures { IsReadDigits 2 text.now result }
{
    if is_digits(text, 2) {
        text.parse().ok()
    } else {
        None
    }
}

/// Year, month and day of `YYYY-MM-DD`.
fn read_day(text: &str) -> Option<Day>
    ensures { IsReadDay text.now result }
{
    let (year, month, day) = cut_twice_at(text, '-')?;
    Some(Day {
        year: read_year(year)?,
        month: read_pair(month)?,
        day: read_pair(day)?,
    })
}

/// Hour, minute and second of `HH:MM:SS`.
fn read_clock(text: &str) -> Option<Clock>
    ensures { IsReadClock text.now result }
{
    let (hour, minute, second) = cut_twice_at(text, ':')?;
    Some(Clock {
        hour: read_pair(hour)?,
        minute: read_pair(minute)?,
        second: read_pair(second)?,
    })
}

/// The second of a day and a time of day, where the calendar and the clock have them.
fn second_of(day: Day, clock: Clock) -> Option<i64>
    ensures { IsReadSecond day clock result }
{
    let civil = DateTime::new(
        day.year,
        day.month,
        day.day,
        clock.hour,
        clock.minute,
        clock.second,
        0,
    )
    .ok()?;
    Some(civil.to_plain().to_second())
}

/// The second of `YYYY-MM-DD`, which is that day's midnight.
fn read_date(text: &str) -> Option<i64>
    ensures { MatchOption result ((z : ℤ) → ¬ (IsDay text.now z)) (IsDay text.now) }
{
    second_of(read_day(text)?, MIDNIGHT)
}

/// The second of `YYYY-MM-DDTHH:MM:SSZ`.
fn read_date_and_time(text: &str) -> Option<i64>
    ensures { MatchOption result ((z : ℤ) → ¬ (IsDayAndTime text.now z)) (IsDayAndTime text.now) }
{
    let (day, rest) = cut_at(text, 'T')?;
    let (clock, end) = cut_at(rest, 'Z')?;
    if end.is_empty() {
        second_of(read_day(day)?, read_clock(clock)?)
    } else {
        None
    }
}

/// Seconds since 1970 in 1 to 12 digits.
fn read_seconds(text: &str) -> Option<i64>
    ensures { MatchOption result ((z : ℤ) → ¬ (IsSeconds text.now z)) (IsSeconds text.now) }
{
    if text.len() <= 12 && is_digits(text, text.len()) {
        text.parse().ok()
    } else {
        None
    }
}

/// The second of a date in one of the three forms: `YYYY-MM-DDTHH:MM:SSZ`, `YYYY-MM-DD`, or 1 to 12 digits of
/// seconds since 1970.
pub fn read_moment(text: &str) -> Option<i64>
    ensures { MatchOption result ((z : ℤ) → ¬ (IsMoment text.now z)) (IsMoment text.now) }
{
    if let Some(second) = read_date_and_time(text) {
        return Some(second);
    }
    if let Some(second) = read_date(text) {
        return Some(second);
    }
    read_seconds(text)
}

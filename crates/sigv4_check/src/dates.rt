// The date of a request.
ghost use Rattle.std.specs.Prelude.{◌≡◌, ◌≤◌, ◌+◌, length, IfSome};
ghost use Rattle.sigv4_check.specs.Dates.{could_be_day, digits_from, has_marks, is_time, days_to, written_in, second_at, second_of};

use jiff_core::civil::Date;
use kms_names::decimal;

const FIRST_YEAR: u64 = 1970;

const LAST_YEAR: u64 = 9999;

/// Year, month, day, hour, minute and second as they are written; the calendar may not have the day.
#[derive(Clone, Copy)]
struct Written {
    year: u64,
    month: u64,
    day: u64,
    hour: u64,
    minute: u64,
    second: u64,
}

fn has_marks(text: &[u8]) -> bool
    ensures { result ≡ has_marks text.now }
{
    text.len() == 16 && text[8] == b'T' && text[15] == b'Z'
}

// The number that the digits at these places write.
fn digits_from(text: &[u8], from: usize, to: usize) -> Option<u64>
    requires order { from ≤ to }
    requires few { to ≤ from + 18 }
    requires within { to ≤ length text.now }
    ensures { result ≡ digits_from text.now from to }
{
    decimal(&text[from..to], to - from)
}

// The numbers of a text of 16 bytes.
#[tactic(auto, unfolding(crate::specs::Dates::written_in))]
fn written_in(text: &[u8]) -> Option<Written>
    requires { length text.now ≡ 16 }
    ensures { result ≡ written_in text.now }
{
    let year = digits_from(text, 0, 4)?;
    let month = digits_from(text, 4, 6)?;
    let day = digits_from(text, 6, 8)?;
    let hour = digits_from(text, 9, 11)?;
    let minute = digits_from(text, 11, 13)?;
    let second = digits_from(text, 13, 15)?;
    Some(Written {
        year,
        month,
        day,
        hour,
        minute,
        second,
    })
}

// The year is one to be counted in, and some year has the month and the day.
fn could_be_day(year: u64, month: u64, day: u64) -> bool
    ensures { result ≡ could_be_day year month day }
{
    FIRST_YEAR <= year && year <= LAST_YEAR && month <= 12 && day <= 31
}

// How many days lie between the beginning of 1970 and a day of the calendar that isn't before.
fn days_to(year: u64, month: u64, day: u64) -> Option<u64>
    ensures value { result ≡ days_to year month day }
    ensures few { IfSome result (λ days. days ≤ 2932896) }
{
    if !could_be_day(year, month, day) {
        return None;
    }
    let date = Date::new(year as i16, month as i8, day as i8).ok()?;
    Some(date.to_unix_epoch_day() as u64)
}

fn is_time(written: &Written) -> bool
    ensures { result ≡ is_time written.now }
{
    written.hour <= 23 && written.minute <= 59 && written.second <= 59
}

// Whole seconds since the beginning of 1970.
fn second_at(written: &Written) -> Option<u64>
    ensures { result ≡ second_at written.now }
{
    if !is_time(written) {
        return None;
    }
    let days = days_to(written.year, written.month, written.day)?;
    Some(days * 86_400 + (written.hour * 3_600 + written.minute * 60 + written.second))
}

/// The second of a date in the basic form of ISO 8601, YYYYMMDDTHHMMSSZ, counted from the beginning of
/// 1970; None for a text of another form, a date that the calendar or the clock hasn't, and one before 1970.
pub fn second_of(text: &[u8]) -> Option<u64>
    ensures { result ≡ second_of text.now }
{
    if !has_marks(text) {
        return None;
    }
    second_at(&written_in(text)?)
}

//! A moment as a text.
ghost use Rattle.std.specs.Prelude.{◌≡◌, ◌+◌, ◌<◌, ◌++◌, ◌∷◌, [], IfOk, OnOk, string_bytes};
ghost use Rattle.authority.specs.declared.times.Civil.{Civil as CivilValue};
ghost use Rattle.authority.specs.Times.{civil_at, civil_text, two, moment_text};

use jiff_core::civil::Date;
use kms_names::{NoMemory, Text};
use std::alloc::Global;

/// The last second of the year 9999.
const LAST: u64 = 253_402_300_799;

/// A day of the calendar and a time of day.
#[derive(Clone, Copy)]
pub struct Civil {
    pub year: u16,
    pub month: u8,
    pub day: u8,
    pub hour: u8,
    pub minute: u8,
    pub second: u8,
}

// The day and the time of a moment.
fn civil_at(moment: u64) -> Civil
    ensures value { result ≡ civil_at moment }
    ensures year { result.year < 10000 }
    ensures rest { (result.month < 100) × (result.day < 100) × (result.hour < 100) × (result.minute < 100) × (result.second < 100) }
{
    let moment = moment.min(LAST);
    let date = Date::from_unix_epoch_day((moment / 86_400) as i64).unwrap();
    Civil {
        year: date.year as u16,
        month: date.month as u8,
        day: date.day as u8,
        hour: (moment % 86_400 / 3_600) as u8,
        minute: (moment % 3_600 / 60) as u8,
        second: (moment % 60) as u8,
    }
}

// Adds a number below 100 as two digits.
fn push_two(text: &mut String, n: u8) -> Result<(), NoMemory>
    requires { n < 100 }
    ensures { OnOk result (string_bytes text.new ≡ string_bytes text.old ++ two n) }
{
    text.push((b'0' + n / 10) as char)?;
    text.push((b'0' + n % 10) as char)?;
    Ok(())
}

/// The moment as `YYYY-MM-DDTHH:MM:SSZ`; one past the year 9999 as the last second of that year.
pub fn write_moment(alloc: Global, moment: u64) -> Result<Text, NoMemory>
    ensures { IfOk result (λ t. t ≡ moment_text moment) }
{
    let civil = civil_at(moment);
    let mut text = String::with_capacity(alloc, 20)?;
    push_two(&mut text, (civil.year / 100) as u8)?;
    push_two(&mut text, (civil.year % 100) as u8)?;
    text.push('-')?;
    push_two(&mut text, civil.month)?;
    text.push('-')?;
    push_two(&mut text, civil.day)?;
    text.push('T')?;
    push_two(&mut text, civil.hour)?;
    text.push(':')?;
    push_two(&mut text, civil.minute)?;
    text.push(':')?;
    push_two(&mut text, civil.second)?;
    text.push('Z')?;
    Ok(Text::from_string(text))
}

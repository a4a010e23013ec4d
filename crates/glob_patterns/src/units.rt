//! The characters of a text, each at its place.

ghost use Rattle.std.specs.Prelude.{◌≡◌, ◌==◌, ◌&&◌, ◌||◌, ◌+◌, ◌-◌, ◌<◌, ◌≤◌, ℕ, drop, false, length, slice_index, slice_index_or};
ghost use Rattle.glob_patterns.specs.Letters.{folded, units_of, read_as};
ghost use Rattle.glob_patterns.specs.declared.cases.Case.{Case as CaseValue};

use crate::cases::Case;

/// The characters of a text, each at its place.
#[derive(Clone, Copy)]
pub enum Units<'a> {
    /// Of an ASCII text.
    Bytes(&'a [u8]),
    /// Of any text.
    Chars(&'a [char]),
}

// Clears the flags at whose places neither of two bytes stands.
fn narrow_bytes(flags: &mut [bool], window: &[u8], first: u8, second: u8)
    requires { length window.now ≡ length flags.old }
    ensures { (k : ℕ) → k < length flags.old → slice_index_or flags.new k false ≡ (slice_index_or flags.old k false && (slice_index window.now k == first || slice_index window.now k == second)) }
{
    for k in 0..flags.len() {
        let unit = window[k];
        flags[k] = flags[k] & ((unit == first) | (unit == second));
    }
}

// Clears all flags, since no byte is the character that is wanted.
fn clear(flags: &mut [bool], window: &[u8], wanted: char, case: Case)
    requires same { length window.now ≡ length flags.old }
    requires above { 256 ≤ wanted }
    ensures { (k : ℕ) → k < length flags.old → slice_index_or flags.new k false ≡ (slice_index_or flags.old k false && (folded case (slice_index window.now k) == wanted)) }
{
    for k in 0..flags.len() {
        let _unit = window[k];
        flags[k] = false;
    }
}

// Clears the flags at whose places neither of two characters stands.
fn narrow_chars(flags: &mut [bool], window: &[char], first: char, second: char)
    requires { length window.now ≡ length flags.old }
    ensures { (k : ℕ) → k < length flags.old → slice_index_or flags.new k false ≡ (slice_index_or flags.old k false && (slice_index window.now k == first || slice_index window.now k == second)) }
{
    for k in 0..flags.len() {
        let unit = window[k];
        flags[k] = flags[k] & ((unit == first) | (unit == second));
    }
}

impl<'a> Units<'a> {
    /// How many there are.
    pub fn len(self) -> usize
        ensures value { result ≡ length (units_of self.entry) }
        ensures small { result < usize.MAX }
    {
        match self {
            Units::Bytes(bytes) => bytes.len(),
            Units::Chars(chars) => chars.len(),
        }
    }

    /// Those from a place on.
    pub fn from(self, start: usize) -> Units<'a>
        requires { start ≤ length (units_of self) }
        ensures value { (case : CaseValue) → read_as case result ≡ drop start (read_as case self.entry) }
        ensures len { length (units_of result) ≡ length (units_of self.entry) - start }
    {
        match self {
            Units::Bytes(bytes) => Units::Bytes(&bytes[start..]),
            Units::Chars(chars) => Units::Chars(&chars[start..]),
        }
    }

    /// The one at a place as it is compared.
    pub fn letter_at(self, place: usize, case: Case) -> char
        requires { place < length (units_of self) }
        ensures { result ≡ slice_index (read_as case self.entry) place }
    {
        let unit = match self {
            Units::Bytes(bytes) => char::from(bytes[place]),
            Units::Chars(chars) => chars[place],
        };
        case.fold(unit)
    }

    /// Clears the flags of the places, from one on, at which another character stands than the one that is wanted.
    pub fn narrow(self, start: usize, wanted: char, case: Case, flags: &mut [bool])
        requires room { start + length flags.old ≤ length (units_of self) }
        requires is_folded { folded case wanted ≡ wanted }
        ensures { (k : ℕ) → k < length flags.old → slice_index_or flags.new k false ≡ (slice_index_or flags.old k false && (slice_index (read_as case self.entry) (start + k) == wanted)) }
    {
        let other = case.other(wanted);
        let end = start + flags.len();
        match self {
            Units::Bytes(bytes) => {
                let window = &bytes[start..end];
                if wanted < '\u{100}' {
                    narrow_bytes(flags, window, wanted as u8, other as u8);
                } else {
                    clear(flags, window, wanted, case);
                }
            }
            Units::Chars(chars) => narrow_chars(flags, &chars[start..end], wanted, other),
        }
    }
}

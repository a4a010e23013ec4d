//! Where a part of a pattern fits.

ghost use Rattle.std.specs.Prelude.{◌≡◌, ◌+◌, ◌-◌, ◌*◌, ◌/◌, ◌<◌, ◌≤◌, ◌∷◌, [], ℕ, IfSome, MatchOption, drop, false, length, slice_index_or};
ghost use Rattle.std.specs.Str.{chars};
ghost use Rattle.glob_patterns.specs.Fits.{FitsNowhere, IsBehindFirstFit, IsFirstFit, fits, takes};
ghost use Rattle.glob_patterns.specs.Letters.{folded, letters, read_as, units_of};

use crate::cases::Case;
use crate::units::Units;
use kms_names::Steps;
use std::sync::ledger::Ledger;

// How many places are looked at together.
const LANES: usize = 256;

/// How many characters a text has.
pub fn character_count(text: &str) -> usize
    ensures { result ≡ length (chars text.now) }
{
    text.chars().count()
}

// The first character as it is compared, and what follows it.
fn next_letter(text: &str, case: Case) -> Option<(char, &str)>
    ensures { MatchOption result (letters case text.now ≡ []) (λ x. (letters case text.now ≡ x.0 ∷ letters case x.1.now) × (folded case x.0 ≡ x.0)) }
{
    let mut rest = text.chars();
    let c = rest.next()?;
    Some((case.fold(c), rest.as_str()))
}

// Sets the flags of the places at which a part of a pattern fits, and clears the others. At each character of the part
// the flags of all places are gone over together, which is a step.
fn mark<L: Ledger>(
    segment: &str,
    units: Units<'_>,
    case: Case,
    flags: &mut [bool],
    steps: &mut Steps<L>,
)
    requires { length flags.old + length (chars segment.now) ≤ length (units_of units) + 1 }
    ensures value { (k : ℕ) → k < length flags.old → slice_index_or flags.new k false ≡ fits (letters case segment.now) (drop k (read_as case units.entry)) }
    ensures cost { steps.new ≤ steps.old + length (letters case segment.now) }
{
    flags.fill(true);
    let len = units.len();
    let mut rest = segment;
    let mut place = 0;
    while let Some((wanted, others)) = next_letter(rest, case) {
        steps.tick();
        if wanted != '?' {
            units.narrow(place, wanted, case, flags);
        }
        rest = others;
        place += 1;
    }
}

// Whether some flag is set.
fn has_flag(flags: &[bool]) -> bool
    ensures { result ≡ false → (k : ℕ) → k < length flags.now → slice_index_or flags.now k false ≡ false }
{
    let mut found = false;
    for k in 0..flags.len() {
        found = found | flags[k];
    }
    found
}

// The first of the places that have flags at which a part of a pattern fits. A step is for the flags themselves, which
// are set and sought.
fn first_fit<L: Ledger>(
    segment: &str,
    units: Units<'_>,
    case: Case,
    flags: &mut [bool],
    steps: &mut Steps<L>,
) -> Option<usize>
    requires { length flags.old + length (chars segment.now) ≤ length (units_of units) + 1 }
    ensures value { MatchOption result ((k : ℕ) → k < length flags.old → fits (letters case segment.now) (drop k (read_as case units.entry)) ≡ false) (λ k. (k < length flags.old) × IsFirstFit (letters case segment.now) (read_as case units.entry) k) }
    ensures cost { steps.new ≤ steps.old + (length (letters case segment.now) + 1) }
{
    steps.tick();
    mark(segment, units, case, flags, steps);
    if has_flag(flags) {
        flags.iter().position(|flag| *flag)
    } else {
        None
    }
}

// How many of the places that are left are looked at together.
fn lanes_of(left: usize) -> usize
    requires { 0 < left }
    ensures some { 0 < result }
    ensures left { result ≤ left }
    ensures most { result ≤ LANES }
    ensures windows { (left - result + 255) / 256 + 1 ≡ (left + 255) / 256 }
{
    if left < LANES { left } else { LANES }
}

// The first of so many places at which a part of a pattern fits.
fn first_place<L: Ledger>(
    segment: &str,
    units: Units<'_>,
    case: Case,
    places: usize,
    steps: &mut Steps<L>,
) -> Option<usize>
    requires { places + length (chars segment.now) ≤ length (units_of units) + 1 }
    ensures value { MatchOption result ((k : ℕ) → k < places → fits (letters case segment.now) (drop k (read_as case units.entry)) ≡ false) (λ k. (k < places) × IsFirstFit (letters case segment.now) (read_as case units.entry) k) }
    ensures cost { steps.new ≤ steps.old + (length (letters case segment.now) + 1) * ((places + 255) / 256) }
{
    let mut flags = [true; LANES];
    let mut start = 0;
    while start < places {
        let lanes = lanes_of(places - start);
        if let Some(k) = first_fit(segment, units.from(start), case, &mut flags[..lanes], steps) {
            return Some(start + k);
        }
        start += lanes;
    }
    None
}

/// What stands behind the first place at which a part of a pattern fits.
pub fn behind_first_fit<'a, L: Ledger>(
    segment: &str,
    units: Units<'a>,
    case: Case,
    steps: &mut Steps<L>,
) -> Option<Units<'a>>
    ensures value { MatchOption result (FitsNowhere (letters case segment.now) (read_as case units.entry)) (λ rest. IsBehindFirstFit (letters case segment.now) (read_as case units.entry) (read_as case rest)) }
    ensures shorter { IfSome result (λ rest. length (units_of rest) ≤ length (units_of units.entry)) }
    ensures cost { steps.new ≤ steps.old + (length (chars segment.now) + 1) * (length (units_of units.entry) / 256 + 1) }
{
    let count = character_count(segment);
    let len = units.len();
    if len < count {
        return None;
    }
    match first_place(segment, units, case, len - count + 1, steps) {
        Some(place) => Some(units.from(place + count)),
        None => None,
    }
}

// Whether a character of a pattern takes one of a text.
fn takes_letter(wanted: char, letter: char) -> bool
    ensures { result ≡ takes wanted letter }
{
    wanted == '?' || letter == wanted
}

/// Whether a part of a pattern fits at a place that has room for it. A step is one comparison of two characters.
pub fn fits_at<L: Ledger>(
    segment: &str,
    units: Units<'_>,
    case: Case,
    start: usize,
    steps: &mut Steps<L>,
) -> bool
    requires { start + length (chars segment.now) ≤ length (units_of units) }
    ensures value { result ≡ fits (letters case segment.now) (drop start (read_as case units.entry)) }
    ensures cost { steps.new ≤ steps.old + length (letters case segment.now) }
{
    let len = units.len();
    let mut rest = segment;
    let mut place = start;
    while let Some((wanted, others)) = next_letter(rest, case) {
        steps.tick();
        let letter = units.letter_at(place, case);
        if !takes_letter(wanted, letter) {
            return false;
        }
        rest = others;
        place += 1;
    }
    true
}

//! Patterns part by part.

ghost use Rattle.std.specs.Prelude.{◌≡◌, ◌↔◌, ◌+◌, ◌*◌, ◌/◌, ◌≤◌, ◌∷◌, ◌++◌, IfSome, IsTrue, MatchOption, drop, false, length, true};
ghost use Rattle.std.specs.Str.{chars};
ghost use Rattle.kms_names.specs.Glob.{Globs, star};
ghost use Rattle.glob_patterns.specs.Fits.{HasNoStar, fits};
ghost use Rattle.glob_patterns.specs.Letters.{letters, read_as, units_of};

use crate::cases::Case;
use crate::fitting::{behind_first_fit, character_count, fits_at};
use crate::units::Units;
use kms_names::Steps;
use std::sync::ledger::Ledger;

// What stands before and behind the first `*`.
fn at_star(pattern: &str) -> Option<(&str, &str)>
    ensures { MatchOption result (HasNoStar (chars pattern.now)) (λ parts. HasNoStar (chars parts.0.now) × (chars pattern.now ≡ chars parts.0.now ++ star ∷ chars parts.1.now)) }
{
    pattern.split_once('*')
}

// Whether the part of a pattern behind its last `*` stands at the end.
fn is_end<L: Ledger>(segment: &str, units: Units<'_>, case: Case, steps: &mut Steps<L>) -> bool
    requires { HasNoStar (chars segment.now) }
    ensures value { IsTrue result ↔ Globs (star ∷ letters case segment.now) (read_as case units.entry) }
    ensures cost { steps.new ≤ steps.old + length (chars segment.now) }
{
    let count = character_count(segment);
    let len = units.len();
    count <= len && fits_at(segment, units, case, len - count, steps)
}

// Whether a pattern without `*` matches.
fn is_whole<L: Ledger>(segment: &str, units: Units<'_>, case: Case, steps: &mut Steps<L>) -> bool
    requires { HasNoStar (chars segment.now) }
    ensures value { IsTrue result ↔ Globs (letters case segment.now) (read_as case units.entry) }
    ensures cost { steps.new ≤ steps.old + length (chars segment.now) }
{
    let count = character_count(segment);
    units.len() == count && fits_at(segment, units, case, 0, steps)
}

// What is left behind a part of a pattern that fits at the front.
fn behind_front<'a, L: Ledger>(
    front: &str,
    units: Units<'a>,
    case: Case,
    steps: &mut Steps<L>,
) -> Option<Units<'a>>
    ensures value { MatchOption result (fits (letters case front.now) (read_as case units.entry) ≡ false) (λ rest. (fits (letters case front.now) (read_as case units.entry) ≡ true) × (read_as case rest ≡ drop (length (letters case front.now)) (read_as case units.entry))) }
    ensures shorter { IfSome result (λ rest. length (units_of rest) ≤ length (units_of units.entry)) }
    ensures cost { steps.new ≤ steps.old + length (chars front.now) }
{
    let count = character_count(front);
    if units.len() < count {
        return None;
    }
    if fits_at(front, units, case, 0, steps) {
        Some(units.from(count))
    } else {
        None
    }
}

// Whether `*` and then a pattern matches. Each part between two `*` is sought where the one before it ends: its first
// place leaves the most to what follows.
fn matches_behind_star<L: Ledger>(
    pattern: &str,
    units: Units<'_>,
    case: Case,
    steps: &mut Steps<L>,
) -> bool
    ensures value { IsTrue result ↔ Globs (star ∷ letters case pattern.now) (read_as case units.entry) }
    ensures cost { steps.new ≤ steps.old + length (chars pattern.now) * (length (units_of units.entry) / 256 + 1) }
{
    let mut rest = pattern;
    let mut left = units;
    while let Some((segment, others)) = at_star(rest) {
        let Some(behind) = behind_first_fit(segment, left, case, steps) else {
            return false;
        };
        left = behind;
        rest = others;
    }
    is_end(rest, left, case, steps)
}

/// Whether a pattern matches.
pub fn matches_units<L: Ledger>(
    pattern: &str,
    units: Units<'_>,
    case: Case,
    steps: &mut Steps<L>,
) -> bool
    ensures value { IsTrue result ↔ Globs (letters case pattern.now) (read_as case units.entry) }
    ensures cost { steps.new ≤ steps.old + length (chars pattern.now) * (length (units_of units.entry) / 256 + 1) }
{
    let Some((front, rest)) = at_star(pattern) else {
        return is_whole(pattern, units, case, steps);
    };
    match behind_front(front, units, case, steps) {
        Some(left) => matches_behind_star(rest, left, case, steps),
        None => false,
    }
}

//! Patterns and texts.

ghost use Rattle.std.specs.Prelude.{◌≡◌, ◌↔◌, ◌+◌, ◌≤◌, IsTrue};
ghost use Rattle.std.specs.Str.{chars, IsAscii};
ghost use Rattle.kms_names.specs.Glob.{Globs, lowercase_chars};
ghost use Rattle.glob_patterns.specs.Costs.{match_cost};
ghost use Rattle.glob_patterns.specs.Letters.{AreLettersOf, letters};
ghost use Rattle.glob_patterns.specs.declared.letters.Letters.{Letters as LettersValue};
ghost use Rattle.glob_patterns.specs.declared.letters.Letters.TheVariants as kept;

use crate::cases::Case;
use crate::letters::Letters;
use crate::matching::matches_units;
use crate::plain::plain_matches;
use crate::units::Units;
use kms_names::Steps;
use std::alloc::Global;
use std::sync::ledger::Ledger;

// Whether a pattern matches a text whose characters were read.
fn matches_as<L: Ledger>(
    pattern: &str,
    text: &str,
    read: &Letters,
    case: Case,
    steps: &mut Steps<L>,
) -> bool
    requires { AreLettersOf text.now read.now }
    ensures value { IsTrue result ↔ Globs (letters case pattern.now) (letters case text.now) }
    ensures cost { steps.new ≤ steps.old + match_cost pattern.now text.now read.now }
{
    match read {
        Letters::Ascii => matches_units(pattern, Units::Bytes(text.as_bytes()), case, steps),
        Letters::Read(characters) => {
            matches_units(pattern, Units::Chars(characters.as_slice()), case, steps)
        }
        Letters::Unread => plain_matches(pattern, text, case, steps),
    }
}

/// Whether a pattern matches a text, exactly as `kms_names::glob` does: character by character, `*` any run and `?` any
/// one. The text's characters were read (`Letters::of`).
///
/// A pattern of p and a text of t characters take at most `p * (t / 256 + 1)` steps. A step is one comparison of two
/// characters, or one look at up to 256 places of the text at once, for one character of the pattern or to set and read
/// the flags of these places. Where there was no memory for the characters (`Letters::Unread`), it takes at most
/// `(p + 1) * (t + 1)` steps, those of `kms_names::glob`. No memory is taken.
pub fn matches_read<L: Ledger>(
    pattern: &str,
    text: &str,
    read: &Letters,
    steps: &mut Steps<L>,
) -> bool
    requires { AreLettersOf text.now read.now }
    ensures value { IsTrue result ↔ Globs (chars pattern.now) (chars text.now) }
    ensures cost { steps.new ≤ steps.old + match_cost pattern.now text.now read.now }
{
    matches_as(pattern, text, read, Case::Exact, steps)
}

/// As `matches_read`, with the characters read for this one match: an ASCII text takes no memory, and another four bytes
/// a character.
pub fn matches<L: Ledger>(alloc: Global, pattern: &str, text: &str, steps: &mut Steps<L>) -> bool
    ensures value { IsTrue result ↔ Globs (chars pattern.now) (chars text.now) }
    ensures cost { (read : LettersValue) × AreLettersOf text.now read × (IsAscii text.now → read ≡ kept.Ascii) × (steps.new ≤ steps.old + match_cost pattern.now text.now read) }
{
    matches_read(pattern, text, &Letters::of(alloc, text), steps)
}

/// As `matches`, with ASCII letters compared without their case.
pub fn matches_nocase<L: Ledger>(
    alloc: Global,
    pattern: &str,
    text: &str,
    steps: &mut Steps<L>,
) -> bool
    ensures value { IsTrue result ↔ Globs (lowercase_chars pattern.now) (lowercase_chars text.now) }
    ensures cost { (read : LettersValue) × AreLettersOf text.now read × (IsAscii text.now → read ≡ kept.Ascii) × (steps.new ≤ steps.old + match_cost pattern.now text.now read) }
{
    matches_as(
        pattern,
        text,
        &Letters::of(alloc, text),
        Case::AsciiIgnored,
        steps,
    )
}

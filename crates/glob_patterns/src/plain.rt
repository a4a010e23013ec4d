//! Patterns that are matched without memory, character by character.

ghost use Rattle.std.specs.Prelude.{◌≡◌, ◌↔◌, ◌+◌, ◌≤◌, IsTrue};
ghost use Rattle.kms_names.specs.Glob.{Globs, glob_cost};
ghost use Rattle.glob_patterns.specs.Letters.{letters};

use crate::cases::Case;
use kms_names::{Steps, glob, glob_nocase};
use std::sync::ledger::Ledger;

/// Whether a pattern matches a text, in as many steps as the product of their lengths and without memory.
pub fn plain_matches<L: Ledger>(pattern: &str, text: &str, case: Case, steps: &mut Steps<L>) -> bool
    ensures value { IsTrue result ↔ Globs (letters case pattern.now) (letters case text.now) }
    ensures cost { steps.new ≤ steps.old + glob_cost pattern.now text.now }
{
    match case {
        Case::Exact => glob(pattern, text, steps),
        Case::AsciiIgnored => glob_nocase(pattern, text, steps),
    }
}

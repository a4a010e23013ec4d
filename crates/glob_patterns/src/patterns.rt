//! Patterns that are kept.

ghost use Rattle.std.specs.Prelude.{◌≡◌, ◌↔◌, ◌+◌, ◌≤◌, IfOk, IsTrue};
ghost use Rattle.std.specs.Str.{chars, IsAscii};
ghost use Rattle.kms_names.specs.Glob.{Globs};
ghost use Rattle.glob_patterns.specs.Costs.{match_cost};
ghost use Rattle.glob_patterns.specs.Letters.{AreLettersOf};
ghost use Rattle.glob_patterns.specs.declared.letters.Letters.{Letters as LettersValue};
ghost use Rattle.glob_patterns.specs.declared.letters.Letters.TheVariants as kept;

use crate::letters::Letters;
use crate::texts::{matches, matches_read};
use kms_names::{NoMemory, Steps, Text};
use std::alloc::Global;
use std::marker::Model;
use std::sync::ledger::Ledger;

/// A pattern with `*` and `?`. Contracts see it as its text.
#[derive(Drop)]
pub struct Pattern {
    alloc: Global,
    text: Text,
}

impl Model for Pattern {
    ghost use Rattle.std.specs.Prelude.{List, ℕ};

    ghost Value = { List ℕ };

    ghost view = { λ p. p.text };
}

impl Pattern {
    /// A pattern of a text.
    pub fn new(alloc: Global, text: &str) -> Result<Pattern, NoMemory>
        ensures { IfOk result (λ pattern. pattern ≡ text.now) }
    {
        let text = Text::from_str(alloc, text)?;
        Ok(Pattern { alloc, text })
    }

    /// Whether it matches a text, exactly as `matches` does, in as many steps and with as much memory.
    pub fn matches<L: Ledger>(&self, text: &str, steps: &mut Steps<L>) -> bool
        ensures value { IsTrue result ↔ Globs (chars self.now) (chars text.now) }
        ensures cost { (read : LettersValue) × AreLettersOf text.now read × (IsAscii text.now → read ≡ kept.Ascii) × (steps.new ≤ steps.old + match_cost self.now text.now read) }
    {
        matches(self.alloc, self.text.as_str(), text, steps)
    }

    /// As `matches`, for a text whose characters were read. No memory is taken.
    pub fn matches_read<L: Ledger>(&self, text: &str, read: &Letters, steps: &mut Steps<L>) -> bool
        requires { AreLettersOf text.now read.now }
        ensures value { IsTrue result ↔ Globs (chars self.now) (chars text.now) }
        ensures cost { steps.new ≤ steps.old + match_cost self.now text.now read.now }
    {
        matches_read(self.text.as_str(), text, read, steps)
    }

    /// A copy that equals its source.
    pub fn copy(&self) -> Result<Pattern, NoMemory>
        ensures { IfOk result (λ pattern. pattern ≡ self.now) }
    {
        let text = self.text.copy()?;
        let alloc = self.alloc;
        Ok(Pattern { alloc, text })
    }
}

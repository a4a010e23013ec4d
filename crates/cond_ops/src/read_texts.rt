//! Texts whose characters were read.

ghost use Rattle.std.specs.Prelude.{◌≡◌, ◌↔◌, ◌<◌, IsTrue};
ghost use Rattle.glob_patterns.specs.Letters.{AreLettersOf};
ghost use Rattle.cond_ops.specs.Relation.{IsLike};

use glob_patterns::{Letters, matches_read};
use kms_names::Steps;
use std::alloc::Global;
use std::marker::{Brand, Model};
use std::sync::ledger::{Blank, Ledger};

// A text whose characters were read, and a pattern.
#[derive(Clone, Copy)]
struct Question<'a> {
    text: &'a str,
    read: &'a Letters,
    pattern: &'a str,
}

// Whether the pattern matches. The steps are counted from 0.
fn is_like_from<L: Ledger>(question: &Question<'_>, blank: Blank) -> bool
    requires name { blank.name ≡ L.name }
    requires parts { blank.parts ≡ L.parts }
    requires some { 0 < blank.parts }
    requires letters { AreLettersOf question.now.text.now question.now.read.now }
    ensures { IsTrue result ↔ IsLike question.now.text.now question.now.pattern.now }
{
    let (book, share) = blank.open::<L>();
    let mut steps = Steps::new(book, share);
    matches_read(question.pattern, question.text, question.read, &mut steps)
}

/// Whether a pattern matches a text whose characters were read.
pub(crate) fn is_like_read(text: &str, read: &Letters, pattern: &str) -> bool
    requires { AreLettersOf text.now read.now }
    ensures { IsTrue result ↔ IsLike text.now pattern.now }
{
    let question = Question {
        text,
        read,
        pattern,
    };
    is_like_from::<Brand>(&question, Blank::new(1))
}

/// A text whose characters were read, for all patterns that it is matched with. Contracts see the text.
#[derive(Drop)]
pub struct ReadText<'a> {
    text: &'a str,
    letters: Letters,
}

impl<'a> Model for ReadText<'a> {
    ghost use Rattle.std.specs.Prelude.{List, ℕ};
    ghost use Rattle.glob_patterns.specs.Letters.{AreLettersOf};

    ghost Value = { List ℕ };

    ghost view = { λ r. r.text.now };

    ghost invariant = { λ r. AreLettersOf r.text.now r.letters };
}

impl<'a> ReadText<'a> {
    ghost use Rattle.std.specs.Prelude.{◌≡◌, ◌↔◌, IsTrue};
    ghost use Rattle.cond_ops.specs.Relation.{IsLike};

    /// A text, whose characters are read where it isn't ASCII and there is memory for them.
    pub fn of(alloc: Global, text: &'a str) -> ReadText<'a>
        ensures { result ≡ text.now }
    {
        let letters = Letters::of(alloc, text);
        ReadText { text, letters }
    }

    /// Whether a pattern matches it.
    pub fn is_like(&self, pattern: &str) -> bool
        ensures { IsTrue result ↔ IsLike self.now pattern.now }
    {
        is_like_read(self.text, &self.letters, pattern)
    }
}

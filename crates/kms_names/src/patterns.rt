//! Patterns that are read once.

ghost use Rattle.std.specs.Prelude.{◌≡◌, ◌↔◌, ◌<◌, ◌++◌, ◌∷◌, [], ℕ, List, IfOk, IfSome, IsTrue};
ghost use Rattle.std.specs.List.{AllPass};
ghost use Rattle.std.specs.Str.{chars};
ghost use Rattle.kms_names.specs.Glob.{Globs, star, is_plain};

use crate::counter::Steps;
use crate::faults::NoMemory;
use crate::globs::glob;
use crate::parts::after;
use crate::texts::Text;
use std::alloc::Global;
use std::marker::{Brand, Model};
use std::sync::ledger::{Blank, Ledger};

/// How a pattern is matched.
#[derive(Drop)]
enum Shape {
    /// `*` alone: every text.
    Anything,
    /// Neither `*` nor `?`: that text.
    Exact(Text),
    /// `*` behind a front with neither: what begins with the front.
    Prefix(Text),
    /// Anything else, character by character.
    Glob(Text),
}

/// A pattern with `*` and `?`, whose shape is found once, so that the common ones are matched by one comparison of
/// texts. Contracts see it as its text.
#[derive(Drop)]
pub struct Pattern {
    shape: Shape,
}

impl Model for Pattern {
    ghost use Rattle.std.specs.Prelude.{List, ℕ};

    ghost Value = { List ℕ };

    ghost use Rattle.kms_names.specs.Pattern.{pattern_text, HasShape};

    ghost view = { λ p. pattern_text p.shape };

    ghost invariant = { λ p. HasShape p.shape };
}

/// A pattern and a text.
#[derive(Clone, Copy)]
struct Question<'a> {
    pattern: &'a str,
    text: &'a str,
}

fn globs_from<L: Ledger>(question: &Question, blank: Blank) -> bool
    requires name { blank.name ≡ L.name }
    requires parts { blank.parts ≡ L.parts }
    requires some { 0 < blank.parts }
    ensures { IsTrue result ↔ Globs (chars question.now.pattern.now) (chars question.now.text.now) }
{
    let (book, share) = blank.open::<L>();
    glob(
        question.pattern,
        question.text,
        &mut Steps::new(book, share),
    )
}

fn globs(pattern: &str, text: &str) -> bool
    ensures { IsTrue result ↔ Globs (chars pattern.now) (chars text.now) }
{
    globs_from::<Brand>(&Question { pattern, text }, Blank::new(1))
}

fn is_plain_byte(byte: u8) -> bool
    ensures { result ≡ is_plain byte }
{
    !(byte == b'*' || byte == b'?')
}

/// Whether neither `*` nor `?` stands in a text.
fn is_plain_text(text: &str) -> bool
    ensures { IsTrue result ↔ AllPass is_plain text.now }
{
    text.bytes().all(is_plain_byte)
}

/// What stands before a `*` at the end, where neither stands in it.
fn plain_front(text: &str) -> Option<&str>
    ensures { IfSome result (λ front. AllPass is_plain front.now × (text.now ≡ front.now ++ star ∷ [])) }
{
    let front = text.strip_suffix("*")?;
    if is_plain_text(front) {
        Some(front)
    } else {
        None
    }
}

impl Pattern {
    /// A pattern of a text.
    pub fn new(alloc: Global, text: &str) -> Result<Pattern, NoMemory>
        ensures { IfOk result (λ pattern. pattern ≡ text.now) }
    {
        if text == "*" {
            return Ok(Pattern {
                shape: Shape::Anything,
            });
        }
        if is_plain_text(text) {
            let text = Text::from_str(alloc, text)?;
            return Ok(Pattern {
                shape: Shape::Exact(text),
            });
        }
        if let Some(front) = plain_front(text) {
            let front = Text::from_str(alloc, front)?;
            return Ok(Pattern {
                shape: Shape::Prefix(front),
            });
        }
        let text = Text::from_str(alloc, text)?;
        Ok(Pattern {
            shape: Shape::Glob(text),
        })
    }

    /// Whether it matches a text, exactly as `glob` does: character by character, `*` any run and `?` any one. No
    /// memory is taken.
    pub fn matches(&self, text: &str) -> bool
        ensures { IsTrue result ↔ Globs (chars self.now) (chars text.now) }
    {
        match &self.shape {
            Shape::Anything => true,
            Shape::Exact(wanted) => text == wanted.as_str(),
            Shape::Prefix(front) => after(text, front.as_str()).is_some(),
            Shape::Glob(pattern) => globs(pattern.as_str(), text),
        }
    }

    /// A copy that equals its source.
    pub fn copy(&self) -> Result<Pattern, NoMemory>
        ensures { IfOk result (λ pattern. pattern ≡ self.now) }
    {
        let shape = match &self.shape {
            Shape::Anything => Shape::Anything,
            Shape::Exact(text) => Shape::Exact(text.copy()?),
            Shape::Prefix(front) => Shape::Prefix(front.copy()?),
            Shape::Glob(text) => Shape::Glob(text.copy()?),
        };
        Ok(Pattern { shape })
    }
}

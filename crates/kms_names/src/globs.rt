ghost use Rattle.std.specs.Prelude.{◌≡◌, ℕ, ◌≢◌, ◌↔◌, ◌+◌, ◌≤◌, [], ◌∷◌, IsTrue, MatchOption};
ghost use Rattle.std.specs.Str.{chars};
ghost use Rattle.kms_names.specs.Glob.{Globs, lowercase_chars, glob_cost};
ghost use Rattle.kms_names.specs.GlobMoves.{folded, letters, GoesLater, Moves};

use crate::counter::Steps;
use std::sync::ledger::Ledger;

/// How characters are compared.
#[derive(Clone, Copy)]
enum Case {
    Exact,
    AsciiIgnored,
}

impl Case {
    /// A character as it is compared.
    fn fold(self, c: char) -> char
        ensures { result ≡ folded self c }
    {
        match self {
            Case::Exact => c,
            Case::AsciiIgnored => c.to_ascii_lowercase(),
        }
    }
}

/// What is left of the pattern and of the text.
#[derive(Clone, Copy)]
struct Place<'a> {
    pattern: &'a str,
    text: &'a str,
}

/// How a match goes on from a place.
#[derive(Clone, Copy)]
enum Move<'a> {
    /// What is left of the pattern matches what is left of the text.
    Done,
    /// A `*` was passed.
    Star(Place<'a>),
    /// A character of the pattern took one of the text.
    Advance(Place<'a>),
    /// No match goes on from here.
    Stuck,
}

/// The first character as it is compared, and what follows it.
fn next_char<'a>(text: &'a str, case: Case) -> Option<(char, &'a str)>
    ensures { MatchOption result (letters case text.now ≡ []) (λ x. letters case text.now ≡ x.0 ∷ letters case x.1.now) }
{
    let mut rest = text.chars();
    let c = rest.next()?;
    Some((case.fold(c), rest.as_str()))
}

impl<'a> Place<'a> {
    /// The move from here. Each comparison of two characters is a step.
    fn next_move<L: Ledger>(self, case: Case, steps: &mut Steps<L>) -> Move<'a>
        ensures moves { Moves case self.entry result }
        ensures cost { steps.new ≤ steps.old + 1 }
    {
        let Some((wanted, pattern)) = next_char(self.pattern, case) else {
            return match next_char(self.text, case) {
                None => Move::Done,
                Some(_) => Move::Stuck,
            };
        };
        if wanted == '*' {
            if pattern.is_empty() {
                return Move::Done;
            }
            return Move::Star(Place {
                pattern,
                text: self.text,
            });
        }
        let Some((found, text)) = next_char(self.text, case) else {
            return Move::Stuck;
        };
        steps.tick();
        if wanted == '?' || wanted == found {
            Move::Advance(Place { pattern, text })
        } else {
            Move::Stuck
        }
    }
}

/// What follows the last `*`, from one character later on.
fn one_later<'a>(last_star: Option<Place<'a>>, case: Case) -> Option<Place<'a>>
    ensures { GoesLater case last_star.entry result }
{
    let last = last_star?;
    let (_, text) = next_char(last.text, case)?;
    Some(Place { text, ..last })
}

/// Whether a pattern matches a text. Only the last `*` is taken back: a match of what follows it that
/// starts later leaves no more of the text to what comes before it. A `*` at the end ends the match.
fn is_match<L: Ledger>(pattern: &str, text: &str, case: Case, steps: &mut Steps<L>) -> bool
    ensures value { IsTrue result ↔ Globs (letters case pattern.now) (letters case text.now) }
    ensures cost { steps.new ≤ steps.old + glob_cost pattern.now text.now }
{
    let mut place = Place { pattern, text };
    let mut last_star: Option<Place> = None;
    'moves: loop {
        match place.next_move(case, steps) {
            Move::Done => return true,
            Move::Star(next) => {
                last_star = Some(next);
                place = next;
            }
            Move::Advance(next) => place = next,
            Move::Stuck => {
                let Some(next) = one_later(last_star, case) else {
                    return false;
                };
                last_star = Some(next);
                place = next;
            }
        }
    }
}

/// Whether a pattern matches a text, character by character: `*` matches any run of characters, `?` any
/// one, and any other character itself. A pattern of p and a text of t characters take at most
/// `(p + 1) * (t + 1)` steps, each a comparison of a pattern character with a text character. No memory
/// is taken.
pub fn glob<L: Ledger>(pattern: &str, text: &str, steps: &mut Steps<L>) -> bool
    ensures value { IsTrue result ↔ Globs (chars pattern.now) (chars text.now) }
    ensures cost { steps.new ≤ steps.old + glob_cost pattern.now text.now }
{
    is_match(pattern, text, Case::Exact, steps)
}

/// As `glob`, with ASCII letters compared without their case.
pub fn glob_nocase<L: Ledger>(pattern: &str, text: &str, steps: &mut Steps<L>) -> bool
    ensures value { IsTrue result ↔ Globs (lowercase_chars pattern.now) (lowercase_chars text.now) }
    ensures cost { steps.new ≤ steps.old + glob_cost pattern.now text.now }
{
    is_match(pattern, text, Case::AsciiIgnored, steps)
}

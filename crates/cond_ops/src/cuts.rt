//! Parts of texts.

ghost use Rattle.std.specs.Prelude.{◌<◌, ℕ, List, MatchOption};
ghost use Rattle.cond_ops.specs.Cut.{IsCutAt, IsCutTwiceAt};

/// What stands before and behind the first of an ASCII character.
pub fn cut_at(text: &str, mark: char) -> Option<(&str, &str)>
    requires { mark < 128 }
    ensures { MatchOption result ((part rest : List ℕ) → ¬ (IsCutAt mark text.now part rest)) (λ parts. IsCutAt mark text.now parts.0.now parts.1.now) }
{
    text.split_once(mark)
}

/// The parts before, between and behind the first two of an ASCII character.
pub fn cut_twice_at(text: &str, mark: char) -> Option<(&str, &str, &str)>
    requires { mark < 128 }
    ensures { MatchOption result ((first second rest : List ℕ) → ¬ (IsCutTwiceAt mark text.now first second rest)) (λ parts. IsCutTwiceAt mark text.now parts.0.now parts.1.now parts.2.now) }
{
    let (first, others) = cut_at(text, mark)?;
    let (second, rest) = cut_at(others, mark)?;
    Some((first, second, rest))
}

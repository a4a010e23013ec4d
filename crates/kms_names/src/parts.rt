//! Parts of texts.

ghost use Rattle.std.specs.Prelude.{◌≡◌, ◌≢◌, ◌++◌, ◌∷◌, ℕ, List, MatchOption};
ghost use Rattle.kms_names.specs.Parts.{HasNoColon};

/// What follows a front; `None` where the text doesn't begin with it. It takes no memory.
pub fn after<'a>(text: &'a str, front: &str) -> Option<&'a str>
    ensures { MatchOption result ((rest : List ℕ) → text.now ≢ front.now ++ rest) (λ rest. text.now ≡ front.now ++ rest.now) }
{
    text.strip_prefix(front)
}

/// What stands before and behind the first colon.
pub fn at_colon(text: &str) -> Option<(&str, &str)>
    ensures { MatchOption result (HasNoColon text.now) (λ parts. HasNoColon parts.0.now × (text.now ≡ parts.0.now ++ 58 ∷ parts.1.now)) }
{
    text.split_once(':')
}

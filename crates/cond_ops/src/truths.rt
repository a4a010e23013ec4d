//! `true` and `false` as values of conditions.

ghost use Rattle.std.specs.Prelude.{Bool, MatchOption};
ghost use Rattle.cond_ops.specs.Value.{IsTruth};

/// The truth value that a text is, without ASCII case.
pub fn read_truth(text: &str) -> Option<bool>
    ensures { MatchOption result ((b : Bool) → ¬ (IsTruth text.now b)) (IsTruth text.now) }
{
    if text.eq_ignore_ascii_case("true") {
        Some(true)
    } else if text.eq_ignore_ascii_case("false") {
        Some(false)
    } else {
        None
    }
}

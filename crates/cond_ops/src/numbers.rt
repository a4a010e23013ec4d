//! Numbers as values of conditions.

ghost use Rattle.std.specs.Prelude.{ℤ, MatchOption};
ghost use Rattle.cond_ops.specs.Number.{IsNumber};

use itoa::Buffer;

/// The integer that a text is, as it is printed: a `-` or nothing, and digits with no zero before them.
pub fn read_number(text: &str) -> Option<i64>
    ensures { MatchOption result ((z : ℤ) → ¬ (IsNumber text.now z)) (IsNumber text.now) }
{
    let number = text.parse::<i64>().ok()?;
    if Buffer::new().format(number) == text {
        Some(number)
    } else {
        None
    }
}

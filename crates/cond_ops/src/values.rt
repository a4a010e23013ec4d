//! The forms of values, and how they are compared.

ghost use Rattle.std.specs.Prelude.{◌≡◌, ◌↔◌, IsTrue};
ghost use Rattle.cond_ops.specs.Relation.{Compares};
ghost use Rattle.cond_ops.specs.Value.{IsValue};

use crate::colons::has_colons;
use crate::moments::read_moment;
use crate::numbers::read_number;
use crate::operators::{Kind, Operator, Order};
use crate::truths::read_truth;

/// How many colons an ARN has at least.
const ARN_COLONS: u32 = 5;

/// Whether a policy's value has the form that an operator asks for. Numbers are decimal integers of 64 bits, as they
/// are printed; dates are `YYYY-MM-DDTHH:MM:SSZ`, `YYYY-MM-DD` or 1 to 12 digits of seconds since 1970; Bool takes
/// `true` and `false` without ASCII case; ARNs have at least five colons; Null takes `true` and `false`; the string
/// operators take any text. No memory is taken.
pub fn is_value(operator: Operator, text: &str) -> bool
    ensures { IsTrue result ↔ IsValue operator text.now }
{
    match operator.kind() {
        Kind::Text | Kind::TextIgnoringCase | Kind::Pattern => true,
        Kind::Number(_) => read_number(text).is_some(),
        Kind::Date(_) => read_moment(text).is_some(),
        Kind::Truth => read_truth(text).is_some(),
        Kind::Arn => has_colons(text, ARN_COLONS),
        Kind::Absence => text == "true" || text == "false",
    }
}

impl Order {
    /// Whether the left number is so to the right one.
    pub fn compares(self, left: i64, right: i64) -> bool
        ensures { IsTrue result ↔ Compares self left right }
    {
        match self {
            Order::Equal => left == right,
            Order::Less => left < right,
            Order::LessOrEqual => left <= right,
            Order::Greater => left > right,
            Order::GreaterOrEqual => left >= right,
        }
    }
}

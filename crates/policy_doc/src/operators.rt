// The operators that a policy's conditions may have.
ghost use Rattle.std.specs.Prelude.{◌≡◌};
ghost use Rattle.policy_doc.specs.Operators.{is_value_text, operator_of, named_operator};

use crate::faults::Departure;
use crate::members::is_known;
use cond_ops::{Operator, QualifiedOperator, is_value, read_operator};

/// Whether an operator compares with values of this form.
pub fn takes_value(operator: Operator, text: &str) -> bool
    ensures { result ≡ is_value_text operator text.now }
{
    is_value(operator, text)
}

fn operator(name: &str) -> Option<QualifiedOperator>
    ensures { result ≡ operator_of name.now }
{
    read_operator(name)
}

// The operators that aren't served, with each prefix and suffix.
const UNSERVED: [&str; 18] = [
    "IpAddress",
    "IpAddressIfExists",
    "NotIpAddress",
    "NotIpAddressIfExists",
    "BinaryEquals",
    "BinaryEqualsIfExists",
    "ForAllValues:IpAddress",
    "ForAllValues:IpAddressIfExists",
    "ForAllValues:NotIpAddress",
    "ForAllValues:NotIpAddressIfExists",
    "ForAllValues:BinaryEquals",
    "ForAllValues:BinaryEqualsIfExists",
    "ForAnyValue:IpAddress",
    "ForAnyValue:IpAddressIfExists",
    "ForAnyValue:NotIpAddress",
    "ForAnyValue:NotIpAddressIfExists",
    "ForAnyValue:BinaryEquals",
    "ForAnyValue:BinaryEqualsIfExists",
];

/// The operator that a member of Condition names.
#[tactic(auto, unfolding(crate::specs::Operators::named_operator))]
pub fn named_operator(name: &str) -> Result<QualifiedOperator, Departure>
    ensures { result ≡ named_operator name.now }
{
    if is_known(&UNSERVED, name) {
        return Err(Departure::Unsupported);
    }
    operator(name).ok_or(Departure::BadShape)
}

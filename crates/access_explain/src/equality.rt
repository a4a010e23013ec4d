// Whether findings are the same.
ghost use Rattle.std.specs.Prelude.{◌≡◌, ◌↔◌, IsTrue};
ghost use Rattle.access_explain.specs.Tests.{SameMarks};

use crate::findings::Finding;
use crate::grounds::Ground;
use kms_names::{Action, Text};

#[tactic(auto, using(crate::proofs::EqualFacts::same_action_number))]
fn same_action(one: Action, other: Action) -> bool
    ensures { IsTrue result ↔ (one ≡ other) }
{
    one.number() == other.number()
}

fn same_text(one: &Text, other: &Text) -> bool
    ensures { IsTrue result ↔ (one.now ≡ other.now) }
{
    one.as_str() == other.as_str()
}

fn same_ground(one: Ground, other: Ground) -> bool
    ensures { IsTrue result ↔ (one ≡ other) }
{
    one == other
}

fn same_marks(one: &Finding, other: &Finding) -> bool
    ensures { IsTrue result ↔ SameMarks one.now other.now }
{
    one.key_marks.equal(&other.key_marks)
        && one.identity_marks.equal(&other.identity_marks)
        && one.ceiling_marks.equal(&other.ceiling_marks)
        && one.grant_marks.equal(&other.grant_marks)
}

// Whether both are the same.
fn same_finding(one: &Finding, other: &Finding) -> bool
    ensures { IsTrue result ↔ (one.now ≡ other.now) }
{
    same_action(one.action, other.action)
        && same_text(&one.resource, &other.resource)
        && same_ground(one.ground, other.ground)
        && same_marks(one, other)
}

/// Whether both are the same findings in the same order.
pub fn same_findings(one: &[Finding], other: &[Finding]) -> bool
    ensures { IsTrue result ↔ (one.now ≡ other.now) }
{
    if one.len() != other.len() {
        return false;
    }
    for (index, finding) in one.iter().enumerate() {
        if !same_finding(finding, &other[index]) {
            return false;
        }
    }
    true
}

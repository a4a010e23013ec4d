//! Whether a condition holds of a request.

ghost use Rattle.std.specs.Prelude.{◌≡◌, ◌↔◌, ℕ, List, IsTrue, not};
ghost use Rattle.std.specs.Bool.{MatchBool};
ghost use Rattle.cond_ops.specs.Asked.{condition_of};
ghost use Rattle.cond_ops.specs.Holds.{ValueMatches, HoldsOfValues, HoldsPresent, HoldsMissing, Holds, HoldsOf};
ghost use Rattle.cond_ops.specs.Matching.{IsMatch, SomeMatch, IsLookUp, wanted_of};
ghost use Rattle.cond_ops.specs.Operator.{is_negated};

use crate::asked::Asked;
use crate::conditions::Condition;
use crate::facts::{Fact, RequestFacts};
use crate::operators::Operator;
use crate::qualified::Qualifier;
use crate::read_values::ReadValue;
use kms_names::Text;

impl Asked<'_> {
    /// Whether a value of a request stands in the operator's relation to some value of the condition. It is read once.
    fn matches(&self, value: &str) -> bool
        ensures { IsTrue result ↔ ValueMatches (condition_of self.now) value.now }
    {
        let read = ReadValue::of(self.alloc, self.operator.kind(), value);
        self.values.some_relates(&read)
    }

    /// Whether a value matches, or does not.
    fn is_match(&self, value: &str, wanted: bool) -> bool
        ensures { MatchBool result (IsMatch (condition_of self.now) wanted value.now) (IsMatch (condition_of self.now) (not wanted) value.now) }
    {
        self.matches(value) == wanted
    }

    /// Whether some of these values matches, or some does not.
    fn some_match(&self, values: &[Text], wanted: bool) -> bool
        ensures { SomeMatch (condition_of self.now) wanted values.now result }
    {
        values
            .iter()
            .any(|value| self.is_match(value.as_str(), wanted))
    }

    /// The same of the values of the request, where the condition's key is present.
    fn look_up(&self, facts: &[Fact], wanted: bool) -> Option<bool>
        ensures { IsLookUp (condition_of self.now) wanted facts.now result }
    {
        let mut is_present = false;
        for fact in facts {
            if fact.has_name(self.key) {
                if self.some_match(fact.values.as_slice(), wanted) {
                    return Some(true);
                }
                is_present = true;
            }
        }
        if is_present { Some(false) } else { None }
    }

    /// Whether it is asked for a value that matches, or for one that does not.
    fn wanted(&self) -> bool
        ensures { result ≡ wanted_of self.now.qualifier (is_negated self.now.operator) }
    {
        match self.qualifier {
            Qualifier::Plain => true,
            Qualifier::AllValues => self.operator.is_negated(),
            Qualifier::AnyValue => !self.operator.is_negated(),
        }
    }

    /// Whether the condition holds of the values of a key that is present, where such a value was found or none was.
    fn holds_of_values(&self, found: bool) -> bool
        ensures { (values : List (List ℕ)) → SomeMatch (condition_of self.now) (wanted_of self.now.qualifier (is_negated self.now.operator)) values found → IsTrue result ↔ HoldsOfValues self.now.qualifier (is_negated self.now.operator) (ValueMatches (condition_of self.now)) values }
    {
        match self.qualifier {
            Qualifier::Plain => found != self.operator.is_negated(),
            Qualifier::AllValues => !found,
            Qualifier::AnyValue => found,
        }
    }

    /// Whether the condition holds where its key is present.
    fn holds_present(&self, found: bool) -> bool
        ensures { (values : List (List ℕ)) → SomeMatch (condition_of self.now) (wanted_of self.now.qualifier (is_negated self.now.operator)) values found → IsTrue result ↔ HoldsPresent (condition_of self.now) values }
    {
        if self.operator == Operator::NullIs {
            self.values.has("false")
        } else {
            self.holds_of_values(found)
        }
    }

    /// Whether the condition holds where its key is missing.
    fn holds_missing(&self) -> bool
        ensures { IsTrue result ↔ HoldsMissing (condition_of self.now) }
    {
        if self.operator == Operator::NullIs {
            return self.values.has("true");
        }
        self.if_exists
            || match self.qualifier {
                Qualifier::Plain => self.operator.is_negated(),
                Qualifier::AllValues => true,
                Qualifier::AnyValue => false,
            }
    }

    /// Whether the condition holds of the facts of a request, its values taken as they are.
    fn holds_as_it_is(&self, facts: &[Fact]) -> bool
        ensures { IsTrue result ↔ HoldsOf (condition_of self.now) facts.now }
    {
        match self.look_up(facts, self.wanted()) {
            Some(found) => self.holds_present(found),
            None => self.holds_missing(),
        }
    }

    /// Whether the condition holds of the facts of a request.
    pub fn holds(&self, facts: &[Fact]) -> bool
        ensures { IsTrue result ↔ HoldsOf (condition_of self.now) facts.now }
    {
        match self.read(facts) {
            Some(read) => read.holds_as_it_is(facts),
            None => self.holds_as_it_is(facts),
        }
    }
}

/// Whether a condition holds of a request, by the IAM evaluation logic of condition operators. A key is present where
/// some fact has its name without ASCII case, and the values of all these facts count together. Where it is present,
/// a positive operator asks that some value of the request matches, a negated one that none does; with `ForAllValues:`
/// that each value matches, or none; with `ForAnyValue:` that some value matches, or that some matches nothing. Where
/// it is missing, a negated operator without prefix holds, any operator with `ForAllValues:` and any with `IfExists`,
/// and no other. `Null` with `true` holds of a missing key and with `false` of one that is present, whatever its prefix
/// and suffix. A value matches where it stands in the operator's relation to some value of the condition; one of
/// another form matches nothing. The characters of a value that is matched with patterns are read into memory for the
/// time of the call, where it isn't ASCII; where that memory is refused, the answer is the same. (IAM User Guide, "IAM
/// JSON policy elements: Condition operators" and "Set operators for multivalued context keys".)
#[tactic(auto, unfolding(crate::specs::Holds::Holds))]
pub fn holds(condition: &Condition, facts: &RequestFacts) -> bool
    ensures { IsTrue result ↔ Holds condition.now facts.now }
{
    condition
        .asked(facts.facts.alloc())
        .holds(facts.facts.as_slice())
}

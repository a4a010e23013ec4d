//! Operators with a prefix and a suffix, as they are written in policy documents.

ghost use Rattle.std.specs.Prelude.{◌≡◌, ◌≢◌, ◌++◌, Bool, IfOk, MatchOption, Ok};
ghost use Rattle.cond_ops.specs.Operator.{operator_name};
ghost use Rattle.cond_ops.specs.Qualified.{prefix_of, suffix_of, operator_text, IsOperatorText, IsAfterPrefix};
ghost use Rattle.cond_ops.specs.declared.operators.Operator.{Operator};
ghost use Rattle.cond_ops.specs.declared.qualified.QualifiedOperator.{QualifiedOperator};

use crate::operators::Operator;
use kms_names::{NoMemory, Text, after};
use std::alloc::Global;

/// Which of the request's values a condition asks of (IAM User Guide, "Set operators for multivalued context keys").
#[derive(Clone, Copy)]
pub enum Qualifier {
    /// No prefix: of some value.
    Plain,
    /// `ForAllValues:`: of each value.
    AllValues,
    /// `ForAnyValue:`: of some value, and none where the key is missing.
    AnyValue,
}

impl Qualifier {
    /// A copy that equals its source; no memory is taken.
    pub fn copy(&self) -> Result<Qualifier, NoMemory>
        ensures { result ≡ Ok self.now }
    {
        Ok(*self)
    }

    /// What stands before the operator's name.
    pub fn prefix(self) -> &'static str
        ensures { result.now ≡ prefix_of self }
    {
        match self {
            Qualifier::Plain => "",
            Qualifier::AllValues => "ForAllValues:",
            Qualifier::AnyValue => "ForAnyValue:",
        }
    }
}

/// An operator with its prefix and whether the suffix `IfExists` stands behind it.
#[derive(Clone, Copy)]
pub struct QualifiedOperator {
    /// The operator.
    pub operator: Operator,
    /// Its prefix.
    pub qualifier: Qualifier,
    /// Whether the suffix stands behind it.
    pub if_exists: bool,
}

impl QualifiedOperator {
    ghost use Rattle.std.specs.Prelude.{◌↔◌, IsTrue};
    ghost use Rattle.cond_ops.specs.Qualified.{IsWellQualified};

    /// Whether the prefix and the suffix may stand: on `Null` neither may.
    pub fn is_well_qualified(&self) -> bool
        ensures { IsTrue result ↔ IsWellQualified self.now }
    {
        self.operator != Operator::NullIs || (self.qualifier == Qualifier::Plain && !self.if_exists)
    }
}

/// A prefix and what follows it.
fn after_prefix(text: &str) -> (Qualifier, &str)
    ensures { IsAfterPrefix text.now result.0 result.1.now }
{
    if let Some(rest) = after(text, "ForAllValues:") {
        return (Qualifier::AllValues, rest);
    }
    if let Some(rest) = after(text, "ForAnyValue:") {
        return (Qualifier::AnyValue, rest);
    }
    (Qualifier::Plain, text)
}

/// An operator's name, and whether the suffix stands behind it.
fn read_suffixed(text: &str) -> Option<(Operator, bool)>
    ensures { MatchOption result ((o : Operator) (e : Bool) → text.now ≢ operator_name o ++ suffix_of e) (λ x. text.now ≡ operator_name x.0 ++ suffix_of x.1) }
{
    if let Some(operator) = Operator::read(text) {
        return Some((operator, false));
    }
    let name = text.strip_suffix("IfExists")?;
    Some((Operator::read(name)?, true))
}

/// The operator of a policy document that a text is, with its prefix and suffix; None where it is none.
/// Names are exact, and `Null` takes neither prefix nor suffix. No memory is taken.
pub fn read_operator(text: &str) -> Option<QualifiedOperator>
    ensures { MatchOption result ((x : QualifiedOperator) → ¬ (IsOperatorText text.now x)) (IsOperatorText text.now) }
{
    let (qualifier, rest) = after_prefix(text);
    let (operator, if_exists) = read_suffixed(rest)?;
    let found = QualifiedOperator {
        operator,
        qualifier,
        if_exists,
    };
    if found.is_well_qualified() {
        Some(found)
    } else {
        None
    }
}

/// The text of an operator in a policy document, with its prefix and suffix.
pub fn write_operator(alloc: Global, written: &QualifiedOperator) -> Result<Text, NoMemory>
    ensures { IfOk result (λ text. text ≡ operator_text written.now) }
{
    let prefix = written.qualifier.prefix();
    let name = written.operator.name();
    let suffix = if written.if_exists { "IfExists" } else { "" };
    let text = format!(in alloc; "{prefix}{name}{suffix}")?;
    Ok(Text::from_string(text))
}

//! Conditions as they are asked.

ghost use Rattle.std.specs.Prelude.{◌≡◌, ◌↔◌, Any, Contains, IfSome, IsTrue, ℕ, List};
ghost use Rattle.cond_ops.specs.Asked.{condition_of, values_of};
ghost use Rattle.cond_ops.specs.Relation.{RelatesAs};

use crate::conditions::Condition;
use crate::facts::{Fact, count_of};
use crate::integers::{ReadTexts, reading_of};
use crate::operators::Operator;
use crate::qualified::Qualifier;
use crate::read_values::ReadValue;
use kms_names::Text;
use packed_texts::TextSlice;
use std::alloc::Global;

/// The values of a condition.
#[derive(Drop)]
pub enum PolicyValues<'a> {
    /// Each a text of its own.
    Listed(&'a [Text]),
    /// One behind another.
    Packed(TextSlice<'a>),
    /// The same, each read once.
    Read(ReadTexts<'a>),
}

/// A condition as it is asked.
#[derive(Drop)]
pub struct Asked<'a> {
    /// Where the characters of values are read into.
    pub alloc: Global,
    /// How values are compared.
    pub operator: Operator,
    /// Which of the request's values it asks of.
    pub qualifier: Qualifier,
    /// Whether it holds where the key is missing.
    pub if_exists: bool,
    /// The name of the condition key.
    pub key: &'a str,
    /// The values of the policy.
    pub values: PolicyValues<'a>,
}

/// Whether a value is related to some of a run of texts.
pub fn some_packed(read: &ReadValue<'_>, texts: &TextSlice<'_>) -> bool
    ensures { IsTrue result ↔ Any (RelatesAs read.now.0 read.now.1) texts.now }
{
    let mut rest = texts.copy();
    while let Some((policy, others)) = rest.split_first() {
        if read.relates(policy) {
            return true;
        }
        rest = others;
    }
    false
}

// Whether a text is one of a run of texts.
fn is_packed(text: &str, texts: &TextSlice<'_>) -> bool
    ensures { IsTrue result ↔ Any (λ (t : List ℕ). t ≡ text.now) texts.now }
{
    let mut rest = texts.copy();
    while let Some((policy, others)) = rest.split_first() {
        if policy == text {
            return true;
        }
        rest = others;
    }
    false
}

impl PolicyValues<'_> {
    /// Whether a value of a request is related to some of these.
    pub fn some_relates(&self, read: &ReadValue<'_>) -> bool
        ensures { IsTrue result ↔ Any (RelatesAs read.now.0 read.now.1) (values_of self.now) }
    {
        match self {
            PolicyValues::Listed(texts) => texts.iter().any(|text| read.relates(text.as_str())),
            PolicyValues::Packed(texts) => some_packed(read, texts),
            PolicyValues::Read(texts) => texts.some_relates(read),
        }
    }

    /// Whether a text is one of these.
    pub fn has(&self, text: &str) -> bool
        ensures { IsTrue result ↔ Contains (values_of self.now) text.now }
    {
        match self {
            PolicyValues::Listed(texts) => texts.iter().any(|value| value.as_str() == text),
            PolicyValues::Packed(texts) => is_packed(text, texts),
            PolicyValues::Read(texts) => is_packed(text, texts.texts()),
        }
    }
}

impl<'a> Asked<'a> {
    /// The condition with its values read once, where they are numbers or dates that several values of the request are
    /// compared with, and there is memory for them.
    pub fn read(&self, facts: &[Fact]) -> Option<Asked<'a>>
        ensures { IfSome result (λ read. condition_of read ≡ condition_of self.now) }
    {
        let PolicyValues::Packed(texts) = &self.values else {
            return None;
        };
        let reading = reading_of(self.operator.kind())?;
        if count_of(facts, self.key) < 2 {
            return None;
        }
        let values = ReadTexts::of(self.alloc, reading, texts).ok()?;
        Some(Asked {
            alloc: self.alloc,
            operator: self.operator,
            qualifier: self.qualifier,
            if_exists: self.if_exists,
            key: self.key,
            values: PolicyValues::Read(values),
        })
    }
}

impl Condition {
    /// The condition as it is asked.
    pub fn asked(&self, alloc: Global) -> Asked<'_>
        ensures { condition_of result ≡ self.now }
    {
        Asked {
            alloc,
            operator: self.operator,
            qualifier: self.qualifier,
            if_exists: self.if_exists,
            key: self.key.as_str(),
            values: PolicyValues::Listed(self.values.as_slice()),
        }
    }
}

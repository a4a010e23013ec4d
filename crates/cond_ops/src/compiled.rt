//! Conditions made ready to be asked.

use crate::conditions::Condition;
use crate::facts::RequestFacts;
use crate::heads::ConditionHead;
use kms_names::{NoMemory, Text};
use packed_texts::PackedTexts;
use std::alloc::Global;
use std::marker::Model;

/// Conditions made ready to be asked, their texts in one piece of memory: each takes its texts, four bytes for each of
/// these, and eight. Contracts see the list of the conditions.
#[derive(Drop)]
pub struct CompiledConditions {
    heads: Vec<ConditionHead>,
    texts: PackedTexts,
}

impl Model for CompiledConditions {
    ghost use Rattle.std.specs.Prelude.{List};
    ghost use Rattle.cond_ops.specs.declared.conditions.Condition.{Condition as ConditionValue};
    ghost use Rattle.cond_ops.specs.Compiled.{conditions_of};

    ghost Value = { List ConditionValue };

    ghost view = { λ c. conditions_of c.heads.items c.texts };
}

// The bytes of all texts of a list, or more than there can be.
fn value_bytes(values: &[Text]) -> usize {
    let mut bytes: usize = 0;
    for value in values {
        bytes = bytes.saturating_add(value.as_str().len());
    }
    bytes
}

// How many texts conditions have, and how many bytes these; more than there can be where the number has no room.
fn room_of(conditions: &[Condition]) -> (usize, usize) {
    let mut count: usize = 0;
    let mut bytes: usize = 0;
    for condition in conditions {
        let values = condition.values.as_slice();
        let key = condition.key.as_str();
        count = count.saturating_add(1).saturating_add(values.len());
        bytes = bytes
            .saturating_add(key.len())
            .saturating_add(value_bytes(values));
    }
    (count, bytes)
}

impl CompiledConditions {
    ghost use Rattle.std.specs.Prelude.{◌≡◌, ◌↔◌, [], All, IfOk, IsTrue};
    ghost use Rattle.cond_ops.specs.Holds.{Holds};

    /// Conditions made ready to be asked, with no room for more.
    pub fn new(alloc: Global, conditions: &[Condition]) -> Result<CompiledConditions, NoMemory>
        ensures { IfOk result (λ compiled. compiled ≡ conditions.now) }
    {
        let (count, bytes) = room_of(conditions);
        let mut texts = PackedTexts::with_capacity(alloc, count, bytes)?;
        let mut heads = Vec::with_capacity(alloc, conditions.len())?;
        for condition in conditions {
            heads.push(ConditionHead::of(condition)?)?;
            texts.push(condition.key.as_str())?;
            texts.push_all(condition.values.as_slice())?;
        }
        Ok(CompiledConditions { heads, texts })
    }

    /// Whether there is none.
    pub fn is_empty(&self) -> bool
        ensures { IsTrue result ↔ (self.now ≡ []) }
    {
        self.heads.as_slice().is_empty() || self.texts.all().is_empty()
    }

    /// Whether all of them hold of a request, each exactly as `holds` says. For each condition each value of the request
    /// is read once. So are the policy's values where they are numbers or dates that several values of the request are
    /// compared with; others are read as they are compared. What is so read of the policy, and the characters of a value
    /// of the request that is matched with patterns and isn't ASCII, stand in memory for the time of the call; where that
    /// memory is refused, the answer is the same.
    #[tactic(auto, unfolding(crate::specs::Holds::Holds))]
    pub fn all_hold(&self, facts: &RequestFacts) -> bool
        ensures { IsTrue result ↔ All (λ condition. Holds condition facts.now) self.now }
    {
        let alloc = *self.heads.allocator();
        let mut texts = self.texts.all();
        for head in &self.heads {
            let Some((key, others)) = texts.split_first() else {
                return true;
            };
            let (values, rest) = others.split_at(head.count as usize);
            let asked = head.asked(alloc, key, values);
            if !asked.holds(facts.facts.as_slice()) {
                return false;
            }
            texts = rest;
        }
        true
    }

    /// A copy that equals its source, with no room for more.
    pub fn copy(&self) -> Result<CompiledConditions, NoMemory>
        ensures { IfOk result (λ compiled. compiled ≡ self.now) }
    {
        let heads = Vec::from_slice(*self.heads.allocator(), self.heads.as_slice())?;
        let texts = self.texts.copy()?;
        Ok(CompiledConditions { heads, texts })
    }
}

//! The conditions of statements, most of which have none.

ghost use Rattle.std.specs.Prelude.{◌≡◌, ◌↔◌, ◌==◌, All, IfOk, IsTrue, length};
ghost use Rattle.cond_ops.specs.Holds.{Holds};

use cond_ops::{CompiledConditions, Condition, RequestFacts};
use kms_names::NoMemory;
use std::alloc::Global;
use std::marker::Model;

/// The conditions of a statement, in 16 bytes where it has none. Contracts see the list of the conditions.
#[derive(Drop)]
pub struct KeptConditions {
    some: Option<Box<CompiledConditions>>,
}

impl Model for KeptConditions {
    ghost use Rattle.std.specs.Prelude.{List};
    ghost use Rattle.cond_ops.specs.declared.conditions.Condition.{Condition as ConditionValue};
    ghost use Rattle.policy_eval.specs.KeptConditions.{conditions_of};

    ghost Value = { List ConditionValue };

    ghost view = { λ c. conditions_of c.some };
}

impl KeptConditions {
    /// Those of a statement, made ready to be asked.
    pub fn new(alloc: Global, conditions: &[Condition]) -> Result<KeptConditions, NoMemory>
        ensures { IfOk result (λ kept. kept ≡ conditions.now) }
    {
        if conditions.is_empty() {
            return Ok(KeptConditions { some: None });
        }
        let compiled = CompiledConditions::new(alloc, conditions)?;
        Ok(KeptConditions {
            some: Some(Box::new(alloc, compiled)?),
        })
    }

    /// Whether there is none.
    pub fn is_empty(&self) -> bool
        ensures { result ≡ (length self.now == 0) }
    {
        match &self.some {
            None => true,
            Some(conditions) => conditions.is_empty(),
        }
    }

    /// Whether all of them hold of a request.
    pub fn all_hold(&self, facts: &RequestFacts) -> bool
        ensures { IsTrue result ↔ All (λ condition. Holds condition facts.now) self.now }
    {
        match &self.some {
            None => true,
            Some(conditions) => conditions.all_hold(facts),
        }
    }

    /// A copy that equals its source.
    pub fn copy(&self, alloc: Global) -> Result<KeptConditions, NoMemory>
        ensures { IfOk result (λ kept. kept ≡ self.now) }
    {
        let some = match &self.some {
            None => None,
            Some(conditions) => Some(Box::new(alloc, conditions.copy()?)?),
        };
        Ok(KeptConditions { some })
    }
}

//! What is kept of a condition beside its texts.

ghost use Rattle.std.specs.Prelude.{◌≡◌, IfOk, List, ℕ};
ghost use Rattle.cond_ops.specs.Asked.{condition_of};
ghost use Rattle.cond_ops.specs.Compiled.{condition_at, head_of};

use crate::asked::{Asked, PolicyValues};
use crate::conditions::Condition;
use crate::operators::Operator;
use crate::qualified::Qualifier;
use kms_names::NoMemory;
use packed_texts::TextSlice;
use std::alloc::Global;

/// What is kept of a condition beside its texts, in eight bytes.
#[derive(Clone, Copy)]
pub struct ConditionHead {
    /// How values are compared.
    pub operator: Operator,
    /// Which of the request's values it asks of.
    pub qualifier: Qualifier,
    /// Whether it holds where the key is missing.
    pub if_exists: bool,
    /// How many values it has.
    pub count: u32,
}

impl ConditionHead {
    /// That of a condition; refused to one of 2^32 values or more.
    pub fn of(condition: &Condition) -> Result<ConditionHead, NoMemory>
        ensures { IfOk result (λ head. head ≡ head_of condition.now) }
    {
        let count = condition.values.as_slice().len();
        if count > u32::MAX as usize {
            return Err(NoMemory);
        }
        Ok(ConditionHead {
            operator: condition.operator,
            qualifier: condition.qualifier,
            if_exists: condition.if_exists,
            count: count as u32,
        })
    }

    /// The condition as it is asked, with its texts.
    pub fn asked<'a>(&self, alloc: Global, key: &'a str, values: TextSlice<'a>) -> Asked<'a>
        ensures { condition_of result ≡ condition_at self.now key.now values.entry }
    {
        Asked {
            alloc,
            operator: self.operator,
            qualifier: self.qualifier,
            if_exists: self.if_exists,
            key,
            values: PolicyValues::Packed(values),
        }
    }
}

//! Conditions of statements.

use crate::operators::Operator;
use crate::qualified::Qualifier;
use kms_names::{NoMemory, Text, TextList};
use std::marker::Model;

/// A condition of a statement: an operator with its prefix and suffix, a condition key, and the policy's values.
#[derive(Drop)]
pub struct Condition {
    /// The operator, which says how values are compared.
    pub operator: Operator,
    /// Which of the request's values it asks of.
    pub qualifier: Qualifier,
    /// Whether it holds where the key is missing.
    pub if_exists: bool,
    /// The name of the condition key, compared without ASCII case.
    pub key: Text,
    /// The values of the policy, of which a value of the request matches any.
    pub values: TextList,
}

impl Condition {
    ghost use Rattle.std.specs.Prelude.{◌≡◌, IfOk};

    /// A copy that equals its source.
    pub fn copy(&self) -> Result<Condition, NoMemory>
        ensures { IfOk result (λ condition. condition ≡ self.now) }
    {
        Ok(Condition {
            operator: self.operator,
            qualifier: self.qualifier,
            if_exists: self.if_exists,
            key: self.key.copy()?,
            values: self.values.copy()?,
        })
    }
}

/// A list of conditions.
#[derive(Drop)]
pub struct ConditionList {
    items: Vec<Condition>,
}

impl Model for ConditionList {
    ghost use Rattle.std.specs.Prelude.{List};
    ghost use Rattle.cond_ops.specs.declared.conditions.Condition.{Condition};

    ghost Value = { List Condition };

    ghost view = { λ l. l.items.items };
}

impl ConditionList {
    ghost use Rattle.std.specs.Prelude.{◌≡◌, IfOk};

    /// The list of a vector's conditions; no memory is taken.
    pub fn new(items: Vec<Condition>) -> ConditionList
        ensures { result ≡ items.items }
    {
        ConditionList { items }
    }

    /// The conditions in order.
    pub fn as_slice(&self) -> &[Condition]
        ensures { result.now ≡ self.now }
    {
        self.items.as_slice()
    }

    /// A copy that equals its source.
    pub fn copy(&self) -> Result<ConditionList, NoMemory>
        ensures { IfOk result (λ l. l ≡ self.now) }
    {
        let mut items = Vec::new(*self.items.allocator());
        for condition in &self.items {
            items.push(condition.copy()?)?;
        }
        Ok(ConditionList { items })
    }
}

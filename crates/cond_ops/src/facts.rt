//! Facts of a request.

use kms_names::{Action, NoMemory, Principal, Text, TextList};
use std::alloc::Global;
use std::marker::Model;

/// A condition key of a request with its values.
#[derive(Drop)]
pub struct Fact {
    /// The name of the condition key, compared without ASCII case.
    pub key: Text,
    /// Its values.
    pub values: TextList,
}

impl Fact {
    ghost use Rattle.std.specs.Prelude.{◌≡◌, IfOk};
    ghost use Rattle.cond_ops.specs.Holds.{has_name};

    /// A copy that equals its source.
    pub fn copy(&self) -> Result<Fact, NoMemory>
        ensures { IfOk result (λ fact. fact ≡ self.now) }
    {
        Ok(Fact {
            key: self.key.copy()?,
            values: self.values.copy()?,
        })
    }

    /// Whether the fact has a name, without ASCII case.
    pub(crate) fn has_name(&self, key: &str) -> bool
        ensures { result ≡ has_name key.now self.now }
    {
        self.key.as_str().eq_ignore_ascii_case(key)
    }
}

/// How many values facts of this name have.
pub(crate) fn count_of(facts: &[Fact], key: &str) -> usize {
    let mut count: usize = 0;
    for fact in facts {
        if fact.has_name(key) {
            count = count.saturating_add(fact.values.as_slice().len());
        }
    }
    count
}

/// A list of facts.
#[derive(Drop)]
pub struct FactList {
    items: Vec<Fact>,
}

impl Model for FactList {
    ghost use Rattle.std.specs.Prelude.{List};
    ghost use Rattle.cond_ops.specs.declared.facts.Fact.{Fact};

    ghost Value = { List Fact };

    ghost view = { λ l. l.items.items };
}

impl FactList {
    ghost use Rattle.std.specs.Prelude.{◌≡◌, IfOk};

    /// The list of a vector's facts; no memory is taken.
    pub fn new(items: Vec<Fact>) -> FactList
        ensures { result ≡ items.items }
    {
        FactList { items }
    }

    /// The facts in order.
    pub fn as_slice(&self) -> &[Fact]
        ensures { result.now ≡ self.now }
    {
        self.items.as_slice()
    }

    /// The memory that the list is kept in.
    pub(crate) fn alloc(&self) -> Global {
        *self.items.allocator()
    }

    /// A copy that equals its source.
    pub fn copy(&self) -> Result<FactList, NoMemory>
        ensures { IfOk result (λ l. l ≡ self.now) }
    {
        let mut items = Vec::new(*self.items.allocator());
        for fact in &self.items {
            items.push(fact.copy()?)?;
        }
        Ok(FactList { items })
    }
}

/// What policies are asked about a request: who calls, which action, on which resource, and the condition keys
/// with their values.
#[derive(Drop)]
pub struct RequestFacts {
    /// Who calls.
    pub caller: Principal,
    /// What is asked.
    pub action: Action,
    /// The ARN that it is asked of.
    pub resource: Text,
    /// The condition keys of the request. A key is present where some fact has its name.
    pub facts: FactList,
}

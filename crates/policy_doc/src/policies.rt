// Policies as values.
ghost use Rattle.std.specs.Prelude.{◌≡◌, IfOk};

use cond_ops::ConditionList;
use kms_names::{NoMemory, Principal, TextList};
use std::marker::Model;

/// What a policy is attached to.
#[derive(Clone, Copy)]
pub enum PolicyKind {
    /// A key; its statements name principals.
    Key,
    /// A principal; its statements name none.
    Identity,
}

/// Whom a statement names.
#[derive(Drop)]
pub enum Named {
    /// Every principal.
    Everyone,
    /// One principal, of whatever account.
    One(Principal),
}

impl Named {
    /// A copy that equals its source.
    pub fn copy(&self) -> Result<Named, NoMemory>
        ensures { IfOk result (λ n. n ≡ self.now) }
    {
        match self {
            Named::Everyone => Ok(Named::Everyone),
            Named::One(principal) => Ok(Named::One(principal.copy()?)),
        }
    }
}

/// A list of those that a statement names.
#[derive(Drop)]
pub struct NamedList {
    items: Vec<Named>,
}

impl Model for NamedList {
    ghost use Rattle.std.specs.Prelude.{List};
    ghost use Rattle.policy_doc.specs.declared.policies.Named.{Named as NamedValue};

    ghost Value = { List NamedValue };

    ghost view = { λ l. l.items.items };
}

impl NamedList {
    /// The list of a vector's items; no memory is taken.
    pub fn new(items: Vec<Named>) -> NamedList
        ensures { result ≡ items.items }
    {
        NamedList { items }
    }

    /// The items in order.
    pub fn as_slice(&self) -> &[Named]
        ensures { result.now ≡ self.now }
    {
        self.items.as_slice()
    }

    /// A copy that equals its source.
    pub fn copy(&self) -> Result<NamedList, NoMemory>
        ensures { IfOk result (λ l. l ≡ self.now) }
    {
        let mut items = Vec::new(*self.items.allocator());
        for named in &self.items {
            items.push(named.copy()?)?;
        }
        Ok(NamedList { items })
    }
}

/// A statement of a policy. Of a form and its Not-form the list of the one that isn't given is empty.
#[derive(Drop)]
pub struct Statement {
    /// Whether its effect is Allow.
    pub allow: bool,
    /// Whom it names, in the document's order. An identity policy's statement names none.
    pub principals: NamedList,
    /// The actions that it is about, as globs.
    pub actions: TextList,
    /// The actions that it isn't about, as globs.
    pub not_actions: TextList,
    /// The resources that it is about, as globs.
    pub resources: TextList,
    /// The resources that it isn't about, as globs.
    pub not_resources: TextList,
    /// What must hold besides, in byte order of the operators' texts and under each of the keys.
    pub conditions: ConditionList,
}

impl Statement {
    /// A copy that equals its source.
    pub fn copy(&self) -> Result<Statement, NoMemory>
        ensures { IfOk result (λ s. s ≡ self.now) }
    {
        Ok(Statement {
            allow: self.allow,
            principals: self.principals.copy()?,
            actions: self.actions.copy()?,
            not_actions: self.not_actions.copy()?,
            resources: self.resources.copy()?,
            not_resources: self.not_resources.copy()?,
            conditions: self.conditions.copy()?,
        })
    }
}

/// A list of statements.
#[derive(Drop)]
pub struct StatementList {
    items: Vec<Statement>,
}

impl Model for StatementList {
    ghost use Rattle.std.specs.Prelude.{List};
    ghost use Rattle.policy_doc.specs.declared.policies.Statement.{Statement as StatementValue};

    ghost Value = { List StatementValue };

    ghost view = { λ l. l.items.items };
}

impl StatementList {
    /// The list of a vector's statements; no memory is taken.
    pub fn new(items: Vec<Statement>) -> StatementList
        ensures { result ≡ items.items }
    {
        StatementList { items }
    }

    /// The statements in order.
    pub fn as_slice(&self) -> &[Statement]
        ensures { result.now ≡ self.now }
    {
        self.items.as_slice()
    }

    /// A copy that equals its source.
    pub fn copy(&self) -> Result<StatementList, NoMemory>
        ensures { IfOk result (λ l. l ≡ self.now) }
    {
        let mut items = Vec::new(*self.items.allocator());
        for statement in &self.items {
            items.push(statement.copy()?)?;
        }
        Ok(StatementList { items })
    }
}

/// A policy.
#[derive(Drop)]
pub struct Policy {
    /// The kind under which the document was read.
    pub kind: PolicyKind,
    /// Its statements, in the document's order.
    pub statements: StatementList,
}

impl Policy {
    /// A copy that equals its source.
    pub fn copy(&self) -> Result<Policy, NoMemory>
        ensures { IfOk result (λ p. p ≡ self.now) }
    {
        Ok(Policy {
            kind: self.kind,
            statements: self.statements.copy()?,
        })
    }
}

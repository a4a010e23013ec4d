//! The statements of a policy, made ready to be asked.

ghost use Rattle.std.specs.Prelude.{◌≡◌, ◌↔◌, IsTrue, true};
ghost use Rattle.kms_names.specs.ActionSet.{has_action};
ghost use Rattle.kms_names.specs.declared.actions.Action.{Action as ActionValue};
ghost use Rattle.policy_eval.specs.Hits.{SomeHits};
ghost use Rattle.policy_eval.specs.Group.{IsAbout};
ghost use Rattle.policy_eval.specs.Allowed.{AllowsWhom};
ghost use Rattle.policy_eval.specs.Verdict.{SomeHasConditions};

use crate::allowed::{Allowed, sought};
use crate::naming::Naming;
use crate::statements::CompiledStatement;
use cond_ops::RequestFacts;
use kms_names::{Action, ActionSet, NoMemory};
use std::alloc::Global;
use std::marker::Model;

/// Statements, with the actions that some Deny statement and that some Allow statement of them is about. Contracts see it
/// as the list of the statements.
#[derive(Drop)]
pub struct Group {
    statements: Vec<CompiledStatement>,
    denied: ActionSet,
    allowed: ActionSet,
}

impl Model for Group {
    ghost use Rattle.std.specs.Prelude.{List, true, false};
    ghost use Rattle.policy_doc.specs.declared.policies.Statement.{Statement as StatementValue};

    ghost Value = { List StatementValue };

    ghost use Rattle.policy_eval.specs.Group.{Covers};

    ghost view = { λ g. g.statements.items };

    ghost invariant = { λ g. Covers false g.denied g.statements.items × Covers true g.allowed g.statements.items };
}

fn some_hits(
    statements: &[CompiledStatement],
    allow: bool,
    naming: Naming,
    facts: &RequestFacts,
) -> bool
    ensures { IsTrue result ↔ SomeHits allow naming statements.now facts.now }
{
    statements
        .iter()
        .any(|statement| statement.hits(allow, naming, facts))
}

// Whom the Allow statements among these allow. Each is asked once, up to the first that allows the caller.
fn allowed(statements: &[CompiledStatement], facts: &RequestFacts) -> Allowed
    ensures { AllowsWhom statements.now facts.now result }
{
    let mut account = false;
    for statement in statements {
        if statement.hits(true, sought(account), facts) {
            if statement.names(Naming::Caller, &facts.caller) {
                return Allowed::TheCaller;
            }
            account = true;
        }
    }
    if account {
        Allowed::TheAccount
    } else {
        Allowed::Nobody
    }
}

fn some_has_conditions(statements: &[CompiledStatement]) -> bool
    ensures { IsTrue result ↔ SomeHasConditions statements.now }
{
    statements
        .iter()
        .any(|statement| statement.has_conditions())
}

// The actions of a set, and those of a statement that has an effect.
fn with_actions(set: ActionSet, allow: bool, statement: &CompiledStatement) -> ActionSet
    ensures before { (action : ActionValue) → has_action set action ≡ true → has_action result action ≡ true }
    ensures new { (action : ActionValue) → IsAbout allow statement.now action → has_action result action ≡ true }
{
    if statement.is_allow() == allow {
        set.union(statement.matched())
    } else {
        set
    }
}

impl Group {
    ghost use Rattle.std.specs.Prelude.{◌++◌, ◌∷◌, [], IfOk, OnOk, false, Any};

    /// No statements, with room for exactly so many.
    pub fn with_capacity(alloc: Global, count: usize) -> Result<Group, NoMemory>
        ensures { IfOk result (λ group. group ≡ []) }
    {
        Ok(Group {
            statements: Vec::with_capacity(alloc, count)?,
            denied: ActionSet::new(),
            allowed: ActionSet::new(),
        })
    }

    /// Adds a statement behind the others.
    pub fn push(&mut self, statement: CompiledStatement) -> Result<(), NoMemory>
        ensures { OnOk result (self.new ≡ self.old ++ statement ∷ []) }
    {
        self.denied = with_actions(self.denied, false, &statement);
        self.allowed = with_actions(self.allowed, true, &statement);
        self.statements.push(statement)?;
        Ok(())
    }

    // Whether an action is among those that the statements of an effect are about.
    fn has(&self, allow: bool, action: Action) -> bool
        ensures { result ≡ false → ¬ (Any (λ s. IsAbout allow s action) self.now) }
    {
        let set = if allow { self.allowed } else { self.denied };
        set.contains(action)
    }

    /// Whether some statement has an effect, matches a request and names whom is asked for. The statements are asked in
    /// order, up to the first that does, and none where none of that effect is about the action.
    pub fn hits(&self, allow: bool, naming: Naming, facts: &RequestFacts) -> bool
        ensures { IsTrue result ↔ SomeHits allow naming self.now facts.now }
    {
        self.has(allow, facts.action) && some_hits(self.statements.as_slice(), allow, naming, facts)
    }

    /// Whom the Allow statements allow: the caller where one that matches names the caller or everyone, else the account
    /// where one that matches names its root. They are asked in order, each once, up to the first that allows the caller,
    /// and none where none is about the action. One that names the root alone is asked only while no other such statement
    /// has matched.
    pub fn allowed(&self, facts: &RequestFacts) -> Allowed
        ensures { AllowsWhom self.now facts.now result }
    {
        if self.has(true, facts.action) {
            allowed(self.statements.as_slice(), facts)
        } else {
            Allowed::Nobody
        }
    }

    /// Whether some statement has a condition.
    pub fn has_conditions(&self) -> bool
        ensures { IsTrue result ↔ SomeHasConditions self.now }
    {
        some_has_conditions(self.statements.as_slice())
    }

    /// A copy that equals its source.
    pub fn copy(&self) -> Result<Group, NoMemory>
        ensures { IfOk result (λ group. group ≡ self.now) }
    {
        let alloc = *self.statements.allocator();
        let mut statements = Vec::with_capacity(alloc, self.statements.len())?;
        for statement in &self.statements {
            statements.push(statement.copy()?)?;
        }
        Ok(Group {
            statements,
            denied: self.denied,
            allowed: self.allowed,
        })
    }
}

//! Statements made ready to be asked.

use crate::element_texts::ElementTexts;
use crate::elements::matched_actions;
use crate::kept_conditions::KeptConditions;
use crate::names::{KeptName, copy_names, keep_names};
use crate::naming::Naming;
use cond_ops::RequestFacts;
use kms_names::{ActionSet, NoMemory, Principal};
use policy_doc::Statement;
use std::alloc::Global;
use std::marker::Model;

/// A statement made ready to be asked, in little memory. Contracts see it as the statement that it was made of.
#[derive(Drop)]
pub struct CompiledStatement {
    allow: bool,
    names: Vec<KeptName>,
    matched: ActionSet,
    texts: ElementTexts,
    conditions: KeptConditions,
}

impl Model for CompiledStatement {
    ghost use Rattle.policy_doc.specs.declared.policies.Statement.{Statement as StatementValue};

    ghost Value = { StatementValue };

    ghost use Rattle.policy_eval.specs.CompiledStatement.{statement_of, HasItsActions};

    ghost view = { statement_of };

    ghost invariant = { HasItsActions };
}

impl CompiledStatement {
    ghost use Rattle.std.specs.Prelude.{◌≡◌, ◌≢◌, ◌↔◌, [], IfOk, IsTrue};
    ghost use Rattle.kms_names.specs.ActionSet.{has_action};
    ghost use Rattle.kms_names.specs.declared.actions.Action.{Action as ActionValue};
    ghost use Rattle.policy_eval.specs.Hits.{Hits, IsNamed};
    ghost use Rattle.policy_eval.specs.Matching.{ActionMatches, ResourceMatches};

    /// A statement made ready to be asked.
    pub fn new(alloc: Global, statement: &Statement) -> Result<CompiledStatement, NoMemory>
        ensures { IfOk result (λ compiled. compiled ≡ statement.now) }
    {
        Ok(CompiledStatement {
            allow: statement.allow,
            names: keep_names(alloc, statement.principals.as_slice())?,
            matched: matched_actions(statement),
            texts: ElementTexts::new(alloc, statement)?,
            conditions: KeptConditions::new(alloc, statement.conditions.as_slice())?,
        })
    }

    /// The actions that it is about.
    pub fn matched(&self) -> ActionSet
        ensures { (action : ActionValue) → IsTrue (has_action result action) ↔ ActionMatches self.now action }
    {
        self.matched
    }

    /// Whether it names whom is asked for.
    pub fn names(&self, naming: Naming, caller: &Principal) -> bool
        ensures { IsTrue result ↔ IsNamed naming self.now.principals caller.now }
    {
        naming.is_named(self.names.as_slice(), caller)
    }

    // Whether its resource part matches.
    #[tactic(auto, unfolding(crate::specs::Matching::ResourceMatches))]
    fn resource_matches(&self, resource: &str) -> bool
        ensures { IsTrue result ↔ ResourceMatches self.now resource.now }
    {
        self.texts
            .resource_matches(*self.names.allocator(), resource)
    }

    /// Whether its effect is Allow.
    pub fn is_allow(&self) -> bool
        ensures { result ≡ self.now.allow }
    {
        self.allow
    }

    /// Whether it has an effect, matches a request and names whom is asked for. It is asked for the effect and the action
    /// first, then whom it names, then the resource, and its conditions last.
    #[tactic(auto, unfolding(crate::specs::Hits::Hits, crate::specs::Matching::Matches, crate::specs::Matching::ConditionsHold))]
    pub fn hits(&self, allow: bool, naming: Naming, facts: &RequestFacts) -> bool
        ensures { IsTrue result ↔ Hits allow naming self.now facts.now }
    {
        self.allow == allow
            && self.matched.contains(facts.action)
            && naming.is_named(self.names.as_slice(), &facts.caller)
            && self.resource_matches(facts.resource.as_str())
            && self.conditions.all_hold(facts)
    }

    /// Whether it has a condition.
    pub fn has_conditions(&self) -> bool
        ensures { IsTrue result ↔ (self.now.conditions ≢ []) }
    {
        !self.conditions.is_empty()
    }

    /// A copy that equals its source.
    pub fn copy(&self) -> Result<CompiledStatement, NoMemory>
        ensures { IfOk result (λ compiled. compiled ≡ self.now) }
    {
        let alloc = *self.names.allocator();
        Ok(CompiledStatement {
            allow: self.allow,
            names: copy_names(alloc, self.names.as_slice())?,
            matched: self.matched,
            texts: self.texts.copy()?,
            conditions: self.conditions.copy(alloc)?,
        })
    }
}

// Runs of marks beside the effects of their statements.
ghost use Rattle.std.specs.Prelude.{◌≡◌, ◌↔◌, ◌++◌, List, IsTrue, IfOk, OnOk, Contains, map, [], ◌⊎◌, true, false};
ghost use Rattle.policy_doc.specs.declared.policies.Statement.{Statement as StatementValue};
ghost use Rattle.policy_doc.specs.declared.policies.PolicyKind.TheVariants.{Identity};
ghost use Rattle.access_explain.specs.declared.marks.Mark.TheVariants as mark;
ghost use Rattle.access_explain.specs.Findings.{statements_of};
ghost use Rattle.access_explain.specs.Tests.{IsMarkBy, IsRunOf, SomeMarked};

use crate::marks::{Mark, MarkList};
use crate::statements::{key_mark_of, mark_of};
use cond_ops::RequestFacts;
use kms_names::NoMemory;
use policy_doc::{Policy, PolicyKind, Statement};
use std::alloc::Global;
use std::marker::Model;

/// The mark of a statement, with the statement's effect.
#[derive(Clone, Copy)]
pub struct Marked {
    /// Whether its effect is Allow.
    pub allow: bool,
    /// Its mark.
    pub mark: Mark,
}

/// The marks of statements, in order.
#[derive(Drop)]
pub struct Run {
    items: Vec<Marked>,
}

impl Model for Run {
    ghost use Rattle.std.specs.Prelude.{List};
    ghost use Rattle.access_explain.specs.declared.runs.Marked.{Marked as MarkedValue};

    ghost Value = { List MarkedValue };

    ghost view = { λ r. r.items.items };
}

// The mark of a statement of a policy of this kind.
fn mark_by(kind: PolicyKind, statement: &Statement, facts: &RequestFacts) -> Mark
    ensures { IsMarkBy kind statement.now facts.now result }
{
    match kind {
        PolicyKind::Key => key_mark_of(statement, facts),
        PolicyKind::Identity => mark_of(statement, facts),
    }
}

impl Run {
    /// The run of nothing.
    pub fn new(alloc: Global) -> Run
        ensures { result ≡ [] }
    {
        Run {
            items: Vec::new(alloc),
        }
    }

    // Adds the marks of statements of a policy of this kind.
    fn add(
        &mut self,
        kind: PolicyKind,
        statements: &[Statement],
        facts: &RequestFacts,
    ) -> Result<(), NoMemory>
        ensures { OnOk result ((before : List StatementValue) → IsRunOf kind facts.now before self.old → IsRunOf kind facts.now (before ++ statements.now) self.new) }
    {
        for statement in statements {
            self.items.push(Marked {
                allow: statement.allow,
                mark: mark_by(kind, statement, facts),
            })?;
        }
        Ok(())
    }

    /// The marks of the statements of a policy of this kind.
    pub fn of(
        alloc: Global,
        kind: PolicyKind,
        statements: &[Statement],
        facts: &RequestFacts,
    ) -> Result<Run, NoMemory>
        ensures { IfOk result (λ run. IsRunOf kind facts.now statements.now run) }
    {
        let mut run = Run::new(alloc);
        run.add(kind, statements, facts)?;
        Ok(run)
    }

    /// The marks of the statements of documents, one document after another, of which whom they
    /// name doesn't count.
    pub fn of_documents(
        alloc: Global,
        documents: &[Policy],
        facts: &RequestFacts,
    ) -> Result<Run, NoMemory>
        ensures { IfOk result (λ run. IsRunOf Identity facts.now (statements_of documents.now) run) }
    {
        let mut run = Run::new(alloc);
        for document in documents {
            run.add(PolicyKind::Identity, document.statements.as_slice(), facts)?;
        }
        Ok(run)
    }

    /// Whether a statement of this effect has this mark.
    pub fn has(&self, allow: bool, mark: Mark) -> bool
        ensures { IsTrue result ↔ SomeMarked allow mark self.now }
    {
        self.items
            .iter()
            .any(|marked| marked.allow == allow && marked.mark == mark)
    }

    /// Whether the documents of a ceiling, of which this is the run, let a question pass: there are
    /// none, or no Deny statement hits and an Allow statement does.
    pub fn lets_pass(&self, documents: &[Policy]) -> bool
        ensures { IsTrue result ↔ ((documents.now ≡ []) ⊎ (¬ (SomeMarked false mark.Hit self.now) × SomeMarked true mark.Hit self.now)) }
    {
        documents.is_empty() || (!self.has(false, Mark::Hit) && self.has(true, Mark::Hit))
    }

    /// The marks alone.
    pub fn marks(&self, alloc: Global) -> Result<MarkList, NoMemory>
        ensures { IfOk result (λ marks. marks ≡ map (λ m. m.mark) self.now) }
    {
        let mut marks = Vec::new(alloc);
        for marked in &self.items {
            marks.push(marked.mark)?;
        }
        Ok(MarkList::new(marks))
    }
}

/// Whether some of these marks is `Hit`.
pub fn some_hits(marks: &[Mark]) -> bool
    ensures { IsTrue result ↔ Contains marks.now mark.Hit }
{
    marks.iter().any(|mark| *mark == Mark::Hit)
}

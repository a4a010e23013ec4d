// Findings.
ghost use Rattle.std.specs.Prelude.{◌≡◌, ◌↔◌, ℕ, List, IsTrue, IfOk};
ghost use Rattle.account_rows.specs.History.{replay};
ghost use Rattle.authority.specs.Setting.{is_root};
ghost use Rattle.account_steps.specs.declared.questions.Question.{Question as QuestionValue};
ghost use Rattle.access_explain.specs.Findings.{Basis, basis_of, Fits, IsFinding};
ghost use Rattle.access_explain.specs.Grounds.{IsFirst, rows_for};
ghost use Rattle.access_explain.specs.Tests.{AreRuns, AreTested, finding_of};
ghost use Rattle.access_explain.specs.declared.subjects.Subject.TheVariants as about;

use crate::documents::{key_statements, own_policies};
use crate::grants::{grant_marks, may_retire_asked};
use crate::grounds::{Ground, Tested};
use crate::marks::{Mark, MarkList};
use crate::runs::{Run, some_hits};
use crate::subjects::{Subject, subject_of};
use account_core::Account;
use account_steps::Question;
use kms_names::{Action, KeyId, NoMemory, Principal, Text};
use policy_doc::{Policy, PolicyKind};
use std::alloc::Global;
use std::marker::Model;

/// What is found of a question.
#[derive(Drop)]
pub struct Finding {
    /// What is asked.
    pub action: Action,
    /// The ARN that it is asked of, or `*`.
    pub resource: Text,
    /// Why it is allowed or denied.
    pub ground: Ground,
    /// The marks of the statements of the policy of the key, in order; none where the question is
    /// about no key.
    pub key_marks: MarkList,
    /// The marks of the statements of the caller's own policies, one policy after another; the root
    /// has none.
    pub identity_marks: MarkList,
    /// The marks of the statements of the account's ceiling, one document after another.
    pub ceiling_marks: MarkList,
    /// The marks of the grants of the key, in order of making; none where what is asked is no
    /// operation of grants.
    pub grant_marks: MarkList,
}

/// A list of findings.
#[derive(Drop)]
pub struct FindingList {
    items: Vec<Finding>,
}

impl Model for FindingList {
    ghost use Rattle.std.specs.Prelude.{List};
    ghost use Rattle.access_explain.specs.declared.findings.Finding.{Finding as FindingValue};

    ghost Value = { List FindingValue };

    ghost view = { λ l. l.items.items };
}

impl FindingList {
    /// The list of a vector's findings; no memory is taken.
    pub fn new(items: Vec<Finding>) -> FindingList
        ensures { result ≡ items.items }
    {
        FindingList { items }
    }

    /// The findings in order.
    pub fn as_slice(&self) -> &[Finding]
        ensures { result.now ≡ self.now }
    {
        self.items.as_slice()
    }
}

/// The runs of a question.
#[derive(Drop)]
pub struct Runs {
    /// The run of the policy of the key.
    pub key: Run,
    /// That of the caller's own policies.
    pub identity: Run,
    /// That of the account's ceiling.
    pub ceiling: Run,
    /// The marks of the grants of the key.
    pub grants: MarkList,
}

fn is_root(caller: &Principal) -> bool
    ensures { result ≡ is_root caller.now }
{
    matches!(caller, Principal::Root(_))
}

impl Runs {
    // Where nothing is asked.
    fn empty(alloc: Global) -> Runs
        ensures { (basis : Basis) (question : QuestionValue) (key grant : List ℕ) → AreRuns basis question (about.Retiring key grant) result }
    {
        Runs {
            key: Run::new(alloc),
            identity: Run::new(alloc),
            ceiling: Run::new(alloc),
            grants: MarkList::new(Vec::new(alloc)),
        }
    }

    // Those of a question about no key.
    fn of_other(alloc: Global, account: &Account, question: &Question) -> Result<Runs, NoMemory>
        ensures { IfOk result (λ runs. AreRuns (basis_of account.now.facts account.now.entries) question.now about.Other runs) }
    {
        let facts = &question.facts;
        let identities = account.facts().identities.as_slice();
        let own = own_policies(alloc, identities, &facts.caller)?;
        let ceiling = account.facts().ceiling.as_slice();
        Ok(Runs {
            key: Run::new(alloc),
            identity: Run::of_documents(alloc, own, facts)?,
            ceiling: Run::of_documents(alloc, ceiling, facts)?,
            grants: MarkList::new(Vec::new(alloc)),
        })
    }

    // Those of a question about a key.
    fn of_key(
        alloc: Global,
        account: &Account,
        question: &Question,
        key: &KeyId,
    ) -> Result<Runs, NoMemory>
        ensures { IfOk result (λ runs. AreRuns (basis_of account.now.facts account.now.entries) question.now (about.Key key.now) runs) }
    {
        let Runs {
            key: _,
            identity,
            ceiling,
            grants: _,
        } = Runs::of_other(alloc, account, question)?;
        let statements = key_statements(alloc, account, key)?;
        let run = Run::of(
            alloc,
            PolicyKind::Key,
            statements.as_slice(),
            &question.facts,
        )?;
        Ok(Runs {
            key: run,
            identity,
            ceiling,
            grants: grant_marks(alloc, account, key, question)?,
        })
    }

    // Those of a question about this.
    fn of(
        alloc: Global,
        account: &Account,
        question: &Question,
        subject: &Subject,
    ) -> Result<Runs, NoMemory>
        ensures { IfOk result (λ runs. AreRuns (basis_of account.now.facts account.now.entries) question.now subject.now runs) }
    {
        match subject {
            Subject::Key(key) => Runs::of_key(alloc, account, question, key),
            Subject::Other => Runs::of_other(alloc, account, question),
            Subject::Retiring(..) => Ok(Runs::empty(alloc)),
        }
    }

    // What they come to, under a ceiling of these documents.
    fn tested(&self, ceiling: &[Policy], is_root: bool, may_retire: bool) -> Tested
        ensures { AreTested self.now ceiling.now is_root may_retire result }
    {
        Tested {
            key_denies: self.key.has(false, Mark::Hit),
            identity_denies: self.identity.has(false, Mark::Hit),
            is_under: self.ceiling.lets_pass(ceiling),
            key_allows: self.key.has(true, Mark::Hit),
            key_allows_root: self.key.has(true, Mark::RootHit),
            identity_allows: self.identity.has(true, Mark::Hit),
            grant_permits: some_hits(self.grants.as_slice()),
            is_root,
            may_retire,
        }
    }

    // The finding, with this ground.
    fn finding(
        self,
        alloc: Global,
        question: &Question,
        ground: Ground,
    ) -> Result<Finding, NoMemory>
        ensures { IfOk result (λ finding. finding ≡ finding_of question.now self ground) }
    {
        Ok(Finding {
            action: question.facts.action,
            resource: question.facts.resource.copy()?,
            ground,
            key_marks: self.key.marks(alloc)?,
            identity_marks: self.identity.marks(alloc)?,
            ceiling_marks: self.ceiling.marks(alloc)?,
            grant_marks: self.grants,
        })
    }
}

// The ground of a question about this, by its runs.
fn ground_of(account: &Account, question: &Question, subject: &Subject, runs: &Runs) -> Ground
    requires { AreRuns (basis_of account.now.facts account.now.entries) question.now subject.now runs.now }
    ensures { IsFirst (Fits (basis_of account.now.facts account.now.entries) question.now subject.now (finding_of question.now runs.now result)) (rows_for subject.now) result }
{
    let caller = &question.facts.caller;
    let may_retire = may_retire_asked(account, subject, caller);
    let ceiling = account.facts().ceiling.as_slice();
    let tested = runs.tested(ceiling, is_root(caller), may_retire);
    tested.ground(subject)
}

/// What is found of a question at an account.
pub fn find(alloc: Global, account: &Account, question: &Question) -> Result<Finding, NoMemory>
    ensures { IfOk result (λ finding. IsFinding (basis_of account.now.facts account.now.entries) question.now finding) }
{
    let subject = subject_of(question);
    let runs = Runs::of(alloc, account, question, &subject)?;
    let ground = ground_of(account, question, &subject, &runs);
    runs.finding(alloc, question, ground)
}

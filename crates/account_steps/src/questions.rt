//! The questions of the step of authority: whether the caller may do what a request asks.
ghost use Rattle.std.specs.Prelude.{◌≡◌, ◌++◌, [], IfOk, OnOk, map};
ghost use Rattle.account_steps.specs.Authority.{all_asked, asked_if, asked_one, of_grants, posed, denied};
ghost use Rattle.account_steps.specs.Steps.{Passes};

use crate::stops::Stop;
use crate::view::{LentGrant, View};
use account_rows::Lent;
use authority::Particulars;
use cond_ops::RequestFacts;
use enc_context::Context;
use grant_table::Constraint;
use kms_names::{Action, AliasName, GrantId, GrantOp, GrantOps, KeyId, NoMemory};
use std::alloc::Global;
use std::marker::Model;

/// An alias of which a question is asked, lent. Contracts see its name.
#[derive(Drop)]
pub struct LentAlias<'a> {
    name: &'a AliasName,
}

impl<'a> Model for LentAlias<'a> {
    ghost use Rattle.std.specs.Prelude.{ℕ, List};

    ghost Value = { List ℕ };

    ghost view = { λ lent. lent.name.now };
}

impl<'a> LentAlias<'a> {
    ghost use Rattle.std.specs.Prelude.{◌≡◌};

    /// The alias, lent.
    pub fn new(name: &'a AliasName) -> LentAlias<'a>
        ensures { result ≡ name.now }
    {
        LentAlias { name }
    }

    /// Its name.
    pub fn name(&self) -> &'a AliasName
        ensures { result.now ≡ self.now }
    {
        self.name
    }
}

/// A question of the step of authority, lent.
#[derive(Drop)]
pub enum Asking<'a> {
    /// Whether the caller may do this on a key.
    OnKey {
        action: Action,
        key: Lent<'a>,
        said: Particulars<'a>,
    },
    /// Whether it may do this, which is about no key.
    OnAll {
        action: Action,
        said: Particulars<'a>,
    },
    /// Whether it may do this to an alias.
    OnAlias {
        action: Action,
        alias: LentAlias<'a>,
    },
    /// Whether it may retire a grant.
    Retiring {
        grant: LentGrant<'a>,
    },
}

/// The questions of a request, in order.
#[derive(Drop)]
pub struct Questions<'a> {
    /// The first.
    pub first: Asking<'a>,
    /// The second, if there is one.
    pub second: Option<Asking<'a>>,
    /// The third, if there is one.
    pub third: Option<Asking<'a>>,
}

impl<'a> Asking<'a> {
    ghost use Rattle.std.specs.Prelude.{◌≡◌};
    ghost use Rattle.account_steps.specs.declared.questions.Asking.TheVariants as asking;
    ghost use Rattle.account_steps.specs.Authority.{alone};

    /// Whether the caller may do this on a key.
    pub fn on_key(action: Action, key: &Lent<'a>, said: Particulars<'a>) -> Asking<'a>
        ensures { result ≡ asking.OnKey action key.now said.entry }
    {
        Asking::OnKey {
            action,
            key: key.again(),
            said,
        }
    }

    /// This question, and no other.
    pub fn alone(self) -> Questions<'a>
        ensures { result ≡ alone self.entry }
    {
        Questions {
            first: self,
            second: None,
            third: None,
        }
    }
}

impl<'q> Questions<'q> {
    ghost use Rattle.std.specs.Prelude.{◌≡◌};
    ghost use Rattle.account_steps.specs.declared.questions.Asking.TheVariants as asking;
    ghost use Rattle.account_steps.specs.Authority.{alone};

    /// Whether the caller may do this on a key, and nothing else.
    pub fn on_key(action: Action, key: &'q Lent<'q>, said: Particulars<'q>) -> Questions<'q>
        ensures { result ≡ alone (asking.OnKey action key.now said.entry) }
    {
        Asking::on_key(action, key, said).alone()
    }
}

/// What a question asks of the grants of its key (AWS KMS Developer Guide, "Grants in AWS KMS").
#[derive(Drop)]
pub enum OfGrants {
    /// Nothing: no grant permits such an action.
    Nothing,
    /// That one permits the operation under this encryption context.
    Permit(Context),
    /// That one permits CreateGrant, and a grant of these operations and this constraint would be a child of it.
    Child {
        operations: GrantOps,
        constraint: Constraint,
    },
    /// That this one may be retired by the caller.
    Retire(GrantId),
}

/// A question of the step of authority, as policies and grants are asked it.
#[derive(Drop)]
pub struct Question {
    /// The key that it is about, of a grant that is retired the grant's; `None` where it is about none, or about an alias.
    pub key: Option<KeyId>,
    /// What policies are asked: the caller, the action, the resource, and every condition key.
    pub facts: RequestFacts,
    /// The operation that a grant may permit, if the action is one.
    pub op: Option<GrantOp>,
    /// What the key's grants are asked.
    pub grants: OfGrants,
}

/// A list of questions, in order.
#[derive(Drop)]
pub struct QuestionList {
    items: Vec<Question>,
}

impl Model for QuestionList {
    ghost use Rattle.std.specs.Prelude.{List};
    ghost use Rattle.account_steps.specs.declared.questions.Question.{Question};

    ghost Value = { List Question };

    ghost view = { λ l. l.items.items };
}

impl QuestionList {
    ghost use Rattle.std.specs.Prelude.{◌≡◌};

    /// The list of a vector's questions; no memory is taken.
    pub fn new(items: Vec<Question>) -> QuestionList
        ensures { result ≡ items.items }
    {
        QuestionList { items }
    }

    /// The questions in order.
    pub fn as_slice(&self) -> &[Question]
        ensures { result.now ≡ self.now }
    {
        self.items.as_slice()
    }
}

// What is asked of the grants of a key.
pub(crate) fn of_grants(
    alloc: Global,
    op: Option<GrantOp>,
    said: &Particulars<'_>,
) -> Result<OfGrants, NoMemory>
    ensures { IfOk result (λ grants. grants ≡ of_grants op said.now.grant said.now.context) }
{
    if op.is_none() {
        return Ok(OfGrants::Nothing);
    }
    if let Some(made) = &said.grant {
        return Ok(OfGrants::Child {
            operations: made.operations,
            constraint: made.constraint.copy()?,
        });
    }
    Ok(OfGrants::Permit(match said.context {
        Some(context) => context.copy()?,
        None => Context::new(alloc),
    }))
}

// A question, where there is one: goes on where the caller may do it.
fn pass_if(alloc: Global, view: &View<'_>, asking: &Option<Asking<'_>>) -> Result<(), Stop>
    ensures { Passes (denied view.now (asked_if view.now asking.now)) result }
{
    match asking {
        Some(asking) => view.pass_asked(alloc, asking),
        None => Ok(()),
    }
}

// Goes on where the caller may do all that these questions ask. The first that it may not do is refused.
pub(crate) fn pass_all(
    alloc: Global,
    view: &View<'_>,
    questions: &Questions<'_>,
) -> Result<(), Stop>
    ensures { Passes (denied view.now (all_asked view.now questions.now)) result }
{
    view.pass_asked(alloc, &questions.first)?;
    pass_if(alloc, view, &questions.second)?;
    pass_if(alloc, view, &questions.third)
}

fn push_if(
    questions: &mut Vec<Question>,
    view: &View<'_>,
    asking: &Option<Asking<'_>>,
) -> Result<(), NoMemory>
    ensures { OnOk result (questions.new.items ≡ questions.old.items ++ map (posed view.now) (asked_if view.now asking.now)) }
{
    if let Some(asking) = asking {
        let question = view.pose(*questions.allocator(), asking)?;
        questions.push(question)?;
    }
    Ok(())
}

// These questions, as policies and grants are asked them.
pub(crate) fn pose_all(
    alloc: Global,
    view: &View<'_>,
    questions: &Questions<'_>,
) -> Result<QuestionList, NoMemory>
    ensures { IfOk result (λ list. list ≡ map (posed view.now) (all_asked view.now questions.now)) }
{
    let mut items = Vec::new(alloc);
    items.push(view.pose(alloc, &questions.first)?)?;
    push_if(&mut items, view, &questions.second)?;
    push_if(&mut items, view, &questions.third)?;
    Ok(QuestionList::new(items))
}

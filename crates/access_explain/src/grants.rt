// The marks of grants.
ghost use Rattle.std.specs.Prelude.{◌≡◌, ◌↔◌, IsTrue, IfOk, filter, option_map};
ghost use Rattle.grant_table.specs.Grants.{asks_constraint, is_of_key, grant_of_key};
ghost use Rattle.grant_table.specs.declared.rows.GrantRow.{GrantRow as Grant};
ghost use Rattle.account_laws.specs.Laws.{AreInOrder};
ghost use Rattle.account_rows.specs.History.{replay};
ghost use Rattle.account_steps.specs.Authority.{MayRetire};
ghost use Rattle.access_explain.specs.Findings.{AreGrantMarks, IsRetirable, Retires};
ghost use Rattle.access_explain.specs.declared.subjects.Subject.TheVariants as about;
ghost use Rattle.access_explain.specs.Marks.{needed, Suits, IsGrantMark};
ghost use Rattle.access_explain.specs.Runs.{OneByOne};

use crate::marks::{Mark, MarkList};
use crate::subjects::Subject;
use account_core::Account;
use account_laws::rows_stand_in_order;
use account_steps::{OfGrants, Question};
use grant_table::{GrantRow, same_principal};
use kms_names::{GrantId, GrantOp, KeyId, NoMemory, Principal};
use std::alloc::Global;

// Whether a grant's constraint is asked of an operation's context.
fn is_constrained(op: GrantOp) -> bool
    ensures { result ≡ asks_constraint op }
{
    !matches!(
        op,
        GrantOp::CreateGrant | GrantOp::RetireGrant | GrantOp::DescribeKey
    )
}

// The operation that a grant has to have.
fn needed(op: GrantOp, grants: &OfGrants) -> GrantOp
    ensures { result ≡ needed op grants.now }
{
    match grants {
        OfGrants::Child { .. } => GrantOp::CreateGrant,
        OfGrants::Permit(_) | OfGrants::Nothing | OfGrants::Retire(_) => op,
    }
}

// Whether its constraint, or the child, suits.
fn suits(op: GrantOp, grants: &OfGrants, row: &GrantRow) -> bool
    ensures { IsTrue result ↔ Suits op grants.now row.now }
{
    match grants {
        OfGrants::Permit(context) => !is_constrained(op) || row.constraint.holds(context),
        OfGrants::Child {
            operations,
            constraint,
        } => row.has_child(operations, constraint),
        OfGrants::Nothing | OfGrants::Retire(_) => false,
    }
}

// The mark of a grant: `Hit` where it permits the caller the operation, else the first that fails
// of its grantee, its operations, and its constraint or the child.
fn grant_mark_of(caller: &Principal, op: GrantOp, grants: &OfGrants, row: &GrantRow) -> Mark
    ensures { IsGrantMark caller.now op grants.now row.now result }
{
    if !same_principal(&row.grantee, caller) {
        return Mark::Principal;
    }
    if !row.operations.contains(needed(op, grants)) {
        return Mark::Action;
    }
    if suits(op, grants, row) {
        Mark::Hit
    } else {
        Mark::Condition
    }
}

// The first grant of a key that was made behind a place. The grants stand in order of making.
fn next_grant<'a>(account: &'a Account, key: &KeyId, at: Option<u64>) -> Option<&'a GrantRow>
    ensures first { option_map (λ row. row.now) result ≡ grant_of_key (replay account.now.entries).grants key.now at }
    ensures order { AreInOrder (λ (row : Grant). row.born) (replay account.now.entries).grants }
{
    let _entries = account.entries();
    rows_stand_in_order();
    account.key_grant(key, at)
}

// The marks of the grants of a key, for an operation.
fn marks_for(
    alloc: Global,
    account: &Account,
    key: &KeyId,
    caller: &Principal,
    op: GrantOp,
    asked: &OfGrants,
) -> Result<MarkList, NoMemory>
    ensures { IfOk result (λ marks. OneByOne (IsGrantMark caller.now op asked.now) (filter (is_of_key key.now) (replay account.now.entries).grants) marks) }
{
    let mut marks = Vec::new(alloc);
    let mut at = None;
    while let Some(row) = next_grant(account, key, at) {
        at = Some(row.born);
        marks.push(grant_mark_of(caller, op, asked, row))?;
    }
    Ok(MarkList::new(marks))
}

/// The marks of the grants of a key, in order of making; none where what is asked is no operation
/// of grants.
pub fn grant_marks(
    alloc: Global,
    account: &Account,
    key: &KeyId,
    question: &Question,
) -> Result<MarkList, NoMemory>
    ensures { IfOk result (λ marks. AreGrantMarks question.now.facts.caller question.now.op question.now.grants (filter (is_of_key key.now) (replay account.now.entries).grants) marks) }
{
    match question.op {
        Some(op) => marks_for(
            alloc,
            account,
            key,
            &question.facts.caller,
            op,
            &question.grants,
        ),
        None => Ok(MarkList::new(Vec::new(alloc))),
    }
}

// Whether the caller may retire a grant.
fn may_retire(caller: &Principal, grant: &GrantRow) -> bool
    ensures { IsTrue result ↔ MayRetire caller.now grant.now }
{
    matches!(caller, Principal::Root(_))
        || grant.has_retiring(caller)
        || (same_principal(&grant.grantee, caller)
            && grant.operations.contains(GrantOp::RetireGrant))
}

// Whether a grant has this id, and the caller may retire it.
fn is_retirable(row: &GrantRow, grant: &GrantId, caller: &Principal) -> bool
    ensures { IsTrue result ↔ IsRetirable caller.now grant.now row.now }
{
    row.has_id(grant) && may_retire(caller, row)
}

// Whether a grant of a key has this id, and the caller may retire it.
fn retires(account: &Account, key: &KeyId, grant: &GrantId, caller: &Principal) -> bool
    ensures { IsTrue result ↔ Retires caller.now (replay account.now.entries).grants (about.Retiring key.now grant.now) }
{
    let mut at = None;
    while let Some(row) = next_grant(account, key, at) {
        if is_retirable(row, grant, caller) {
            return true;
        }
        at = Some(row.born);
    }
    false
}

/// Whether a question is about a grant that is to be retired, which is one of its key, and the
/// caller may retire it.
pub fn may_retire_asked(account: &Account, subject: &Subject, caller: &Principal) -> bool
    ensures { IsTrue result ↔ Retires caller.now (replay account.now.entries).grants subject.now }
{
    match subject {
        Subject::Retiring(key, grant) => retires(account, key, grant, caller),
        Subject::Key(_) | Subject::Other => false,
    }
}

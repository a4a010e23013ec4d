//! What requests about grants say to conditions.
ghost use Rattle.std.specs.Prelude.{◌≡◌, ◌++◌, ◌∷◌, [], IfOk, OnOk, map, filter, codes, option_map};
ghost use Rattle.kms_names.specs.Action.{is_among};
ghost use Rattle.kms_names.specs.GrantOps.{grant_op_name, contains, members};
ghost use Rattle.kms_names.specs.Principal.{principal_text};
ghost use Rattle.authority.specs.Facts.{single, text_facts, constraint_type, said_facts, grant_facts, on_grants, for_service_facts, granting_facts};

use crate::puts::{put_given, put_text, put_values};
use crate::settings::{GrantSaid, Particulars};
use cond_ops::Fact;
use grant_table::Constraint;
use kms_names::{Action, GrantOp, GrantOps, NoMemory, Principal, Text, TextList, write_principal};
use std::alloc::Global;

// The names of those of these operations that are in a set.
fn names_in(alloc: Global, operations: &GrantOps, all: &[GrantOp]) -> Result<TextList, NoMemory>
    ensures { IfOk result (λ names. names ≡ map grant_op_name (filter (contains operations.now) all.now)) }
{
    let mut names = Vec::new(alloc);
    for op in all {
        if operations.contains(*op) {
            names.push(Text::from_str(alloc, op.name())?)?;
        }
    }
    Ok(TextList::new(names))
}

// The names of the operations of a set, in order.
fn operation_names(alloc: Global, operations: &GrantOps) -> Result<TextList, NoMemory>
    ensures { IfOk result (λ names. names ≡ map grant_op_name (members operations.now)) }
{
    names_in(alloc, operations, &GrantOp::ALL)
}

// The name of the member of a constraint.
fn constraint_type(constraint: &Constraint) -> Option<&'static str>
    ensures { option_map (λ name. name.now) result ≡ constraint_type constraint.now }
{
    match constraint {
        Constraint::Free => None,
        Constraint::Equals(_) => Some("EncryptionContextEquals"),
        Constraint::Subset(_) => Some("EncryptionContextSubset"),
    }
}

// Adds a principal by its ARN.
fn put_principal(facts: &mut Vec<Fact>, key: &str, principal: &Principal) -> Result<(), NoMemory>
    ensures { OnOk result (facts.new.items ≡ facts.old.items ++ single key.now (principal_text principal.now) ∷ []) }
{
    let arn = write_principal(*facts.allocator(), principal)?;
    put_text(facts, key, arn.as_str())
}

// Adds who may retire the grant, where someone is named.
fn put_retiring(facts: &mut Vec<Fact>, retiring: Option<&Principal>) -> Result<(), NoMemory>
    ensures { OnOk result (facts.new.items ≡ facts.old.items ++ text_facts (codes "kms:RetiringPrincipal") (option_map principal_text (option_map (λ p. p.now) retiring.entry))) }
{
    match retiring {
        Some(principal) => put_principal(facts, "kms:RetiringPrincipal", principal),
        None => Ok(()),
    }
}

// Adds the grant that is asked for.
fn put_said(facts: &mut Vec<Fact>, grant: &GrantSaid<'_>) -> Result<(), NoMemory>
    ensures { OnOk result (facts.new.items ≡ facts.old.items ++ said_facts grant.now) }
{
    let operations = operation_names(*facts.allocator(), &grant.operations)?;
    put_values(facts, "kms:GrantOperations", operations)?;
    put_principal(facts, "kms:GranteePrincipal", grant.grantee)?;
    put_retiring(facts, grant.retiring)?;
    put_given(
        facts,
        "kms:GrantConstraintType",
        constraint_type(grant.constraint),
    )?;
    Ok(())
}

// Adds the grant that is asked for, where one is.
fn put_grant(facts: &mut Vec<Fact>, particulars: &Particulars<'_>) -> Result<(), NoMemory>
    ensures { OnOk result (facts.new.items ≡ facts.old.items ++ grant_facts particulars.now.grant) }
{
    match &particulars.grant {
        Some(grant) => put_said(facts, grant),
        None => Ok(()),
    }
}

fn is_on_grants(op: Action) -> bool
    ensures { result ≡ is_among on_grants op }
{
    matches!(
        op,
        Action::CreateGrant | Action::ListGrants | Action::RevokeGrant
    )
}

// Adds that no service of AWS acts for the caller.
fn put_for_service(facts: &mut Vec<Fact>, op: Action) -> Result<(), NoMemory>
    ensures { OnOk result (facts.new.items ≡ facts.old.items ++ for_service_facts (is_among on_grants op)) }
{
    if is_on_grants(op) {
        put_text(facts, "kms:GrantIsForAWSResource", "false")
    } else {
        Ok(())
    }
}

// Which grant is made, or whose.
pub(crate) fn put_granting(
    facts: &mut Vec<Fact>,
    op: Action,
    particulars: &Particulars<'_>,
) -> Result<(), NoMemory>
    ensures { OnOk result (facts.new.items ≡ facts.old.items ++ granting_facts op particulars.now) }
{
    put_grant(facts, particulars)?;
    put_for_service(facts, op)
}

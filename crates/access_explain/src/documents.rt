// The documents that are asked: the policies of keys and of callers.
ghost use Rattle.std.specs.Prelude.{◌≡◌, ◌≢◌, [], IfOk, option_map};
ghost use Rattle.policy_doc.specs.declared.faults.PolicyFault.TheVariants.{NoMemory as OutOfMemory};
ghost use Rattle.account_rows.specs.History.{replay, key_with};
ghost use Rattle.key_policies.specs.KeyPolicy.{policy_in};
ghost use Rattle.authority.specs.Setting.{identity_at, policies_of, callers_policies};
ghost use Rattle.access_explain.specs.Findings.{policy_statements};

use account_core::Account;
use authority::Identity;
use key_policies::read_key_policy;
use kms_names::{KeyId, NoMemory, Principal, Text, write_principal};
use policy_doc::{Policy, PolicyFault, StatementList};
use std::alloc::Global;

// The first of these that has an ARN.
fn identity_at<'a>(
    alloc: Global,
    identities: &'a [Identity],
    arn: &str,
) -> Result<Option<&'a Identity>, NoMemory>
    ensures { IfOk result (λ found. option_map (λ identity. identity.now) found ≡ identity_at identities.now arn.now) }
{
    for identity in identities {
        let own = write_principal(alloc, &identity.principal)?;
        if own.as_str() == arn {
            return Ok(Some(identity));
        }
    }
    Ok(None)
}

// The policies of the first of these identities of a principal.
fn policies_at<'a>(
    alloc: Global,
    identities: &'a [Identity],
    principal: &Principal,
) -> Result<&'a [Policy], NoMemory>
    ensures { IfOk result (λ policies. policies.now ≡ policies_of identities.now principal.now) }
{
    let arn = write_principal(alloc, principal)?;
    match identity_at(alloc, identities, arn.as_str())? {
        Some(identity) => Ok(identity.policies.as_slice()),
        None => Ok(&[]),
    }
}

/// The own policies of a caller: those of the first identity of its ARN. The root has none.
pub fn own_policies<'a>(
    alloc: Global,
    identities: &'a [Identity],
    caller: &Principal,
) -> Result<&'a [Policy], NoMemory>
    ensures { IfOk result (λ policies. policies.now ≡ callers_policies identities.now caller.now) }
{
    match caller {
        Principal::Root(_) => Ok(&[]),
        Principal::User(..) | Principal::Role(..) => policies_at(alloc, identities, caller),
    }
}

// A document with a fault has no statements.
fn no_statements(alloc: Global, fault: &PolicyFault) -> Result<StatementList, NoMemory>
    ensures { IfOk result (λ statements. (fault.now ≢ OutOfMemory) × (statements ≡ [])) }
{
    match fault {
        PolicyFault::NoMemory => Err(NoMemory),
        PolicyFault::TooLong
        | PolicyFault::NotJson
        | PolicyFault::BadShape(_)
        | PolicyFault::Unsupported(_) => Ok(StatementList::new(Vec::new(alloc))),
    }
}

// The statements of the policy of a key, by its text.
fn statements_in(alloc: Global, text: &Text) -> Result<StatementList, NoMemory>
    ensures { IfOk result (λ statements. statements ≡ (policy_in text.now).statements) }
{
    match read_key_policy(alloc, text) {
        Ok(policy) => Ok(policy.statements),
        Err(fault) => no_statements(alloc, &fault),
    }
}

/// The statements of the policy of a key, none where no row of the key is there.
pub fn key_statements(
    alloc: Global,
    account: &Account,
    key: &KeyId,
) -> Result<StatementList, NoMemory>
    ensures { IfOk result (λ statements. statements ≡ policy_statements (key_with (replay account.now.entries).keys key.now)) }
{
    match account.policy_text(key) {
        Some(text) => statements_in(alloc, text),
        None => Ok(StatementList::new(Vec::new(alloc))),
    }
}

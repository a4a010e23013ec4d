// The principals of a case with their own policies, and the ceiling of its account.
use crate::cases::Case;
use crate::failures::Failure;
use crate::lines::Line;
use authority::{Identity, IdentityList, PolicyList};
use kms_names::{Principal, read_principal};
use policy_doc::{PolicyKind, read_policy};
use std::alloc::Global;

// All policies that a case gives to one principal.
fn policies_of(alloc: Global, case: &Case<'_>, principal: &str) -> Result<PolicyList, Failure> {
    let mut policies = Vec::new(alloc);
    for line in case.lines {
        if let Line::Policy {
            principal: own,
            text,
        } = line
            && *own == principal
        {
            policies.push(read_policy(alloc, PolicyKind::Identity, text.as_bytes())?)?;
        }
    }
    Ok(PolicyList::new(policies))
}

fn has_principal(identities: &[Identity], principal: &Principal) -> bool {
    identities
        .iter()
        .any(|identity| identity.principal == *principal)
}

// Adds a principal with all its policies, if it isn't there yet.
fn add_identity(
    alloc: Global,
    case: &Case<'_>,
    name: &str,
    identities: &mut Vec<Identity>,
) -> Result<(), Failure> {
    let policies = policies_of(alloc, case, name)?;
    let principal = read_principal(alloc, name)?;
    if !has_principal(identities, &principal) {
        identities.push(Identity {
            principal,
            policies,
        })?;
    }
    Ok(())
}

/// The principals of a case, each once and with all its policies.
pub fn identities_of(alloc: Global, case: &Case<'_>) -> Result<IdentityList, Failure> {
    let mut identities = Vec::new(alloc);
    for line in case.lines {
        if let Line::Policy { principal, .. } = line {
            add_identity(alloc, case, principal, &mut identities)?;
        }
    }
    Ok(IdentityList::new(identities))
}

/// The documents of the account's ceiling in a case.
pub fn ceiling_of(alloc: Global, case: &Case<'_>) -> Result<PolicyList, Failure> {
    let mut documents = Vec::new(alloc);
    for line in case.lines {
        if let Line::Ceiling(text) = line {
            documents.push(read_policy(alloc, PolicyKind::Identity, text.as_bytes())?)?;
        }
    }
    Ok(PolicyList::new(documents))
}

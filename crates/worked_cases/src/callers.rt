// Who may ask in a case.
ghost use Rattle.std.specs.Prelude.{◌≡◌, All, IfOk};
ghost use Rattle.kms_names.specs.Principal.{account_of};
ghost use Rattle.sigv4_check.specs.declared.credentials.Credential.{Credential as AKey};
ghost use Rattle.session_front.specs.Callers.{IsOfAccount};

use crate::cases::Case;
use crate::failures::Failure;
use crate::lines::Line;
use kms_names::{AccountNumber, Principal, Text, read_principal};
use kms_session::Trust;
use sigv4_check::{Credential, CredentialList, are_distinct};
use std::alloc::Global;

/// Who asks, if a text names a principal of the account.
pub fn caller_of(alloc: Global, account: AccountNumber, text: &str) -> Result<Principal, Failure>
    ensures { IfOk result (λ caller. account_of caller ≡ account) }
{
    let caller = read_principal(alloc, text)?;
    if caller.account() == account {
        Ok(caller)
    } else {
        Err(Failure::Unfit)
    }
}

fn credential_of(
    alloc: Global,
    account: AccountNumber,
    id: &str,
    secret: &str,
    principal: &str,
) -> Result<Credential, Failure>
    ensures { IfOk result (λ (key : AKey). account_of key.principal ≡ account) }
{
    Ok(Credential {
        id: Text::from_str(alloc, id)?,
        secret: Text::from_str(alloc, secret)?,
        principal: caller_of(alloc, account, principal)?,
    })
}

// The credentials, if each one's principal is of the account and no two have one id.
fn credentials_of(
    alloc: Global,
    account: AccountNumber,
    case: &Case<'_>,
) -> Result<CredentialList, Failure>
    ensures { IfOk result (λ list. All (λ (key : AKey). account_of key.principal ≡ account) list) }
{
    let mut all = Vec::new(alloc);
    for line in case.lines {
        if let Line::Credential {
            id,
            secret,
            principal,
        } = line
        {
            all.push(credential_of(alloc, account, id, secret, principal)?)?;
        }
    }
    if are_distinct(&all) {
        Ok(CredentialList::new(all))
    } else {
        Err(Failure::Unfit)
    }
}

/// Whom the session of a case trusts: whoever signs with one of its credentials, or its caller where it
/// has none; if they are of the account.
pub fn trust_of(alloc: Global, account: AccountNumber, case: &Case<'_>) -> Result<Trust, Failure>
    ensures { IfOk result (IsOfAccount account) }
{
    if case.has_credentials {
        Ok(Trust::Signed(credentials_of(alloc, account, case)?))
    } else {
        Ok(Trust::Word(caller_of(alloc, account, case.caller)?))
    }
}

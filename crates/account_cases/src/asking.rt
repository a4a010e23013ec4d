// What a line of the script asks, and the account after it.
ghost use Rattle.std.specs.Prelude.{◌≡◌, IfOk};
ghost use Rattle.kms_names.specs.Principal.{account_of};
ghost use Rattle.account_core.specs.Decide.{IsProper};

use crate::failures::Failure;
use account_core::{Account, Decision, RealmFacts};
use kms_json::{Ask, read_ask};
use kms_names::{AccountNumber, Principal, read_principal};
use std::alloc::Global;

// Who asks, if a text names a principal of the account.
fn caller_of(alloc: Global, account: AccountNumber, text: &str) -> Result<Principal, Failure>
    ensures { IfOk result (λ caller. account_of caller ≡ account) }
{
    let caller = read_principal(alloc, text)?;
    if caller.account() == account {
        Ok(caller)
    } else {
        Err(Failure::Unfit)
    }
}

/// What a line asks: the caller, the operation and the body, with blanks between them.
pub fn ask_of(alloc: Global, facts: &RealmFacts, line: &str) -> Result<Ask, Failure>
    ensures { IfOk result (λ ask. IsProper facts.now ask) }
{
    let (caller, request) = line.split_once(' ').ok_or(Failure::Unfit)?;
    let (operation, body) = request.split_once(' ').ok_or(Failure::Unfit)?;
    let target = format!(in alloc; "TrentService.{operation}")?;
    Ok(Ask {
        caller: caller_of(alloc, facts.account, caller)?,
        body: read_ask(alloc, target.as_bytes(), body.as_bytes())?,
        moment: 1_700_000_000,
        after: None,
    })
}

/// The account after a request: with its entry, if it makes one, which fits.
pub fn after(alloc: Global, account: Account, ask: &Ask) -> Result<Account, Failure>
    requires { IsProper account.facts ask.now }
{
    if !ask.changes() {
        return Ok(account);
    }
    match account.decide_change(alloc, ask)? {
        Decision::Change(entry, _reply) => Ok(account.push_fitting(alloc, &entry)?),
        Decision::Refused(_) | Decision::Served(_) => Ok(account),
    }
}

ghost use Rattle.std.specs.Prelude.{◌≡◌, ◌≢◌, ◌↔◌, ℕ, List, IsTrue, IfErr, IfOk, MatchOption, ◌⊎◌, ◌++◌, length};
ghost use Rattle.kms_names.specs.Characters.{is_name_character};
ghost use Rattle.kms_names.specs.Principal.{IsIamArn, IsPathAndName, IsPrincipal, principal_text, account_of};
ghost use Rattle.kms_names.specs.declared.principals.Principal.{Principal};

use crate::accounts::AccountNumber;
use crate::faults::{NameFault, NoMemory};
use crate::parts::{after, at_colon};
use crate::texts::Text;
use std::alloc::Global;

/// Who calls, or is named by a policy or a grant. The text is the path and name.
#[derive(PartialEq, Eq, PartialOrd, Ord, Drop)]
pub enum Principal {
    Root(AccountNumber),
    User(AccountNumber, Text),
    Role(AccountNumber, Text),
}

impl Principal {
    /// The account that the principal is of.
    pub fn account(&self) -> AccountNumber
        ensures { result ≡ account_of self.now }
    {
        match self {
            Principal::Root(account) | Principal::User(account, _) | Principal::Role(account, _) =>
                *account,
        }
    }

    /// A copy that equals its source.
    pub fn copy(&self) -> Result<Principal, NoMemory>
        ensures { IfOk result (λ p. p ≡ self.now) }
    {
        match self {
            Principal::Root(account) => Ok(Principal::Root(*account)),
            Principal::User(account, name) => Ok(Principal::User(*account, name.copy()?)),
            Principal::Role(account, name) => Ok(Principal::Role(*account, name.copy()?)),
        }
    }
}

/// The ARN of a principal.
pub fn write_principal(alloc: Global, principal: &Principal) -> Result<Text, NoMemory>
    ensures { IfOk result (λ t. t ≡ principal_text principal.now) }
{
    let text = match principal {
        Principal::Root(account) => format!(in alloc; "arn:aws:iam::{}:root", account.as_str())?,
        Principal::User(account, name) => {
            format!(in alloc; "arn:aws:iam::{}:user/{}", account.as_str(), name.as_str())?
        }
        Principal::Role(account, name) => {
            format!(in alloc; "arn:aws:iam::{}:role/{}", account.as_str(), name.as_str())?
        }
    };
    Ok(Text::from_string(text))
}

/// The length of a principal's ARN in bytes; no memory is taken.
pub fn principal_len(principal: &Principal) -> usize
    ensures { result ≡ length (principal_text principal.now) }
{
    match principal {
        Principal::Root(account) => "arn:aws:iam::".len() + account.as_str().len() + ":root".len(),
        Principal::User(account, name) | Principal::Role(account, name) => {
            "arn:aws:iam::".len() + account.as_str().len() + ":user/".len() + name.as_str().len()
        }
    }
}

fn is_name_byte(byte: u8) -> bool
    ensures { result ≡ is_name_character byte }
{
    byte.is_ascii_alphanumeric() || b"+=,.@_/-".contains(&byte)
}

fn is_path_and_name(text: &str) -> bool
    ensures { IsTrue result ↔ IsPathAndName text.now }
{
    !text.is_empty() && text.len() <= 512 && text.bytes().all(is_name_byte)
}

/// The path and name behind a front.
fn path_after<'a>(text: &'a str, front: &str) -> Option<&'a str>
    ensures { MatchOption result ((n : List ℕ) → IsPathAndName n → text.now ≢ front.now ++ n) (λ n. IsPathAndName n.now × (text.now ≡ front.now ++ n.now)) }
{
    let name = after(text, front)?;
    if is_path_and_name(name) {
        Some(name)
    } else {
        None
    }
}

/// The account of a principal's ARN, and what stands behind it.
fn account_and_resource(text: &str) -> Option<(AccountNumber, &str)>
    ensures { MatchOption result ((a r : List ℕ) → ¬ (IsIamArn text.now a r)) (λ p. IsIamArn text.now p.0 p.1.now) }
{
    let (account, resource) = at_colon(after(text, "arn:aws:iam::")?)?;
    Some((AccountNumber::read(account)?, resource))
}

/// The principal whose ARN a text is: `BadArn` where it is none's.
pub fn read_principal(alloc: Global, text: &str) -> Result<Principal, NameFault>
    ensures ok { IfOk result (λ p. IsPrincipal p × (text.now ≡ principal_text p)) }
    ensures bad_arn { result ≡ Err NameFault.BadArn → (p : Principal) → IsPrincipal p → text.now ≢ principal_text p }
    ensures faults { IfErr result (λ e. (e ≡ NameFault.BadArn) ⊎ (e ≡ NameFault.NoMemory)) }
{
    let Some((account, resource)) = account_and_resource(text) else {
        return Err(NameFault::BadArn);
    };
    if resource == "root" {
        return Ok(Principal::Root(account));
    }
    if let Some(name) = path_after(resource, "user/") {
        return Ok(Principal::User(account, Text::from_str(alloc, name)?));
    }
    if let Some(name) = path_after(resource, "role/") {
        return Ok(Principal::Role(account, Text::from_str(alloc, name)?));
    }
    Err(NameFault::BadArn)
}

// The forms of a configuration's values.
ghost use Rattle.std.specs.Prelude.{◌≡◌, IfOk, Some, None, option_map};
ghost use Rattle.std.specs.Char.{is_ascii_alphanumeric};
ghost use Rattle.std.specs.List.{list_all};
ghost use Rattle.serde_json.specs.View.{view};
ghost use Rattle.kms_names.specs.Reading.{some_if, is_account_number, is_region_text, principal_of};
ghost use Rattle.kms_config.specs.Forms.{account_in, region_in, root_in, is_boot, boot_in, has_length, is_key_id, is_visible, is_secret, if_of, principal_in, principal_at, no_root, text_where};

use crate::members::text_in;
use hex::FromHex;
use kms_names::{AccountNumber, NameFault, NoMemory, Principal, Text, is_region, read_principal};
use policy_doc::member;
use serde_json::Value;
use std::alloc::Global;

fn account_of(text: &str) -> Option<AccountNumber>
    ensures { result ≡ some_if (is_account_number text.now) text.now }
{
    AccountNumber::read(text)
}

/// An account number: 12 decimal digits.
pub fn account_in(value: Option<&Value>) -> Option<AccountNumber>
    ensures { result ≡ account_in (option_map (λ v. view v.now) value.entry) }
{
    account_of(text_in(value)?)
}

fn is_region_text(text: &str) -> bool
    ensures { result ≡ is_region_text text.now }
{
    is_region(text)
}

/// A region: 1 to 32 lower-case letters, digits and `-`.
pub fn region_in(alloc: Global, value: Option<&Value>) -> Result<Option<Text>, NoMemory>
    ensures { IfOk result (λ text. text ≡ region_in (option_map (λ v. view v.now) value.entry)) }
{
    match text_in(value) {
        Some(text) if is_region_text(text) => Ok(Some(Text::from_str(alloc, text)?)),
        _ => Ok(None),
    }
}

/// A root secret: 64 hexadecimal digits of either case.
pub fn root_in(value: Option<&Value>) -> Option<[u8; 32]>
    ensures { result ≡ root_in (option_map (λ v. view v.now) value.entry) }
{
    <[u8; 32] as FromHex>::from_hex(text_in(value)?).ok()
}

/// A boot number: a whole number from 1 to 4294967295.
pub fn boot_in(value: Option<&Value>) -> Option<u32>
    ensures { result ≡ boot_in (option_map (λ v. view v.now) value.entry) }
{
    let boot = value?.as_u64()?;
    if 1 <= boot && boot <= 4_294_967_295 {
        Some(boot as u32)
    } else {
        None
    }
}

fn has_length(text: &str) -> bool
    ensures { result ≡ has_length text.now }
{
    1 <= text.len() && text.len() <= 128
}

fn are_alphanumeric(text: &[u8]) -> bool
    ensures { result ≡ list_all is_ascii_alphanumeric text.now }
{
    text.iter().all(|byte| byte.is_ascii_alphanumeric())
}

fn is_key_id(text: &str) -> bool
    ensures { result ≡ is_key_id text.now }
{
    has_length(text) && are_alphanumeric(text.as_bytes())
}

/// An access key id: 1 to 128 letters and digits.
pub fn key_id_in<'a>(value: Option<&'a Value>) -> Option<&'a str>
    ensures { option_map (λ text. text.now) result ≡ text_where is_key_id (option_map (λ v. view v.now) value.entry) }
{
    let text = text_in(value)?;
    if is_key_id(text) { Some(text) } else { None }
}

fn is_visible(byte: u8) -> bool
    ensures { result ≡ is_visible byte }
{
    33 <= byte && byte <= 126
}

fn are_visible(text: &[u8]) -> bool
    ensures { result ≡ list_all is_visible text.now }
{
    text.iter().all(|byte| is_visible(*byte))
}

fn is_secret(text: &str) -> bool
    ensures { result ≡ is_secret text.now }
{
    has_length(text) && are_visible(text.as_bytes())
}

/// A secret access key: 1 to 128 visible ASCII characters.
pub fn secret_in(alloc: Global, value: Option<&Value>) -> Result<Option<Text>, NoMemory>
    ensures { IfOk result (λ text. text ≡ text_where is_secret (option_map (λ v. view v.now) value.entry)) }
{
    match text_in(value) {
        Some(text) if is_secret(text) => Ok(Some(Text::from_str(alloc, text)?)),
        _ => Ok(None),
    }
}

// The principal whose ARN a text is.
fn principal_of(alloc: Global, text: &str) -> Result<Option<Principal>, NoMemory>
    ensures { IfOk result (λ principal. principal ≡ principal_of text.now) }
{
    match read_principal(alloc, text) {
        Ok(principal) => Ok(Some(principal)),
        Err(NameFault::BadArn) => Ok(None),
        Err(NameFault::BadAlias | NameFault::BadId) => Ok(None),
        Err(NameFault::NoMemory) => Err(NoMemory),
    }
}

/// The principal, where it is of the account.
pub fn if_of_account(principal: Principal, account: &AccountNumber) -> Option<Principal>
    ensures { result ≡ if_of account.now principal }
{
    if principal.account() == *account {
        Some(principal)
    } else {
        None
    }
}

// A principal of the account, by its ARN.
fn principal_in(
    alloc: Global,
    account: &AccountNumber,
    value: Option<&Value>,
) -> Result<Option<Principal>, NoMemory>
    ensures { IfOk result (λ principal. principal ≡ principal_in account.now (option_map (λ v. view v.now) value.entry)) }
{
    let Some(text) = text_in(value) else {
        return Ok(None);
    };
    match principal_of(alloc, text)? {
        Some(principal) => Ok(if_of_account(principal, account)),
        None => Ok(None),
    }
}

/// The member `principal` of an object: a principal of the account.
#[tactic(auto, unfolding(crate::specs::Forms::principal_at))]
pub fn principal_at(
    alloc: Global,
    account: &AccountNumber,
    value: &Value,
) -> Result<Option<Principal>, NoMemory>
    ensures { IfOk result (λ principal. principal ≡ principal_at account.now (view value.now)) }
{
    principal_in(alloc, account, member(value, "principal"))
}

/// The principal, where it isn't the account's root.
pub fn no_root(principal: Principal) -> Option<Principal>
    ensures { result ≡ no_root principal }
{
    match principal {
        Principal::Root(_) => None,
        other => Some(other),
    }
}

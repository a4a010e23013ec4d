ghost use Rattle.std.specs.Prelude.{◌≡◌, ℕ, List, IfErr, IfOk, MatchOption, None, codes, ◌⊎◌, ◌↔◌, IsTrue};
ghost use Rattle.uuid.specs.Text.{parsed_hyphenated};
ghost use Rattle.kms_names.specs.Alias.{IsAliasName};
ghost use Rattle.kms_names.specs.Reference.{BeginsWith, IsArn, IsKmsArn, IsResource, RefersTo, key_arn_text, alias_arn_text};
ghost use Rattle.kms_names.specs.Target.{IsTarget};

use crate::accounts::AccountNumber;
use crate::aliases::{AliasName, is_alias_name};
use crate::faults::{NameFault, NoMemory};
use crate::keys::{KeyId, key_text_into, read_key_id};
use crate::parts::{after, at_colon};
use crate::regions::is_region;
use crate::texts::Text;
use std::alloc::Global;

/// What a text refers to.
#[derive(PartialEq, Eq, Drop)]
pub enum KeyRef {
    /// A key of this account and region.
    Key(KeyId),
    /// An alias of this account and region.
    Alias(AliasName),
    /// A key or an alias of another region or account.
    Elsewhere,
}

impl KeyRef {
    /// A copy that equals its source.
    pub fn copy(&self) -> Result<KeyRef, NoMemory>
        ensures { IfOk result (λ r. r ≡ self.now) }
    {
        match self {
            KeyRef::Key(key) => Ok(KeyRef::Key(*key)),
            KeyRef::Alias(name) => Ok(KeyRef::Alias(name.copy()?)),
            KeyRef::Elsewhere => Ok(KeyRef::Elsewhere),
        }
    }
}

/// The parts of an ARN of the key service.
#[derive(Clone, Copy)]
struct KmsArn<'a> {
    region: &'a str,
    account: AccountNumber,
    resource: &'a str,
}

impl KmsArn<'_> {
    /// Whether the ARN is of this account and region.
    fn is_of(&self, account: &AccountNumber, region: &str) -> bool
        ensures { IsTrue result ↔ ((self.now.region.now ≡ region.now) × (self.now.account ≡ account.now)) }
    {
        self.region == region && self.account == *account
    }
}

/// What the resource of an ARN names.
#[derive(Clone, Copy)]
enum Target<'a> {
    Key(KeyId),
    Alias(&'a str),
}

/// The parts of an ARN of the key service.
fn read_kms_arn(text: &str) -> Option<KmsArn<'_>>
    ensures { MatchOption result ((r a s : List ℕ) → ¬ (IsKmsArn text.now r a s)) (λ arn. IsKmsArn text.now arn.region.now arn.account arn.resource.now) }
{
    let (region, rest) = at_colon(after(text, "arn:aws:kms:")?)?;
    let (account, resource) = at_colon(rest)?;
    let account = AccountNumber::read(account)?;
    if is_region(region) {
        Some(KmsArn {
            region,
            account,
            resource,
        })
    } else {
        None
    }
}

/// What the resource of an ARN names.
fn read_target(resource: &str) -> Option<Target<'_>>
    ensures { MatchOption result (¬ (IsResource resource.now)) (IsTarget resource.now) }
{
    if let Some(id) = after(resource, "key/") {
        let key = read_key_id(id)?;
        return Some(Target::Key(key));
    }
    if is_alias_name(resource) {
        Some(Target::Alias(resource))
    } else {
        None
    }
}

/// What an ARN refers to in an account and region.
fn read_arn(
    alloc: Global,
    text: &str,
    account: &AccountNumber,
    region: &str,
) -> Result<KeyRef, NameFault>
    ensures ok { IfOk result (RefersTo text.now account.now region.now) }
    ensures bad_arn { result ≡ Err NameFault.BadArn → ¬ (IsArn text.now) }
    ensures faults { IfErr result (λ e. (e ≡ NameFault.BadArn) ⊎ (e ≡ NameFault.NoMemory)) }
{
    let Some(arn) = read_kms_arn(text) else {
        return Err(NameFault::BadArn);
    };
    let Some(target) = read_target(arn.resource) else {
        return Err(NameFault::BadArn);
    };
    if !arn.is_of(account, region) {
        return Ok(KeyRef::Elsewhere);
    }
    match target {
        Target::Key(key) => Ok(KeyRef::Key(key)),
        Target::Alias(name) => Ok(KeyRef::Alias(AliasName::from_name(alloc, name)?)),
    }
}

/// What a text refers to in an account and region: a hyphenated id with hex digits of either case, an
/// alias name, or the ARN of a key or an alias. A text that begins `arn:` and is no such ARN is `BadArn`,
/// one that begins `alias/` and is no alias name `BadAlias`, and any other that is no id `BadId`.
pub fn read_key_ref(
    alloc: Global,
    text: &str,
    account: &AccountNumber,
    region: &str,
) -> Result<KeyRef, NameFault>
    ensures ok { IfOk result (RefersTo text.now account.now region.now) }
    ensures bad_arn { result ≡ Err NameFault.BadArn → BeginsWith text.now (codes "arn:") × ¬ (IsArn text.now) }
    ensures bad_alias { result ≡ Err NameFault.BadAlias → BeginsWith text.now (codes "alias/") × ¬ (IsAliasName text.now) }
    ensures bad_id { result ≡ Err NameFault.BadId → (parsed_hyphenated text.now ≡ None) × ¬ (BeginsWith text.now (codes "arn:")) × ¬ (BeginsWith text.now (codes "alias/")) }
{
    if after(text, "arn:").is_some() {
        return read_arn(alloc, text, account, region);
    }
    if is_alias_name(text) {
        return Ok(KeyRef::Alias(AliasName::from_name(alloc, text)?));
    }
    if after(text, "alias/").is_some() {
        return Err(NameFault::BadAlias);
    }
    match read_key_id(text) {
        Some(key) => Ok(KeyRef::Key(key)),
        None => Err(NameFault::BadId),
    }
}

/// The ARN of a key.
pub fn key_arn(
    alloc: Global,
    account: &AccountNumber,
    region: &str,
    key: &KeyId,
) -> Result<Text, NoMemory>
    ensures { IfOk result (λ t. t ≡ key_arn_text account.now region.now key.now) }
{
    let mut room = [0u8; 36];
    let id = key_text_into(key, &mut room);
    let account = account.as_str();
    let text = format!(in alloc; "arn:aws:kms:{region}:{account}:key/{id}")?;
    Ok(Text::from_string(text))
}

/// The ARN of an alias.
pub fn alias_arn(
    alloc: Global,
    account: &AccountNumber,
    region: &str,
    name: &AliasName,
) -> Result<Text, NoMemory>
    ensures { IfOk result (λ t. t ≡ alias_arn_text account.now region.now name.now) }
{
    let account = account.as_str();
    let name = name.as_str();
    let text = format!(in alloc; "arn:aws:kms:{region}:{account}:{name}")?;
    Ok(Text::from_string(text))
}

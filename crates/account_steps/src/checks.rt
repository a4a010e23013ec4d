// The checks that operations share.
ghost use Rattle.std.specs.Prelude.{◌≡◌};
ghost use Rattle.std.specs.Prelude.{◌≢◌, Err, IfOk, OnOk};
ghost use Rattle.kms_names.specs.declared.faults.NameFault.TheVariants as fault;
ghost use Rattle.account_steps.specs.Steps.{Gives, other_kind, unfit_algorithm, unfit, unfit_mac, unrotated, improper, unsupported, no_key, named_by_id, named_by_alias, key_referred, reference_of, key_of, only_key_of, key_of_alias, key_if_given, other_key};
ghost use Rattle.kms_json.specs.declared.refusals.Refusal.TheVariants as refusal;
ghost use Rattle.account_steps.specs.declared.stops.Stop.TheVariants as stop;

use crate::facts::RealmFacts;
use crate::stops::Stop;
use crate::view::View;
use account_rows::{Lent, same_key};
use hmac_keys::KeyKind;
use kms_json::{HMAC_SHA_256, Missing, Refusal, SYMMETRIC_DEFAULT, Unsupported};
use kms_names::{AliasName, KeyId, KeyRef, NameFault, NoMemory, Text, read_key_ref};
use resource_tags::{Tag, are_proper};
use std::alloc::Global;

/// The refusal of a key of another kind than the one that is wanted.
pub fn other_kind(wanted: KeyKind, kind: KeyKind) -> Option<Refusal>
    ensures { result ≡ other_kind wanted kind }
{
    match (wanted, kind) {
        (KeyKind::Symmetric, KeyKind::Symmetric) | (KeyKind::Hmac256, KeyKind::Hmac256) => None,
        _ => Some(Refusal::InvalidKeyUsage),
    }
}

// The refusal of an algorithm that isn't the one of symmetric keys.
fn unfit_algorithm(algorithm: &Option<Text>) -> Option<Refusal>
    ensures { result ≡ unfit_algorithm algorithm.now }
{
    match algorithm {
        Some(name) if name.as_str() != SYMMETRIC_DEFAULT => Some(Refusal::InvalidKeyUsage),
        _ => None,
    }
}

/// The refusal of a key that isn't symmetric, or of an algorithm that isn't the one of symmetric keys.
pub fn unfit(kind: KeyKind, algorithm: &Option<Text>) -> Option<Refusal>
    ensures { result ≡ unfit kind algorithm.now }
{
    match other_kind(KeyKind::Symmetric, kind) {
        Some(why) => Some(why),
        None => unfit_algorithm(algorithm),
    }
}

/// The refusal of a key that isn't an HMAC key, or of an algorithm that isn't the one of HMAC keys.
pub fn unfit_mac(kind: KeyKind, algorithm: &Text) -> Option<Refusal>
    ensures { result ≡ unfit_mac kind algorithm.now }
{
    if let Some(why) = other_kind(KeyKind::Hmac256, kind) {
        return Some(why);
    }
    if algorithm.as_str() != HMAC_SHA_256 {
        return Some(Refusal::InvalidKeyUsage);
    }
    None
}

/// The refusal of a key whose material isn't rotated.
pub fn unrotated(kind: KeyKind) -> Option<Refusal>
    ensures { result ≡ unrotated kind }
{
    match kind {
        KeyKind::Symmetric => None,
        KeyKind::Hmac256 => Some(Refusal::UnsupportedOperation(Unsupported::KeyId)),
    }
}

/// The refusal of tags that may not be given to a key.
pub fn improper(tags: &[Tag]) -> Option<Refusal>
    ensures { result ≡ improper tags.now }
{
    if are_proper(tags) {
        None
    } else {
        Some(Refusal::InvalidTags)
    }
}

/// The refusal of a field that is given and not supported.
pub fn unsupported(given: bool, field: Unsupported) -> Option<Refusal>
    ensures { result ≡ unsupported given field }
{
    if given {
        Some(Refusal::UnsupportedOperation(field))
    } else {
        None
    }
}

/// A key, and the alias that a request names it by, if any.
#[derive(Drop)]
pub struct Named<'a> {
    /// The key.
    pub row: Lent<'a>,
    /// The alias.
    pub alias: Option<AliasName>,
}

// The refusal of a text that refers to no key of the account.
fn refused(reference: &Result<KeyRef, NameFault>) -> Stop
    ensures { result ≡ stop.Refused (no_key reference.now) }
{
    Stop::Refused(match reference {
        Err(NameFault::BadArn) => Refusal::InvalidArn,
        Ok(KeyRef::Alias(_)) | Err(NameFault::BadAlias) => Refusal::NotFound(Missing::Alias),
        Ok(KeyRef::Key(_) | KeyRef::Elsewhere) | Err(NameFault::BadId | NameFault::NoMemory) => {
            Refusal::NotFound(Missing::Key)
        }
    })
}

// The key that a text refers to, with the alias.
fn key_named<'a>(view: &View<'a>, reference: Result<KeyRef, NameFault>) -> Result<Named<'a>, Stop>
    ensures { Gives (key_referred view.now named_by_id (named_by_alias view.now) reference) result }
{
    let found = match &reference {
        Ok(KeyRef::Key(key)) => view.key(key),
        Ok(KeyRef::Alias(name)) => view.aliased(name),
        _ => None,
    };
    let Some(row) = found else {
        return Err(refused(&reference));
    };
    match reference {
        Ok(KeyRef::Alias(name)) => Ok(Named {
            row,
            alias: Some(name),
        }),
        _ => Ok(Named { row, alias: None }),
    }
}

// The key that a text refers to; an alias is refused.
fn only_key<'a>(view: &View<'a>, reference: &Result<KeyRef, NameFault>) -> Result<Lent<'a>, Stop>
    ensures { Gives (key_referred view.now (λ row. row) (λ _. Err refusal.InvalidArn) reference.now) result }
{
    let found = match reference {
        Ok(KeyRef::Key(key)) => view.key(key),
        Ok(KeyRef::Alias(_)) => return Err(Stop::Refused(Refusal::InvalidArn)),
        _ => None,
    };
    match found {
        Some(row) => Ok(row),
        None => Err(refused(reference)),
    }
}

// What was read, unless for want of memory.
fn settled(read: Result<KeyRef, NameFault>) -> Result<Result<KeyRef, NameFault>, NoMemory>
    ensures same { IfOk result (λ r. r ≡ read) }
    ensures memory { OnOk result (read ≢ Err fault.NoMemory) }
{
    match read {
        Ok(reference) => Ok(Ok(reference)),
        Err(NameFault::BadArn) => Ok(Err(NameFault::BadArn)),
        Err(NameFault::BadAlias) => Ok(Err(NameFault::BadAlias)),
        Err(NameFault::BadId) => Ok(Err(NameFault::BadId)),
        Err(NameFault::NoMemory) => Err(NoMemory),
    }
}

// What a reference refers to in the account and region of the service.
fn reference_of(
    alloc: Global,
    facts: &RealmFacts,
    reference: &Text,
) -> Result<Result<KeyRef, NameFault>, NoMemory>
    ensures { IfOk result (λ r. r ≡ reference_of facts.now reference.now) }
{
    let region = facts.region.as_str();
    let read = settled(read_key_ref(alloc, reference.as_str(), &facts.account, region))?;
    Ok(read)
}

/// The key that a reference names, where an alias may stand.
pub fn key_of<'a>(alloc: Global, view: &View<'a>, reference: &Text) -> Result<Named<'a>, Stop>
    ensures { Gives (key_of view.now reference.now) result }
{
    let read = reference_of(alloc, view.facts(), reference)?;
    key_named(view, read)
}

/// The key that a reference names, where an alias may not stand.
pub fn only_key_of<'a>(alloc: Global, view: &View<'a>, reference: &Text) -> Result<Lent<'a>, Stop>
    ensures { Gives (only_key_of view.now reference.now) result }
{
    let read = reference_of(alloc, view.facts(), reference)?;
    only_key(view, &read)
}

/// The key that an alias names.
pub fn key_of_alias<'a>(view: &View<'a>, name: &AliasName) -> Result<Lent<'a>, Stop>
    ensures { Gives (key_of_alias view.now name.now) result }
{
    match view.aliased(name) {
        Some(row) => Ok(row),
        None => Err(Stop::Refused(Refusal::NotFound(Missing::Alias))),
    }
}

/// The key that a reference names, where one is given.
pub fn key_if_given<'a>(
    alloc: Global,
    view: &View<'a>,
    reference: &Option<Text>,
) -> Result<Option<Named<'a>>, Stop>
    ensures { Gives (key_if_given view.now reference.now) result }
{
    match reference {
        Some(reference) => Ok(Some(key_of(alloc, view, reference)?)),
        None => Ok(None),
    }
}

/// The refusal of a reference to another key than the blob's.
pub fn other_key(named: &Option<Named<'_>>, key: &KeyId) -> Option<Refusal>
    ensures { result ≡ other_key named.now key.now }
{
    match named {
        Some(named) if !same_key(&named.row.row().key, key) => Some(Refusal::IncorrectKey),
        _ => None,
    }
}

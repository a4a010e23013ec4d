// The credentials of a configuration.
ghost use Rattle.std.specs.Prelude.{◌≡◌, false, IfOk, IfSome, option_map};
ghost use Rattle.serde_json.specs.View.{view, members_view};
ghost use Rattle.sigv4_check.specs.Credentials.{has_id};
ghost use Rattle.kms_config.specs.Answers.{Answers};
ghost use Rattle.policy_doc.specs.Paths.{path_text};
ghost use Rattle.kms_config.specs.Credentials.{id_in, secret_in as secret_within, credential_of, credential_in, credentials_in};

use crate::faults::ConfigFault;
use crate::forms::{key_id_in, principal_at, secret_in};
use crate::members::items_within;
use crate::places::refused;
use kms_names::{AccountNumber, NoMemory, Text};
use policy_doc::{Path, first_unknown, member};
use serde_json::{Map, Value};
use sigv4_check::{Credential, CredentialList};
use std::alloc::Global;

// The most credentials.
const MOST: usize = 1_000;

// The names of a credential's members.
const NAMES: [&str; 3] = ["accessKeyId", "secret", "principal"];

// An access key id that none of those before has.
#[tactic(auto, unfolding(crate::specs::Credentials::id_in))]
fn id_in(alloc: Global, before: &CredentialList, value: &Value) -> Result<Option<Text>, NoMemory>
    ensures value { IfOk result (λ id. id ≡ id_in before.now (view value.now)) }
    ensures new { IfOk result (λ id. IfSome id (λ text. has_id text before.now ≡ false)) }
{
    match key_id_in(member(value, "accessKeyId")) {
        Some(id) if !before.has_id(id) => Ok(Some(Text::from_str(alloc, id)?)),
        _ => Ok(None),
    }
}

#[tactic(auto, unfolding(crate::specs::Credentials::secret_in))]
fn secret_of(alloc: Global, value: &Value) -> Result<Option<Text>, NoMemory>
    ensures { IfOk result (λ secret. secret ≡ secret_within (view value.now)) }
{
    secret_in(alloc, member(value, "secret"))
}

// A credential of an object with these members.
fn credential_of(
    alloc: Global,
    account: &AccountNumber,
    before: &CredentialList,
    place: &Path<'_>,
    value: &Value,
    members: &Map<String, Value>,
) -> Result<Credential, ConfigFault>
    ensures answer { Answers (credential_of account.now before.now (path_text place.now) (view value.now) (members_view members.now.entries)) result }
    ensures new { IfOk result (λ credential. has_id credential.id before.now ≡ false) }
{
    let Some(id) = id_in(alloc, before, value)? else {
        return refused(alloc, &Path::Member(place, "accessKeyId"));
    };
    let Some(secret) = secret_of(alloc, value)? else {
        return refused(alloc, &Path::Member(place, "secret"));
    };
    let Some(principal) = principal_at(alloc, account, value)? else {
        return refused(alloc, &Path::Member(place, "principal"));
    };
    if let Some(name) = first_unknown(&NAMES, members) {
        return refused(alloc, &Path::Member(place, name));
    }
    Ok(Credential {
        id,
        secret,
        principal,
    })
}

// An item of the list.
fn credential_in(
    alloc: Global,
    account: &AccountNumber,
    before: &CredentialList,
    place: &Path<'_>,
    value: &Value,
) -> Result<Credential, ConfigFault>
    ensures answer { Answers (credential_in account.now before.now (path_text place.now) (view value.now)) result }
    ensures new { IfOk result (λ credential. has_id credential.id before.now ≡ false) }
{
    match value {
        Value::Object(members) => { credential_of(alloc, account, before, place, value, members) }
        _ => refused(alloc, place),
    }
}

/// The credentials of a configuration, in the order of their ids: a list of at most 1,000 objects.
pub fn credentials_in(
    alloc: Global,
    account: &AccountNumber,
    place: &Path<'_>,
    value: Option<&Value>,
) -> Result<CredentialList, ConfigFault>
    ensures { Answers (credentials_in account.now (path_text place.now) (option_map (λ v. view v.now) value.entry)) result }
{
    let Some(values) = items_within(value, MOST) else {
        return refused(alloc, place);
    };
    let mut credentials = CredentialList::empty(alloc);
    for (index, value) in values.iter().enumerate() {
        let item = Path::Item(&*place, index);
        match credential_in(alloc, account, &credentials, &item, value) {
            Ok(credential) => credentials.insert(credential)?,
            Err(why) => return Err(why),
        }
    }
    Ok(credentials)
}

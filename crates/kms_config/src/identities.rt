// The principals with policies of their own.
ghost use Rattle.std.specs.Prelude.{◌≡◌, ◌++◌, ◌∷◌, [], IfOk, OnOk, option_map};
ghost use Rattle.serde_json.specs.View.{view, items_view, members_view};
ghost use Rattle.kms_config.specs.Answers.{Answers};
ghost use Rattle.policy_doc.specs.Paths.{path_text};
ghost use Rattle.kms_config.specs.Lists.{items_from};
ghost use Rattle.kms_config.specs.Identities.{document_in, next_document, documents_in, ceiling_in, is_same, has_principal, new_principal, policies_in, identity_of, identity_in, identities_in};

use crate::faults::ConfigFault;
use crate::forms::{no_root, principal_at};
use crate::members::{items_within, some_within};
use crate::places::{refused, refused_behind};
use authority::{Identity, IdentityList, PolicyList};
use kms_names::{AccountNumber, NoMemory, Principal};
use policy_doc::{Path, Policy, PolicyFault, PolicyKind, first_unknown, member, read_policy_value};
use serde_json::{Map, Value};
use std::alloc::Global;

// The most principals.
const MOST: usize = 1_000;

// The most documents of a principal, and of the account's ceiling.
const MOST_DOCUMENTS: usize = 10;

// The names of an item's members.
const NAMES: [&str; 2] = ["principal", "documents"];

// An identity policy.
fn document_in(alloc: Global, place: &Path<'_>, value: &Value) -> Result<Policy, ConfigFault>
    ensures { Answers (document_in (path_text place.now) (view value.now)) result }
{
    match read_policy_value(alloc, PolicyKind::Identity, value) {
        Ok(policy) => Ok(policy),
        Err(PolicyFault::BadShape(path)) => refused_behind(alloc, place, path.as_str()),
        Err(PolicyFault::Unsupported(path)) => refused_behind(alloc, place, path.as_str()),
        Err(PolicyFault::NoMemory) => Err(ConfigFault::NoMemory),
        Err(PolicyFault::TooLong) => refused_behind(alloc, place, ""),
        Err(PolicyFault::NotJson) => refused_behind(alloc, place, ""),
    }
}

// The identity policies that these values are.
fn policies_of(alloc: Global, place: &Path<'_>, values: &[Value]) -> Result<PolicyList, ConfigFault>
    ensures { Answers (items_from (next_document (path_text place.now)) [] 0 (items_view values.now)) result }
{
    let mut policies = Vec::new(alloc);
    for (index, value) in values.iter().enumerate() {
        let item = Path::Item(&*place, index);
        match document_in(alloc, &item, value) {
            Ok(policy) => add(&mut policies, policy)?,
            Err(why) => return Err(why),
        }
    }
    Ok(PolicyList::new(policies))
}

// A list of at most 10 identity policies.
fn documents_in(
    alloc: Global,
    place: &Path<'_>,
    value: Option<&Value>,
) -> Result<PolicyList, ConfigFault>
    ensures { Answers (documents_in (path_text place.now) (option_map (λ v. view v.now) value.entry)) result }
{
    match items_within(value, MOST_DOCUMENTS) {
        Some(values) => policies_of(alloc, place, values),
        None => refused(alloc, place),
    }
}

/// The documents of the account's ceiling: none where it is left out, else a list of 1 to 10 identity policies.
pub fn ceiling_in(
    alloc: Global,
    place: &Path<'_>,
    value: Option<&Value>,
) -> Result<PolicyList, ConfigFault>
    ensures { Answers (ceiling_in (path_text place.now) (option_map (λ v. view v.now) value.entry)) result }
{
    let Some(value) = value else {
        return Ok(PolicyList::new(Vec::new(alloc)));
    };
    match some_within(Some(value), MOST_DOCUMENTS) {
        Some(values) => policies_of(alloc, place, values),
        None => refused(alloc, place),
    }
}

fn add<T: Drop>(items: &mut Vec<T>, item: T) -> Result<(), NoMemory>
    ensures { OnOk result (items.new.items ≡ items.old.items ++ item ∷ []) }
{
    items.push(item)?;
    Ok(())
}

fn is_same(one: &Principal, other: &Principal) -> bool
    ensures { result ≡ is_same one.now other.now }
{
    match (one, other) {
        (Principal::Root(account), Principal::Root(owner)) => account == owner,
        (Principal::User(account, name), Principal::User(owner, text)) => {
            account == owner && name == text
        }
        (Principal::Role(account, name), Principal::Role(owner, text)) => {
            account == owner && name == text
        }
        _ => false,
    }
}

// Whether one of them is of this principal.
fn has_principal(identities: &[Identity], principal: &Principal) -> bool
    ensures { result ≡ has_principal identities.now principal.now }
{
    for identity in identities {
        if is_same(&identity.principal, principal) {
            return true;
        }
    }
    false
}

// A user or a role of the account, of whom there are no policies yet.
#[tactic(auto, unfolding(crate::specs::Identities::new_principal))]
fn new_principal(
    alloc: Global,
    account: &AccountNumber,
    before: &[Identity],
    value: &Value,
) -> Result<Option<Principal>, NoMemory>
    ensures { IfOk result (λ principal. principal ≡ new_principal account.now before.now (view value.now)) }
{
    let Some(principal) = principal_at(alloc, account, value)? else {
        return Ok(None);
    };
    match no_root(principal) {
        Some(principal) if !has_principal(before, &principal) => Ok(Some(principal)),
        _ => Ok(None),
    }
}

#[tactic(auto, unfolding(crate::specs::Identities::policies_in))]
fn policies_in(alloc: Global, place: &Path<'_>, value: &Value) -> Result<PolicyList, ConfigFault>
    ensures { Answers (policies_in (path_text place.now) (view value.now)) result }
{
    documents_in(
        alloc,
        &Path::Member(place, "documents"),
        member(value, "documents"),
    )
}

// The policies of an object with these members.
fn identity_of(
    alloc: Global,
    account: &AccountNumber,
    before: &[Identity],
    place: &Path<'_>,
    value: &Value,
    members: &Map<String, Value>,
) -> Result<Identity, ConfigFault>
    ensures { Answers (identity_of account.now before.now (path_text place.now) (view value.now) (members_view members.now.entries)) result }
{
    let Some(principal) = new_principal(alloc, account, before, value)? else {
        return refused(alloc, &Path::Member(place, "principal"));
    };
    let policies = match policies_in(alloc, place, value) {
        Ok(policies) => policies,
        Err(why) => return Err(why),
    };
    if let Some(name) = first_unknown(&NAMES, members) {
        return refused(alloc, &Path::Member(place, name));
    }
    Ok(Identity {
        principal,
        policies,
    })
}

// An item of the list.
fn identity_in(
    alloc: Global,
    account: &AccountNumber,
    before: &[Identity],
    place: &Path<'_>,
    value: &Value,
) -> Result<Identity, ConfigFault>
    ensures { Answers (identity_in account.now before.now (path_text place.now) (view value.now)) result }
{
    match value {
        Value::Object(members) => identity_of(alloc, account, before, place, value, members),
        _ => refused(alloc, place),
    }
}

/// The principals with policies of their own: a list of at most 1,000 objects.
pub fn identities_in(
    alloc: Global,
    account: &AccountNumber,
    place: &Path<'_>,
    value: Option<&Value>,
) -> Result<IdentityList, ConfigFault>
    ensures { Answers (identities_in account.now (path_text place.now) (option_map (λ v. view v.now) value.entry)) result }
{
    let Some(values) = items_within(value, MOST) else {
        return refused(alloc, place);
    };
    let mut identities = Vec::new(alloc);
    for (index, value) in values.iter().enumerate() {
        let item = Path::Item(&*place, index);
        match identity_in(alloc, account, &identities, &item, value) {
            Ok(identity) => add(&mut identities, identity)?,
            Err(why) => return Err(why),
        }
    }
    Ok(IdentityList::new(identities))
}

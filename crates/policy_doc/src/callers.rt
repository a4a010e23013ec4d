// Whom the texts of Principal name.
ghost use Rattle.std.specs.Prelude.{◌≡◌, ◌++◌, IfOk, OnOk, option_map};
ghost use Rattle.std.specs.List.{filter_map};
ghost use Rattle.kms_names.specs.Reading.{principal_of};
ghost use Rattle.serde_json.specs.View.{view, members_view};
ghost use Rattle.policy_doc.specs.Paths.{path_text};
ghost use Rattle.policy_doc.specs.Answers.{Answers, Adds};
ghost use Rattle.policy_doc.specs.Callers.{named_of, kind_form, kind_fault, kind_named, kinds_fault, kinds_named, required_fault, required_named, principal_fault, principal_named};

use crate::faults::{Departure, PolicyFault};
use crate::forms::{Form, account};
use crate::lists::one;
use crate::names::has_members;
use crate::paths::{Path, fault};
use crate::policies::{Named, NamedList, PolicyKind};
use crate::texts::read_texts;
use kms_names::{NameFault, NoMemory, Principal, TextList, read_principal};
use serde_json::{Map, Value};
use std::alloc::Global;

// The principal whose ARN a text is.
fn principal(alloc: Global, text: &str) -> Result<Option<Principal>, NoMemory>
    ensures { IfOk result (λ p. p ≡ principal_of text.now) }
{
    match read_principal(alloc, text) {
        Ok(principal) => Ok(Some(principal)),
        Err(NameFault::NoMemory) => Err(NoMemory),
        Err(NameFault::BadArn | NameFault::BadAlias | NameFault::BadId) => Ok(None),
    }
}

// Whom a text of the member AWS names.
fn named(alloc: Global, text: &str) -> Result<Option<Named>, NoMemory>
    ensures { IfOk result (λ n. n ≡ named_of text.now) }
{
    if text == "*" {
        return Ok(Some(Named::Everyone));
    }
    if let Some(account) = account(text) {
        return Ok(Some(Named::One(Principal::Root(account))));
    }
    Ok(principal(alloc, text)?.map(Named::One))
}

// Adds those whom these texts name.
fn push_named(alloc: Global, names: &mut Vec<Named>, texts: &TextList) -> Result<(), NoMemory>
    ensures { OnOk result (names.new.items ≡ names.old.items ++ filter_map named_of texts.now) }
{
    for text in texts.as_slice() {
        if let Some(named) = named(alloc, text.as_str())? {
            names.push(named)?;
        }
    }
    Ok(())
}

// The form of the texts of a member of Principal.
fn form_of(name: &str) -> Option<Form>
    ensures { result ≡ kind_form name.now }
{
    if name == "AWS" {
        return Some(Form::Caller);
    }
    if name == "Service" || name == "Federated" || name == "CanonicalUser" {
        return Some(Form::Stranger);
    }
    None
}

// Adds those whom a member of Principal names.
fn read_kind(
    alloc: Global,
    names: &mut Vec<Named>,
    path: &Path<'_>,
    form: Option<Form>,
    value: &Value,
) -> Result<(), PolicyFault>
    ensures { Adds (kind_fault form (path_text path.now) (view value.now)) (kind_named form (view value.now)) names.old.items names.new.items result }
{
    let Some(form) = form else {
        return Err(fault(alloc, Departure::BadShape, path));
    };
    let texts = read_texts(alloc, form, path, value)?;
    if let Form::Caller = form {
        push_named(alloc, names, &texts)?;
    }
    Ok(())
}

fn read_kinds<'a>(
    alloc: Global,
    path: &'a Path<'a>,
    map: &'a Map<String, Value>,
) -> Result<NamedList, PolicyFault>
    ensures { Answers (kinds_fault (path_text path.now) (members_view map.now.entries)) (kinds_named (members_view map.now.entries)) result }
{
    let mut names = Vec::new(alloc);
    for (name, value) in map {
        let place = Path::Member(path, name.as_str());
        read_kind(alloc, &mut names, &place, form_of(name.as_str()), value)?;
    }
    Ok(NamedList::new(names))
}

// Those whom the Principal of a key policy's statement names.
fn read_required(
    alloc: Global,
    path: &Path<'_>,
    value: Option<&Value>,
) -> Result<NamedList, PolicyFault>
    ensures { Answers (required_fault (path_text path.now) (option_map (λ v. view v.now) value.entry)) (required_named (option_map (λ v. view v.now) value.entry)) result }
{
    match value {
        Some(Value::String(text)) if text.as_str() == "*" => Ok(NamedList::new(one(
            alloc,
            Named::Everyone,
        )?)),
        Some(Value::Object(map)) if has_members(map) => read_kinds(alloc, path, map),
        None | Some(_) => Err(fault(alloc, Departure::BadShape, path)),
    }
}

/// Those whom a statement's Principal names: it stands in a key policy, and not in an identity policy.
pub fn read_principals(
    alloc: Global,
    kind: PolicyKind,
    path: &Path<'_>,
    value: Option<&Value>,
) -> Result<NamedList, PolicyFault>
    ensures { Answers (principal_fault kind (path_text path.now) (option_map (λ v. view v.now) value.entry)) (principal_named kind (option_map (λ v. view v.now) value.entry)) result }
{
    match kind {
        PolicyKind::Key => read_required(alloc, path, value),
        PolicyKind::Identity if value.is_some() => Err(fault(alloc, Departure::BadShape, path)),
        PolicyKind::Identity => Ok(NamedList::new(Vec::new(alloc))),
    }
}

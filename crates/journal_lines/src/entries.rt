// Entries, from the JSON values of their lines.
ghost use Rattle.std.specs.Prelude.{◌≡◌, IfOk, codes, option_map};
ghost use Rattle.serde_json.specs.Find.{as_str};
ghost use Rattle.serde_json.specs.View.{view};
ghost use Rattle.account_rows.specs.declared.entries.What.TheVariants as what;
ghost use Rattle.journal_lines.specs.Readings.{at, number_in, small_in, kind_in, text_in, tags_in, texts_in, principal_in, operations_in, read_if};
ghost use Rattle.journal_lines.specs.Entries.{key_at, grant_at, name_at, create_key_of, schedule_of, rotation_on_of, text_of_key, tag_of_key, untag_of, alias_put_of, constraint_by, constraint_at, terms_at, grant_add_of, what_of, entry_in};

use crate::readings::{
    alias_in, context_if, grant_in, key_in, kind_in, operations_in, principal_if, principal_in,
    small_in, tags_in, text_at, text_if, texts_in,
};
use account_rows::{Entry, What};
use enc_context::Context;
use grant_table::Constraint;
use hmac_keys::KeyKind;
use kms_names::{AliasName, GrantId, GrantOps, KeyId, NoMemory, Principal, Text, TextList};
use resource_tags::TagList;
use serde_json::Value;
use std::alloc::Global;

fn key_at(value: &Value) -> Option<KeyId>
    ensures { result ≡ key_at (view value.now) }
{
    key_in(value.get("key")?)
}

fn grant_at(value: &Value) -> Option<GrantId>
    ensures { result ≡ grant_at (view value.now) }
{
    grant_in(value.get("grant")?)
}

fn kind_at(value: &Value) -> Option<KeyKind>
    ensures { result ≡ at kind_in (codes "kind") (view value.now) }
{
    kind_in(value.get("kind")?)
}

fn number_at(value: &Value, name: &str) -> Option<u64>
    ensures { result ≡ at number_in name.now (view value.now) }
{
    value.get(name)?.as_u64()
}

fn small_at(value: &Value, name: &str) -> Option<u32>
    ensures { result ≡ at small_in name.now (view value.now) }
{
    small_in(value.get(name)?)
}

fn name_at(alloc: Global, value: &Value) -> Result<Option<AliasName>, NoMemory>
    ensures { IfOk result (λ name. name ≡ name_at (view value.now)) }
{
    match value.get("name") {
        Some(name) => alias_in(alloc, name),
        None => Ok(None),
    }
}

fn tags_at(alloc: Global, value: &Value) -> Result<Option<TagList>, NoMemory>
    ensures { IfOk result (λ tags. tags ≡ at tags_in (codes "tags") (view value.now)) }
{
    match value.get("tags") {
        Some(tags) => tags_in(alloc, tags),
        None => Ok(None),
    }
}

fn names_at(alloc: Global, value: &Value) -> Result<Option<TextList>, NoMemory>
    ensures { IfOk result (λ names. names ≡ at texts_in (codes "names") (view value.now)) }
{
    match value.get("names") {
        Some(names) => texts_in(alloc, names),
        None => Ok(None),
    }
}

fn grantee_at(alloc: Global, value: &Value) -> Result<Option<Principal>, NoMemory>
    ensures { IfOk result (λ grantee. grantee ≡ at principal_in (codes "grantee") (view value.now)) }
{
    match value.get("grantee") {
        Some(grantee) => principal_in(alloc, grantee),
        None => Ok(None),
    }
}

fn operations_at(alloc: Global, value: &Value) -> Result<Option<GrantOps>, NoMemory>
    ensures { IfOk result (λ operations. operations ≡ at operations_in (codes "operations") (view value.now)) }
{
    match value.get("operations") {
        Some(operations) => operations_in(alloc, operations),
        None => Ok(None),
    }
}

fn create_key_of(alloc: Global, value: &Value) -> Result<Option<What>, NoMemory>
    ensures { IfOk result (λ made. made ≡ create_key_of (view value.now)) }
{
    let Some(key) = key_at(value) else {
        return Ok(None);
    };
    let Some(kind) = kind_at(value) else {
        return Ok(None);
    };
    let Some(description) = text_at(alloc, value, "description")? else {
        return Ok(None);
    };
    let Some(policy) = text_at(alloc, value, "policy")? else {
        return Ok(None);
    };
    let Some(tags) = tags_at(alloc, value)? else {
        return Ok(None);
    };
    Ok(Some(What::CreateKey {
        key,
        kind,
        description,
        policy,
        tags,
    }))
}

fn enable_of(value: &Value) -> Option<What>
    ensures { result ≡ option_map what.Enable (key_at (view value.now)) }
{
    Some(What::Enable {
        key: key_at(value)?,
    })
}

fn disable_of(value: &Value) -> Option<What>
    ensures { result ≡ option_map what.Disable (key_at (view value.now)) }
{
    Some(What::Disable {
        key: key_at(value)?,
    })
}

fn schedule_of(value: &Value) -> Option<What>
    ensures { result ≡ schedule_of (view value.now) }
{
    Some(What::Schedule {
        key: key_at(value)?,
        date: number_at(value, "date")?,
        days: small_at(value, "days")?,
    })
}

fn cancel_of(value: &Value) -> Option<What>
    ensures { result ≡ option_map what.Cancel (key_at (view value.now)) }
{
    Some(What::Cancel {
        key: key_at(value)?,
    })
}

fn rotation_on_of(value: &Value) -> Option<What>
    ensures { result ≡ rotation_on_of (view value.now) }
{
    Some(What::RotationOn {
        key: key_at(value)?,
        period: small_at(value, "period")?,
    })
}

fn rotation_off_of(value: &Value) -> Option<What>
    ensures { result ≡ option_map what.RotationOff (key_at (view value.now)) }
{
    Some(What::RotationOff {
        key: key_at(value)?,
    })
}

fn rotate_now_of(value: &Value) -> Option<What>
    ensures { result ≡ option_map what.RotateNow (key_at (view value.now)) }
{
    Some(What::RotateNow {
        key: key_at(value)?,
    })
}

fn policy_of(alloc: Global, value: &Value) -> Result<Option<What>, NoMemory>
    ensures { IfOk result (λ made. made ≡ text_of_key what.Policy (view value.now)) }
{
    let Some(key) = key_at(value) else {
        return Ok(None);
    };
    let Some(text) = text_at(alloc, value, "text")? else {
        return Ok(None);
    };
    Ok(Some(What::Policy { key, text }))
}

fn description_of(alloc: Global, value: &Value) -> Result<Option<What>, NoMemory>
    ensures { IfOk result (λ made. made ≡ text_of_key what.Description (view value.now)) }
{
    let Some(key) = key_at(value) else {
        return Ok(None);
    };
    let Some(text) = text_at(alloc, value, "text")? else {
        return Ok(None);
    };
    Ok(Some(What::Description { key, text }))
}

fn tag_of(alloc: Global, value: &Value) -> Result<Option<What>, NoMemory>
    ensures { IfOk result (λ made. made ≡ tag_of_key (view value.now)) }
{
    let Some(key) = key_at(value) else {
        return Ok(None);
    };
    let Some(tags) = tags_at(alloc, value)? else {
        return Ok(None);
    };
    Ok(Some(What::Tag { key, tags }))
}

fn untag_of(alloc: Global, value: &Value) -> Result<Option<What>, NoMemory>
    ensures { IfOk result (λ made. made ≡ untag_of (view value.now)) }
{
    let Some(key) = key_at(value) else {
        return Ok(None);
    };
    let Some(keys) = names_at(alloc, value)? else {
        return Ok(None);
    };
    Ok(Some(What::Untag { key, keys }))
}

fn alias_put_of(alloc: Global, value: &Value) -> Result<Option<What>, NoMemory>
    ensures { IfOk result (λ made. made ≡ alias_put_of (view value.now)) }
{
    let Some(name) = name_at(alloc, value)? else {
        return Ok(None);
    };
    let Some(key) = key_at(value) else {
        return Ok(None);
    };
    Ok(Some(What::AliasPut { name, key }))
}

fn alias_drop_of(alloc: Global, value: &Value) -> Result<Option<What>, NoMemory>
    ensures { IfOk result (λ made. made ≡ option_map what.AliasDrop (name_at (view value.now))) }
{
    let Some(name) = name_at(alloc, value)? else {
        return Ok(None);
    };
    Ok(Some(What::AliasDrop { name }))
}

// The constraint by what is to be equal and what is to be there.
fn constraint_by(equals: Option<Context>, subset: Option<Context>) -> Option<Constraint>
    ensures { result ≡ constraint_by equals subset }
{
    match (equals, subset) {
        (None, None) => Some(Constraint::Free),
        (Some(pairs), None) => Some(Constraint::Equals(pairs)),
        (None, Some(pairs)) => Some(Constraint::Subset(pairs)),
        (Some(_), Some(_)) => None,
    }
}

fn constraint_at(alloc: Global, value: &Value) -> Result<Option<Constraint>, NoMemory>
    ensures { IfOk result (λ constraint. constraint ≡ constraint_at (view value.now)) }
{
    let Some(equals) = context_if(alloc, value.get("equals"))? else {
        return Ok(None);
    };
    let Some(subset) = context_if(alloc, value.get("subset"))? else {
        return Ok(None);
    };
    Ok(constraint_by(equals, subset))
}

// What a grant may have beside: who retires it, its constraint, and its name.
#[derive(Drop)]
struct Terms {
    retiring: Option<Principal>,
    constraint: Constraint,
    name: Option<Text>,
}

fn terms_at(alloc: Global, value: &Value) -> Result<Option<Terms>, NoMemory>
    ensures { IfOk result (λ terms. option_map (λ t. (t.retiring, t.constraint, t.name)) terms ≡ terms_at (view value.now)) }
{
    let Some(retiring) = principal_if(alloc, value.get("retiring"))? else {
        return Ok(None);
    };
    let Some(constraint) = constraint_at(alloc, value)? else {
        return Ok(None);
    };
    let Some(name) = text_if(alloc, value.get("name"))? else {
        return Ok(None);
    };
    Ok(Some(Terms {
        retiring,
        constraint,
        name,
    }))
}

fn grant_add_of(alloc: Global, value: &Value) -> Result<Option<What>, NoMemory>
    ensures { IfOk result (λ made. made ≡ grant_add_of (view value.now)) }
{
    let Some(grant) = grant_at(value) else {
        return Ok(None);
    };
    let Some(key) = key_at(value) else {
        return Ok(None);
    };
    let Some(grantee) = grantee_at(alloc, value)? else {
        return Ok(None);
    };
    let Some(operations) = operations_at(alloc, value)? else {
        return Ok(None);
    };
    let Some(terms) = terms_at(alloc, value)? else {
        return Ok(None);
    };
    let Terms {
        retiring,
        constraint,
        name,
    } = terms;
    Ok(Some(What::GrantAdd {
        grant,
        key,
        grantee,
        retiring,
        operations,
        constraint,
        name,
    }))
}

fn grant_drop_of(value: &Value) -> Option<What>
    ensures { result ≡ option_map what.GrantDrop (grant_at (view value.now)) }
{
    Some(What::GrantDrop {
        grant: grant_at(value)?,
    })
}

// What was done, by its name.
#[tactic(auto, unfolding(crate::specs::Entries::what_of))]
fn what_of(alloc: Global, name: &str, value: &Value) -> Result<Option<What>, NoMemory>
    ensures { IfOk result (λ made. made ≡ what_of name.now (view value.now)) }
{
    match name {
        "CreateKey" => create_key_of(alloc, value),
        "Enable" => Ok(enable_of(value)),
        "Disable" => Ok(disable_of(value)),
        "Schedule" => Ok(schedule_of(value)),
        "Cancel" => Ok(cancel_of(value)),
        "RotationOn" => Ok(rotation_on_of(value)),
        "RotationOff" => Ok(rotation_off_of(value)),
        "RotateNow" => Ok(rotate_now_of(value)),
        "Policy" => policy_of(alloc, value),
        "Description" => description_of(alloc, value),
        "Tag" => tag_of(alloc, value),
        "Untag" => untag_of(alloc, value),
        "AliasPut" => alias_put_of(alloc, value),
        "AliasDrop" => alias_drop_of(alloc, value),
        "GrantAdd" => grant_add_of(alloc, value),
        "GrantDrop" => Ok(grant_drop_of(value)),
        "House" => Ok(Some(What::House)),
        _ => Ok(None),
    }
}

fn str_at<'a>(value: &'a Value, name: &str) -> Option<&'a str>
    ensures { option_map (λ text. text.now) result ≡ at as_str name.now (view value.now) }
{
    value.get(name)?.as_str()
}

/// What is made of a line's JSON value: an entry, which is still to be written again and compared.
#[tactic(auto, unfolding(crate::specs::Entries::entry_in))]
pub fn entry_in(alloc: Global, value: &Value) -> Result<Option<Entry>, NoMemory>
    ensures { IfOk result (λ entry. entry ≡ entry_in (view value.now)) }
{
    let Some(time) = number_at(value, "time") else {
        return Ok(None);
    };
    let Some(name) = str_at(value, "what") else {
        return Ok(None);
    };
    match what_of(alloc, name, value)? {
        Some(what) => Ok(Some(Entry { time, what })),
        None => Ok(None),
    }
}

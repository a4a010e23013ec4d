// The lines of entries.
ghost use Rattle.std.specs.Prelude.{◌≡◌, IfOk, option_map};
ghost use Rattle.serde_json.specs.Data.{object, put};
ghost use Rattle.serde_json.specs.View.{view, members_view};
ghost use Rattle.account_rows.specs.declared.entries.What.TheVariants as what;
ghost use Rattle.kms_json.specs.Objects.{put_any};
ghost use Rattle.journal_lines.specs.Values.{base64_data, hex_data};
ghost use Rattle.journal_lines.specs.Lines.{stamped, key_alone, key_text, entry_members, entry_line};
ghost use Rattle.journal_lines.specs.Building.{permit_members, with_terms};

use crate::values::{
    base64_value, equals_value, hex_value, kind_name, operations_value, principal_value,
    principal_value_if, subset_value, tags_value, text_value, text_value_if, texts_value,
};
use account_rows::{Entry, What};
use grant_table::Constraint;
use hmac_keys::KeyKind;
use kms_names::{AliasName, Bytes, GrantId, GrantOps, KeyId, NoMemory, Principal, Text, TextList};
use resource_tags::TagList;
use serde_json::{Map, Value};
use std::alloc::Global;

// The members with one more, which goes to its place.
fn with(
    alloc: Global,
    mut members: Map<String, Value>,
    name: &str,
    value: Value,
) -> Result<Map<String, Value>, NoMemory>
    ensures { IfOk result (λ map. members_view map.entries ≡ put name.now (view value) (members_view members.entries)) }
{
    serde_json::put(&mut members, alloc, name, value)?;
    Ok(members)
}

// The members with one more, where there is one.
fn with_if(
    alloc: Global,
    members: Map<String, Value>,
    name: &str,
    value: Option<Value>,
) -> Result<Map<String, Value>, NoMemory>
    ensures { IfOk result (λ map. members_view map.entries ≡ put_any name.now (option_map (λ v. view v) value) (members_view members.entries)) }
{
    match value {
        Some(value) => with(alloc, members, name, value),
        None => Ok(members),
    }
}

// When an entry was made and what it did.
fn stamped(alloc: Global, time: u64, what: &str) -> Result<Map<String, Value>, NoMemory>
    ensures { IfOk result (λ map. members_view map.entries ≡ stamped time what.now) }
{
    let members = with(alloc, Map::new(alloc), "time", Value::from(time))?;
    with(alloc, members, "what", Value::try_from_str(alloc, what)?)
}

fn key_value(alloc: Global, key: &KeyId) -> Result<Value, NoMemory>
    ensures { IfOk result (λ v. view v ≡ hex_data key.now) }
{
    hex_value(alloc, key.as_bytes().as_slice())
}

fn grant_value(alloc: Global, grant: &GrantId) -> Result<Value, NoMemory>
    ensures { IfOk result (λ v. view v ≡ hex_data grant.now) }
{
    hex_value(alloc, grant.as_bytes().as_slice())
}

fn alias_value(alloc: Global, name: &AliasName) -> Result<Value, NoMemory>
    ensures { IfOk result (λ v. view v ≡ base64_data name.now) }
{
    base64_value(alloc, name.as_str().as_bytes())
}

// What was done to a key, and nothing more.
fn key_alone(alloc: Global, time: u64, what: &str, key: &KeyId) -> Result<Value, NoMemory>
    ensures { IfOk result (λ v. view v ≡ object (key_alone time what.now key.now)) }
{
    let line = stamped(alloc, time, what)?;
    Ok(Value::Object(with(alloc, line, "key", key_value(alloc, key)?)?))
}

// Another text of a key.
fn key_text(
    alloc: Global,
    time: u64,
    what: &str,
    key: &KeyId,
    text: &Text,
) -> Result<Value, NoMemory>
    ensures { IfOk result (λ v. view v ≡ object (key_text time what.now key.now text.now)) }
{
    let line = stamped(alloc, time, what)?;
    let line = with(alloc, line, "key", key_value(alloc, key)?)?;
    Ok(Value::Object(with(alloc, line, "text", text_value(alloc, text)?)?))
}

fn create_key(
    alloc: Global,
    time: u64,
    key: &KeyId,
    kind: KeyKind,
    description: &Text,
    policy: &Text,
    tags: &TagList,
) -> Result<Value, NoMemory>
    ensures { IfOk result (λ v. view v ≡ object (entry_members time (what.CreateKey key.now kind description.now policy.now tags.now))) }
{
    let line = stamped(alloc, time, "CreateKey")?;
    let line = with(alloc, line, "description", text_value(alloc, description)?)?;
    let line = with(alloc, line, "key", key_value(alloc, key)?)?;
    let line = with(
        alloc,
        line,
        "kind",
        Value::try_from_str(alloc, kind_name(kind))?,
    )?;
    let line = with(alloc, line, "policy", text_value(alloc, policy)?)?;
    let line = with(alloc, line, "tags", tags_value(alloc, tags.as_slice())?)?;
    Ok(Value::Object(line))
}

fn schedule(alloc: Global, time: u64, key: &KeyId, date: u64, days: u32) -> Result<Value, NoMemory>
    ensures { IfOk result (λ v. view v ≡ object (entry_members time (what.Schedule key.now date days))) }
{
    let line = stamped(alloc, time, "Schedule")?;
    let line = with(alloc, line, "date", Value::from(date))?;
    let line = with(alloc, line, "days", Value::from(days))?;
    Ok(Value::Object(with(alloc, line, "key", key_value(alloc, key)?)?))
}

fn rotation_on(alloc: Global, time: u64, key: &KeyId, period: u32) -> Result<Value, NoMemory>
    ensures { IfOk result (λ v. view v ≡ object (entry_members time (what.RotationOn key.now period))) }
{
    let line = stamped(alloc, time, "RotationOn")?;
    let line = with(alloc, line, "key", key_value(alloc, key)?)?;
    Ok(Value::Object(with(alloc, line, "period", Value::from(period))?))
}

fn tag(alloc: Global, time: u64, key: &KeyId, tags: &TagList) -> Result<Value, NoMemory>
    ensures { IfOk result (λ v. view v ≡ object (entry_members time (what.Tag key.now tags.now))) }
{
    let line = stamped(alloc, time, "Tag")?;
    let line = with(alloc, line, "key", key_value(alloc, key)?)?;
    Ok(Value::Object(with(alloc, line, "tags", tags_value(alloc, tags.as_slice())?)?))
}

fn untag(alloc: Global, time: u64, key: &KeyId, keys: &TextList) -> Result<Value, NoMemory>
    ensures { IfOk result (λ v. view v ≡ object (entry_members time (what.Untag key.now keys.now))) }
{
    let line = stamped(alloc, time, "Untag")?;
    let line = with(alloc, line, "key", key_value(alloc, key)?)?;
    Ok(Value::Object(with(alloc, line, "names", texts_value(alloc, keys.as_slice())?)?))
}

fn alias_put(alloc: Global, time: u64, name: &AliasName, key: &KeyId) -> Result<Value, NoMemory>
    ensures { IfOk result (λ v. view v ≡ object (entry_members time (what.AliasPut name.now key.now))) }
{
    let line = stamped(alloc, time, "AliasPut")?;
    let line = with(alloc, line, "key", key_value(alloc, key)?)?;
    Ok(Value::Object(with(alloc, line, "name", alias_value(alloc, name)?)?))
}

fn alias_drop(alloc: Global, time: u64, name: &AliasName) -> Result<Value, NoMemory>
    ensures { IfOk result (λ v. view v ≡ object (entry_members time (what.AliasDrop name.now))) }
{
    let line = stamped(alloc, time, "AliasDrop")?;
    Ok(Value::Object(with(alloc, line, "name", alias_value(alloc, name)?)?))
}

fn grant_drop(alloc: Global, time: u64, grant: &GrantId) -> Result<Value, NoMemory>
    ensures { IfOk result (λ v. view v ≡ object (entry_members time (what.GrantDrop grant.now))) }
{
    let line = stamped(alloc, time, "GrantDrop")?;
    Ok(Value::Object(with(alloc, line, "grant", grant_value(alloc, grant)?)?))
}

// What every grant has, with the stamp.
fn permit(
    alloc: Global,
    time: u64,
    grant: &GrantId,
    key: &KeyId,
    grantee: &Principal,
    operations: &GrantOps,
) -> Result<Map<String, Value>, NoMemory>
    ensures { IfOk result (λ map. members_view map.entries ≡ permit_members time grant.now key.now grantee.now operations.now) }
{
    let line = stamped(alloc, time, "GrantAdd")?;
    let line = with(
        alloc,
        line,
        "operations",
        operations_value(alloc, operations)?,
    )?;
    let line = with(alloc, line, "key", key_value(alloc, key)?)?;
    let line = with(alloc, line, "grantee", principal_value(alloc, grantee)?)?;
    with(alloc, line, "grant", grant_value(alloc, grant)?)
}

// What a grant may have beside.
fn terms(
    alloc: Global,
    line: Map<String, Value>,
    retiring: &Option<Principal>,
    constraint: &Constraint,
    name: &Option<Text>,
) -> Result<Map<String, Value>, NoMemory>
    ensures { IfOk result (λ map. members_view map.entries ≡ with_terms retiring.now constraint.now name.now (members_view line.entries)) }
{
    let line = with_if(alloc, line, "subset", subset_value(alloc, constraint)?)?;
    let line = with_if(
        alloc,
        line,
        "retiring",
        principal_value_if(alloc, retiring)?,
    )?;
    let line = with_if(alloc, line, "name", text_value_if(alloc, name)?)?;
    with_if(alloc, line, "equals", equals_value(alloc, constraint)?)
}

// What an entry of this time did.
fn what_value(alloc: Global, time: u64, what: &What) -> Result<Value, NoMemory>
    ensures { IfOk result (λ v. view v ≡ object (entry_members time what.now)) }
{
    match what {
        What::CreateKey {
            key,
            kind,
            description,
            policy,
            tags,
        } => create_key(alloc, time, key, *kind, description, policy, tags),
        What::Enable { key } => key_alone(alloc, time, "Enable", key),
        What::Disable { key } => key_alone(alloc, time, "Disable", key),
        What::Schedule { key, date, days } => schedule(alloc, time, key, *date, *days),
        What::Cancel { key } => key_alone(alloc, time, "Cancel", key),
        What::RotationOn { key, period } => rotation_on(alloc, time, key, *period),
        What::RotationOff { key } => key_alone(alloc, time, "RotationOff", key),
        What::RotateNow { key } => key_alone(alloc, time, "RotateNow", key),
        What::Policy { key, text } => key_text(alloc, time, "Policy", key, text),
        What::Description { key, text } => key_text(alloc, time, "Description", key, text),
        What::Tag { key, tags } => tag(alloc, time, key, tags),
        What::Untag { key, keys } => untag(alloc, time, key, keys),
        What::AliasPut { name, key } => alias_put(alloc, time, name, key),
        What::AliasDrop { name } => alias_drop(alloc, time, name),
        What::GrantAdd {
            grant,
            key,
            grantee,
            retiring,
            operations,
            constraint,
            name,
        } => {
            let line = permit(alloc, time, grant, key, grantee, operations)?;
            Ok(Value::Object(terms(alloc, line, retiring, constraint, name)?))
        }
        What::GrantDrop { grant } => grant_drop(alloc, time, grant),
        What::House => Ok(Value::Object(stamped(alloc, time, "House")?)),
    }
}

/// The line of an entry: the compact text of a JSON object (RFC 8259), with its members in byte
/// order of their names, and a line feed.
pub fn entry_line(alloc: Global, entry: &Entry) -> Result<Bytes, NoMemory>
    ensures { IfOk result (λ line. line ≡ entry_line entry.now) }
{
    let value = what_value(alloc, entry.time, &entry.what)?;
    let mut text = value.to_vec(alloc)?;
    text.push(b'\n')?;
    Ok(Bytes::new(text))
}

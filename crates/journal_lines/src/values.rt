// The JSON values of what an entry holds.
ghost use Rattle.std.specs.Prelude.{◌≡◌, filter, IfOk, option_map};
ghost use Rattle.serde_json.specs.Data.{string};
ghost use Rattle.serde_json.specs.View.{view};
ghost use Rattle.kms_names.specs.GrantOps.{contains, grant_op_name};
ghost use Rattle.kms_json.specs.Objects.{list_data};
ghost use Rattle.kms_json.specs.GrantReplies.{operations_data};
ghost use Rattle.journal_lines.specs.Values.{base64_data, hex_data, principal_data, context_data, kind_name, tag_data, tags_data, texts_data, equals_data, subset_data};

use base64::engine::general_purpose::STANDARD;
use enc_context::Context;
use grant_table::Constraint;
use hmac_keys::KeyKind;
use kms_names::{GrantOp, GrantOps, NoMemory, Principal, Text, write_principal};
use resource_tags::Tag;
use serde_json::{Value, json};
use std::alloc::Global;

/// Bytes, as the text of their base64 (RFC 4648, section 4).
#[tactic(auto, unfolding(kms_json::specs::Objects::base64_text))]
pub fn base64_value(alloc: Global, bytes: &[u8]) -> Result<Value, NoMemory>
    ensures { IfOk result (λ v. view v ≡ base64_data bytes.now) }
{
    Ok(Value::String(STANDARD.encode(alloc, bytes)?))
}

/// An id, as its lower-case hex digits (RFC 4648, section 8).
pub fn hex_value(alloc: Global, bytes: &[u8]) -> Result<Value, NoMemory>
    ensures { IfOk result (λ v. view v ≡ hex_data bytes.now) }
{
    match hex::encode(alloc, bytes) {
        Ok(text) => Ok(Value::String(text)),
        Err(_) => Err(NoMemory),
    }
}

/// A text, as that of its bytes' base64.
pub fn text_value(alloc: Global, text: &Text) -> Result<Value, NoMemory>
    ensures { IfOk result (λ v. view v ≡ base64_data text.now) }
{
    base64_value(alloc, text.as_str().as_bytes())
}

/// A text, where there is one.
pub fn text_value_if(alloc: Global, text: &Option<Text>) -> Result<Option<Value>, NoMemory>
    ensures { IfOk result (λ value. option_map (λ v. view v) value ≡ option_map base64_data text.now) }
{
    match text {
        Some(text) => Ok(Some(text_value(alloc, text)?)),
        None => Ok(None),
    }
}

/// A principal, as its ARN.
pub fn principal_value(alloc: Global, principal: &Principal) -> Result<Value, NoMemory>
    ensures { IfOk result (λ v. view v ≡ principal_data principal.now) }
{
    let arn = write_principal(alloc, principal)?;
    text_value(alloc, &arn)
}

/// A principal, where there is one.
pub fn principal_value_if(
    alloc: Global,
    principal: &Option<Principal>,
) -> Result<Option<Value>, NoMemory>
    ensures { IfOk result (λ value. option_map (λ v. view v) value ≡ option_map principal_data principal.now) }
{
    match principal {
        Some(principal) => Ok(Some(principal_value(alloc, principal)?)),
        None => Ok(None),
    }
}

// A context, as its encoding.
fn context_value(alloc: Global, context: &Context) -> Result<Value, NoMemory>
    ensures { IfOk result (λ v. view v ≡ context_data context.now) }
{
    let mut bytes = Vec::new(alloc);
    context.encode_into(&mut bytes)?;
    base64_value(alloc, bytes.as_slice())
}

/// What a grant asks a context to equal, where it does.
pub fn equals_value(alloc: Global, constraint: &Constraint) -> Result<Option<Value>, NoMemory>
    ensures { IfOk result (λ value. option_map (λ v. view v) value ≡ equals_data constraint.now) }
{
    match constraint {
        Constraint::Equals(pairs) => Ok(Some(context_value(alloc, pairs)?)),
        Constraint::Free | Constraint::Subset(_) => Ok(None),
    }
}

/// What a grant asks a context to have, where it does.
pub fn subset_value(alloc: Global, constraint: &Constraint) -> Result<Option<Value>, NoMemory>
    ensures { IfOk result (λ value. option_map (λ v. view v) value ≡ subset_data constraint.now) }
{
    match constraint {
        Constraint::Subset(pairs) => Ok(Some(context_value(alloc, pairs)?)),
        Constraint::Free | Constraint::Equals(_) => Ok(None),
    }
}

/// The name of a kind of key.
pub fn kind_name(kind: KeyKind) -> &'static str
    ensures { result.now ≡ kind_name kind }
{
    match kind {
        KeyKind::Symmetric => "symmetric",
        KeyKind::Hmac256 => "hmac256",
    }
}

fn tag_value(alloc: Global, tag: &Tag) -> Result<Value, NoMemory>
    ensures { IfOk result (λ v. view v ≡ tag_data tag.now) }
{
    let key = text_value(alloc, &tag.key)?;
    let value = text_value(alloc, &tag.value)?;
    Ok(json!(in alloc; {"key": key, "value": value})?)
}

/// Tags in order.
pub fn tags_value(alloc: Global, tags: &[Tag]) -> Result<Value, NoMemory>
    ensures { IfOk result (λ v. view v ≡ tags_data tags.now) }
{
    let mut values = Vec::new(alloc);
    for tag in tags {
        values.push(tag_value(alloc, tag)?)?;
    }
    Ok(Value::Array(values))
}

/// Texts in order.
pub fn texts_value(alloc: Global, texts: &[Text]) -> Result<Value, NoMemory>
    ensures { IfOk result (λ v. view v ≡ texts_data texts.now) }
{
    let mut values = Vec::new(alloc);
    for text in texts {
        values.push(text_value(alloc, text)?)?;
    }
    Ok(Value::Array(values))
}

// The names of those of these operations that are in a set.
fn names_in(alloc: Global, operations: &GrantOps, all: &[GrantOp]) -> Result<Value, NoMemory>
    ensures { IfOk result (λ v. view v ≡ list_data (λ op. string (grant_op_name op)) (filter (contains operations.now) all.now)) }
{
    let mut names = Vec::new(alloc);
    for op in all {
        if operations.contains(*op) {
            names.push(Value::try_from_str(alloc, op.name())?)?;
        }
    }
    Ok(Value::Array(names))
}

/// The names of a set of operations, in their order.
pub fn operations_value(alloc: Global, operations: &GrantOps) -> Result<Value, NoMemory>
    ensures { IfOk result (λ v. view v ≡ operations_data operations.now) }
{
    names_in(alloc, operations, &GrantOp::ALL)
}

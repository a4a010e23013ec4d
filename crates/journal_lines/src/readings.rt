// What the values of a line's object hold.
ghost use Rattle.std.specs.Prelude.{◌≡◌, ◌<◌, length, IfOk, option_map, option_and_then};
ghost use Rattle.base64.specs.Engines.{standard};
ghost use Rattle.base64.specs.GeneralPurpose.{decoded_of};
ghost use Rattle.serde_json.specs.Find.{as_array};
ghost use Rattle.serde_json.specs.View.{view, items_view};
ghost use Rattle.kms_names.specs.Reading.{alias_of, principal_of};
ghost use Rattle.kms_json.specs.Fields.{texts_in_items};
ghost use Rattle.std.specs.Result.{result_ok};
ghost use Rattle.journal_lines.specs.Readings.{text_of, bytes_in, text_in, id_in, small_in, alias_in, principal_in, kind_named, kind_in, read_if, tag_in, tags_of, tags_in, texts_of, texts_in, operations_in, context_in, at};

use crate::contexts::{context_of, text_in_utf8};
use base64::DecodeAllocError;
use base64::engine::general_purpose::STANDARD;
use enc_context::Context;
use hex::FromHex;
use hmac_keys::KeyKind;
use kms_names::{
    AliasName, Bytes, GrantId, GrantOps, KeyId, NameFault, NoMemory, Principal, Text, TextList,
    read_alias, read_principal,
};
use resource_tags::{Tag, TagList};
use serde_json::Value;
use std::alloc::Global;

// The bytes of a base64 text.
fn decoded(alloc: Global, text: &str) -> Result<Option<Bytes>, NoMemory>
    ensures { IfOk result (λ b. b ≡ decoded_of standard text.now) }
{
    match STANDARD.decode(alloc, text.as_bytes()) {
        Ok(bytes) => Ok(Some(Bytes::new(bytes))),
        Err(DecodeAllocError::OutOfMemory) => Err(NoMemory),
        Err(DecodeAllocError::DecodeError(_)) => Ok(None),
    }
}

fn bytes_in(alloc: Global, value: &Value) -> Result<Option<Bytes>, NoMemory>
    ensures { IfOk result (λ b. b ≡ bytes_in (view value.now)) }
{
    match value {
        Value::String(text) => decoded(alloc, text.as_str()),
        _ => Ok(None),
    }
}

// Bytes that are UTF-8.
fn text_of(alloc: Global, bytes: &Bytes) -> Result<Option<Text>, NoMemory>
    ensures { IfOk result (λ t. t ≡ text_of bytes.now) }
{
    match text_in_utf8(bytes.as_slice()) {
        Some(text) => Ok(Some(Text::from_str(alloc, text)?)),
        None => Ok(None),
    }
}

/// A text in base64.
pub fn text_in(alloc: Global, value: &Value) -> Result<Option<Text>, NoMemory>
    ensures { IfOk result (λ t. t ≡ text_in (view value.now)) }
{
    match bytes_in(alloc, value)? {
        Some(bytes) => text_of(alloc, &bytes),
        None => Ok(None),
    }
}

/// A text in base64, where the member is there.
pub fn text_if(alloc: Global, value: Option<&Value>) -> Result<Option<Option<Text>>, NoMemory>
    ensures { IfOk result (λ t. t ≡ read_if text_in (option_map (λ v. view v.now) value.entry)) }
{
    match value {
        Some(value) => Ok(text_in(alloc, value)?.map(Some)),
        None => Ok(Some(None)),
    }
}

/// The id of a key in hex.
pub fn key_in(value: &Value) -> Option<KeyId>
    ensures { result ≡ id_in 16 (view value.now) }
{
    let id = <[u8; 16] as FromHex>::from_hex(value.as_str()?).ok()?;
    Some(KeyId::new(id))
}

/// The id of a grant in hex.
pub fn grant_in(value: &Value) -> Option<GrantId>
    ensures { result ≡ id_in 32 (view value.now) }
{
    let id = <[u8; 32] as FromHex>::from_hex(value.as_str()?).ok()?;
    Some(GrantId::new(id))
}

/// A number of 32 bits.
pub fn small_in(value: &Value) -> Option<u32>
    ensures { result ≡ small_in (view value.now) }
{
    u32::try_from(value.as_u64()?).ok()
}

fn alias_of(alloc: Global, name: &str) -> Result<Option<AliasName>, NoMemory>
    ensures { IfOk result (λ a. a ≡ result_ok (alias_of name.now)) }
{
    match read_alias(alloc, name) {
        Ok(name) => Ok(Some(name)),
        Err(NameFault::NoMemory) => Err(NoMemory),
        Err(NameFault::BadAlias) => Ok(None),
        Err(NameFault::BadArn | NameFault::BadId) => Ok(None),
    }
}

/// The name of an alias in base64.
pub fn alias_in(alloc: Global, value: &Value) -> Result<Option<AliasName>, NoMemory>
    ensures { IfOk result (λ a. a ≡ alias_in (view value.now)) }
{
    match text_in(alloc, value)? {
        Some(name) => alias_of(alloc, name.as_str()),
        None => Ok(None),
    }
}

fn principal_of(alloc: Global, arn: &str) -> Result<Option<Principal>, NoMemory>
    ensures { IfOk result (λ p. p ≡ principal_of arn.now) }
{
    match read_principal(alloc, arn) {
        Ok(principal) => Ok(Some(principal)),
        Err(NameFault::NoMemory) => Err(NoMemory),
        Err(NameFault::BadArn) => Ok(None),
        Err(NameFault::BadAlias | NameFault::BadId) => Ok(None),
    }
}

/// A principal, by its ARN in base64.
pub fn principal_in(alloc: Global, value: &Value) -> Result<Option<Principal>, NoMemory>
    ensures { IfOk result (λ p. p ≡ principal_in (view value.now)) }
{
    match text_in(alloc, value)? {
        Some(arn) => principal_of(alloc, arn.as_str()),
        None => Ok(None),
    }
}

/// A principal, where the member is there.
pub fn principal_if(
    alloc: Global,
    value: Option<&Value>,
) -> Result<Option<Option<Principal>>, NoMemory>
    ensures { IfOk result (λ p. p ≡ read_if principal_in (option_map (λ v. view v.now) value.entry)) }
{
    match value {
        Some(value) => Ok(principal_in(alloc, value)?.map(Some)),
        None => Ok(Some(None)),
    }
}

fn kind_named(name: &str) -> Option<KeyKind>
    ensures { result ≡ kind_named name.now }
{
    match name {
        "symmetric" => Some(KeyKind::Symmetric),
        "hmac256" => Some(KeyKind::Hmac256),
        _ => None,
    }
}

/// The kind of a key.
pub fn kind_in(value: &Value) -> Option<KeyKind>
    ensures { result ≡ kind_in (view value.now) }
{
    kind_named(value.as_str()?)
}

/// A text in base64 that a member holds.
pub fn text_at(alloc: Global, value: &Value, name: &str) -> Result<Option<Text>, NoMemory>
    ensures { IfOk result (λ t. t ≡ at text_in name.now (view value.now)) }
{
    match value.get(name) {
        Some(value) => text_in(alloc, value),
        None => Ok(None),
    }
}

fn tag_in(alloc: Global, value: &Value) -> Result<Option<Tag>, NoMemory>
    ensures { IfOk result (λ tag. tag ≡ tag_in (view value.now)) }
{
    let Some(key) = text_at(alloc, value, "key")? else {
        return Ok(None);
    };
    let Some(value) = text_at(alloc, value, "value")? else {
        return Ok(None);
    };
    Ok(Some(Tag { key, value }))
}

fn array_in(value: &Value) -> Option<&[Value]>
    ensures { option_map (λ values. items_view values.now) result ≡ as_array (view value.now) }
{
    match value {
        Value::Array(values) => Some(values.as_slice()),
        _ => None,
    }
}

fn tags_of(alloc: Global, items: &[Value]) -> Result<Option<TagList>, NoMemory>
    ensures { IfOk result (λ tags. tags ≡ tags_of (items_view items.now)) }
{
    let mut tags = Vec::new(alloc);
    for item in items {
        match tag_in(alloc, item)? {
            Some(tag) => tags.push(tag)?,
            None => return Ok(None),
        }
    }
    Ok(Some(TagList::new(tags)))
}

/// A list of tags.
pub fn tags_in(alloc: Global, value: &Value) -> Result<Option<TagList>, NoMemory>
    ensures { IfOk result (λ tags. tags ≡ tags_in (view value.now)) }
{
    match array_in(value) {
        Some(items) => tags_of(alloc, items),
        None => Ok(None),
    }
}

fn texts_of(alloc: Global, items: &[Value]) -> Result<Option<TextList>, NoMemory>
    ensures { IfOk result (λ texts. texts ≡ texts_of (items_view items.now)) }
{
    let mut texts = Vec::new(alloc);
    for item in items {
        match text_in(alloc, item)? {
            Some(text) => texts.push(text)?,
            None => return Ok(None),
        }
    }
    Ok(Some(TextList::new(texts)))
}

/// A list of texts in base64.
pub fn texts_in(alloc: Global, value: &Value) -> Result<Option<TextList>, NoMemory>
    ensures { IfOk result (λ texts. texts ≡ texts_in (view value.now)) }
{
    match array_in(value) {
        Some(items) => texts_of(alloc, items),
        None => Ok(None),
    }
}

// The items of a list, if all are texts.
fn names_of(alloc: Global, items: &[Value]) -> Result<Option<TextList>, NoMemory>
    ensures { IfOk result (λ names. names ≡ texts_in_items (items_view items.now)) }
{
    let mut names = Vec::new(alloc);
    for item in items {
        let Some(name) = item.as_str() else {
            return Ok(None);
        };
        names.push(Text::from_str(alloc, name)?)?;
    }
    Ok(Some(TextList::new(names)))
}

/// The set of the operations that a list names.
pub fn operations_in(alloc: Global, value: &Value) -> Result<Option<GrantOps>, NoMemory>
    ensures { IfOk result (λ ops. ops ≡ operations_in (view value.now)) }
{
    let Some(items) = array_in(value) else {
        return Ok(None);
    };
    match names_of(alloc, items)? {
        Some(names) => Ok(Some(GrantOps::named(names.as_slice()))),
        None => Ok(None),
    }
}

fn context_in(alloc: Global, value: &Value) -> Result<Option<Context>, NoMemory>
    ensures { IfOk result (λ context. context ≡ context_in (view value.now)) }
{
    match bytes_in(alloc, value)? {
        Some(bytes) => context_of(alloc, bytes.as_slice()),
        None => Ok(None),
    }
}

/// A context, by its encoding in base64, where the member is there.
pub fn context_if(alloc: Global, value: Option<&Value>) -> Result<Option<Option<Context>>, NoMemory>
    ensures { IfOk result (λ context. context ≡ read_if context_in (option_map (λ v. view v.now) value.entry)) }
{
    match value {
        Some(value) => Ok(context_in(alloc, value)?.map(Some)),
        None => Ok(Some(None)),
    }
}

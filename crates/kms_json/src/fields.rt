// Fields of a request's body, read in their order and then judged in it.
ghost use Rattle.std.specs.Prelude.{◌≡◌, map, length, IfOk, option_map};
ghost use Rattle.std.specs.List.{list_all};
ghost use Rattle.std.specs.Str.{chars};
ghost use Rattle.serde_json.specs.View.{view};
ghost use Rattle.kms_names.specs.Reading.{is_alias_text};
ghost use Rattle.kms_json.specs.Fields.{row_of, wanted_by, fits, may_be_absent, may_be_given, is_valid, values_of, first_invalid, refused_by, refusal_at, is_policy_name, is_data_key_spec, is_grant_name_character, is_grant_name, is_operation_name, are_operation_names, is_tag_key, is_tag, are_tags, are_tag_keys, is_some_between};

use crate::given::Given;
use crate::members::{is_given, value_given};
use kms_names::{GrantOp, NoMemory, Text, is_alias_name};
use resource_tags::{MOST_TAGS, Tag};
use serde_json::Value;
use std::alloc::Global;
use std::collections::VecDeque;

/// What the value of a field may be.
#[derive(Clone, Copy)]
pub enum Kind {
    /// A text of so many bytes of UTF-8.
    Text { least: usize, most: usize },
    /// A text of one byte or more.
    SomeText,
    /// A text of any size.
    AnyText,
    /// An alias name.
    AliasName,
    /// The name of a key's policy.
    PolicyName,
    /// The name of a data key's spec.
    DataKeySpec,
    /// The name of a grant.
    GrantName,
    /// A list of at most so many texts.
    Texts { most: usize },
    /// A list of the names of one grant operation or more.
    GrantOperations,
    /// So many bytes, as the text of their base64.
    Bytes { least: usize, most: usize },
    /// Texts by texts, of at most 8,192 encoded bytes.
    Context,
    /// The constraint of a grant: at most one context, of at most 4,096 encoded bytes.
    GrantConstraint,
    /// A list of at most 50 tags, each a key of 1 to 128 characters and a value of at most 256.
    Tags,
    /// A list of 1 to 50 keys of tags.
    TagKeys,
    /// A whole number from the least to the most.
    Whole { least: u64, most: u64 },
    /// A truth value.
    Flag,
    /// An object.
    Object,
}

/// Whether a field is to be given.
#[derive(Clone, Copy)]
pub enum Presence {
    /// It is.
    Required,
    /// It may be.
    Optional,
    /// Exactly one of it and the field of this other name is.
    InsteadOf(&'static str),
    /// It is exactly where neither field of these other names is; where it isn't, both are.
    InsteadOfBoth(&'static str, &'static str),
}

/// A field of a request's body: its name, what its value may be, and whether it is to be given.
#[derive(Clone, Copy)]
pub struct Field(pub &'static str, pub Kind, pub Presence);

/// Why a field isn't valid.
#[derive(Clone, Copy, Debug)]
pub enum FieldFault {
    /// The field of this name isn't valid.
    Field(&'static str),
    /// The alias name isn't one.
    AliasName,
}

fn is_alias(name: &str) -> bool
    ensures { result ≡ is_alias_text name.now }
{
    is_alias_name(name)
}

fn is_default(name: &str) -> bool
    ensures { result ≡ is_policy_name name.now }
{
    name == "default"
}

fn is_spec(name: &str) -> bool
    ensures { result ≡ is_data_key_spec name.now }
{
    name == "AES_256" || name == "AES_128"
}

fn is_grant_name_byte(byte: u8) -> bool
    ensures { result ≡ is_grant_name_character byte }
{
    byte.is_ascii_alphanumeric() || b":/_-".contains(&byte)
}

fn has_grant_name_bytes(name: &str) -> bool
    ensures { result ≡ list_all is_grant_name_character name.now }
{
    name.bytes().all(is_grant_name_byte)
}

/// Whether a text may name a grant: 1 to 256 letters, digits and `:/_-` (AWS KMS API Reference, CreateGrant). It takes no memory.
pub fn is_grant_name(name: &str) -> bool
    ensures { result ≡ is_grant_name name.now }
{
    !name.is_empty() && name.len() <= 256 && has_grant_name_bytes(name)
}

fn is_operation(name: &str) -> bool
    ensures { result ≡ is_operation_name name.now }
{
    GrantOp::ALL.iter().any(|op| name == op.name())
}

fn are_all_operations(names: &[Text]) -> bool
    ensures { result ≡ list_all is_operation_name names.now }
{
    names.iter().all(|name| is_operation(name.as_str()))
}

fn are_operations(names: &[Text]) -> bool
    ensures { result ≡ are_operation_names names.now }
{
    !names.is_empty() && are_all_operations(names)
}

// How many characters a text has.
fn character_count(text: &str) -> usize
    ensures { result ≡ length (chars text.now) }
{
    text.chars().count()
}

fn is_tag_key(key: &str) -> bool
    ensures { result ≡ is_tag_key key.now }
{
    let count = character_count(key);
    1 <= count && count <= 128
}

fn is_tag(tag: &Tag) -> bool
    ensures { result ≡ is_tag tag.now }
{
    is_tag_key(tag.key.as_str()) && character_count(tag.value.as_str()) <= 256
}

fn are_all_tags(tags: &[Tag]) -> bool
    ensures { result ≡ list_all is_tag tags.now }
{
    tags.iter().all(is_tag)
}

/// Whether a request may give these tags: at most 50, each with a key of 1 to 128 characters and a value of at most 256 (AWS KMS API
/// Reference, Tag). It takes no memory.
pub fn are_tags(tags: Option<&[Tag]>) -> bool
    ensures { result ≡ are_tags (option_map (λ t. t.now) tags.entry) }
{
    match tags {
        Some(tags) => tags.len() <= MOST_TAGS && are_all_tags(tags),
        None => false,
    }
}

fn are_all_tag_keys(keys: &[Text]) -> bool
    ensures { result ≡ list_all is_tag_key keys.now }
{
    keys.iter().all(|key| is_tag_key(key.as_str()))
}

/// Whether a request may take the tags of these keys: 1 to 50, each of 1 to 128 characters (AWS KMS API Reference, UntagResource). It
/// takes no memory.
pub fn are_tag_keys(keys: &[Text]) -> bool
    ensures { result ≡ are_tag_keys keys.now }
{
    1 <= keys.len() && keys.len() <= MOST_TAGS && are_all_tag_keys(keys)
}

fn number_between(least: u64, most: u64, number: Option<u64>) -> bool
    ensures { result ≡ is_some_between least most number }
{
    match number {
        Some(n) => least <= n && n <= most,
        None => false,
    }
}

// Whether a value that is given keeps to its kind's bounds.
fn fits(kind: Kind, value: &Given) -> bool
    ensures { result ≡ fits kind value.now }
{
    match kind {
        Kind::Text { least, most } => {
            let size = value.text().len();
            least <= size && size <= most
        }
        Kind::Bytes { least, most } => {
            let size = value.bytes().len();
            least <= size && size <= most
        }
        Kind::Whole { least, most } => number_between(least, most, value.whole()),
        Kind::Context => value.has_context(),
        Kind::SomeText => !value.text().is_empty(),
        Kind::AliasName => is_alias(value.text()),
        Kind::PolicyName => is_default(value.text()),
        Kind::DataKeySpec => is_spec(value.text()),
        Kind::GrantName => is_grant_name(value.text()),
        Kind::Texts { most } => value.texts().len() <= most,
        Kind::GrantOperations => are_operations(value.texts()),
        Kind::GrantConstraint => value.has_constraint(),
        Kind::Tags => are_tags(value.tags()),
        Kind::TagKeys => are_tag_keys(value.texts()),
        Kind::AnyText | Kind::Flag | Kind::Object => true,
    }
}

fn may_be_absent(presence: Presence, body: &Value) -> bool
    ensures { result ≡ may_be_absent (wanted_by presence) (view body.now) }
{
    match presence {
        Presence::Required => false,
        Presence::Optional => true,
        Presence::InsteadOf(other) => is_given(body.get(other)),
        Presence::InsteadOfBoth(one, two) => is_given(body.get(one)) && is_given(body.get(two)),
    }
}

fn may_be_given(presence: Presence, body: &Value) -> bool
    ensures { result ≡ may_be_given (wanted_by presence) (view body.now) }
{
    match presence {
        Presence::Required | Presence::Optional => true,
        Presence::InsteadOf(other) => !is_given(body.get(other)),
        Presence::InsteadOfBoth(one, two) => !is_given(body.get(one)) && !is_given(body.get(two)),
    }
}

fn valid(field: &Field, body: &Value, value: &Given) -> bool
    ensures { result ≡ is_valid (row_of field.now) (view body.now) value.now }
{
    if value.is_absent() {
        may_be_absent(field.2, body)
    } else {
        may_be_given(field.2, body) && fits(field.1, value)
    }
}

// Why a field isn't valid that has this value.
fn fault_of(field: &Field, value: &Given) -> FieldFault
    ensures { refused_by result ≡ refusal_at (row_of field.now) value.now }
{
    match field.1 {
        Kind::AliasName if value.is_there() => FieldFault::AliasName,
        _ => FieldFault::Field(field.0),
    }
}

/// The values of the fields in their order, or none where a member has another type than its field.
pub fn read_values(
    alloc: Global,
    fields: &[Field],
    body: &Value,
) -> Result<Option<VecDeque<Given>>, NoMemory>
    ensures { IfOk result (λ values. option_map (λ v. v.items) values ≡ values_of (map row_of fields.now) (view body.now)) }
{
    let mut values = VecDeque::new(alloc);
    for field in fields {
        match value_given(alloc, field.1, body.get(field.0))? {
            Some(value) => values.push_back(value)?,
            None => return Ok(None),
        }
    }
    Ok(Some(values))
}

/// Why the first field isn't valid whose value isn't.
pub fn first_fault(fields: &[Field], body: &Value, values: &VecDeque<Given>) -> Option<FieldFault>
    requires { length values.now.items ≡ length fields.now }
    ensures { option_map refused_by result ≡ first_invalid (map row_of fields.now) (view body.now) values.now.items }
{
    for (i, field) in fields.iter().enumerate() {
        let value = &values[i];
        if !valid(field, body, value) {
            return Some(fault_of(field, value));
        }
    }
    None
}

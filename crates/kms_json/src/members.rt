// A member of a body, read once, as what it is to its field.
ghost use Rattle.std.specs.Prelude.{◌≡◌, IfOk, IfSome, option_map};
ghost use Rattle.serde_json.specs.View.{view, items_view, members_view};
ghost use Rattle.base64.specs.Engines.{standard};
ghost use Rattle.base64.specs.GeneralPurpose.{decoded_of};
ghost use Rattle.enc_context.specs.Pairs.{IsInOrder};
ghost use Rattle.kms_json.specs.declared.fields.Kind.TheVariants as kind;
ghost use Rattle.kms_json.specs.Fields.{is_given, context_of, value_of, value_given, pairs_of, texts_in_items};

use crate::constraints::constraint_of;
use crate::fields::Kind;
use crate::given::Given;
use crate::tags::tags_of;
use base64::DecodeAllocError;
use base64::engine::general_purpose::STANDARD;
use enc_context::{Context, ContextFault, Pair};
use kms_names::{Bytes, NoMemory, Text, TextList};
use serde_json::{Map, Value};
use std::alloc::Global;

/// Whether a member is there and isn't null.
pub fn is_given(member: Option<&Value>) -> bool
    ensures { result ≡ is_given (option_map (λ v. view v.now) member.entry) }
{
    match member {
        None | Some(Value::Null) => false,
        Some(_) => true,
    }
}

fn text_of(alloc: Global, value: &Value) -> Result<Option<Given>, NoMemory>
    ensures { IfOk result (λ g. g ≡ value_of kind.AnyText (view value.now)) }
{
    match value {
        Value::String(text) => Ok(Some(Given::Text(Text::from_str(alloc, text.as_str())?))),
        _ => Ok(None),
    }
}

// The bytes of a base64 text.
fn decoded(alloc: Global, text: &str) -> Result<Option<Bytes>, NoMemory>
    ensures { IfOk result (λ b. b ≡ decoded_of standard text.now) }
{
    match STANDARD.decode(alloc, text.as_bytes()) {
        Ok(bytes) => Ok(Some(Bytes::new(bytes))),
        Err(DecodeAllocError::OutOfMemory) => Err(NoMemory),
        Err(DecodeAllocError::DecodeError(_)) => Ok(None),
    }
}

fn bytes_of(alloc: Global, value: &Value) -> Result<Option<Given>, NoMemory>
    ensures { IfOk result (λ g. g ≡ value_of (kind.Bytes 0 0) (view value.now)) }
{
    match value {
        Value::String(text) => Ok(decoded(alloc, text.as_str())?.map(Given::Bytes)),
        _ => Ok(None),
    }
}

// The members as pairs of a context, if all are texts.
fn pairs_of(alloc: Global, members: &Map<String, Value>) -> Result<Option<Vec<Pair>>, NoMemory>
    ensures pairs { IfOk result (λ pairs. option_map (λ p. p.items) pairs ≡ pairs_of (members_view members.now.entries)) }
    ensures order { IfOk result (λ pairs. IfSome pairs (λ p. IsInOrder p.items)) }
{
    let mut pairs = Vec::new(alloc);
    for (name, value) in members {
        let Some(text) = value.as_str() else {
            return Ok(None);
        };
        pairs.push(Pair {
            key: Text::from_str(alloc, name.as_str())?,
            value: Text::from_str(alloc, text)?,
        })?;
    }
    Ok(Some(pairs))
}

/// A context that isn't null, if all of its members are texts.
pub fn context_of(alloc: Global, value: &Value) -> Result<Option<Given>, NoMemory>
    ensures { IfOk result (λ g. g ≡ context_of (view value.now)) }
{
    let Some(members) = value.as_object() else {
        return Ok(None);
    };
    let Some(pairs) = pairs_of(alloc, members)? else {
        return Ok(None);
    };
    match Context::from_pairs(alloc, pairs) {
        Ok(context) => Ok(Some(Given::Context(Some(context)))),
        Err(ContextFault::TooLong) => Ok(Some(Given::Context(None))),
        Err(ContextFault::NoMemory) => Err(NoMemory),
    }
}

// The items of a list, if all are texts.
fn texts_in(alloc: Global, items: &[Value]) -> Result<Option<TextList>, NoMemory>
    ensures { IfOk result (λ texts. texts ≡ texts_in_items (items_view items.now)) }
{
    let mut texts = Vec::new(alloc);
    for item in items {
        let Some(text) = item.as_str() else {
            return Ok(None);
        };
        texts.push(Text::from_str(alloc, text)?)?;
    }
    Ok(Some(TextList::new(texts)))
}

fn texts_of(alloc: Global, value: &Value) -> Result<Option<Given>, NoMemory>
    ensures { IfOk result (λ g. g ≡ value_of kind.GrantOperations (view value.now)) }
{
    match value.as_array() {
        Some(items) => Ok(texts_in(alloc, items)?.map(Given::Texts)),
        None => Ok(None),
    }
}

fn object_of(value: &Value) -> Option<Given>
    ensures { result ≡ value_of kind.Object (view value.now) }
{
    if value.is_object() {
        Some(Given::Something)
    } else {
        None
    }
}

fn whole_of(value: &Value) -> Option<Given>
    ensures { result ≡ value_of (kind.Whole 0 0) (view value.now) }
{
    match value {
        Value::Number(number) => {
            if let Some(n) = number.as_u64() {
                return Some(Given::Whole(Some(n)));
            }
            if number.is_i64() {
                Some(Given::Whole(None))
            } else {
                None
            }
        }
        _ => None,
    }
}

// What a value that isn't null is to a field of this kind, if it has the kind's type.
fn value_of(alloc: Global, kind: Kind, value: &Value) -> Result<Option<Given>, NoMemory>
    ensures { IfOk result (λ g. g ≡ value_of kind (view value.now)) }
{
    match kind {
        Kind::Text { .. }
        | Kind::SomeText
        | Kind::AnyText
        | Kind::AliasName
        | Kind::PolicyName
        | Kind::DataKeySpec
        | Kind::GrantName => text_of(alloc, value),
        Kind::Texts { .. } | Kind::GrantOperations | Kind::TagKeys => texts_of(alloc, value),
        Kind::Bytes { .. } => bytes_of(alloc, value),
        Kind::Context => context_of(alloc, value),
        Kind::GrantConstraint => constraint_of(alloc, value),
        Kind::Tags => tags_of(alloc, value),
        Kind::Whole { .. } => Ok(whole_of(value)),
        Kind::Flag => Ok(value.as_bool().map(Given::Flag)),
        Kind::Object => Ok(object_of(value)),
    }
}

/// What a member is to a field of this kind, or none where it has another type.
pub fn value_given(
    alloc: Global,
    kind: Kind,
    member: Option<&Value>,
) -> Result<Option<Given>, NoMemory>
    ensures { IfOk result (λ g. g ≡ value_given kind (option_map (λ v. view v.now) member.entry)) }
{
    match member {
        None | Some(Value::Null) => Ok(Some(Given::Absent)),
        Some(value) => value_of(alloc, kind, value),
    }
}

// The members of objects.
ghost use Rattle.std.specs.Prelude.{◌≡◌, nat_le, option_map, option_and_then};
ghost use Rattle.serde_json.specs.View.{view, items_view};
ghost use Rattle.serde_json.specs.Find.{as_array};
ghost use Rattle.policy_doc.specs.Texts.{items_len};
ghost use Rattle.kms_config.specs.Lists.{if_any, items_within};
ghost use Rattle.kms_config.specs.Members.{text_in};

use serde_json::Value;

/// The text that a member is.
pub fn text_in<'a>(value: Option<&'a Value>) -> Option<&'a str>
    ensures { option_map (λ text. text.now) result ≡ text_in (option_map (λ v. view v.now) value.entry) }
{
    value?.as_str()
}

fn array_in<'a>(value: Option<&'a Value>) -> Option<&'a [Value]>
    ensures { option_map (λ values. items_view values.now) result ≡ option_and_then as_array (option_map (λ v. view v.now) value.entry) }
{
    match value? {
        Value::Array(values) => Some(values.as_slice()),
        _ => None,
    }
}

fn are_few(values: &[Value], most: usize) -> bool
    ensures { result ≡ nat_le (items_len (items_view values.now)) most }
{
    values.len() <= most
}

/// The items of a list of at most so many.
pub fn items_within<'a>(value: Option<&'a Value>, most: usize) -> Option<&'a [Value]>
    ensures { option_map (λ values. items_view values.now) result ≡ items_within most (option_map (λ v. view v.now) value.entry) }
{
    let values = array_in(value)?;
    if are_few(values, most) {
        Some(values)
    } else {
        None
    }
}

fn are_some(values: &[Value]) -> bool
    ensures { result ≡ nat_le 1 (items_len (items_view values.now)) }
{
    1 <= values.len()
}

fn any_of(values: &[Value]) -> Option<&[Value]>
    ensures { option_map (λ values. items_view values.now) result ≡ if_any (items_view values.now) }
{
    if are_some(values) { Some(values) } else { None }
}

/// The items of a list of one to so many.
pub fn some_within<'a>(value: Option<&'a Value>, most: usize) -> Option<&'a [Value]>
    ensures { option_map (λ values. items_view values.now) result ≡ option_and_then if_any (items_within most (option_map (λ v. view v.now) value.entry)) }
{
    any_of(items_within(value, most)?)
}

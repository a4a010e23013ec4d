// The tags of a resource, as bodies give them.
ghost use Rattle.std.specs.Prelude.{◌≡◌, IfOk, option_map};
ghost use Rattle.serde_json.specs.View.{view, items_view};
ghost use Rattle.kms_json.specs.declared.fields.Kind.TheVariants as kind;
ghost use Rattle.kms_json.specs.Fields.{text_given, tag_by, tag_of, tags_in_items, value_of};

use crate::given::Given;
use kms_names::{NoMemory, Text};
use resource_tags::{Tag, TagList};
use serde_json::Value;
use std::alloc::Global;

// What a member is to a tag: its text, where it is given, or none where it has another type.
fn text_given(alloc: Global, member: Option<&Value>) -> Result<Option<Option<Text>>, NoMemory>
    ensures { IfOk result (λ text. text ≡ text_given (option_map (λ v. view v.now) member.entry)) }
{
    match member {
        None | Some(Value::Null) => Ok(Some(None)),
        Some(Value::String(text)) => Ok(Some(Some(Text::from_str(alloc, text.as_str())?))),
        Some(_) => Ok(None),
    }
}

// The tag of a key and a value, where both are given.
fn tag_by(key: Option<Text>, value: Option<Text>) -> Option<Tag>
    ensures { result ≡ tag_by key value }
{
    Some(Tag {
        key: key?,
        value: value?,
    })
}

// The tag of an object, where it has both a key and a value, if the object and its known members have their types.
fn tag_of(alloc: Global, value: &Value) -> Result<Option<Option<Tag>>, NoMemory>
    ensures { IfOk result (λ tag. tag ≡ tag_of (view value.now)) }
{
    if !value.is_object() {
        return Ok(None);
    }
    let Some(key) = text_given(alloc, value.get("TagKey"))? else {
        return Ok(None);
    };
    let Some(value) = text_given(alloc, value.get("TagValue"))? else {
        return Ok(None);
    };
    Ok(Some(tag_by(key, value)))
}

// The tags of items, where each has its key and its value, if all are tags by their types.
fn tags_in(alloc: Global, items: &[Value]) -> Result<Option<Option<TagList>>, NoMemory>
    ensures { IfOk result (λ tags. tags ≡ tags_in_items (items_view items.now)) }
{
    let mut tags = Vec::new(alloc);
    let mut all_there = true;
    for item in items {
        match tag_of(alloc, item)? {
            Some(Some(tag)) => tags.push(tag)?,
            Some(None) => all_there = false,
            None => return Ok(None),
        }
    }
    if all_there {
        Ok(Some(Some(TagList::new(tags))))
    } else {
        Ok(Some(None))
    }
}

/// A list of tags that isn't null, if it and what is in it have their types.
pub fn tags_of(alloc: Global, value: &Value) -> Result<Option<Given>, NoMemory>
    ensures { IfOk result (λ g. g ≡ value_of kind.Tags (view value.now)) }
{
    match value.as_array() {
        Some(items) => Ok(tags_in(alloc, items)?.map(Given::Tags)),
        None => Ok(None),
    }
}

//! What requests say of tags to conditions (AWS KMS Developer Guide, "ABAC for AWS KMS").
ghost use Rattle.std.specs.Prelude.{◌≡◌, ◌++◌, ◌∷◌, [], IfOk, OnOk, map};
ghost use Rattle.authority.specs.Facts.{single, resource_tag, request_tag, tag_keys, tag_facts};

use crate::puts::{put, put_some};
use crate::settings::Particulars;
use cond_ops::Fact;
use kms_names::{NoMemory, Text, TextList};
use resource_tags::{Tag, TagMap};
use std::alloc::Global;

// Adds a tag of the key.
fn put_resource_tag(facts: &mut Vec<Fact>, key: &Text, value: &Text) -> Result<(), NoMemory>
    ensures { OnOk result (facts.new.items ≡ facts.old.items ++ resource_tag (key.now, value.now) ∷ []) }
{
    let alloc = *facts.allocator();
    let name = key.as_str();
    let key = Text::from_string(format!(in alloc; "aws:ResourceTag/{name}")?);
    let value = value.copy()?;
    put(facts, key, value)?;
    Ok(())
}

// Adds the tags of the key.
fn put_resource_tags(facts: &mut Vec<Fact>, tags: &TagMap) -> Result<(), NoMemory>
    ensures { OnOk result (facts.new.items ≡ facts.old.items ++ map resource_tag tags.now) }
{
    for (key, value) in tags.iter() {
        put_resource_tag(facts, key, value)?;
    }
    Ok(())
}

// Adds a tag that the request gives to the key.
fn put_request_tag(facts: &mut Vec<Fact>, tag: &Tag) -> Result<(), NoMemory>
    ensures { OnOk result (facts.new.items ≡ facts.old.items ++ request_tag tag.now ∷ []) }
{
    let alloc = *facts.allocator();
    let name = tag.key.as_str();
    let key = Text::from_string(format!(in alloc; "aws:RequestTag/{name}")?);
    let value = tag.value.copy()?;
    put(facts, key, value)?;
    Ok(())
}

// Adds the tags that the request gives to the key.
fn put_request_tags(facts: &mut Vec<Fact>, tags: &[Tag]) -> Result<(), NoMemory>
    ensures { OnOk result (facts.new.items ≡ facts.old.items ++ map request_tag tags.now) }
{
    for tag in tags {
        put_request_tag(facts, tag)?;
    }
    Ok(())
}

// Adds the keys of these tags.
fn add_keys_of(keys: &mut Vec<Text>, tags: &[Tag]) -> Result<(), NoMemory>
    ensures { OnOk result (keys.new.items ≡ keys.old.items ++ map (λ tag. tag.key) tags.now) }
{
    for tag in tags {
        keys.push(tag.key.copy()?)?;
    }
    Ok(())
}

// Adds these keys.
fn add_keys(keys: &mut Vec<Text>, more: &[Text]) -> Result<(), NoMemory>
    ensures { OnOk result (keys.new.items ≡ keys.old.items ++ more.now) }
{
    for key in more {
        keys.push(key.copy()?)?;
    }
    Ok(())
}

// The keys of the tags that the request gives to the key or takes from it.
fn tag_keys(alloc: Global, particulars: &Particulars<'_>) -> Result<TextList, NoMemory>
    ensures { IfOk result (λ keys. keys ≡ tag_keys particulars.now) }
{
    let mut keys = Vec::new(alloc);
    add_keys_of(&mut keys, particulars.given_tags())?;
    add_keys(&mut keys, particulars.taken_keys())?;
    Ok(TextList::new(keys))
}

// Adds the tags of the key, where it has some.
fn put_own(facts: &mut Vec<Fact>, particulars: &Particulars<'_>) -> Result<(), NoMemory>
    ensures { OnOk result (facts.new.items ≡ facts.old.items ++ map resource_tag particulars.now.tags) }
{
    match particulars.tags {
        Some(tags) => put_resource_tags(facts, tags),
        None => Ok(()),
    }
}

/// Adds the tags of the key, those that the request gives to it, and the keys of those that it gives or takes.
pub(crate) fn put_tags(facts: &mut Vec<Fact>, particulars: &Particulars<'_>) -> Result<(), NoMemory>
    ensures { OnOk result (facts.new.items ≡ facts.old.items ++ tag_facts particulars.now) }
{
    put_own(facts, particulars)?;
    put_request_tags(facts, particulars.given_tags())?;
    let keys = tag_keys(*facts.allocator(), particulars)?;
    put_some(facts, "aws:TagKeys", keys)?;
    Ok(())
}

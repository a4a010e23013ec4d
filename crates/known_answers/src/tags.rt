//! The cases of tags.

use crate::cases::Case;
use kms_names::Text;
use resource_tags::{Tag, TagFault, TagList, TagMap, are_proper};

/// What a call of tags answers.
pub fn tags(case: &mut Case<'_>) {
    match case.word() {
        "put_all" => put_all(case),
        "drop_keys" => drop_keys(case),
        "get" => get(case),
        "after" => after(case),
        "len" => len(case),
        "iter" => iter(case),
        "copied" => copied(case),
        "are_proper" => {
            let tags = listed(case);
            case.put_truth(are_proper(&tags));
        }
        _ => case.lose(),
    }
}

// The next column as tags, `KEY=VALUE` with a comma between two: `-` are none.
fn listed(case: &mut Case<'_>) -> Vec<Tag> {
    let mut tags = Vec::new(case.alloc);
    let word = case.word();
    if word == "-" {
        return tags;
    }
    for item in word.split(',') {
        let (key, value) = case.found(item.split_once('=')).unwrap_or(("", ""));
        let tag = Tag {
            key: case.owned(key),
            value: case.owned(value),
        };
        let tag = case.kept_or(tag.copy(), tag);
        let pushed = tags.push(tag);
        case.require(pushed.is_ok());
    }
    tags
}

// The tags that the next column lists.
fn map_of(case: &mut Case<'_>) -> TagMap {
    let tags = listed(case);
    let none = TagMap::new(case.alloc);
    let made = none.put_all(&tags);
    case.kept_or(made, none)
}

// Puts a tag behind the others.
fn put_tag(case: &mut Case<'_>, key: &Text, value: &Text) {
    case.put_after(",", key.as_str());
    case.write("=");
    case.write(value.as_str());
}

// Puts all tags, each found behind the one before it.
fn put_tags(case: &mut Case<'_>, map: &TagMap) {
    let mut next = map.after(&[]);
    for _ in 0..map.len() {
        if let Some((key, value)) = next {
            put_tag(case, key, value);
            next = map.after(key.as_str().as_bytes());
        }
    }
    case.require(next.is_none());
    if map.is_empty() {
        case.put("-");
    }
}

fn put_all(case: &mut Case<'_>) {
    let map = map_of(case);
    let more = listed(case);
    match map.put_all(&more) {
        Ok(new) => {
            let shared = new.share();
            let new = case.kept_or(shared, new);
            put_tags(case, &new);
        }
        Err(TagFault::TooMany) => case.put("TooMany"),
        Err(TagFault::NoMemory) => case.lose(),
    }
}

fn drop_keys(case: &mut Case<'_>) {
    let map = map_of(case);
    let keys = case.texts();
    let left = map.drop_keys(keys.as_slice());
    let left = case.kept_or(left, map);
    put_tags(case, &left);
}

fn get(case: &mut Case<'_>) {
    let map = map_of(case);
    let key = case.owned_text();
    match map.get(&key) {
        Some(value) => case.put_text(" ", value.as_str()),
        None => case.put("none"),
    }
}

fn after(case: &mut Case<'_>) {
    let map = map_of(case);
    let key = case.bytes();
    match map.after(&key) {
        Some((key, _)) => case.put(key.as_str()),
        None => case.put("none"),
    }
}

fn len(case: &mut Case<'_>) {
    let map = map_of(case);
    case.put_number(map.len() as u64);
}

fn iter(case: &mut Case<'_>) {
    let map = map_of(case);
    for (key, value) in map.iter() {
        put_tag(case, key, value);
    }
    case.end_list();
}

// Puts the tags of a copy of a list, as they were given.
fn copied(case: &mut Case<'_>) {
    let list = TagList::new(listed(case));
    let copied = case.kept_or(list.copy(), list);
    for tag in copied.as_slice() {
        put_tag(case, &tag.key, &tag.value);
    }
    case.end_list();
}

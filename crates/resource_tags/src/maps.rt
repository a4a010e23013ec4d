//! The tags of one resource.

ghost use Rattle.std.specs.Prelude.{◌≡◌, ◌<◌, ◌≤◌, ◌==◌, [], length, Err, IfOk, OnOk};
ghost use Rattle.std.specs.Option.{option_map};
ghost use Rattle.std.specs.Ordering.{is_gt};
ghost use Rattle.persist_map.specs.Pairs.{Ascends, value_at};
ghost use Rattle.resource_tags.specs.Tags.{by_bytes, with_tags, without_tags, tag_after};
ghost use Rattle.resource_tags.specs.declared.maps.TagFault.TheVariants.{TooMany, NoMemory as OutOfMemory};

use crate::tags::Tag;
use kms_names::{NoMemory, Steps, Text};
use persist_map::{PFrom, PMap};
use std::alloc::Global;
use std::marker::{Brand, Model};
use std::sync::ledger::{Blank, Ledger};

/// The most tags that a resource has (AWS KMS Developer Guide, "Tags in AWS KMS").
pub const MOST_TAGS: usize = 50;

/// Why tags aren't put.
#[derive(Clone, Copy)]
pub enum TagFault {
    /// More than 50 tags would stand.
    TooMany,
    /// A growth of memory was refused.
    NoMemory,
}

impl From<NoMemory> for TagFault {
    ghost from_gives = { λ _ e. e ≡ OutOfMemory };

    fn from(_e: NoMemory) -> TagFault {
        TagFault::NoMemory
    }
}

// Whether the text is above these bytes in byte order.
fn is_above(text: &Text, bytes: &[u8]) -> bool
    ensures { result ≡ is_gt (by_bytes text.now bytes.now) }
{
    text.as_str().as_bytes().cmp(bytes).is_gt()
}

// The value of a key, whose comparisons are counted from 0.
fn value_from<'a, L: Ledger>(
    tags: &'a PMap<Text, Text>,
    key: &Text,
    blank: Blank,
) -> Option<&'a Text>
    requires name { blank.name ≡ L.name }
    requires parts { blank.parts ≡ L.parts }
    requires some { 0 < blank.parts }
    ensures { option_map (λ value. value.now) result ≡ value_at by_bytes tags.now key.now }
{
    let (book, share) = blank.open::<L>();
    tags.get(key, &mut Steps::new(book, share))
}

/// The tags of a resource, at most 50. Contracts see them as the list of their keys and values, in ascending byte order of
/// the keys. Changed tags are new ones, which share what stays; the old ones stay as they were.
#[derive(Drop)]
pub struct TagMap {
    tags: PMap<Text, Text>,
}

impl Model for TagMap {
    ghost use Rattle.std.specs.Prelude.{List, ℕ, length, ◌≤◌};

    ghost Value = { List (List ℕ × List ℕ) };

    ghost view = { λ m. m.tags };

    ghost invariant = { λ m. length m.tags ≤ 50 };
}

impl TagMap {
    /// No tags. It takes no memory.
    pub fn new(alloc: Global) -> TagMap
        ensures { result ≡ [] }
    {
        TagMap {
            tags: PMap::new(alloc),
        }
    }

    /// How many tags there are. Their keys ascend, so no key stands twice. It takes no memory.
    pub fn len(&self) -> usize
        ensures len { result ≡ length self.now }
        ensures most { length self.now ≤ 50 }
        ensures ascends { Ascends by_bytes self.now }
    {
        self.tags.len()
    }

    /// Whether there are none. It takes no memory.
    pub fn is_empty(&self) -> bool
        ensures { result ≡ (length self.now == 0) }
    {
        self.tags.is_empty()
    }

    /// Equal tags, which share what these hold.
    pub fn share(&self) -> Result<TagMap, NoMemory>
        ensures { IfOk result (λ m. m ≡ self.now) }
    {
        Ok(TagMap {
            tags: self.tags.share()?,
        })
    }

    /// The tags once these were put, one after the other, each in place of the tag of its key, if there was one. `TooMany`
    /// comes exactly where more than 50 would stand, unless memory lacks before.
    pub fn put_all(&self, tags: &[Tag]) -> Result<TagMap, TagFault>
        ensures put { IfOk result (λ m. m ≡ with_tags self.now tags.now) }
        ensures few { OnOk result (length (with_tags self.now tags.now) ≤ 50) }
        ensures many { result ≡ Err TooMany → 50 < length (with_tags self.now tags.now) }
    {
        let mut all = self.tags.share()?;
        for tag in tags {
            all = all.insert(tag.key.copy()?, tag.value.copy()?)?;
        }
        if all.len() > MOST_TAGS {
            return Err(TagFault::TooMany);
        }
        Ok(TagMap { tags: all })
    }

    /// The tags of other keys than these.
    #[tactic(auto, using(crate::proofs::TagFacts::shrinks))]
    pub fn drop_keys(&self, keys: &[Text]) -> Result<TagMap, NoMemory>
        ensures { IfOk result (λ m. m ≡ without_tags self.now keys.now) }
    {
        let mut all = self.tags.share()?;
        for key in keys {
            all = all.remove(key)?;
        }
        Ok(TagMap { tags: all })
    }

    /// The keys and values, in ascending byte order of the keys. It takes no memory.
    pub fn iter(&self) -> PFrom<'_, Text, Text>
        ensures { result ≡ self.now }
    {
        self.tags.iter()
    }

    /// The value of a key. It takes no memory.
    pub fn get(&self, key: &Text) -> Option<&Text>
        ensures { option_map (λ value. value.now) result ≡ value_at by_bytes self.now key.now }
    {
        value_from::<Brand>(&self.tags, key, Blank::new(1))
    }

    /// The first tag whose key is above this one in byte order. It takes no memory.
    pub fn after(&self, key: &[u8]) -> Option<(&Text, &Text)>
        ensures { option_map (λ tag. (tag.0.now, tag.1.now)) result ≡ tag_after self.now key.now }
    {
        for (tag, value) in self.tags.iter() {
            if is_above(tag, key) {
                return Some((tag, value));
            }
        }
        None
    }
}

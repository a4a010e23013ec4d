// Tags, one by one and in lists.
ghost use Rattle.std.specs.Prelude.{◌≡◌, IfOk};

use kms_names::{NoMemory, Text};
use std::marker::Model;

/// A tag of a resource (AWS KMS API Reference, "Tag").
#[derive(Drop)]
pub struct Tag {
    /// Its key.
    pub key: Text,
    /// Its value, which may be empty.
    pub value: Text,
}

impl Tag {
    /// A copy that equals its source.
    pub fn copy(&self) -> Result<Tag, NoMemory>
        ensures { IfOk result (λ tag. tag ≡ self.now) }
    {
        Ok(Tag {
            key: self.key.copy()?,
            value: self.value.copy()?,
        })
    }
}

/// A list of tags, as a request gives them: a key may stand twice. Contracts see it as the list of them.
#[derive(Drop)]
pub struct TagList {
    items: Vec<Tag>,
}

impl Model for TagList {
    ghost use Rattle.std.specs.Prelude.{List};
    ghost use Rattle.resource_tags.specs.declared.tags.Tag.{Tag};

    ghost Value = { List Tag };

    ghost view = { λ l. l.items.items };
}

impl TagList {
    /// The list of a vector's tags; no memory is taken.
    pub fn new(items: Vec<Tag>) -> TagList
        ensures { result ≡ items.items }
    {
        TagList { items }
    }

    /// The tags in order.
    pub fn as_slice(&self) -> &[Tag]
        ensures { result.now ≡ self.now }
    {
        self.items.as_slice()
    }

    /// A copy that equals its source.
    pub fn copy(&self) -> Result<TagList, NoMemory>
        ensures { IfOk result (λ l. l ≡ self.now) }
    {
        let mut items = Vec::new(*self.items.allocator());
        for tag in &self.items {
            items.push(tag.copy()?)?;
        }
        Ok(TagList { items })
    }
}

// What the operations on tags answer.
ghost use Rattle.kms_json.specs.TagReplies as answered;
ghost use Rattle.kms_json.specs.Texts.{Writes};

use super::pages::write_truncated;
use crate::objects::{Item, Member, RowWriter, write_list, write_object, write_text_if};
use crate::replies::TagPage;
use crate::texts::JsonText;
use kms_names::NoMemory;
use resource_tags::Tag;
use std::alloc::Global;

// The tags of a key.
#[derive(Clone, Copy)]
struct TagRows;

impl RowWriter for TagRows {
    type Row = Tag;

    ghost row_data = { λ _ tag. answered.tag_data tag };

    fn write_row(
        &self,
        alloc: Global,
        _room: &mut String,
        text: &mut JsonText,
        tag: &Tag,
    ) -> Result<(), NoMemory> {
        let members = [
            Member("TagKey", Item::Text(tag.key.as_str())),
            Member("TagValue", Item::Text(tag.value.as_str())),
        ];
        write_object(alloc, text, &members)
    }
}

/// What ListResourceTags answers.
pub fn tag_list(alloc: Global, text: &mut JsonText, list: &TagPage) -> Result<(), NoMemory>
    ensures { Writes result text.old text.new (answered.tags_data list.now) }
{
    text.begin_object()?;
    write_text_if(text, "NextMarker", &list.next)?;
    text.key("Tags")?;
    write_list(alloc, text, &TagRows, list.tags.as_slice())?;
    write_truncated(text, list.next.is_some())
}

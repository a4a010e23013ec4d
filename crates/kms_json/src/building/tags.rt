// What the operations on tags are asked.
ghost use Rattle.std.specs.Prelude.{◌≡◌};
ghost use Rattle.kms_json.specs.Building.{held};
ghost use Rattle.kms_json.specs.TagAsks as asked;

use super::{next, page};
use crate::asks::{Changing, Reading};
use crate::given::{Given, tags_in, text_in, texts_in};
use std::alloc::Global;
use std::collections::VecDeque;

/// TagResource.
pub fn tag_resource(alloc: Global, values: &mut VecDeque<Given>) -> Changing
    ensures { result ≡ asked.tag_resource (held asked.tag_resource_fields values.old.items) }
{
    Changing::TagResource {
        key_id: text_in(alloc, next(values)),
        tags: tags_in(alloc, next(values)),
    }
}

/// UntagResource.
pub fn untag_resource(alloc: Global, values: &mut VecDeque<Given>) -> Changing
    ensures { result ≡ asked.untag_resource (held asked.untag_resource_fields values.old.items) }
{
    Changing::UntagResource {
        key_id: text_in(alloc, next(values)),
        keys: texts_in(alloc, next(values)),
    }
}

/// ListResourceTags.
pub fn list_resource_tags(alloc: Global, values: &mut VecDeque<Given>) -> Reading
    ensures { result ≡ asked.list_resource_tags (held asked.list_resource_tags_fields values.old.items) }
{
    let key_id = text_in(alloc, next(values));
    let page = page(values, 50);
    Reading::ListResourceTags { key_id, page }
}

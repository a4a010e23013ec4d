// Tags in ascending byte order of their keys.
ghost use Rattle.std.specs.Prelude.{◌≡◌, [], IfOk};
ghost use Rattle.resource_tags.specs.Tags.{with_tags, by_bytes};
ghost use Rattle.tag_order.specs.Order.{tag_of, in_order, is_below_first, are_in_order};

use kms_names::{NoMemory, Text};
use persist_map::PMap;
use resource_tags::{Tag, TagList};
use std::alloc::Global;

// The values by their keys, of those of one key the last.
fn by_keys(alloc: Global, tags: &[Tag]) -> Result<PMap<Text, Text>, NoMemory>
    ensures { IfOk result (λ map. map ≡ with_tags [] tags.now) }
{
    let mut all = PMap::new(alloc);
    for tag in tags {
        all = all.insert(tag.key.copy()?, tag.value.copy()?)?;
    }
    Ok(all)
}

/// The tags in ascending byte order of their keys. Of those of one key the last stands.
pub fn in_order(alloc: Global, tags: &[Tag]) -> Result<TagList, NoMemory>
    ensures { IfOk result (λ list. list ≡ in_order tags.now) }
{
    let all = by_keys(alloc, tags)?;
    let mut items = Vec::new(alloc);
    for (key, value) in all.iter() {
        items.push(Tag {
            key: key.copy()?,
            value: value.copy()?,
        })?;
    }
    Ok(TagList::new(items))
}

fn is_below_first(key: &Text, tags: &[Tag]) -> bool
    ensures { result ≡ is_below_first key.now tags.now }
{
    match tags.first() {
        Some(tag) => key
            .as_str()
            .as_bytes()
            .cmp(tag.key.as_str().as_bytes())
            .is_lt(),
        None => true,
    }
}

/// Whether the keys of these tags ascend, in their byte order, so that none stands twice. It takes no memory.
pub fn are_in_order(tags: &[Tag]) -> bool
    ensures { result ≡ are_in_order tags.now }
{
    let mut rest = tags;
    while let Some((tag, others)) = rest.split_first() {
        if !is_below_first(&tag.key, others) {
            return false;
        }
        rest = others;
    }
    true
}

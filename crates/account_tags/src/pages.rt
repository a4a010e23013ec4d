// Parts of the list of a key's tags.
ghost use Rattle.std.specs.Prelude.{◌≡◌, IfOk, None, option_map};
ghost use Rattle.std.specs.Char.{is_ascii_uppercase};
ghost use Rattle.std.specs.List.{last_or, list_any};
ghost use Rattle.account_steps.specs.Steps.{Gives};
ghost use Rattle.account_tags.specs.Pages.{written, behind_marker, marker_of, is_behind, tags_behind, first_of, part_of};

use account_steps::Stop;
use hex::FromHexError;
use kms_json::{Page, Refusal, TagPage};
use kms_names::{Bytes, NoMemory, Text};
use resource_tags::{Tag, TagList, TagMap};
use std::alloc::Global;

fn has_uppercase(text: &[u8]) -> bool
    ensures { result ≡ list_any is_ascii_uppercase text.now }
{
    text.iter().any(|byte| byte.is_ascii_uppercase())
}

// The bytes that lower-case hexadecimal digits write.
#[tactic(auto, unfolding(crate::specs::Pages::written))]
fn written(alloc: Global, text: &Text) -> Result<Option<Bytes>, NoMemory>
    ensures { IfOk result (λ bytes. bytes ≡ written text.now) }
{
    let digits = text.as_str().as_bytes();
    if has_uppercase(digits) {
        return Ok(None);
    }
    match hex::decode(alloc, digits) {
        Ok(bytes) => Ok(Some(Bytes::new(bytes))),
        Err(FromHexError::OutOfMemory) => Err(NoMemory),
        Err(_) => Ok(None),
    }
}

/// The bytes behind which the keys of a part come, where a marker is given.
pub fn behind_marker(alloc: Global, page: &Page) -> Result<Option<Bytes>, Stop>
    ensures { Gives (behind_marker page.now.marker) result }
{
    let Some(text) = &page.marker else {
        return Ok(None);
    };
    match written(alloc, text)? {
        Some(key) => Ok(Some(key)),
        None => Err(Stop::Refused(Refusal::InvalidMarker)),
    }
}

// Whether a key is above these bytes, or none are given.
fn is_behind(after: &Option<Bytes>, key: &Text) -> bool
    ensures { result ≡ is_behind after.now key.now }
{
    match after {
        Some(bytes) => key.as_str().as_bytes().cmp(bytes.as_slice()).is_gt(),
        None => true,
    }
}

// The tags whose keys are above these bytes, or all.
fn tags_behind(alloc: Global, tags: &TagMap, after: &Option<Bytes>) -> Result<Vec<Tag>, NoMemory>
    ensures { IfOk result (λ found. found.items ≡ tags_behind after.now tags.now) }
{
    let mut found = Vec::new(alloc);
    for (key, value) in tags.iter() {
        if is_behind(after, key) {
            found.push(Tag {
                key: key.copy()?,
                value: value.copy()?,
            })?;
        }
    }
    Ok(found)
}

// The marker behind the last of some tags.
fn marker_of_last(alloc: Global, tags: &[Tag]) -> Result<Option<Text>, NoMemory>
    ensures { IfOk result (λ marker. marker ≡ option_map marker_of (last_or None tags.now)) }
{
    match tags.last() {
        Some(tag) => {
            let digits = hex::encode(alloc, tag.key.as_str().as_bytes())?;
            Ok(Some(Text::from_string(digits)))
        }
        None => Ok(None),
    }
}

// At most so many of these, and the marker of the next part.
fn first_of(alloc: Global, mut tags: Vec<Tag>, limit: usize) -> Result<TagPage, NoMemory>
    ensures { IfOk result (λ page. page ≡ first_of limit tags.items) }
{
    if tags.len() <= limit {
        return Ok(TagPage {
            tags: TagList::new(tags),
            next: None,
        });
    }
    tags.truncate(limit);
    let next = marker_of_last(alloc, tags.as_slice())?;
    Ok(TagPage {
        tags: TagList::new(tags),
        next,
    })
}

/// At most so many of the tags whose keys are above these bytes, or of all, and the marker of the next part.
pub fn part_of(
    alloc: Global,
    tags: &TagMap,
    limit: usize,
    after: &Option<Bytes>,
) -> Result<TagPage, NoMemory>
    ensures { IfOk result (λ page. page ≡ part_of tags.now limit after.now) }
{
    let found = tags_behind(alloc, tags, after)?;
    first_of(alloc, found, limit)
}

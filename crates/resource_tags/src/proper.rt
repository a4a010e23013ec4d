//! Which tags may be given to a resource.

ghost use Rattle.std.specs.Prelude.{◌≡◌};
ghost use Rattle.std.specs.List.{list_any, list_all};
ghost use Rattle.resource_tags.specs.Proper.{is_reserved, is_unreserved, has_key, repeats, are_proper};

use crate::tags::Tag;
use kms_names::Text;

// Whether a key begins with `aws:` in any case.
fn is_reserved(key: &[u8]) -> bool
    ensures { result ≡ is_reserved key.now }
{
    matches!(key, [b'a' | b'A', b'w' | b'W', b's' | b'S', b':', ..])
}

fn is_unreserved(tag: &Tag) -> bool
    ensures { result ≡ is_unreserved tag.now }
{
    !is_reserved(tag.key.as_str().as_bytes())
}

fn are_unreserved(tags: &[Tag]) -> bool
    ensures { result ≡ list_all is_unreserved tags.now }
{
    tags.iter().all(is_unreserved)
}

// Whether some of these tags has the key.
fn has_key(tags: &[Tag], key: &Text) -> bool
    ensures { result ≡ list_any (has_key key.now) tags.now }
{
    tags.iter().any(|tag| tag.key == *key)
}

// Whether some key stands twice.
fn repeats(tags: &[Tag]) -> bool
    ensures { result ≡ repeats tags.now }
{
    let mut rest = tags;
    while let Some((tag, others)) = rest.split_first() {
        if has_key(others, &tag.key) {
            return true;
        }
        rest = others;
    }
    false
}

/// Whether these tags may be given to a resource: no two have one key, and no key begins with `aws:` in any case, which
/// is kept for AWS (AWS General Reference, "Tag naming limits and requirements"). It takes no memory.
pub fn are_proper(tags: &[Tag]) -> bool
    ensures { result ≡ are_proper tags.now }
{
    are_unreserved(tags) && !repeats(tags)
}

// Names of an object's members.
ghost use Rattle.std.specs.Prelude.{◌≡◌, option_map};
ghost use Rattle.serde_json.specs.View.{items_view, members_view};
ghost use Rattle.policy_doc.specs.Paths.{path_text};
ghost use Rattle.policy_doc.specs.Answers.{Answers};
ghost use Rattle.policy_doc.specs.Names.{name_fault, has_members, has_items};

use crate::faults::{Departure, PolicyFault};
use crate::paths::{Path, fault};
use serde_json::{Map, Value};
use std::alloc::Global;

/// Checks that an object has no member of an unknown name.
pub fn check_unknown(
    alloc: Global,
    path: &Path<'_>,
    unknown: Option<&str>,
) -> Result<(), PolicyFault>
    ensures { Answers (name_fault (path_text path.now) (option_map (λ name. name.now) unknown.entry)) tt result }
{
    match unknown {
        None => Ok(()),
        Some(name) => Err(fault(alloc, Departure::BadShape, &Path::Member(path, name))),
    }
}

/// Whether an object has a member.
pub fn has_members(members: &Map<String, Value>) -> bool
    ensures { result ≡ has_members (members_view members.now.entries) }
{
    !members.is_empty()
}

/// Whether a list has an item.
pub fn has_items(items: &[Value]) -> bool
    ensures { result ≡ has_items (items_view items.now) }
{
    !items.is_empty()
}

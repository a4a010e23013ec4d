//! The members of objects, found by their names.

ghost use Rattle.std.specs.Prelude.{◌≡◌, map, option_map};
ghost use Rattle.serde_json.specs.Find.{get};
ghost use Rattle.serde_json.specs.View.{view, members_view};
ghost use Rattle.policy_doc.specs.Names.{is_known, first_unknown};

use serde_json::{Map, Value};

/// The member of a name, where the value is an object that has one. No memory is taken.
pub fn member<'a>(value: &'a Value, name: &str) -> Option<&'a Value>
    ensures { option_map (λ v. view v.now) result ≡ get name.now (view value.now) }
{
    value.get(name)
}

/// Whether a name is one of these. No memory is taken.
pub fn is_known(names: &[&str], name: &str) -> bool
    ensures { result ≡ is_known (map (λ known. known.now) names.now) name.now }
{
    for known in names {
        if name == *known {
            return true;
        }
    }
    false
}

/// The first member of another name than these, in the order of bytes. No memory is taken.
pub fn first_unknown<'a>(names: &[&str], members: &'a Map<String, Value>) -> Option<&'a str>
    ensures { option_map (λ name. name.now) result ≡ first_unknown (map (λ known. known.now) names.now) (members_view members.now.entries) }
{
    for (name, _value) in members {
        if !is_known(names, name.as_str()) {
            return Some(name.as_str());
        }
    }
    None
}

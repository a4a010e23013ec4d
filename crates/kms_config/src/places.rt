// The faults of places in a configuration (RFC 6901).
ghost use Rattle.std.specs.Prelude.{◌≡◌, ◌++◌, Err, IfOk};
ghost use Rattle.policy_doc.specs.Paths.{path_text};
ghost use Rattle.kms_config.specs.Answers.{Answers, IsFaultAt};

use crate::faults::ConfigFault;
use kms_names::{NoMemory, Text};
use policy_doc::{Path, pointer};
use std::alloc::Global;

// The JSON pointer of a place, and what follows it.
fn pointer_behind(alloc: Global, place: &Path<'_>, behind: &str) -> Result<Text, NoMemory>
    ensures { IfOk result (λ text. text ≡ path_text place.now ++ behind.now) }
{
    let mut text = String::new(alloc);
    text.push_str(pointer(alloc, place)?.as_str())?;
    text.push_str(behind)?;
    Ok(Text::from_string(text))
}

fn fault_behind(alloc: Global, place: &Path<'_>, behind: &str) -> ConfigFault
    ensures { IsFaultAt (path_text place.now ++ behind.now) result }
{
    match pointer_behind(alloc, place, behind) {
        Ok(text) => ConfigFault::At(text),
        Err(NoMemory) => ConfigFault::NoMemory,
    }
}

/// The answer of a fault at a place behind this one.
pub fn refused_behind<T: Drop>(
    alloc: Global,
    place: &Path<'_>,
    behind: &str,
) -> Result<T, ConfigFault>
    ensures { Answers (Err (path_text place.now ++ behind.now)) result }
{
    Err(fault_behind(alloc, place, behind))
}

/// The answer of a fault at this place.
pub fn refused<T: Drop>(alloc: Global, place: &Path<'_>) -> Result<T, ConfigFault>
    ensures { Answers (Err (path_text place.now)) result }
{
    refused_behind(alloc, place, "")
}

//! Lists of shared values.

ghost use Rattle.std.specs.Prelude.{◌≡◌, ◌++◌, map, OnOk, IfOk};
ghost use Rattle.std.specs.Arc.{arc_value};

use kms_names::NoMemory;
use std::alloc::Global;
use std::sync::Arc;

/// Adds the items behind the others. Their values are shared.
pub(crate) fn add_shared<T: Drop>(to: &mut Vec<Arc<T>>, items: &[Arc<T>]) -> Result<(), NoMemory>
    ensures { OnOk result (map arc_value to.new.items ≡ map arc_value to.old.items ++ map arc_value items.now) }
{
    for item in items {
        let item = Arc::try_clone(item)?;
        to.push(item)?;
    }
    Ok(())
}

/// The items, in a list with that much room in all. Their values are shared.
pub(crate) fn shared<T: Drop>(
    alloc: Global,
    items: &[Arc<T>],
    room: usize,
) -> Result<Vec<Arc<T>>, NoMemory>
    ensures { IfOk result (λ all. map arc_value all.items ≡ map arc_value items.now) }
{
    let mut all = Vec::with_capacity(alloc, room)?;
    add_shared(&mut all, items)?;
    Ok(all)
}

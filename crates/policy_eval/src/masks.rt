//! The actions that globs match, as bits.

ghost use Rattle.std.specs.Prelude.{◌<◌, ◌^◌, ◌↔◌, IsTrue, Any, length};
ghost use Rattle.kms_names.specs.Action.{all_actions};
ghost use Rattle.kms_names.specs.ActionSet.{IsActionLike, has_action};
ghost use Rattle.kms_names.specs.declared.actions.Action.{Action as ActionValue};

use kms_names::{Action, Text};

// Whether some of these globs matches an action.
fn is_like_some(action: Action, patterns: &[Text]) -> bool
    ensures { IsTrue result ↔ Any (λ pattern. IsActionLike pattern action) patterns.now }
{
    patterns
        .iter()
        .any(|pattern| action.is_like(pattern.as_str()))
}

/// The actions that some of these globs matches, as a mask: the bit at the number of an action is set exactly where some
/// glob matches `kms:` and the action's name without ASCII case, and no other bit is. The numbers are places in the order of
/// the actions (`Action::ALL`), `CreateKey` at bit 0. No memory is taken.
pub fn action_mask(patterns: &[Text]) -> u64
    ensures each { (action : ActionValue) → IsTrue (has_action result action) ↔ Any (λ pattern. IsActionLike pattern action) patterns.now }
    ensures others { result < 2 ^ length all_actions }
{
    let mut mask = 0;
    for action in Action::ALL {
        if is_like_some(action, patterns) {
            mask |= 1 << action.number();
        }
    }
    mask
}

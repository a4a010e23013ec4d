//! Operations by key state.

ghost use Rattle.std.specs.Prelude.{◌≡◌, ◌≢◌};
ghost use Rattle.key_states.specs.Permissions.{need_of, refusal};

use crate::states::State;
use kms_names::Action;

/// Why a key's state refuses an operation.
#[derive(Clone, Copy, Debug, PartialEq, Eq)]
pub enum StateFault {
    /// The key is disabled, and the operation needs an enabled one.
    Disabled,
    /// The state of the key is one in which the operation isn't served.
    InvalidState,
}

/// What an operation needs of its key.
#[derive(Clone, Copy)]
enum Need {
    /// That it is enabled.
    Enabled,
    /// That its deletion isn't scheduled.
    Kept,
    /// That its deletion is scheduled.
    Pending,
    /// Nothing.
    Nothing,
}

impl Need {
    fn of(action: Action) -> Need
        ensures { result ≡ need_of action }
    {
        match action {
            Action::Encrypt
            | Action::Decrypt
            | Action::ReEncryptFrom
            | Action::ReEncryptTo
            | Action::GenerateDataKey
            | Action::GenerateDataKeyWithoutPlaintext
            | Action::GenerateMac
            | Action::VerifyMac
            | Action::CreateGrant
            | Action::EnableKeyRotation
            | Action::DisableKeyRotation
            | Action::RotateKeyOnDemand => Need::Enabled,
            Action::EnableKey
            | Action::DisableKey
            | Action::ScheduleKeyDeletion
            | Action::UpdateKeyDescription
            | Action::TagResource
            | Action::UntagResource
            | Action::CreateAlias
            | Action::UpdateAlias => Need::Kept,
            Action::CancelKeyDeletion => Need::Pending,
            _ => Need::Nothing,
        }
    }
}

/// How the state of a key refuses an operation on it, and `None` where it doesn't. Of UpdateAlias it is asked for the
/// key that the alias is to name; the key that it named may be in any state. A key that is gone is treated as absent,
/// and isn't asked. No memory is taken. (AWS KMS Developer Guide, "Key states of AWS KMS keys".)
pub fn permits(action: Action, state: State) -> Option<StateFault>
    requires { state ≢ State.Gone }
    ensures { result ≡ refusal action state }
{
    match (Need::of(action), state) {
        (Need::Enabled, State::Disabled) => Some(StateFault::Disabled),
        (Need::Enabled | Need::Kept, State::PendingDeletion) => Some(StateFault::InvalidState),
        (Need::Pending, State::Enabled | State::Disabled) => Some(StateFault::InvalidState),
        _ => None,
    }
}

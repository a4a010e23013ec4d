// What the operations on the rotation of keys are asked.
ghost use Rattle.std.specs.Prelude.{◌≡◌};
ghost use Rattle.kms_json.specs.Building.{held};
ghost use Rattle.kms_json.specs.Fields.{key_alone, list_of_key};
ghost use Rattle.kms_json.specs.RotationAsks as asked;

use super::{next, page};
use crate::asks::{Changing, Reading};
use crate::given::{Given, number_or, text_in};
use std::alloc::Global;
use std::collections::VecDeque;

// The days from one rotation to the next where no number is given.
const PERIOD: u64 = 365;

/// EnableKeyRotation.
pub fn enable_key_rotation(alloc: Global, values: &mut VecDeque<Given>) -> Changing
    ensures { result ≡ asked.enable_key_rotation (held asked.enable_key_rotation_fields values.old.items) }
{
    let key_id = text_in(alloc, next(values));
    let period = number_or(next(values), PERIOD);
    Changing::EnableKeyRotation { key_id, period }
}

/// ListKeyRotations.
pub fn list_key_rotations(alloc: Global, values: &mut VecDeque<Given>) -> Reading
    ensures { result ≡ asked.list_key_rotations (held list_of_key values.old.items) }
{
    let key_id = text_in(alloc, next(values));
    let page = page(values, 100);
    Reading::ListKeyRotations { key_id, page }
}

/// DisableKeyRotation.
pub fn disable_key_rotation(alloc: Global, values: &mut VecDeque<Given>) -> Changing
    ensures { result ≡ asked.disable_key_rotation (held key_alone values.old.items) }
{
    Changing::DisableKeyRotation {
        key_id: text_in(alloc, next(values)),
    }
}

/// RotateKeyOnDemand.
pub fn rotate_key_on_demand(alloc: Global, values: &mut VecDeque<Given>) -> Changing
    ensures { result ≡ asked.rotate_key_on_demand (held key_alone values.old.items) }
{
    Changing::RotateKeyOnDemand {
        key_id: text_in(alloc, next(values)),
    }
}

/// GetKeyRotationStatus.
pub fn get_key_rotation_status(alloc: Global, values: &mut VecDeque<Given>) -> Reading
    ensures { result ≡ asked.get_key_rotation_status (held key_alone values.old.items) }
{
    Reading::GetKeyRotationStatus {
        key_id: text_in(alloc, next(values)),
    }
}

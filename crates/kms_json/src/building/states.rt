// What the operations on the states of keys are asked.
ghost use Rattle.std.specs.Prelude.{◌≡◌};
ghost use Rattle.kms_json.specs.Building.{held};
ghost use Rattle.kms_json.specs.Fields.{key_alone};
ghost use Rattle.kms_json.specs.StateAsks as asked;

use super::next;
use crate::asks::Changing;
use crate::given::{Given, number_or, text_in};
use std::alloc::Global;
use std::collections::VecDeque;

// The days that a key waits where no number is given.
const WAITING_DAYS: u64 = 30;

/// ScheduleKeyDeletion.
pub fn schedule_key_deletion(alloc: Global, values: &mut VecDeque<Given>) -> Changing
    ensures { result ≡ asked.schedule_key_deletion (held asked.schedule_key_deletion_fields values.old.items) }
{
    let key_id = text_in(alloc, next(values));
    let days = number_or(next(values), WAITING_DAYS);
    Changing::ScheduleKeyDeletion { key_id, days }
}

/// EnableKey.
pub fn enable_key(alloc: Global, values: &mut VecDeque<Given>) -> Changing
    ensures { result ≡ asked.enable_key (held key_alone values.old.items) }
{
    Changing::EnableKey {
        key_id: text_in(alloc, next(values)),
    }
}

/// DisableKey.
pub fn disable_key(alloc: Global, values: &mut VecDeque<Given>) -> Changing
    ensures { result ≡ asked.disable_key (held key_alone values.old.items) }
{
    Changing::DisableKey {
        key_id: text_in(alloc, next(values)),
    }
}

/// CancelKeyDeletion.
pub fn cancel_key_deletion(alloc: Global, values: &mut VecDeque<Given>) -> Changing
    ensures { result ≡ asked.cancel_key_deletion (held key_alone values.old.items) }
{
    Changing::CancelKeyDeletion {
        key_id: text_in(alloc, next(values)),
    }
}

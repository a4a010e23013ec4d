// What the operations on key policies are asked.
ghost use Rattle.std.specs.Prelude.{◌≡◌};
ghost use Rattle.kms_json.specs.Building.{held};
ghost use Rattle.kms_json.specs.Fields.{list_of_key};
ghost use Rattle.kms_json.specs.PolicyAsks as asked;

use super::{next, page};
use crate::asks::{Changing, Reading};
use crate::given::{Given, flag_in, text_in};
use std::alloc::Global;
use std::collections::VecDeque;

/// PutKeyPolicy.
pub fn put_key_policy(alloc: Global, values: &mut VecDeque<Given>) -> Changing
    ensures { result ≡ asked.put_key_policy (held asked.put_key_policy_fields values.old.items) }
{
    let key_id = text_in(alloc, next(values));
    let _policy_name = next(values);
    let policy = text_in(alloc, next(values));
    let bypass_lockout_check = flag_in(next(values));
    Changing::PutKeyPolicy {
        key_id,
        policy,
        bypass_lockout_check,
    }
}

/// ListKeyPolicies.
pub fn list_key_policies(alloc: Global, values: &mut VecDeque<Given>) -> Reading
    ensures { result ≡ asked.list_key_policies (held list_of_key values.old.items) }
{
    let key_id = text_in(alloc, next(values));
    let page = page(values, 100);
    Reading::ListKeyPolicies { key_id, page }
}

/// GetKeyPolicy.
pub fn get_key_policy(alloc: Global, values: &mut VecDeque<Given>) -> Reading
    ensures { result ≡ asked.get_key_policy (held asked.get_key_policy_fields values.old.items) }
{
    Reading::GetKeyPolicy {
        key_id: text_in(alloc, next(values)),
    }
}

// What the operations on keys are asked.
ghost use Rattle.std.specs.Prelude.{◌≡◌};
ghost use Rattle.kms_json.specs.Building.{held};
ghost use Rattle.kms_json.specs.KeyAsks as asked;

use super::{next, page};
use crate::asks::{Changing, CreateKey, Reading};
use crate::given::{Given, flag_in, is_given, tags_in, text_if, text_in, texts_in};
use std::alloc::Global;
use std::collections::VecDeque;

/// CreateKey.
pub fn create_key(alloc: Global, values: &mut VecDeque<Given>) -> Changing
    ensures { result ≡ asked.create_key (held asked.create_key_fields values.old.items) }
{
    Changing::CreateKey(CreateKey {
        policy: text_if(next(values)),
        description: text_in(alloc, next(values)),
        key_usage: text_if(next(values)),
        customer_master_key_spec: text_if(next(values)),
        key_spec: text_if(next(values)),
        origin: text_if(next(values)),
        custom_key_store_id: is_given(next(values)),
        bypass_lockout_check: flag_in(next(values)),
        tags: tags_in(alloc, next(values)),
        multi_region: flag_in(next(values)),
        xks_key_id: is_given(next(values)),
    })
}

/// UpdateKeyDescription.
pub fn update_key_description(alloc: Global, values: &mut VecDeque<Given>) -> Changing
    ensures { result ≡ asked.update_key_description (held asked.update_key_description_fields values.old.items) }
{
    Changing::UpdateKeyDescription {
        key_id: text_in(alloc, next(values)),
        description: text_in(alloc, next(values)),
    }
}

/// DescribeKey.
pub fn describe_key(alloc: Global, values: &mut VecDeque<Given>) -> Reading
    ensures { result ≡ asked.describe_key (held asked.describe_key_fields values.old.items) }
{
    Reading::DescribeKey {
        key_id: text_in(alloc, next(values)),
        grant_tokens: texts_in(alloc, next(values)),
    }
}

/// ListKeys.
pub fn list_keys(values: &mut VecDeque<Given>) -> Reading
    ensures { result ≡ asked.list_keys (held asked.list_keys_fields values.old.items) }
{
    Reading::ListKeys {
        page: page(values, 100),
    }
}

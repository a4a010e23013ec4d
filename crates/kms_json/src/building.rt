// An operation with its fields, from the values of the fields in their order.
ghost use Rattle.std.specs.Prelude.{◌≡◌, drop};
ghost use Rattle.kms_json.specs.Building.{first_of, held};
ghost use Rattle.kms_json.specs.Operations.{built, fields_of};
ghost use Rattle.kms_json.specs.PageAsks.{page_by};

mod aliases;
mod cryptography;
mod grants;
mod keys;
mod macs;
mod policies;
mod rotation;
mod states;
mod tags;

use crate::asks::AskBody::{Change, Read};
use crate::asks::{AskBody, Page};
use crate::given::{Given, number_or, text_if};
use crate::operations::Operation;
use std::alloc::Global;
use std::collections::VecDeque;

// Takes the first value; where none is left it isn't given.
fn next(values: &mut VecDeque<Given>) -> Given
    ensures value { result ≡ first_of values.old.items }
    ensures rest { values.new.items ≡ drop 1 values.old.items }
{
    match values.pop_front() {
        Some(value) => value,
        None => Given::Absent,
    }
}

// The part of a list of the next two fields; so many rows stand for a limit that isn't given.
fn page(values: &mut VecDeque<Given>, default: u64) -> Page
    ensures page { result ≡ page_by default (first_of values.old.items) (first_of (drop 1 values.old.items)) }
    ensures rest { values.new.items ≡ drop 1 (drop 1 values.old.items) }
{
    let limit = number_or(next(values), default);
    let marker = text_if(next(values));
    Page { limit, marker }
}

/// The operation with its fields.
pub fn asked_from(alloc: Global, operation: Operation, mut values: VecDeque<Given>) -> AskBody
    ensures { result ≡ built operation (held (fields_of operation) values.items) }
{
    let values = &mut values;
    match operation {
        Operation::CreateKey => Change(keys::create_key(alloc, values)),
        Operation::DescribeKey => Read(keys::describe_key(alloc, values)),
        Operation::ListKeys => Read(keys::list_keys(values)),
        Operation::PutKeyPolicy => Change(policies::put_key_policy(alloc, values)),
        Operation::GetKeyPolicy => Read(policies::get_key_policy(alloc, values)),
        Operation::ListKeyPolicies => Read(policies::list_key_policies(alloc, values)),
        Operation::UpdateKeyDescription => Change(keys::update_key_description(alloc, values)),
        Operation::EnableKey => Change(states::enable_key(alloc, values)),
        Operation::DisableKey => Change(states::disable_key(alloc, values)),
        Operation::ScheduleKeyDeletion => Change(states::schedule_key_deletion(alloc, values)),
        Operation::CancelKeyDeletion => Change(states::cancel_key_deletion(alloc, values)),
        Operation::EnableKeyRotation => Change(rotation::enable_key_rotation(alloc, values)),
        Operation::DisableKeyRotation => Change(rotation::disable_key_rotation(alloc, values)),
        Operation::RotateKeyOnDemand => Change(rotation::rotate_key_on_demand(alloc, values)),
        Operation::GetKeyRotationStatus => Read(rotation::get_key_rotation_status(alloc, values)),
        Operation::ListKeyRotations => Read(rotation::list_key_rotations(alloc, values)),
        Operation::CreateAlias => Change(aliases::create_alias(alloc, values)),
        Operation::UpdateAlias => Change(aliases::update_alias(alloc, values)),
        Operation::DeleteAlias => Change(aliases::delete_alias(alloc, values)),
        Operation::ListAliases => Read(aliases::list_aliases(values)),
        Operation::CreateGrant => Change(grants::create_grant(alloc, values)),
        Operation::RetireGrant => Change(grants::retire_grant(alloc, values)),
        Operation::RevokeGrant => Change(grants::revoke_grant(alloc, values)),
        Operation::ListGrants => Read(grants::list_grants(alloc, values)),
        Operation::ListRetirableGrants => Read(grants::list_retirable_grants(alloc, values)),
        Operation::Encrypt => Read(cryptography::encrypt(alloc, values)),
        Operation::Decrypt => Read(cryptography::decrypt(alloc, values)),
        Operation::ReEncrypt => Read(cryptography::re_encrypt(alloc, values)),
        Operation::GenerateDataKey => Read(cryptography::generate_data_key(alloc, values)),
        Operation::GenerateDataKeyWithoutPlaintext => Read(
            cryptography::generate_data_key_without_plaintext(alloc, values),
        ),
        Operation::GenerateRandom => Read(cryptography::generate_random(values)),
        Operation::GenerateMac => Read(macs::generate_mac(alloc, values)),
        Operation::VerifyMac => Read(macs::verify_mac(alloc, values)),
        Operation::TagResource => Change(tags::tag_resource(alloc, values)),
        Operation::UntagResource => Change(tags::untag_resource(alloc, values)),
        Operation::ListResourceTags => Read(tags::list_resource_tags(alloc, values)),
    }
}

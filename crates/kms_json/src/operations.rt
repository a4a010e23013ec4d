// The operations, and the fields that each of them takes.
ghost use Rattle.std.specs.Prelude.{◌≡◌, map};
ghost use Rattle.std.specs.Str.{bytes_eq};
ghost use Rattle.kms_json.specs.Operations.{target_of, name_row, operation_in, operation_named, fields_of};
ghost use Rattle.kms_json.specs.Fields.{row_of};

use crate::fields::Field;
use crate::tables::{
    KEY_ALONE, LIST_OF_KEY, aliases, cryptography, grants, keys, macs, policies, rotation, states,
    tags,
};

/// An operation of the AWS KMS API that this service serves.
#[derive(Clone, Copy)]
pub enum Operation {
    CreateKey,
    DescribeKey,
    ListKeys,
    PutKeyPolicy,
    GetKeyPolicy,
    ListKeyPolicies,
    UpdateKeyDescription,
    EnableKey,
    DisableKey,
    ScheduleKeyDeletion,
    CancelKeyDeletion,
    EnableKeyRotation,
    DisableKeyRotation,
    RotateKeyOnDemand,
    GetKeyRotationStatus,
    ListKeyRotations,
    CreateAlias,
    UpdateAlias,
    DeleteAlias,
    ListAliases,
    CreateGrant,
    RetireGrant,
    RevokeGrant,
    ListGrants,
    ListRetirableGrants,
    Encrypt,
    Decrypt,
    ReEncrypt,
    GenerateDataKey,
    GenerateDataKeyWithoutPlaintext,
    GenerateRandom,
    GenerateMac,
    VerifyMac,
    TagResource,
    UntagResource,
    ListResourceTags,
}

// The name of an operation.
#[derive(Clone, Copy)]
struct Name(&'static str, Operation);

const NAMES: [Name; 36] = [
    Name("CreateKey", Operation::CreateKey),
    Name("DescribeKey", Operation::DescribeKey),
    Name("ListKeys", Operation::ListKeys),
    Name("PutKeyPolicy", Operation::PutKeyPolicy),
    Name("GetKeyPolicy", Operation::GetKeyPolicy),
    Name("ListKeyPolicies", Operation::ListKeyPolicies),
    Name("UpdateKeyDescription", Operation::UpdateKeyDescription),
    Name("EnableKey", Operation::EnableKey),
    Name("DisableKey", Operation::DisableKey),
    Name("ScheduleKeyDeletion", Operation::ScheduleKeyDeletion),
    Name("CancelKeyDeletion", Operation::CancelKeyDeletion),
    Name("EnableKeyRotation", Operation::EnableKeyRotation),
    Name("DisableKeyRotation", Operation::DisableKeyRotation),
    Name("RotateKeyOnDemand", Operation::RotateKeyOnDemand),
    Name("GetKeyRotationStatus", Operation::GetKeyRotationStatus),
    Name("ListKeyRotations", Operation::ListKeyRotations),
    Name("CreateAlias", Operation::CreateAlias),
    Name("UpdateAlias", Operation::UpdateAlias),
    Name("DeleteAlias", Operation::DeleteAlias),
    Name("ListAliases", Operation::ListAliases),
    Name("CreateGrant", Operation::CreateGrant),
    Name("RetireGrant", Operation::RetireGrant),
    Name("RevokeGrant", Operation::RevokeGrant),
    Name("ListGrants", Operation::ListGrants),
    Name("ListRetirableGrants", Operation::ListRetirableGrants),
    Name("Encrypt", Operation::Encrypt),
    Name("Decrypt", Operation::Decrypt),
    Name("ReEncrypt", Operation::ReEncrypt),
    Name("GenerateDataKey", Operation::GenerateDataKey),
    Name(
        "GenerateDataKeyWithoutPlaintext",
        Operation::GenerateDataKeyWithoutPlaintext,
    ),
    Name("GenerateRandom", Operation::GenerateRandom),
    Name("GenerateMac", Operation::GenerateMac),
    Name("VerifyMac", Operation::VerifyMac),
    Name("TagResource", Operation::TagResource),
    Name("UntagResource", Operation::UntagResource),
    Name("ListResourceTags", Operation::ListResourceTags),
];

// Whether a value of X-Amz-Target is the service's name, a full stop and this name.
fn is_target_of(target: &[u8], name: &str) -> bool
    ensures { result ≡ bytes_eq target.now (target_of name.now) }
{
    match target.strip_prefix(b"TrentService.") {
        Some(rest) => rest == name.as_bytes(),
        None => false,
    }
}

fn named(names: &[Name], target: &[u8]) -> Option<Operation>
    ensures { result ≡ operation_in (map name_row names.now) target.now }
{
    for row in names {
        if is_target_of(target, row.0) {
            return Some(row.1);
        }
    }
    None
}

/// The operation that a value of the header X-Amz-Target names.
pub fn operation_of(target: &[u8]) -> Option<Operation>
    ensures { result ≡ operation_named target.now }
{
    named(&NAMES, target)
}

/// The fields of an operation's body, in the order in which they are judged.
pub fn fields(operation: Operation) -> &'static [Field]
    ensures { map row_of result.now ≡ fields_of operation }
{
    match operation {
        Operation::CreateKey => &keys::CREATE_KEY,
        Operation::DescribeKey => &keys::DESCRIBE_KEY,
        Operation::ListKeys => &keys::LIST_KEYS,
        Operation::PutKeyPolicy => &policies::PUT_KEY_POLICY,
        Operation::GetKeyPolicy => &policies::GET_KEY_POLICY,
        Operation::ListKeyPolicies => &LIST_OF_KEY,
        Operation::UpdateKeyDescription => &keys::UPDATE_KEY_DESCRIPTION,
        Operation::EnableKey => &KEY_ALONE,
        Operation::DisableKey => &KEY_ALONE,
        Operation::ScheduleKeyDeletion => &states::SCHEDULE_KEY_DELETION,
        Operation::CancelKeyDeletion => &KEY_ALONE,
        Operation::EnableKeyRotation => &rotation::ENABLE_KEY_ROTATION,
        Operation::DisableKeyRotation => &KEY_ALONE,
        Operation::RotateKeyOnDemand => &KEY_ALONE,
        Operation::GetKeyRotationStatus => &KEY_ALONE,
        Operation::ListKeyRotations => &LIST_OF_KEY,
        Operation::CreateAlias => &aliases::PUT_ALIAS,
        Operation::UpdateAlias => &aliases::PUT_ALIAS,
        Operation::DeleteAlias => &aliases::DELETE_ALIAS,
        Operation::ListAliases => &aliases::LIST_ALIASES,
        Operation::CreateGrant => &grants::CREATE_GRANT,
        Operation::RetireGrant => &grants::RETIRE_GRANT,
        Operation::RevokeGrant => &grants::REVOKE_GRANT,
        Operation::ListGrants => &grants::LIST_GRANTS,
        Operation::ListRetirableGrants => &grants::LIST_RETIRABLE_GRANTS,
        Operation::Encrypt => &cryptography::ENCRYPT,
        Operation::Decrypt => &cryptography::DECRYPT,
        Operation::ReEncrypt => &cryptography::RE_ENCRYPT,
        Operation::GenerateDataKey => &cryptography::GENERATE_DATA_KEY,
        Operation::GenerateDataKeyWithoutPlaintext =>
            &cryptography::GENERATE_DATA_KEY_WITHOUT_PLAINTEXT,
        Operation::GenerateRandom => &cryptography::GENERATE_RANDOM,
        Operation::GenerateMac => &macs::GENERATE_MAC,
        Operation::VerifyMac => &macs::VERIFY_MAC,
        Operation::TagResource => &tags::TAG_RESOURCE,
        Operation::UntagResource => &tags::UNTAG_RESOURCE,
        Operation::ListResourceTags => &tags::LIST_RESOURCE_TAGS,
    }
}

ghost use Rattle.std.specs.Prelude.{◌≡◌, IfOk};
ghost use Rattle.kms_names.specs.Action.{action_name, action_number, action_text};

use crate::faults::NoMemory;
use crate::parts::after;

/// The name of an operation, with `ReEncryptFrom` and `ReEncryptTo` for `ReEncrypt`. The order is that in which they
/// were built: `ReEncryptTo` stands behind the first of them, and those on MACs and on tags behind it.
#[derive(Clone, Copy)]
pub enum Action {
    CreateKey,
    DescribeKey,
    ListKeys,
    EnableKey,
    DisableKey,
    ScheduleKeyDeletion,
    CancelKeyDeletion,
    EnableKeyRotation,
    DisableKeyRotation,
    GetKeyRotationStatus,
    RotateKeyOnDemand,
    ListKeyRotations,
    PutKeyPolicy,
    GetKeyPolicy,
    ListKeyPolicies,
    UpdateKeyDescription,
    CreateAlias,
    UpdateAlias,
    DeleteAlias,
    ListAliases,
    CreateGrant,
    ListGrants,
    ListRetirableGrants,
    RetireGrant,
    RevokeGrant,
    Encrypt,
    Decrypt,
    ReEncryptFrom,
    GenerateDataKey,
    GenerateDataKeyWithoutPlaintext,
    GenerateRandom,
    ReEncryptTo,
    GenerateMac,
    VerifyMac,
    TagResource,
    UntagResource,
    ListResourceTags,
}

impl Action {
    /// All actions in order.
    pub const ALL: [Action; 37] = [
        Action::CreateKey,
        Action::DescribeKey,
        Action::ListKeys,
        Action::EnableKey,
        Action::DisableKey,
        Action::ScheduleKeyDeletion,
        Action::CancelKeyDeletion,
        Action::EnableKeyRotation,
        Action::DisableKeyRotation,
        Action::GetKeyRotationStatus,
        Action::RotateKeyOnDemand,
        Action::ListKeyRotations,
        Action::PutKeyPolicy,
        Action::GetKeyPolicy,
        Action::ListKeyPolicies,
        Action::UpdateKeyDescription,
        Action::CreateAlias,
        Action::UpdateAlias,
        Action::DeleteAlias,
        Action::ListAliases,
        Action::CreateGrant,
        Action::ListGrants,
        Action::ListRetirableGrants,
        Action::RetireGrant,
        Action::RevokeGrant,
        Action::Encrypt,
        Action::Decrypt,
        Action::ReEncryptFrom,
        Action::GenerateDataKey,
        Action::GenerateDataKeyWithoutPlaintext,
        Action::GenerateRandom,
        Action::ReEncryptTo,
        Action::GenerateMac,
        Action::VerifyMac,
        Action::TagResource,
        Action::UntagResource,
        Action::ListResourceTags,
    ];

    /// A copy that equals its source; no memory is taken.
    pub fn copy(&self) -> Result<Action, NoMemory>
        ensures { IfOk result (λ x. x ≡ self.now) }
    {
        Ok(*self)
    }

    /// The place in that order, counted from 0.
    pub fn number(self) -> u32
        ensures { result ≡ action_number self }
    {
        self as u32
    }

    /// The printed name, as it stands behind `kms:`.
    pub fn name(self) -> &'static str
        ensures { result.now ≡ action_name self }
    {
        match after(self.text(), "kms:") {
            Some(name) => name,
            None => unreachable!(),
        }
    }

    /// The text that the globs of policies are matched with: `kms:` and the name.
    pub fn text(self) -> &'static str
        ensures { result.now ≡ action_text self }
    {
        match self {
            Action::CreateKey => "kms:CreateKey",
            Action::DescribeKey => "kms:DescribeKey",
            Action::ListKeys => "kms:ListKeys",
            Action::EnableKey => "kms:EnableKey",
            Action::DisableKey => "kms:DisableKey",
            Action::ScheduleKeyDeletion => "kms:ScheduleKeyDeletion",
            Action::CancelKeyDeletion => "kms:CancelKeyDeletion",
            Action::EnableKeyRotation => "kms:EnableKeyRotation",
            Action::DisableKeyRotation => "kms:DisableKeyRotation",
            Action::GetKeyRotationStatus => "kms:GetKeyRotationStatus",
            Action::RotateKeyOnDemand => "kms:RotateKeyOnDemand",
            Action::ListKeyRotations => "kms:ListKeyRotations",
            Action::PutKeyPolicy => "kms:PutKeyPolicy",
            Action::GetKeyPolicy => "kms:GetKeyPolicy",
            Action::ListKeyPolicies => "kms:ListKeyPolicies",
            Action::UpdateKeyDescription => "kms:UpdateKeyDescription",
            Action::CreateAlias => "kms:CreateAlias",
            Action::UpdateAlias => "kms:UpdateAlias",
            Action::DeleteAlias => "kms:DeleteAlias",
            Action::ListAliases => "kms:ListAliases",
            Action::CreateGrant => "kms:CreateGrant",
            Action::ListGrants => "kms:ListGrants",
            Action::ListRetirableGrants => "kms:ListRetirableGrants",
            Action::RetireGrant => "kms:RetireGrant",
            Action::RevokeGrant => "kms:RevokeGrant",
            Action::Encrypt => "kms:Encrypt",
            Action::Decrypt => "kms:Decrypt",
            Action::ReEncryptFrom => "kms:ReEncryptFrom",
            Action::GenerateDataKey => "kms:GenerateDataKey",
            Action::GenerateDataKeyWithoutPlaintext => "kms:GenerateDataKeyWithoutPlaintext",
            Action::GenerateRandom => "kms:GenerateRandom",
            Action::ReEncryptTo => "kms:ReEncryptTo",
            Action::GenerateMac => "kms:GenerateMac",
            Action::VerifyMac => "kms:VerifyMac",
            Action::TagResource => "kms:TagResource",
            Action::UntagResource => "kms:UntagResource",
            Action::ListResourceTags => "kms:ListResourceTags",
        }
    }
}

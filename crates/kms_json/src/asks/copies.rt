// Copies of what is asked.
ghost use Rattle.std.specs.Prelude.{◌≡◌, IfOk};

use super::pages::copied;
use super::{AskBody, Changing, Reading};
use kms_names::NoMemory;

impl Changing {
    /// A copy that equals its source.
    pub fn copy(&self) -> Result<Changing, NoMemory>
        ensures { IfOk result (λ body. body ≡ self.now) }
    {
        Ok(match self {
            Changing::CreateKey(fields) => Changing::CreateKey(fields.copy()?),
            Changing::PutKeyPolicy {
                key_id,
                policy,
                bypass_lockout_check,
            } => Changing::PutKeyPolicy {
                key_id: key_id.copy()?,
                policy: policy.copy()?,
                bypass_lockout_check: *bypass_lockout_check,
            },
            Changing::UpdateKeyDescription {
                key_id,
                description,
            } => Changing::UpdateKeyDescription {
                key_id: key_id.copy()?,
                description: description.copy()?,
            },
            Changing::EnableKey { key_id } => Changing::EnableKey {
                key_id: key_id.copy()?,
            },
            Changing::DisableKey { key_id } => Changing::DisableKey {
                key_id: key_id.copy()?,
            },
            Changing::ScheduleKeyDeletion { key_id, days } => Changing::ScheduleKeyDeletion {
                key_id: key_id.copy()?,
                days: *days,
            },
            Changing::CancelKeyDeletion { key_id } => Changing::CancelKeyDeletion {
                key_id: key_id.copy()?,
            },
            Changing::EnableKeyRotation { key_id, period } => Changing::EnableKeyRotation {
                key_id: key_id.copy()?,
                period: *period,
            },
            Changing::DisableKeyRotation { key_id } => Changing::DisableKeyRotation {
                key_id: key_id.copy()?,
            },
            Changing::RotateKeyOnDemand { key_id } => Changing::RotateKeyOnDemand {
                key_id: key_id.copy()?,
            },
            Changing::CreateAlias { alias, key_id } => Changing::CreateAlias {
                alias: alias.copy()?,
                key_id: key_id.copy()?,
            },
            Changing::UpdateAlias { alias, key_id } => Changing::UpdateAlias {
                alias: alias.copy()?,
                key_id: key_id.copy()?,
            },
            Changing::DeleteAlias { alias } => Changing::DeleteAlias {
                alias: alias.copy()?,
            },
            Changing::CreateGrant(fields) => Changing::CreateGrant(fields.copy()?),
            Changing::RetireGrant { grant, dry_run } => Changing::RetireGrant {
                grant: grant.copy()?,
                dry_run: *dry_run,
            },
            Changing::RevokeGrant {
                key_id,
                grant_id,
                dry_run,
            } => Changing::RevokeGrant {
                key_id: key_id.copy()?,
                grant_id: grant_id.copy()?,
                dry_run: *dry_run,
            },
            Changing::TagResource { key_id, tags } => Changing::TagResource {
                key_id: key_id.copy()?,
                tags: tags.copy()?,
            },
            Changing::UntagResource { key_id, keys } => Changing::UntagResource {
                key_id: key_id.copy()?,
                keys: keys.copy()?,
            },
        })
    }
}

impl Reading {
    /// A copy that equals its source.
    pub fn copy(&self) -> Result<Reading, NoMemory>
        ensures { IfOk result (λ body. body ≡ self.now) }
    {
        Ok(match self {
            Reading::DescribeKey {
                key_id,
                grant_tokens,
            } => Reading::DescribeKey {
                key_id: key_id.copy()?,
                grant_tokens: grant_tokens.copy()?,
            },
            Reading::ListKeys { page } => Reading::ListKeys { page: page.copy()? },
            Reading::ListKeyPolicies { key_id, page } => Reading::ListKeyPolicies {
                key_id: key_id.copy()?,
                page: page.copy()?,
            },
            Reading::ListKeyRotations { key_id, page } => Reading::ListKeyRotations {
                key_id: key_id.copy()?,
                page: page.copy()?,
            },
            Reading::ListAliases { key_id, page } => Reading::ListAliases {
                key_id: copied(key_id)?,
                page: page.copy()?,
            },
            Reading::ListGrants(fields) => Reading::ListGrants(fields.copy()?),
            Reading::ListRetirableGrants { retiring, page } => Reading::ListRetirableGrants {
                retiring: retiring.copy()?,
                page: page.copy()?,
            },
            Reading::GetKeyPolicy { key_id } => Reading::GetKeyPolicy {
                key_id: key_id.copy()?,
            },
            Reading::GetKeyRotationStatus { key_id } => Reading::GetKeyRotationStatus {
                key_id: key_id.copy()?,
            },
            Reading::Encrypt(fields) => Reading::Encrypt(fields.copy()?),
            Reading::Decrypt(fields) => Reading::Decrypt(fields.copy()?),
            Reading::ReEncrypt(fields) => Reading::ReEncrypt(fields.copy()?),
            Reading::GenerateDataKey { key, recipient } => Reading::GenerateDataKey {
                key: key.copy()?,
                recipient: *recipient,
            },
            Reading::GenerateDataKeyWithoutPlaintext(fields) =>
                Reading::GenerateDataKeyWithoutPlaintext(fields.copy()?),
            Reading::GenerateRandom {
                size,
                custom_key_store,
                recipient,
            } => Reading::GenerateRandom {
                size: *size,
                custom_key_store: *custom_key_store,
                recipient: *recipient,
            },
            Reading::GenerateMac(fields) => Reading::GenerateMac(fields.copy()?),
            Reading::VerifyMac(fields) => Reading::VerifyMac(fields.copy()?),
            Reading::ListResourceTags { key_id, page } => Reading::ListResourceTags {
                key_id: key_id.copy()?,
                page: page.copy()?,
            },
        })
    }
}

impl AskBody {
    /// A copy that equals its source.
    pub fn copy(&self) -> Result<AskBody, NoMemory>
        ensures { IfOk result (λ body. body ≡ self.now) }
    {
        match self {
            AskBody::Change(body) => Ok(AskBody::Change(body.copy()?)),
            AskBody::Read(body) => Ok(AskBody::Read(body.copy()?)),
        }
    }
}

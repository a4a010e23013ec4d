// What replies say.
mod lists;

use crate::refusals::Refusal;
use crate::states::KeyState;
use hmac_keys::KeyKind;
use kms_names::{AccountNumber, Bytes, GrantId, KeyId, Text};
pub use lists::{
    AliasList, AliasPage, GrantList, GrantPage, KeyIdList, KeyPage, ListedAlias, ListedGrant,
    Rotation, RotationList, RotationPage, TagPage,
};

/// The name of the one key spec, and of the one algorithm, of symmetric keys (AWS KMS API Reference,
/// KeyMetadata).
pub const SYMMETRIC_DEFAULT: &str = "SYMMETRIC_DEFAULT";

/// The name of the one algorithm of HMAC keys (AWS KMS API Reference, KeyMetadata).
pub const HMAC_SHA_256: &str = "HMAC_SHA_256";

/// A key as replies describe it (AWS KMS API Reference, KeyMetadata).
#[derive(Drop)]
pub struct KeyMetadata {
    /// The account of the service.
    pub account: AccountNumber,
    /// The region of the service.
    pub region: Text,
    /// The key's id.
    pub key: KeyId,
    /// Its kind.
    pub kind: KeyKind,
    /// When it was made, in seconds since 1970.
    pub created: u64,
    /// Its description.
    pub description: Text,
    /// Its state.
    pub state: KeyState,
}

/// A key's automatic rotation (AWS KMS API Reference, GetKeyRotationStatus).
#[derive(Clone, Copy)]
pub struct AutomaticRotation {
    /// When the next rotation is due, in seconds since 1970.
    pub next: u64,
    /// The days from one rotation to the next.
    pub period: u32,
}

/// What a request is answered.
pub enum Reply {
    /// The body has the one member KeyMetadata.
    Metadata(KeyMetadata),
    /// What GetKeyPolicy answers: the policy's text.
    KeyPolicy {
        policy: Text,
    },
    /// What ScheduleKeyDeletion answers: the key's ARN, when it is to be deleted, in seconds since 1970,
    /// and the days that it waits.
    DeletionScheduled {
        arn: Text,
        deletion_date: u64,
        days: u64,
    },
    /// What CancelKeyDeletion answers: the key's ARN.
    DeletionCancelled {
        arn: Text,
    },
    /// What RotateKeyOnDemand answers.
    Rotated {
        key: KeyId,
    },
    /// What GetKeyRotationStatus answers: the key, and its automatic rotation, where that is enabled.
    RotationStatus {
        key: KeyId,
        rotation: Option<AutomaticRotation>,
    },
    /// What ListKeys answers.
    Keys(KeyPage),
    /// What ListKeyPolicies answers: the one name of a key's policy.
    KeyPolicyNames,
    /// What ListKeyRotations answers.
    Rotations(RotationPage),
    /// What ListAliases answers.
    Aliases(AliasPage),
    /// What CreateGrant answers. The token of a grant is the text of its id.
    Granted {
        grant: GrantId,
    },
    /// What ListGrants and ListRetirableGrants answer.
    Grants(GrantPage),
    /// What Encrypt answers: the sealed text, and the ARN of its key.
    Encrypted {
        blob: Bytes,
        arn: Text,
    },
    /// What Decrypt answers: the plaintext, and the ARN of the key that it was sealed under.
    Decrypted {
        plaintext: Bytes,
        arn: Text,
    },
    /// What ReEncrypt answers: the text sealed anew, and the ARNs of its key and of the one before.
    ReEncrypted {
        blob: Bytes,
        arn: Text,
        source_arn: Text,
    },
    /// What GenerateDataKey answers: the data key, sealed and plain, and the ARN of the key that seals it.
    DataKey {
        blob: Bytes,
        plaintext: Bytes,
        arn: Text,
    },
    /// What GenerateDataKeyWithoutPlaintext answers: the data key sealed, and the ARN of its key.
    SealedDataKey {
        blob: Bytes,
        arn: Text,
    },
    /// What GenerateRandom answers.
    Random {
        plaintext: Bytes,
    },
    /// What GenerateMac answers: the MAC, and the ARN of its key.
    Mac {
        mac: Bytes,
        arn: Text,
    },
    /// What VerifyMac answers where the MAC is valid: the ARN of its key.
    MacValid {
        arn: Text,
    },
    /// What ListResourceTags answers.
    Tags(TagPage),
    /// The request is served, and the body has no members.
    Done,
    /// The request isn't served.
    Refused(Refusal),
}

impl Reply {
    ghost use Rattle.std.specs.Prelude.{◌≡◌};
    ghost use Rattle.kms_json.specs.Replies.{status_of};

    /// The HTTP status (RFC 9110, section 15). It takes no memory.
    pub fn status(&self) -> u16
        ensures { result ≡ status_of self.now }
    {
        match self {
            Reply::Refused(refusal) => refusal.status(),
            _ => 200,
        }
    }
}

// Each crate that lets a reply go calls this one drop, and doesn't take the reply apart itself.
impl Drop for Reply {
    fn drop(self) {
        match self {
            Reply::Metadata(_) => {}
            Reply::KeyPolicy { policy: _ } => {}
            Reply::DeletionScheduled {
                arn: _,
                deletion_date: _,
                days: _,
            } => {}
            Reply::DeletionCancelled { arn: _ } => {}
            Reply::Rotated { key: _ } => {}
            Reply::RotationStatus {
                key: _,
                rotation: _,
            } => {}
            Reply::Keys(_) => {}
            Reply::KeyPolicyNames => {}
            Reply::Rotations(_) => {}
            Reply::Aliases(_) => {}
            Reply::Granted { grant: _ } => {}
            Reply::Grants(_) => {}
            Reply::Encrypted { blob: _, arn: _ } => {}
            Reply::Decrypted {
                plaintext: _,
                arn: _,
            } => {}
            Reply::ReEncrypted {
                blob: _,
                arn: _,
                source_arn: _,
            } => {}
            Reply::DataKey {
                blob: _,
                plaintext: _,
                arn: _,
            } => {}
            Reply::SealedDataKey { blob: _, arn: _ } => {}
            Reply::Random { plaintext: _ } => {}
            Reply::Mac { mac: _, arn: _ } => {}
            Reply::MacValid { arn: _ } => {}
            Reply::Tags(_) => {}
            Reply::Done => {}
            Reply::Refused(_) => {}
        }
    }
}

// What a request asks.
ghost use Rattle.std.specs.Prelude.{◌≡◌};
ghost use Rattle.kms_json.specs.Asks.{changes_account};

mod copies;
mod cryptography;
mod grants;
mod keys;
mod macs;
mod pages;

pub use cryptography::{DataKey, Decrypt, Encrypt, ReEncrypt};
pub use grants::{CreateGrant, GrantConstraint, ListGrants, RetiredGrant};
pub use keys::CreateKey;
use kms_names::{NoMemory, Principal, Text, TextList};
pub use macs::{GenerateMac, VerifyMac};
pub use pages::Page;
use resource_tags::TagList;

/// An operation that changes the account, with its fields.
#[derive(Drop)]
pub enum Changing {
    /// CreateKey.
    CreateKey(CreateKey),
    /// PutKeyPolicy: the reference to the key, a text of 1 to 2,048 bytes; its new policy, of 1 byte or
    /// more; and whether the caller may lock itself out by it.
    PutKeyPolicy {
        key_id: Text,
        policy: Text,
        bypass_lockout_check: bool,
    },
    /// UpdateKeyDescription: the reference to the key, a text of 1 to 2,048 bytes, and its new
    /// description, at most 8,192 bytes.
    UpdateKeyDescription {
        key_id: Text,
        description: Text,
    },
    /// EnableKey of the key that `key_id` refers to, a text of 1 to 2,048 bytes.
    EnableKey {
        key_id: Text,
    },
    /// DisableKey of the key that `key_id` refers to, a text of 1 to 2,048 bytes.
    DisableKey {
        key_id: Text,
    },
    /// ScheduleKeyDeletion: the reference to the key, a text of 1 to 2,048 bytes, and after how many
    /// days it is to be deleted, 7 to 30; 30 where it isn't given.
    ScheduleKeyDeletion {
        key_id: Text,
        days: u64,
    },
    /// CancelKeyDeletion of the key that `key_id` refers to, a text of 1 to 2,048 bytes.
    CancelKeyDeletion {
        key_id: Text,
    },
    /// EnableKeyRotation: the reference to the key, a text of 1 to 2,048 bytes, and the days from one
    /// rotation to the next, 90 to 2,560; 365 where they aren't given.
    EnableKeyRotation {
        key_id: Text,
        period: u64,
    },
    /// DisableKeyRotation of the key that `key_id` refers to, a text of 1 to 2,048 bytes.
    DisableKeyRotation {
        key_id: Text,
    },
    /// RotateKeyOnDemand of the key that `key_id` refers to, a text of 1 to 2,048 bytes.
    RotateKeyOnDemand {
        key_id: Text,
    },
    /// CreateAlias: the alias name, and the reference to the key that it is to name, a text of 1 to
    /// 2,048 bytes.
    CreateAlias {
        alias: Text,
        key_id: Text,
    },
    /// UpdateAlias: the alias name, and the reference to the key that it is to name from now on, a text
    /// of 1 to 2,048 bytes.
    UpdateAlias {
        alias: Text,
        key_id: Text,
    },
    /// DeleteAlias of this alias name.
    DeleteAlias {
        alias: Text,
    },
    /// CreateGrant.
    CreateGrant(CreateGrant),
    /// RetireGrant: which grant, and whether the call is only to say what it would answer.
    RetireGrant {
        grant: RetiredGrant,
        dry_run: bool,
    },
    /// RevokeGrant: the reference to the grant's key, a text of 1 to 2,048 bytes; the grant's id; and
    /// whether the call is only to say what it would answer.
    RevokeGrant {
        key_id: Text,
        grant_id: Text,
        dry_run: bool,
    },
    /// TagResource: the reference to the key, a text of 1 to 2,048 bytes, and at most 50 tags, with keys
    /// of 1 to 128 characters and values of at most 256.
    TagResource {
        key_id: Text,
        tags: TagList,
    },
    /// UntagResource: the reference to the key, a text of 1 to 2,048 bytes, and 1 to 50 keys of tags, of
    /// 1 to 128 characters.
    UntagResource {
        key_id: Text,
        keys: TextList,
    },
}

/// An operation that doesn't change the account, with its fields.
#[derive(Drop)]
pub enum Reading {
    /// DescribeKey of the key that `key_id` refers to, a text of 1 to 2,048 bytes, with at most 10 grant
    /// tokens.
    DescribeKey {
        key_id: Text,
        grant_tokens: TextList,
    },
    /// ListKeys: at most 1,000 keys, 100 where no limit is given.
    ListKeys {
        page: Page,
    },
    /// ListKeyPolicies of the key that `key_id` refers to, a text of 1 to 2,048 bytes: at most 1,000
    /// names, 100 where no limit is given.
    ListKeyPolicies {
        key_id: Text,
        page: Page,
    },
    /// ListKeyRotations of the key that `key_id` refers to, a text of 1 to 2,048 bytes: at most 1,000
    /// rotations, 100 where no limit is given.
    ListKeyRotations {
        key_id: Text,
        page: Page,
    },
    /// ListAliases, of the key that `key_id` refers to, a text of 1 to 2,048 bytes, where it is given: at
    /// most 100 aliases, 50 where no limit is given.
    ListAliases {
        key_id: Option<Text>,
        page: Page,
    },
    /// ListGrants.
    ListGrants(ListGrants),
    /// ListRetirableGrants of the retiring principal, a text of 1 to 256 bytes: at most 100 grants, 50
    /// where no limit is given.
    ListRetirableGrants {
        retiring: Text,
        page: Page,
    },
    /// GetKeyPolicy of the key that `key_id` refers to, a text of 1 to 2,048 bytes.
    GetKeyPolicy {
        key_id: Text,
    },
    /// GetKeyRotationStatus of the key that `key_id` refers to, a text of 1 to 2,048 bytes.
    GetKeyRotationStatus {
        key_id: Text,
    },
    /// Encrypt.
    Encrypt(Encrypt),
    /// Decrypt.
    Decrypt(Decrypt),
    /// ReEncrypt.
    ReEncrypt(ReEncrypt),
    /// GenerateDataKey, and whether a recipient is given.
    GenerateDataKey {
        key: DataKey,
        recipient: bool,
    },
    /// GenerateDataKeyWithoutPlaintext.
    GenerateDataKeyWithoutPlaintext(DataKey),
    /// GenerateRandom of 1 to 1,024 bytes, and whether a custom key store and a recipient are given.
    GenerateRandom {
        size: u64,
        custom_key_store: bool,
        recipient: bool,
    },
    /// GenerateMac.
    GenerateMac(GenerateMac),
    /// VerifyMac.
    VerifyMac(VerifyMac),
    /// ListResourceTags of the key that `key_id` refers to, a text of 1 to 2,048 bytes: at most 50 tags,
    /// 50 where no limit is given.
    ListResourceTags {
        key_id: Text,
        page: Page,
    },
}

/// An operation with its fields: one that changes the account, or one that reads it.
pub enum AskBody {
    /// It changes the account.
    Change(Changing),
    /// It reads the account.
    Read(Reading),
}

// Each crate that lets a request go calls this one drop, and doesn't take the request apart itself.
impl Drop for AskBody {
    fn drop(self) {
        match self {
            AskBody::Change(body) => drop(body),
            AskBody::Read(body) => drop(body),
        }
    }
}

/// A request as the account is asked it.
#[derive(Drop)]
pub struct Ask {
    /// The operation with its fields.
    pub body: AskBody,
    /// Who asks.
    pub caller: Principal,
    /// The clock's answer, in seconds since 1970.
    pub moment: u64,
    /// The number of entries that the history is to have at least.
    pub after: Option<u64>,
}

impl Ask {
    ghost use Rattle.std.specs.Prelude.{◌≡◌};
    ghost use Rattle.kms_json.specs.Asks.{changes_account};

    /// Whether the operation changes the account. It takes no memory.
    pub fn changes(&self) -> bool
        ensures { result ≡ changes_account self.now.body }
    {
        matches!(&self.body, AskBody::Change(_))
    }
}

/// Why a body asks nothing.
#[derive(Debug, Drop)]
pub enum JsonFault {
    /// X-Amz-Target names no operation that is built.
    UnknownOperation,
    /// The body is no JSON object, or a known member has another type.
    Serialization,
    /// The field of this name isn't valid.
    Validation(Text),
    /// The alias name isn't one.
    AliasName,
    /// A growth of memory was refused.
    NoMemory,
}

impl From<NoMemory> for JsonFault {
    ghost use Rattle.std.specs.Prelude.{◌≡◌};
    ghost use Rattle.kms_json.specs.declared.asks.JsonFault.TheVariants.{NoMemory as OutOfMemory};

    ghost from_gives = { λ _ e. e ≡ OutOfMemory };

    fn from(_e: NoMemory) -> JsonFault {
        JsonFault::NoMemory
    }
}

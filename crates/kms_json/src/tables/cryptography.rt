// The fields of the operations that use keys.
use super::{GRANT_TOKENS, KEY_REFERENCE};
use crate::fields::{Field, Kind, Presence};

const PLAINTEXT: Kind = Kind::Bytes {
    least: 1,
    most: 4096,
};

const CIPHERTEXT: Kind = Kind::Bytes {
    least: 1,
    most: 6144,
};

const DATA_SIZE: Kind = Kind::Whole {
    least: 1,
    most: 1024,
};

pub static ENCRYPT: [Field; 6] = [
    Field("KeyId", KEY_REFERENCE, Presence::Required),
    Field("Plaintext", PLAINTEXT, Presence::Required),
    Field("EncryptionContext", Kind::Context, Presence::Optional),
    Field("GrantTokens", GRANT_TOKENS, Presence::Optional),
    Field("EncryptionAlgorithm", Kind::AnyText, Presence::Optional),
    Field("DryRun", Kind::Flag, Presence::Optional),
];

pub static DECRYPT: [Field; 7] = [
    Field("CiphertextBlob", CIPHERTEXT, Presence::Required),
    Field("EncryptionContext", Kind::Context, Presence::Optional),
    Field("GrantTokens", GRANT_TOKENS, Presence::Optional),
    Field("KeyId", KEY_REFERENCE, Presence::Optional),
    Field("EncryptionAlgorithm", Kind::AnyText, Presence::Optional),
    Field("Recipient", Kind::Object, Presence::Optional),
    Field("DryRun", Kind::Flag, Presence::Optional),
];

pub static RE_ENCRYPT: [Field; 9] = [
    Field("CiphertextBlob", CIPHERTEXT, Presence::Required),
    Field("SourceEncryptionContext", Kind::Context, Presence::Optional),
    Field("SourceKeyId", KEY_REFERENCE, Presence::Optional),
    Field("DestinationKeyId", KEY_REFERENCE, Presence::Required),
    Field(
        "DestinationEncryptionContext",
        Kind::Context,
        Presence::Optional,
    ),
    Field(
        "SourceEncryptionAlgorithm",
        Kind::AnyText,
        Presence::Optional,
    ),
    Field(
        "DestinationEncryptionAlgorithm",
        Kind::AnyText,
        Presence::Optional,
    ),
    Field("GrantTokens", GRANT_TOKENS, Presence::Optional),
    Field("DryRun", Kind::Flag, Presence::Optional),
];

pub static GENERATE_DATA_KEY: [Field; 7] = [
    Field("KeyId", KEY_REFERENCE, Presence::Required),
    Field("EncryptionContext", Kind::Context, Presence::Optional),
    Field("NumberOfBytes", DATA_SIZE, Presence::InsteadOf("KeySpec")),
    Field("KeySpec", Kind::DataKeySpec, Presence::Optional),
    Field("GrantTokens", GRANT_TOKENS, Presence::Optional),
    Field("Recipient", Kind::Object, Presence::Optional),
    Field("DryRun", Kind::Flag, Presence::Optional),
];

pub static GENERATE_DATA_KEY_WITHOUT_PLAINTEXT: [Field; 6] = [
    Field("KeyId", KEY_REFERENCE, Presence::Required),
    Field("EncryptionContext", Kind::Context, Presence::Optional),
    Field("KeySpec", Kind::DataKeySpec, Presence::Optional),
    Field("NumberOfBytes", DATA_SIZE, Presence::InsteadOf("KeySpec")),
    Field("GrantTokens", GRANT_TOKENS, Presence::Optional),
    Field("DryRun", Kind::Flag, Presence::Optional),
];

pub static GENERATE_RANDOM: [Field; 3] = [
    Field("NumberOfBytes", DATA_SIZE, Presence::Required),
    Field("CustomKeyStoreId", Kind::AnyText, Presence::Optional),
    Field("Recipient", Kind::Object, Presence::Optional),
];

// The fields of the operations on keys.
use super::{GRANT_TOKENS, KEY_REFERENCE, MANY_ROWS, MARKER};
use crate::fields::{Field, Kind, Presence};

const DESCRIPTION: Kind = Kind::Text {
    least: 0,
    most: 8192,
};

pub static CREATE_KEY: [Field; 11] = [
    Field("Policy", Kind::SomeText, Presence::Optional),
    Field("Description", DESCRIPTION, Presence::Optional),
    Field("KeyUsage", Kind::AnyText, Presence::Optional),
    Field("CustomerMasterKeySpec", Kind::AnyText, Presence::Optional),
    Field("KeySpec", Kind::AnyText, Presence::Optional),
    Field("Origin", Kind::AnyText, Presence::Optional),
    Field("CustomKeyStoreId", Kind::AnyText, Presence::Optional),
    Field(
        "BypassPolicyLockoutSafetyCheck",
        Kind::Flag,
        Presence::Optional,
    ),
    Field("Tags", Kind::Tags, Presence::Optional),
    Field("MultiRegion", Kind::Flag, Presence::Optional),
    Field("XksKeyId", Kind::AnyText, Presence::Optional),
];

pub static UPDATE_KEY_DESCRIPTION: [Field; 2] = [
    Field("KeyId", KEY_REFERENCE, Presence::Required),
    Field("Description", DESCRIPTION, Presence::Required),
];

pub static DESCRIBE_KEY: [Field; 2] = [
    Field("KeyId", KEY_REFERENCE, Presence::Required),
    Field("GrantTokens", GRANT_TOKENS, Presence::Optional),
];

pub static LIST_KEYS: [Field; 2] = [
    Field("Limit", MANY_ROWS, Presence::Optional),
    Field("Marker", MARKER, Presence::Optional),
];

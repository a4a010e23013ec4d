// The fields of the operations on MACs.
use super::{GRANT_TOKENS, KEY_REFERENCE};
use crate::fields::{Field, Kind, Presence};

const MESSAGE: Kind = Kind::Bytes {
    least: 1,
    most: 4096,
};

const MAC: Kind = Kind::Bytes {
    least: 1,
    most: 6144,
};

pub static GENERATE_MAC: [Field; 5] = [
    Field("Message", MESSAGE, Presence::Required),
    Field("KeyId", KEY_REFERENCE, Presence::Required),
    Field("MacAlgorithm", Kind::AnyText, Presence::Required),
    Field("GrantTokens", GRANT_TOKENS, Presence::Optional),
    Field("DryRun", Kind::Flag, Presence::Optional),
];

pub static VERIFY_MAC: [Field; 6] = [
    Field("Message", MESSAGE, Presence::Required),
    Field("KeyId", KEY_REFERENCE, Presence::Required),
    Field("MacAlgorithm", Kind::AnyText, Presence::Required),
    Field("Mac", MAC, Presence::Required),
    Field("GrantTokens", GRANT_TOKENS, Presence::Optional),
    Field("DryRun", Kind::Flag, Presence::Optional),
];

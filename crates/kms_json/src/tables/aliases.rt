// The fields of the operations on aliases.
use super::{FEW_ROWS, KEY_REFERENCE, MARKER};
use crate::fields::{Field, Kind, Presence};

/// The fields of an operation that says which key an alias names.
pub static PUT_ALIAS: [Field; 2] = [
    Field("AliasName", Kind::AliasName, Presence::Required),
    Field("TargetKeyId", KEY_REFERENCE, Presence::Required),
];

pub static DELETE_ALIAS: [Field; 1] = [Field("AliasName", Kind::AliasName, Presence::Required)];

pub static LIST_ALIASES: [Field; 3] = [
    Field("KeyId", KEY_REFERENCE, Presence::Optional),
    Field("Limit", FEW_ROWS, Presence::Optional),
    Field("Marker", MARKER, Presence::Optional),
];

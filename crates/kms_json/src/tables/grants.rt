// The fields of the operations on grants.
use super::{FEW_ROWS, GRANT_TOKENS, KEY_REFERENCE, MARKER};
use crate::fields::{Field, Kind, Presence};

const PRINCIPAL: Kind = Kind::Text {
    least: 1,
    most: 256,
};

pub static CREATE_GRANT: [Field; 8] = [
    Field("KeyId", KEY_REFERENCE, Presence::Required),
    Field("GranteePrincipal", PRINCIPAL, Presence::Required),
    Field("RetiringPrincipal", PRINCIPAL, Presence::Optional),
    Field("Operations", Kind::GrantOperations, Presence::Required),
    Field("Constraints", Kind::GrantConstraint, Presence::Optional),
    Field("GrantTokens", GRANT_TOKENS, Presence::Optional),
    Field("Name", Kind::GrantName, Presence::Optional),
    Field("DryRun", Kind::Flag, Presence::Optional),
];

/// A grant to be retired is named by its token alone, or by its key and its id.
pub static RETIRE_GRANT: [Field; 4] = [
    Field(
        "GrantToken",
        Kind::AnyText,
        Presence::InsteadOfBoth("KeyId", "GrantId"),
    ),
    Field("KeyId", KEY_REFERENCE, Presence::Optional),
    Field("GrantId", Kind::AnyText, Presence::Optional),
    Field("DryRun", Kind::Flag, Presence::Optional),
];

pub static REVOKE_GRANT: [Field; 3] = [
    Field("KeyId", KEY_REFERENCE, Presence::Required),
    Field("GrantId", Kind::AnyText, Presence::Required),
    Field("DryRun", Kind::Flag, Presence::Optional),
];

pub static LIST_GRANTS: [Field; 5] = [
    Field("KeyId", KEY_REFERENCE, Presence::Required),
    Field("Limit", FEW_ROWS, Presence::Optional),
    Field("Marker", MARKER, Presence::Optional),
    Field("GrantId", Kind::AnyText, Presence::Optional),
    Field("GranteePrincipal", PRINCIPAL, Presence::Optional),
];

pub static LIST_RETIRABLE_GRANTS: [Field; 3] = [
    Field("RetiringPrincipal", PRINCIPAL, Presence::Required),
    Field("Limit", FEW_ROWS, Presence::Optional),
    Field("Marker", MARKER, Presence::Optional),
];

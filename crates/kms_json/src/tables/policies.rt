// The fields of the operations on key policies.
use super::KEY_REFERENCE;
use crate::fields::{Field, Kind, Presence};

pub static PUT_KEY_POLICY: [Field; 4] = [
    Field("KeyId", KEY_REFERENCE, Presence::Required),
    Field("PolicyName", Kind::PolicyName, Presence::Optional),
    Field("Policy", Kind::SomeText, Presence::Required),
    Field(
        "BypassPolicyLockoutSafetyCheck",
        Kind::Flag,
        Presence::Optional,
    ),
];

pub static GET_KEY_POLICY: [Field; 2] = [
    Field("KeyId", KEY_REFERENCE, Presence::Required),
    Field("PolicyName", Kind::PolicyName, Presence::Optional),
];

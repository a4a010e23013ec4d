// The fields of the operations on the rotation of keys.
use super::KEY_REFERENCE;
use crate::fields::{Field, Kind, Presence};

const PERIOD: Kind = Kind::Whole {
    least: 90,
    most: 2560,
};

pub static ENABLE_KEY_ROTATION: [Field; 2] = [
    Field("KeyId", KEY_REFERENCE, Presence::Required),
    Field("RotationPeriodInDays", PERIOD, Presence::Optional),
];

// The fields of the operations on the states of keys.
use super::KEY_REFERENCE;
use crate::fields::{Field, Kind, Presence};

const WAITING_DAYS: Kind = Kind::Whole { least: 7, most: 30 };

pub static SCHEDULE_KEY_DELETION: [Field; 2] = [
    Field("KeyId", KEY_REFERENCE, Presence::Required),
    Field("PendingWindowInDays", WAITING_DAYS, Presence::Optional),
];

// The fields of the operations on tags.
use super::{KEY_REFERENCE, MARKER};
use crate::fields::{Field, Kind, Presence};

// How many tags may be asked for.
const TAG_ROWS: Kind = Kind::Whole { least: 1, most: 50 };

pub static TAG_RESOURCE: [Field; 2] = [
    Field("KeyId", KEY_REFERENCE, Presence::Required),
    Field("Tags", Kind::Tags, Presence::Required),
];

pub static UNTAG_RESOURCE: [Field; 2] = [
    Field("KeyId", KEY_REFERENCE, Presence::Required),
    Field("TagKeys", Kind::TagKeys, Presence::Required),
];

pub static LIST_RESOURCE_TAGS: [Field; 3] = [
    Field("KeyId", KEY_REFERENCE, Presence::Required),
    Field("Limit", TAG_ROWS, Presence::Optional),
    Field("Marker", MARKER, Presence::Optional),
];

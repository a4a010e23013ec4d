// The fields of each operation's body, in the order in which they are judged.
pub mod aliases;
pub mod cryptography;
pub mod grants;
pub mod keys;
pub mod macs;
pub mod policies;
pub mod rotation;
pub mod states;
pub mod tags;

use crate::fields::{Field, Kind, Presence};

const KEY_REFERENCE: Kind = Kind::Text {
    least: 1,
    most: 2048,
};

const GRANT_TOKENS: Kind = Kind::Texts { most: 10 };

const MARKER: Kind = Kind::Text {
    least: 1,
    most: 1024,
};

// How many rows of a list may be asked for: of keys, policies and rotations, and of aliases and grants.
const MANY_ROWS: Kind = Kind::Whole {
    least: 1,
    most: 1000,
};

const FEW_ROWS: Kind = Kind::Whole {
    least: 1,
    most: 100,
};

/// The field of an operation that takes a key and nothing else.
pub static KEY_ALONE: [Field; 1] = [Field("KeyId", KEY_REFERENCE, Presence::Required)];

/// The fields of an operation that lists what belongs to a key.
pub static LIST_OF_KEY: [Field; 3] = [
    Field("KeyId", KEY_REFERENCE, Presence::Required),
    Field("Limit", MANY_ROWS, Presence::Optional),
    Field("Marker", MARKER, Presence::Optional),
];

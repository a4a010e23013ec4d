//! The states of keys, and what each lets an operation do (AWS KMS Developer Guide, "Key states of AWS KMS keys").
#![tactic(auto)]

mod permissions;
mod rows;
mod states;
mod threads;
mod versions;

pub use permissions::{StateFault, permits};
pub use rows::KeyRow;
pub use states::{State, Stored};
pub use threads::key_row_crosses_threads;
pub use versions::{Version, VersionList};

//! What keeps the entries of a history beyond the process: a trait, a form that keeps nothing, and where histories are kept by name.
#![tactic(auto)]

mod keeps;
mod stores;

pub use keeps::{Keeps, Nothing, Unmade};
pub use stores::{Store, Unopened};

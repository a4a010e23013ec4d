//! Tags in the order of their keys: as a request's tags stand in an account's entries.
#![tactic(auto)]

mod order;

pub use order::{are_in_order, in_order};

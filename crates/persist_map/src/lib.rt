//! An ordered map whose versions share what they have in common.
#![tactic(auto)]

mod groups;
mod iterators;
mod maps;
mod parts;
mod places;
mod sharing;
mod threads;
mod values;

pub use groups::PGroups;
pub use iterators::PFrom;
pub use maps::PMap;
pub use threads::{groups_cross_threads, map_crosses_threads, shared_crosses_threads};
pub use values::Shared;

//! The aliases of an account (AWS KMS Developer Guide, "Aliases in AWS KMS").
#![tactic(auto)]

mod iterators;
mod maps;
mod rows;
mod threads;

pub use iterators::RowsOfKey;
pub use maps::AliasMap;
pub use rows::AliasRow;
pub use threads::alias_map_crosses_threads;

//! Files in which accounts' changes are kept: opened by name, read, and begun anew.
#![tactic(auto)]

mod memory;
mod opening;
mod store;

pub use memory::MemoryStore;
pub use store::FileStore;

//! All that the program `kms_local` does, over traits for its connections, clocks, files and door.
#![tactic(auto)]

mod accounts;
mod configs;
mod exporting;
mod files;
mod holding;
mod lines;
mod loading;
mod program;
mod serving;
mod sessions;
mod settings;
mod statuses;

pub use program::kms_main;
pub use statuses::NO_MEMORY;

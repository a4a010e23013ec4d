//! A log of records on a disk: each batch of them is on the disk before `append` returns, and a crash
//! at any moment leaves a file that stands for all records that were appended, with the batch at hand
//! or without it.
#![tactic(auto)]

mod device;
mod log;
mod memory;

pub use device::{Device, Failed};
pub use log::{KeepFault, KeptLog, MAX_LEN, are_plain, is_plain, whole};
pub use memory::{Memory, Mixing, Reading, Step, Wary};

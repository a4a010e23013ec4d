//! The journal of an account on a disk: a line a change and a line a start, each sealed by an HMAC
//! over the line before it, in a log that keeps each line through a crash.
#![tactic(auto)]

mod faults;
mod journal;
mod keeping;
mod laws;
mod lines;
mod lost;
mod reading;
mod starts;
mod told;

pub use faults::KeptFault;
pub use journal::{KeptJournal, open_kept};
pub use laws::{entry_lines_are_printable, later_starts_are_higher, runs_share_no_iv, starts_rise};
pub use reading::{Read, read_kept, torn};
pub use starts::{next_boot, next_start};
pub use told::Told;

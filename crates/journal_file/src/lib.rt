//! The journal of an account: its entries as a text that anybody can read, sealed by an HMAC under
//! the root secret, and read back exactly or refused at its line.
#![tactic(auto)]

mod faults;
mod journals;
mod reading;

pub use faults::JournalFault;
pub use journals::write_journal;
pub use reading::read_journal;

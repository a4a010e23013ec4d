//! What a session does before it asks an account: it reads messages, tells who asks what by each, and writes.
#![tactic(auto)]

mod asked;
mod asking;
mod callers;
mod ends;
mod inbox;
mod refused;
mod sending;
mod threads;
mod trust;
mod waiting;

pub use asking::early;
pub use ends::{MESSAGES, SessionEnd, closes_after};
pub use inbox::Inbox;
pub use refused::Early;
pub use sending::send;
pub use sigv4_check::{Credential, CredentialList, KeptKey};
pub use threads::trust_crosses_threads;
pub use trust::Trust;
pub use waiting::{Awaited, await_message};

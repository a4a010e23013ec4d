//! The kinds of keys, and the MACs of HMAC keys.
//!
//! A key is symmetric, and then it encrypts, or an HMAC key, and then it makes MACs and verifies them
//! (AWS KMS API Reference, CreateKey, "KeyUsage" and "KeySpec"). The MAC is HMAC-SHA-256 (FIPS 198-1)
//! under a secret of the key's own. No call takes memory.
#![tactic(auto)]

mod kinds;
mod laws;
mod macs;
mod reading;

pub use kinds::{KeyKind, KindField, KindRead};
pub use laws::kind_of_fits;
pub use macs::{mac_of, verify_mac};
pub use reading::kind_of;

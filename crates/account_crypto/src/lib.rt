//! The cryptographic operations: what Encrypt, Decrypt, ReEncrypt, the data key calls, the calls of MACs and GenerateRandom say of the steps of a decision.
//!
//! Each is a `Request` of `account_steps`, whose `Parts` are a function of plain values.
#![tactic(auto)]

mod crypto;
mod data_keys;
mod decrypt;
mod encrypt;
mod macs;
mod random;
mod re_encrypt;

pub use data_keys::{DataKeyForm, GeneratingDataKey};
pub use decrypt::Decrypting;
pub use encrypt::Encrypting;
pub use macs::{GeneratingMac, VerifyingMac};
pub use random::GeneratingRandom;
pub use re_encrypt::ReEncrypting;

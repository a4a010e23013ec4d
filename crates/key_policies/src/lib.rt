//! The policies of keys, by their texts, read once (AWS KMS Developer Guide, "Key policies" and "Default key policy").
#![tactic(auto)]

mod policies;
mod threads;

pub use policies::{KeyPolicy, default_policy_text, read_key_policy};
pub use threads::key_policies_cross_threads;

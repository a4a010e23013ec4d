//! The material of keys, and the sealing of texts into blobs and their opening.
//!
//! The material of a version of a key is HMAC-SHA-256 (FIPS 198-1) of a label, the key's id and the
//! version, under the root secret. A blob of form 2 is sealed by AES-256-GCM (SP 800-38D) under a key of
//! its own, which is an HMAC of its initialization vector under the material, and holds a commitment to
//! it, which is an HMAC under that key. A blob of form 1 is sealed under the material. The additional
//! data are the blob's head and the encoded encryption context.
#![tactic(auto)]

mod laws;
mod materials;
mod opening;
mod sealing;

pub use laws::{opens_by_its_tag, opens_under_one_key, sealed_is_a_blob, sealed_opens_again};
pub use materials::{blob_key, commitment, material};
pub use opening::{OpenFault, open_blob};
pub use sealing::{seal_blob, seal_blob_one};

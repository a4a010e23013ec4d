//! AES-256-GCM, the authenticated encryption of SP 800-38D over the cipher of FIPS 197 with a key of
//! 32 bytes, an IV of 12 bytes and a tag of 16 bytes.
//!
//! No call takes memory and none is refused. One key and one IV may seal one text only: who calls
//! `seal` keeps the IVs of a key apart. The cipher and the hash are looked up in tables, at places that
//! depend on the key and on the texts: the time that a call takes, which may depend on them too, is no
//! part of any claim.
#![tactic(auto)]

mod counter;
mod gcm;
mod hash;
mod laws;

pub use gcm::{open, seal};
pub use laws::{blocks_make_the_text, open_undoes_seal};

//! AES-256, the block cipher of FIPS 197 with a key of 32 bytes, on one block of 16 bytes.
//! Section numbers are those of the standard's edition of 2023.
//!
//! No call takes memory and none is refused. The cipher and the key expansion look bytes up in tables,
//! at places that depend on the key and on the block: the time that a call takes, which may depend on
//! them too, is no part of any claim.
#![tactic(auto)]

mod key;
mod laws;
mod rounds;
mod sbox;
mod schedule;

pub use key::AesKey;
pub use laws::inverse_is_pinned;

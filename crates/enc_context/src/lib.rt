//! Encryption contexts: the pairs of texts that a text is sealed under and that its opening must give
//! again (AWS KMS Developer Guide, "Encryption context"), and the bytes that stand for them.
//!
//! A context has no key twice. Its encoding is its pairs in order of the key's bytes; for each pair the
//! length of the key in 4 bytes, high byte first, the key, the length of the value in the same form and
//! the value. It has at most 8,192 bytes.
#![tactic(auto)]

mod contexts;
mod encoding;
mod faults;
mod laws;
mod pairs;
mod threads;

pub use contexts::Context;
pub use faults::ContextFault;
pub use laws::{encodings_tell_contexts, one_order};
pub use pairs::Pair;
pub use threads::contexts_cross_threads;

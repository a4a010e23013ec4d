//! A line of random draws and initialization vectors, each of which it gives once.
//!
//! The bytes are those of ChaCha20 (RFC 8439, section 2) under the line's seed. The vectors are those
//! of the deterministic construction of SP 800-38D, section 8.2.1. No call takes memory.
#![tactic(auto)]

mod laws;
mod line;

pub use laws::{draws_keep_to_their_words, lines_share_no_iv, one_line_repeats_no_iv};
pub use line::{DrawLine, Drawn};

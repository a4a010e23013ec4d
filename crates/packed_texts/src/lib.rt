//! Texts one behind another in one piece of memory.
#![tactic(auto)]

mod lengths;
mod packed;
mod slices;
mod threads;

pub use packed::PackedTexts;
pub use slices::TextSlice;
pub use threads::packed_texts_cross_threads;

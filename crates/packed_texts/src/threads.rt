//! What threads may share.

use crate::packed::PackedTexts;

fn crosses_threads<T: Send + Sync>() {}

/// Packed texts may be sent to threads and shared by them. Nothing is done.
pub fn packed_texts_cross_threads() {
    crosses_threads::<PackedTexts>()
}

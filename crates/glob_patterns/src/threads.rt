//! What threads may share.

use crate::letters::Letters;
use crate::patterns::Pattern;

fn crosses_threads<T: Send + Sync>() {}

/// Patterns, and the characters of texts, may be sent to threads and shared by them. Nothing is done.
pub fn patterns_cross_threads() {
    crosses_threads::<Letters>();
    crosses_threads::<Pattern>()
}

//! What threads may share.

use crate::contexts::Context;

fn crosses_threads<T: Send + Sync>() {}

/// A context may be sent to threads and shared by them. Nothing is done.
pub fn contexts_cross_threads() {
    crosses_threads::<Context>()
}

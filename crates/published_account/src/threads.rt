//! What threads may share.

use crate::published::Published;

fn crosses_threads<T: Send + Sync>() {}

/// A published account may be sent to threads and shared by them. Nothing is done.
pub fn published_crosses_threads() {
    crosses_threads::<Published>()
}

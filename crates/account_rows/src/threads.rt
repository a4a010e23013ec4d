//! What threads may share.

use crate::rows::Rows;

fn crosses_threads<T: Send + Sync>() {}

/// Rows may be sent to threads and shared by them. Nothing is done.
pub fn rows_cross_threads() {
    crosses_threads::<Rows>()
}

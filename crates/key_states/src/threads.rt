//! What threads may share.

use crate::rows::KeyRow;

fn crosses_threads<T: Send + Sync>() {}

/// A key's row may be sent to threads and shared by them. Nothing is done.
pub fn key_row_crosses_threads() {
    crosses_threads::<KeyRow>()
}

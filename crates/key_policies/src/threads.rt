//! What threads may share.

use crate::policies::KeyPolicy;

fn crosses_threads<T: Send + Sync>() {}

/// A key's policy may be sent to threads and shared by them. Nothing is done.
pub fn key_policies_cross_threads() {
    crosses_threads::<KeyPolicy>()
}

//! What threads may share.

use crate::policies::Policy;

fn crosses_threads<T: Send + Sync>() {}

/// A policy may be sent to threads and shared by them. Nothing is done.
pub fn policies_cross_threads() {
    crosses_threads::<Policy>()
}

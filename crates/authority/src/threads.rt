//! What threads may share.

use crate::callers::Callers;
use crate::identities::IdentityList;

fn crosses_threads<T: Send + Sync>() {}

/// Callers, with or without their policies ready to be asked, may be sent to threads and shared by them. Nothing is done.
pub fn callers_cross_threads() {
    crosses_threads::<Callers>();
    crosses_threads::<IdentityList>()
}

//! What threads may share.

use crate::credentials::CredentialList;

fn crosses_threads<T: Send + Sync>() {}

/// Credentials may be sent to threads and shared by them. Nothing is done.
pub fn credentials_cross_threads() {
    crosses_threads::<CredentialList>()
}

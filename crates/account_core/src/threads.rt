//! What threads may share.

use crate::account::Account;

fn crosses_threads<T: Send + Sync>() {}

/// An account may be sent to threads and shared by them. Nothing is done.
pub fn account_crosses_threads() {
    crosses_threads::<Account>()
}

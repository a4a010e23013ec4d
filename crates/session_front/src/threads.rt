//! What threads may share.

use crate::trust::Trust;

fn crosses_threads<T: Send + Sync>() {}

/// Whom a session trusts may be sent to threads and shared by them. Nothing is done.
pub fn trust_crosses_threads() {
    crosses_threads::<Trust>()
}

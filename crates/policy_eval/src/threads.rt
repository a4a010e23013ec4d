//! What threads may share.

use crate::compiled::Compiled;

fn crosses_threads<T: Send + Sync>() {}

/// A compiled policy may be sent to threads and shared by them. Nothing is done.
pub fn compiled_crosses_threads() {
    crosses_threads::<Compiled>()
}

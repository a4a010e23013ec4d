//! What threads may share.

use crate::facts::RealmFacts;

fn crosses_threads<T: Send + Sync>() {}

/// The facts of a run may be sent to threads and shared by them. Nothing is done.
pub fn realm_facts_cross_threads() {
    crosses_threads::<RealmFacts>()
}

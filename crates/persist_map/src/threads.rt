//! What threads may share.

use crate::groups::PGroups;
use crate::maps::PMap;
use crate::values::Shared;

fn crosses_threads<T: Send + Sync>() {}

/// A map whose keys and values may be sent to threads and shared by them may be so too. Nothing is done.
pub fn map_crosses_threads<K: Ord + Send + Sync, V: Send + Sync>() {
    crosses_threads::<PMap<K, V>>()
}

/// Groups whose keys and values may be sent to threads and shared by them may be so too. Nothing is done.
pub fn groups_cross_threads<K: Ord + Send + Sync, V: Send + Sync>() {
    crosses_threads::<PGroups<K, V>>()
}

/// A shared value that may be sent to threads and shared by them may be so too. Nothing is done.
pub fn shared_crosses_threads<T: Send + Sync>() {
    crosses_threads::<Shared<T>>()
}

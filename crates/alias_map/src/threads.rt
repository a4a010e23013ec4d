//! What threads may share.

use crate::maps::AliasMap;

fn crosses_threads<T: Send + Sync>() {}

/// A map of aliases may be sent to threads and shared by them. Nothing is done.
pub fn alias_map_crosses_threads() {
    crosses_threads::<AliasMap>()
}

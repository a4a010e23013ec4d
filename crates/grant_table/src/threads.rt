//! What threads may share.

use crate::tables::GrantTable;

fn crosses_threads<T: Send + Sync>() {}

/// A table of grants may be sent to threads and shared by them. Nothing is done.
pub fn grant_table_crosses_threads() {
    crosses_threads::<GrantTable>()
}

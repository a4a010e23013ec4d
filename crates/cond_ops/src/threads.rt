//! What threads may share.

use crate::compiled::CompiledConditions;
use crate::conditions::ConditionList;
use crate::facts::RequestFacts;

fn crosses_threads<T: Send + Sync>() {}

/// Conditions, as read and as compiled, and the facts of a request may be sent to threads and shared by them. Nothing is done.
pub fn conditions_cross_threads() {
    crosses_threads::<ConditionList>();
    crosses_threads::<CompiledConditions>();
    crosses_threads::<RequestFacts>()
}

//! What threads may share, as each crate promises it.

/// Calls each promise.
pub fn all() {
    kms_names::names_cross_threads();
    glob_patterns::patterns_cross_threads();
    packed_texts::packed_texts_cross_threads();
    enc_context::contexts_cross_threads();
    cond_ops::conditions_cross_threads();
    policy_doc::policies_cross_threads();
    policy_eval::compiled_crosses_threads();
    key_states::key_row_crosses_threads();
    persist_map::map_crosses_threads::<u64, u64>();
    persist_map::groups_cross_threads::<u64, u64>();
    persist_map::shared_crosses_threads::<u64>();
    sigv4_check::credentials_cross_threads();
}

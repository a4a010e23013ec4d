//! Laws of what the account of one thread answers, each the contract of a function that does nothing.
#![tactic(auto)]

mod laws;

pub use laws::{
    authority_asks_these_questions, authority_passes_where_statements_allow, boots_share_no_iv,
    dead_tokens_are_refused, denial_names_the_first_denied, dropped_grants_stay_away,
    earlier_blobs_are_decrypted, grants_differ, grants_permit, histories_stay_opened,
    house_is_kept_once, keys_differ, macs_are_verified_again, one_pass_repeats_no_iv,
    parts_make_the_whole, passes_share_no_iv, rows_stand_in_order, runs_decide_the_same,
    sealed_is_decrypted_again, tags_of_keys_are_the_last_given, times_never_fall,
    without_a_ceiling_statements_and_grants_decide,
};

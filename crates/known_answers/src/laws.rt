//! The laws of the crates below, each of which stands as the contract of a call that does nothing. They
//! are called once, as each public call is.

/// The laws of names and references.
fn of_names() {
    kms_names::alias_of_reads();
    kms_names::grant_texts_differ();
    kms_names::key_ref_of_reads();
    kms_names::principal_of_reads();
    kms_names::principal_texts_differ();
    kms_names::printed_alias_refers();
    kms_names::printed_key_reads_back();
    kms_names::printed_key_refers();
    kms_names::read_key_prints_back();
    kms_names::refers_to_one();
}

/// The laws of the ciphers, of lines of draws and of the kinds of keys.
fn of_ciphers() {
    aes_block::inverse_is_pinned();
    gcm_seal::blocks_make_the_text();
    gcm_seal::open_undoes_seal();
    draw_lines::draws_keep_to_their_words();
    draw_lines::lines_share_no_iv();
    draw_lines::one_line_repeats_no_iv();
    hmac_keys::kind_of_fits();
}

/// The laws of blobs, of contexts and of sealing.
fn of_blobs() {
    blob_format::blobs_name_their_keys();
    blob_format::one_spelling();
    blob_format::one_value();
    blob_format::written_is_read_again();
    enc_context::encodings_tell_contexts();
    enc_context::one_order();
    crypto_ops::opens_by_its_tag();
    crypto_ops::opens_under_one_key();
    crypto_ops::sealed_is_a_blob();
    crypto_ops::sealed_opens_again();
}

/// The laws of conditions, of policy documents, of verdicts and of ceilings.
fn of_policies() {
    cond_ops::moments_are_one();
    cond_ops::numbers_are_one();
    cond_ops::operator_texts_differ();
    cond_ops::related_values_have_the_form();
    policy_doc::first_fault_has_place();
    policy_doc::first_fault_in_byte_order();
    policy_doc::first_fault_is_at_the_first_place();
    policy_doc::places_stand_in_the_value();
    policy_doc::policy_of_reads();
    policy_eval::ceiling_of_is_under();
    policy_eval::verdict_of_is_the_verdict();
    policy_eval::verdicts_are_one();
}

/// The laws of heads, of the header Authorization, of configurations and of tags.
fn of_texts() {
    http_front::one_head();
    sigv4_check::authorization_of_reads();
    kms_config::configurations_are_read();
    kms_config::other_members_in_byte_order();
    kms_config::values_are_judged_once();
    resource_tags::dropped_tags_are_gone();
    resource_tags::put_tags_are_there();
}

/// Calls each law.
pub fn all() {
    of_names();
    of_ciphers();
    of_blobs();
    of_policies();
    of_texts();
}

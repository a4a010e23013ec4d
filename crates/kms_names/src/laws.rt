//! Laws of the written forms. Each stands as the contract of a function that does nothing.

ghost use Rattle.kms_names.specs.Laws.{PrintedKeyReadsBack, ReadKeyPrintsBack, GrantTextsDiffer, PrincipalTextsDiffer, RefersToOne, PrintedKeyRefers, PrintedAliasRefers, PrincipalOfReads, AliasOfReads, KeyRefOfReads};

/// What `key_text` prints reads as the same id.
pub fn printed_key_reads_back()
    ensures { PrintedKeyReadsBack }
{}

/// What `read_key_id` read is printed as it was written, in lower case.
pub fn read_key_prints_back()
    ensures { ReadKeyPrintsBack }
{}

/// Two grant ids have two texts, so that what `grant_text` prints reads as the same id.
pub fn grant_texts_differ()
    ensures { GrantTextsDiffer }
{}

/// Two principals have two ARNs, so that what `write_principal` prints reads as the same principal.
pub fn principal_texts_differ()
    ensures { PrincipalTextsDiffer }
{}

/// A text refers to one key or alias, or to what lies elsewhere.
pub fn refers_to_one()
    ensures { RefersToOne }
{}

/// The printed id and ARN of a key refer to it.
pub fn printed_key_refers()
    ensures { PrintedKeyRefers }
{}

/// The name and the ARN of an alias refer to it.
pub fn printed_alias_refers()
    ensures { PrintedAliasRefers }
{}

/// `principal_of` is what `read_principal` answers with ample memory.
pub fn principal_of_reads()
    ensures { PrincipalOfReads }
{}

/// `alias_of` is what `read_alias` answers with ample memory.
pub fn alias_of_reads()
    ensures { AliasOfReads }
{}

/// `key_ref_of` is what `read_key_ref` answers with ample memory.
pub fn key_ref_of_reads()
    ensures { KeyRefOfReads }
{}

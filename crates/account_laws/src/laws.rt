//! Laws of what the account answers. Each stands as the contract of a function that does nothing. They hold of every history
//! that an account holds: of a lawful one, and of one that was loaded and then went on. Those of sealed texts ask besides that
//! the ids of keys have 16 bytes (`IsOpened`), as `histories_stay_opened` says that they do.

ghost use Rattle.account_laws.specs.Laws.{SealedIsDecryptedAgain, EarlierBlobsAreDecrypted, OnePassRepeatsNoIv, PassesShareNoIv, BootsShareNoIv, TimesNeverFall, HouseIsKeptOnce, KeysDiffer, GrantsDiffer, PassesWhereStatementsAllow, PassesWithoutACeiling, NamesTheFirstDenied, AuthorityAsksTheseQuestions, GrantsPermit, DroppedGrantsStayAway, RowsStandInOrder, ListsOfHistoriesAreWhole, TagsOfKeysAreWhole, TagsOfKeysAreTheLastGiven, LawfulHistoriesAreOpened, NextEntriesKeepOpened};
ghost use Rattle.account_laws.specs.Boots.{RunsDecideTheSame, UncheckedPassAlike};
ghost use Rattle.account_laws.specs.Macs.{MacsAreVerifiedAgain};
ghost use Rattle.account_laws.specs.Tokens.{DeadTokensAreRefused};
ghost use Rattle.account_steps.specs.View.{View};
ghost use Rattle.account_lists.specs.Lists.{PartsOfListsMakeTheWhole};

/// A lawful history, as that of an account that began with nothing, is opened, and an opened one stays so with each entry that
/// a request or housekeeping appends.
pub fn histories_stay_opened()
    ensures lawful { LawfulHistoriesAreOpened }
    ensures next { NextEntriesKeepOpened }
{}

/// What Encrypt, ReEncrypt or a data key call answered as sealed under a context, Decrypt opens to the
/// text that was sealed, at that history and at every one that goes on from it, also in a later run that
/// loaded it (of the same account and region, under the same root secret), where the key is there and
/// enabled, whatever rotations stand between: under an equal context, for any pass and any caller whom
/// statements allow it, where the key is left out or is the blob's, the algorithm is left out or that of
/// symmetric keys, and the request has no Recipient and no DryRun, and waits for no entry that isn't
/// there. The reply names the key that sealed the text. Where the key is disabled, or its deletion is
/// scheduled, the reply is the exception of that state.
pub fn sealed_is_decrypted_again()
    ensures { SealedIsDecryptedAgain }
{}

/// The MAC that GenerateMac answered for a message is valid to VerifyMac, at that history and at every one
/// that goes on from it, also in a later run that loaded it, where the key is there and enabled: by the
/// same algorithm, for any pass and any caller whom statements or grants allow it, where the request has no
/// DryRun, and waits for no entry that isn't there. Every other MAC is KMSInvalidMacException there. Where
/// the key is disabled, or its deletion is scheduled, the reply is the exception of that state.
pub fn macs_are_verified_again()
    ensures { MacsAreVerifiedAgain }
{}

/// A blob of form 1, which earlier versions made, is decrypted in the same way: one of a text that was
/// sealed under a version that the key had, whatever its initialization vector.
pub fn earlier_blobs_are_decrypted()
    ensures { EarlierBlobsAreDecrypted }
{}

/// The blobs that one pass seals have initialization vectors of their own: a blob's differs from those
/// of all that the pass seals later, at whatever histories, keys and contexts.
pub fn one_pass_repeats_no_iv()
    ensures { OnePassRepeatsNoIv }
{}

/// The blobs that passes of different numbers seal, each below 2^16, have initialization vectors of their own.
pub fn passes_share_no_iv()
    ensures { PassesShareNoIv }
{}

/// The blobs that are sealed at two boots, each below 2^32, have initialization vectors of their own, whatever
/// the account, its root secret and the pass are.
pub fn boots_share_no_iv()
    ensures { BootsShareNoIv }
{}

/// Along a history times never fall, whatever the clock answers.
pub fn times_never_fall()
    ensures { TimesNeverFall }
{}

/// After housekeeping at a clock's answer there is nothing more to do at it.
pub fn house_is_kept_once()
    ensures { HouseIsKeptOnce }
{}

/// Keys that are made at different places of a history have different ids, also where a later run, of another boot number,
/// made one of them. A place is below 2^48.
pub fn keys_differ()
    ensures { KeysDiffer }
{}

/// Grants that are made at different places of a history have different ids, in the same way. A place is below 2^48.
pub fn grants_differ()
    ensures { GrantsDiffer }
{}

/// Authority passes exactly where for each thing that the request asks the account's ceiling lets it pass,
/// no Deny statement of the key's policy or of the caller's own policies hits, and a statement of the key's
/// policy allows the caller directly, or allows the root of the account while a statement of the caller's own
/// policies allows it, or a grant of the key permits it; what is about no key goes by the ceiling and the
/// caller's own policies alone. Whatever no key's policy is asked about, the root is allowed as far as the
/// ceiling lets it pass. A grant is retired by the root, by its retiring principal, and by its grantee where
/// RetireGrant is among its operations; no statement and no ceiling is asked of that.
pub fn authority_passes_where_statements_allow()
    ensures { PassesWhereStatementsAllow }
{}

/// In an account without a ceiling authority passes exactly where for each thing that the request asks no
/// Deny statement of the key's policy or of the caller's own policies hits, and a statement of the key's
/// policy allows the caller directly, or allows the root of the account while a statement of the caller's own
/// policies allows it, or a grant of the key permits it.
pub fn without_a_ceiling_statements_and_grants_decide()
    ensures { PassesWithoutACeiling }
{}

/// A denial names the caller and the first thing that the request asks and isn't allowed: the action and
/// its resource.
pub fn denial_names_the_first_denied()
    ensures { NamesTheFirstDenied }
{}

/// What `Account::questions` tells about a request is what the step of authority asks: where the first question that isn't
/// allowed is denied, that is the reply, for any pass. Where nothing is asked, the request is refused before.
pub fn authority_asks_these_questions()
    ensures { AuthorityAsksTheseQuestions }
{}

/// A grant of the key permits what the law of authority says where the caller is its grantee, the
/// operation is among its own, and its constraint holds of the encryption context. DescribeKey asks no
/// constraint; CreateGrant asks that the new grant has no further operation, and a constraint as strict.
pub fn grants_permit()
    ensures { GrantsPermit }
{}

/// A grant that was retired or revoked stays away: at every history that goes on from its
/// entry no grant has its id.
pub fn dropped_grants_stay_away()
    ensures { DroppedGrantsStayAway }
{}

/// The token of a grant that was retired or revoked is refused by its name, InvalidGrantTokenException (AWS
/// KMS API Reference), at every history that goes on from its entry: by each operation that takes
/// tokens wherever its references are found and authority passes, and by RetireGrant in any case.
pub fn dead_tokens_are_refused()
    ensures { DeadTokensAreRefused }
{}

/// The keys, the aliases and the grants of a history stand in order of making, whoever made its entries.
pub fn rows_stand_in_order()
    ensures { RowsStandInOrder }
{}

/// Each list of a history stands in order of making. Its parts, each behind the marker of the one
/// before it, come to an end, and joined they are its rows behind the place where they begin, each once.
/// At any view, joined parts are these rows where the list's rows stand in order of making. So do the tags of
/// each key, in the byte order of their keys.
pub fn parts_make_the_whole()
    ensures in_order { (view : View) → PartsOfListsMakeTheWhole view }
    ensures lists { ListsOfHistoriesAreWhole }
    ensures tags { TagsOfKeysAreWhole }
{}

/// Each tag of a key has the value, or has none, as the last entry of the history says that names the tag: an entry that
/// makes the key, gives it tags, or takes tags from it.
pub fn tags_of_keys_are_the_last_given()
    ensures { TagsOfKeysAreTheLastGiven }
{}

/// A run of an account under another boot number decides each request, at every history and at the same places of a pass, as
/// this one does but for what is made: the id of a new key or grant, the initialization vector of a sealed text, and random
/// bytes. So an account that was loaded answers as the one that wrote its journal. Where a CreateKey brings a policy, the
/// lockout check is asked of the new key's own id: it has to come to the same for both ids, as it does where the policy doesn't
/// speak of them, and where nothing is checked (AWS KMS API Reference, CreateKey, BypassPolicyLockoutSafetyCheck).
pub fn runs_decide_the_same()
    ensures decisions { RunsDecideTheSame }
    ensures unchecked { UncheckedPassAlike }
{}

//! Laws of sealing. Each stands as the contract of a function that does nothing.

ghost use Rattle.crypto_ops.specs.Laws.{SealedIsABlob, SealedOneIsABlob, SealedOpensAgain, SealedOneOpensAgain, OpensByItsTag, OpensUnderOneCommitment, OpensUnderOneKey};

/// What `seal_blob` makes is a blob of form 2 of its key, its version and its initialization vector;
/// what `seal_blob_one` makes is one of form 1.
pub fn sealed_is_a_blob()
    ensures two { SealedIsABlob }
    ensures one { SealedOneIsABlob }
{}

/// What `seal_blob` or `seal_blob_one` makes under a context, `open_blob` opens under an equal context
/// to the same text.
pub fn sealed_opens_again()
    ensures two { SealedOpensAgain }
    ensures one { SealedOneOpensAgain }
{}

/// `open_blob` opens a blob exactly where its commitment, in form 2, is that of its data key, and its
/// tag is the one of its ciphertext, of its head and of the context under that key.
pub fn opens_by_its_tag()
    ensures { OpensByItsTag }
{}

/// A blob of form 2 opens under at most one data key, unless two different keys have the same
/// commitment: data keys of two root secrets under which it opens have one commitment.
pub fn opens_under_one_key()
    ensures commitment { OpensUnderOneCommitment }
    ensures key { OpensUnderOneKey }
{}

//! Laws on the definitions.

ghost use Rattle.std.specs.Prelude.{ℕ, List};
ghost use Rattle.gcm_seal.specs.Laws.{OpensWhatWasSealed, OpensNothingElse, BlocksAreTheText};

/// What `seal` made is opened by `open` to the text that was sealed, under the key, the IV, the
/// additional data and the tag of the sealing; and a ciphertext is opened under no tag but its own.
pub fn open_undoes_seal()
    ensures restored { OpensWhatWasSealed }
    ensures refused { OpensNothingElse }
{}

/// The blocks into which a text is cut, for the hash and for GCTR, are those of SP 800-38D: joined
/// they are the text, and all but the last are whole (6.4, 6.5).
pub fn blocks_make_the_text()
    ensures { (text : List ℕ) → BlocksAreTheText text }
{}

//! Laws of contexts. Each stands as the contract of a function that does nothing.

ghost use Rattle.enc_context.specs.Laws.{EncodingsTellContexts, OneOrder};

/// Contexts with the same pairs have the same encoding, and no others have.
pub fn encodings_tell_contexts()
    ensures { EncodingsTellContexts }
{}

/// The pairs of a context have one order, so that contexts with the same pairs are one list.
pub fn one_order()
    ensures { OneOrder }
{}

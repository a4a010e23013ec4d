//! What the kind of a request means. It stands as the contract of a function that does nothing.

ghost use Rattle.hmac_keys.specs.Laws.{KindOfFits};

/// `kind_of` answers a kind exactly where the usage and both specs are that kind's, with what stands for
/// those that are absent.
pub fn kind_of_fits()
    ensures { KindOfFits }
{}

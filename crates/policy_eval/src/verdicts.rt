//! What a policy says of a request.

/// What a policy says of a request.
#[derive(Clone, Copy)]
pub enum Verdict {
    /// A Deny statement matches; in a key policy it also names the caller, everyone, or the root of the caller's
    /// account.
    Deny,
    /// No statement denies, and an Allow statement matches; in a key policy it also names the caller or everyone.
    Direct,
    /// Of a key policy: no statement denies or allows the caller, and an Allow statement matches that names the root
    /// of the caller's account, so that an identity policy of the caller may allow.
    ByRoot,
    /// None of these.
    Silent,
}

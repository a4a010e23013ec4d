// Grounds.
ghost use Rattle.std.specs.Prelude.{◌≡◌, ℕ, List, IsTrue};
ghost use Rattle.access_explain.specs.Grounds.{IsFirst, rows_for, allows};
ghost use Rattle.access_explain.specs.Tests.{fits};
ghost use Rattle.access_explain.specs.declared.subjects.Subject.TheVariants as about;

use crate::subjects::Subject;

/// Why a question is allowed or denied: of those that are asked, the first that fits.
#[derive(Clone, Copy, PartialEq, Eq)]
pub enum Ground {
    /// It is denied: a Deny statement of the policy of the key hits.
    KeyDeny,
    /// It is denied: a Deny statement of the caller's own policies hits.
    IdentityDeny,
    /// It is denied: a Deny statement of the account's ceiling hits, or the account has a ceiling
    /// and no Allow statement of it does.
    Ceiling,
    /// It is allowed: an Allow statement of the policy of the key hits.
    KeyPolicy,
    /// It is allowed: an Allow statement of the policy of the key hits the root of the account, and
    /// one of the caller's own policies hits.
    RootAndIdentity,
    /// It is allowed: an Allow statement of the caller's own policies hits, and the question is
    /// about no key.
    Identity,
    /// It is allowed: the caller is the root of the account, and the question is about no key.
    Root,
    /// It is allowed: a grant of the key permits it.
    Grant,
    /// It is allowed: the caller may retire the grant.
    Retire,
    /// It is denied: nothing allows it.
    Nothing,
}

impl Ground {
    /// Whether a question is allowed by it.
    pub fn allows(self) -> bool
        ensures { result ≡ allows self }
    {
        match self {
            Ground::KeyDeny | Ground::IdentityDeny | Ground::Ceiling | Ground::Nothing => false,
            Ground::KeyPolicy
            | Ground::RootAndIdentity
            | Ground::Identity
            | Ground::Root
            | Ground::Grant
            | Ground::Retire => true,
        }
    }
}

/// What the marks of a question come to.
#[derive(Clone, Copy)]
pub struct Tested {
    /// A Deny statement of the policy of the key hits.
    pub key_denies: bool,
    /// A Deny statement of the caller's own policies hits.
    pub identity_denies: bool,
    /// The account's ceiling lets it pass.
    pub is_under: bool,
    /// An Allow statement of the policy of the key hits.
    pub key_allows: bool,
    /// An Allow statement of the policy of the key hits the root alone.
    pub key_allows_root: bool,
    /// An Allow statement of the caller's own policies hits.
    pub identity_allows: bool,
    /// A grant hits.
    pub grant_permits: bool,
    /// The caller is the root.
    pub is_root: bool,
    /// The caller may retire the grant.
    pub may_retire: bool,
}

impl Tested {
    // The ground of a question about a key.
    fn key_ground(&self) -> Ground
        ensures { (key : List ℕ) → IsFirst (λ g. IsTrue (fits self.now g)) (rows_for (about.Key key)) result }
    {
        if self.key_denies {
            Ground::KeyDeny
        } else if self.identity_denies {
            Ground::IdentityDeny
        } else if !self.is_under {
            Ground::Ceiling
        } else if self.key_allows {
            Ground::KeyPolicy
        } else if self.key_allows_root && self.identity_allows {
            Ground::RootAndIdentity
        } else if self.grant_permits {
            Ground::Grant
        } else {
            Ground::Nothing
        }
    }

    // The ground of a question about no key.
    fn other_ground(&self) -> Ground
        ensures { IsFirst (λ g. IsTrue (fits self.now g)) (rows_for about.Other) result }
    {
        if self.identity_denies {
            Ground::IdentityDeny
        } else if !self.is_under {
            Ground::Ceiling
        } else if self.identity_allows {
            Ground::Identity
        } else if self.is_root {
            Ground::Root
        } else {
            Ground::Nothing
        }
    }

    // The ground of a question about a grant that is to be retired.
    fn retiring_ground(&self) -> Ground
        ensures { (key grant : List ℕ) → IsFirst (λ g. IsTrue (fits self.now g)) (rows_for (about.Retiring key grant)) result }
    {
        if self.may_retire {
            Ground::Retire
        } else {
            Ground::Nothing
        }
    }

    /// The ground of a question about this.
    pub fn ground(&self, subject: &Subject) -> Ground
        ensures { IsFirst (λ g. IsTrue (fits self.now g)) (rows_for subject.now) result }
    {
        match subject {
            Subject::Key(_) => self.key_ground(),
            Subject::Other => self.other_ground(),
            Subject::Retiring(..) => self.retiring_ground(),
        }
    }
}

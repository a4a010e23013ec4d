//! What policies say of a question.
ghost use Rattle.std.specs.Prelude.{◌≡◌};
ghost use Rattle.authority.specs.Allowed.{settled};

/// What policies say of a question (IAM User Guide, "Policy evaluation logic"; AWS KMS Developer Guide, "Grants in AWS
/// KMS"): a statement that denies it outweighs each that allows it, and a grant as well.
#[derive(Clone, Copy)]
pub enum Standing {
    /// The account's ceiling stops it, or a statement denies it, or it is about no key and none allows it.
    Denied,
    /// The ceiling lets it pass, none denies it, and statements allow it.
    Allowed,
    /// The ceiling lets it pass, none denies it and none allows it: a live grant of its key may still permit it.
    IfGranted,
}

impl Standing {
    /// Whether the question is allowed, `granted` telling whether a live grant permits it. No memory is taken.
    pub fn settled(self, granted: bool) -> bool
        ensures { result ≡ settled self granted }
    {
        match self {
            Standing::Denied => false,
            Standing::Allowed => true,
            Standing::IfGranted => granted,
        }
    }
}

//! Whom Allow statements allow.

ghost use Rattle.std.specs.Prelude.{◌≡◌, if◌then◌else◌};
ghost use Rattle.policy_eval.specs.declared.naming.Naming.TheVariants.{Caller, CallerOrAccount};

use crate::naming::Naming;

/// Whom the Allow statements of a key policy allow a request.
#[derive(Clone, Copy)]
pub enum Allowed {
    /// The caller, by naming the caller or everyone.
    TheCaller,
    /// The caller's account alone, by naming its root.
    TheAccount,
    /// Neither.
    Nobody,
}

/// Whom a statement is to name to allow more than the statements before it: the account is no more once it is allowed.
pub fn sought(account: bool) -> Naming
    ensures { result ≡ (if account then Naming.Caller else Naming.CallerOrAccount) }
{
    if account {
        Naming::Caller
    } else {
        Naming::CallerOrAccount
    }
}

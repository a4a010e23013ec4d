//! Whom statements of key policies name.

ghost use Rattle.std.specs.Prelude.{◌↔◌, IsTrue};
ghost use Rattle.policy_eval.specs.Hits.{IsNamed};
ghost use Rattle.policy_eval.specs.Naming.{NamesCaller, NamesAccount};

use crate::names::KeptName;
use kms_names::Principal;

/// Whom a statement is to name.
#[derive(Clone, Copy)]
pub enum Naming {
    /// Whomever: an identity policy's statements are about the principal that has the policy.
    Anyone,
    /// The caller, or everyone.
    Caller,
    /// The root of the caller's account.
    Account,
    /// One of the last two.
    CallerOrAccount,
}

/// Whether some of these is everyone or the caller.
fn names_caller(names: &[KeptName], caller: &Principal) -> bool
    ensures { IsTrue result ↔ NamesCaller names.now caller.now }
{
    names.iter().any(|named| named.is_caller(caller))
}

/// Whether some of these is the root of the caller's account.
fn names_account(names: &[KeptName], caller: &Principal) -> bool
    ensures { IsTrue result ↔ NamesAccount names.now caller.now }
{
    names.iter().any(|named| named.is_account(caller))
}

impl Naming {
    /// Whether some of these is whom is asked for.
    #[tactic(auto, unfolding(crate::specs::Hits::IsNamed))]
    pub fn is_named(self, names: &[KeptName], caller: &Principal) -> bool
        ensures { IsTrue result ↔ IsNamed self names.now caller.now }
    {
        match self {
            Naming::Anyone => true,
            Naming::Caller => names_caller(names, caller),
            Naming::Account => names_account(names, caller),
            Naming::CallerOrAccount => {
                names_caller(names, caller) || names_account(names, caller)
            }
        }
    }
}

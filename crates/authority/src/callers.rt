//! The policies of callers, read once.
ghost use Rattle.std.specs.Prelude.{◌≡◌, ℕ, List, IfOk, OnOk, option_map};
ghost use Rattle.std.specs.Option.{option_or};
ghost use Rattle.std.specs.Str.{bytes_eq};
ghost use Rattle.authority.specs.Callers.{policies_at, kept_at, if_same, ArePoliciesOf};

use crate::identities::{IdentityList, PolicyList};
use kms_names::{NoMemory, write_principal};
use policy_eval::Compiled;
use std::alloc::Global;
use std::collections::HashMap;
use std::marker::Model;

/// The policies of callers, ready to be asked. Contracts see them as the callers' ARNs, each with its policies.
pub struct Callers {
    by_arn: HashMap<String, Vec<Compiled>>,
}

// Each crate that lets them go calls this one drop, and doesn't take them apart itself.
impl Drop for Callers {
    fn drop(self) {
        let Callers { by_arn: _ } = self;
    }
}

impl Model for Callers {
    ghost use Rattle.std.specs.Prelude.{ℕ, List, map, string_bytes};
    ghost use Rattle.policy_doc.specs.declared.policies.Policy.{Policy};

    ghost Value = { List (List ℕ × List Policy) };

    ghost view = { λ c. map (λ entry. (string_bytes entry.0, entry.1.items)) c.by_arn.entries };
}

// Keeps the policies of an ARN, unless it has some already.
fn keep(
    alloc: Global,
    by_arn: &mut HashMap<String, Vec<Compiled>>,
    arn: &str,
    policies: &PolicyList,
) -> Result<(), NoMemory>
    ensures { OnOk result ((other : List ℕ) → kept_at by_arn.new other ≡ option_or (kept_at by_arn.old other) (if_same (bytes_eq arn.now other) policies.now)) }
{
    if by_arn.get(arn).is_some() {
        return Ok(());
    }
    let policies = policies.compile(alloc)?;
    let key = String::from_str(alloc, arn)?;
    by_arn.insert(key, policies)?;
    Ok(())
}

impl Callers {
    /// The policies of the callers. Where a principal stands twice, the first counts.
    pub fn new(alloc: Global, identities: &IdentityList) -> Result<Callers, NoMemory>
        ensures { IfOk result (λ c. ArePoliciesOf c identities.now) }
    {
        let mut by_arn = HashMap::new(alloc);
        for identity in identities.as_slice() {
            let arn = write_principal(alloc, &identity.principal)?;
            keep(alloc, &mut by_arn, arn.as_str(), &identity.policies)?;
        }
        Ok(Callers { by_arn })
    }

    /// The policies at an ARN, found by its hash.
    pub fn at(&self, arn: &str) -> Option<&[Compiled]>
        ensures { option_map (λ policies. policies.now) result ≡ policies_at self.now arn.now }
    {
        match self.by_arn.get(arn) {
            Some(policies) => Some(policies.as_slice()),
            None => None,
        }
    }
}

//! The policies of principals, as they are configured.

use kms_names::{NoMemory, Principal};
use policy_doc::Policy;
use policy_eval::Compiled;
use std::alloc::Global;
use std::marker::Model;

/// A list of policies.
#[derive(Drop)]
pub struct PolicyList {
    items: Vec<Policy>,
}

impl Model for PolicyList {
    ghost use Rattle.std.specs.Prelude.{List};
    ghost use Rattle.policy_doc.specs.declared.policies.Policy.{Policy as PolicyValue};

    ghost Value = { List PolicyValue };

    ghost view = { λ l. l.items.items };
}

impl PolicyList {
    ghost use Rattle.std.specs.Prelude.{◌≡◌, IfOk};

    /// The list of a vector's policies; no memory is taken.
    pub fn new(items: Vec<Policy>) -> PolicyList
        ensures { result ≡ items.items }
    {
        PolicyList { items }
    }

    /// The policies in order.
    pub fn as_slice(&self) -> &[Policy]
        ensures { result.now ≡ self.now }
    {
        self.items.as_slice()
    }

    /// The same policies, ready to be asked.
    pub fn compile(&self, alloc: Global) -> Result<Vec<Compiled>, NoMemory>
        ensures { IfOk result (λ all. all.items ≡ self.now) }
    {
        let mut all = Vec::new(alloc);
        for policy in &self.items {
            all.push(Compiled::new(alloc, policy)?)?;
        }
        Ok(all)
    }

    /// A copy that equals its source.
    pub fn copy(&self) -> Result<PolicyList, NoMemory>
        ensures { IfOk result (λ l. l ≡ self.now) }
    {
        let mut items = Vec::new(*self.items.allocator());
        for policy in &self.items {
            items.push(policy.copy()?)?;
        }
        Ok(PolicyList { items })
    }
}

/// A principal with its policies, which are of the kind `Identity`.
#[derive(Drop)]
pub struct Identity {
    /// Whose policies these are.
    pub principal: Principal,
    /// Its policies.
    pub policies: PolicyList,
}

impl Identity {
    ghost use Rattle.std.specs.Prelude.{◌≡◌, IfOk};

    /// A copy that equals its source.
    pub fn copy(&self) -> Result<Identity, NoMemory>
        ensures { IfOk result (λ identity. identity ≡ self.now) }
    {
        Ok(Identity {
            principal: self.principal.copy()?,
            policies: self.policies.copy()?,
        })
    }
}

/// A list of principals with their policies.
#[derive(Drop)]
pub struct IdentityList {
    items: Vec<Identity>,
}

impl Model for IdentityList {
    ghost use Rattle.std.specs.Prelude.{List};
    ghost use Rattle.authority.specs.declared.identities.Identity.{Identity};

    ghost Value = { List Identity };

    ghost view = { λ l. l.items.items };
}

impl IdentityList {
    ghost use Rattle.std.specs.Prelude.{◌≡◌, IfOk};

    /// The list of a vector's items; no memory is taken.
    pub fn new(items: Vec<Identity>) -> IdentityList
        ensures { result ≡ items.items }
    {
        IdentityList { items }
    }

    /// The items in order.
    pub fn as_slice(&self) -> &[Identity]
        ensures { result.now ≡ self.now }
    {
        self.items.as_slice()
    }

    /// A copy that equals its source.
    pub fn copy(&self) -> Result<IdentityList, NoMemory>
        ensures { IfOk result (λ l. l ≡ self.now) }
    {
        let mut items = Vec::new(*self.items.allocator());
        for identity in &self.items {
            items.push(identity.copy()?)?;
        }
        Ok(IdentityList { items })
    }
}

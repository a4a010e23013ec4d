//! Grants as an account keeps them.

ghost use Rattle.std.specs.Prelude.{◌≡◌, ◌↔◌, ◌&&◌, [], IsTrue, IfOk};
ghost use Rattle.grant_table.specs.Grants.{asks_constraint, Permits, permits, IsChildOf, is_child_of, is_parent, is_subset, has_name, same_operations, is_same, has_id, has_retiring};
ghost use Rattle.grant_table.specs.Principals.{same_principal};
ghost use Rattle.kms_names.specs.declared.operations.GrantOp.TheVariants.{CreateGrant};

use crate::constraints::Constraint;
use crate::principals::{copy_of_principal, same_principal, same_retiring};
use enc_context::Context;
use kms_names::{GrantId, GrantOp, GrantOps, KeyId, NoMemory, Principal, Text};

/// A grant of an account.
#[derive(Drop)]
pub struct GrantRow {
    /// Its id.
    pub grant: GrantId,
    /// The place of the entry that made it, counted from 0.
    pub born: u64,
    /// When it was made, in seconds since 1970.
    pub made: u64,
    /// The key that it is of.
    pub key: KeyId,
    /// Whom it permits its operations.
    pub grantee: Principal,
    /// Who may retire it, beside the account's root.
    pub retiring: Option<Principal>,
    /// What it permits.
    pub operations: GrantOps,
    /// What it asks of the encryption context.
    pub constraint: Constraint,
    /// Its name, where it has one.
    pub name: Option<Text>,
}

/// Whether a grant's constraint is asked of an operation's context.
fn is_constrained(op: GrantOp) -> bool
    ensures { result ≡ asks_constraint op }
{
    !matches!(
        op,
        GrantOp::CreateGrant | GrantOp::RetireGrant | GrantOp::DescribeKey
    )
}

/// Whether two sets have the same operations.
fn same_operations(one: &GrantOps, other: &GrantOps) -> bool
    ensures { result ≡ same_operations one.now other.now }
{
    one.is_subset(other) && other.is_subset(one)
}

/// A copy of a grant's name, where there is one, that equals its source.
pub fn copy_of_name(name: &Option<Text>) -> Result<Option<Text>, NoMemory>
    ensures { IfOk result (λ copy. copy ≡ name.now) }
{
    match name {
        Some(name) => Ok(Some(name.copy()?)),
        None => Ok(None),
    }
}

impl GrantRow {
    /// Whether it permits an operation on a key to a caller: it is of this key, the caller is its grantee, the operation
    /// is among its own, and its constraint holds of the context. The constraint isn't asked for DescribeKey and
    /// RetireGrant, nor for CreateGrant, where `has_child` is asked of the grant that is to be made. No memory is taken.
    pub fn permits(&self, key: &KeyId, caller: &Principal, op: GrantOp, context: &Context) -> bool
        ensures told { IsTrue result ↔ Permits self.now key.now caller.now op context.now }
        ensures test { result ≡ permits key.now caller.now op context.now self.now }
    {
        self.key == *key
            && self.has_grantee(caller)
            && self.operations.contains(op)
            && (!is_constrained(op) || self.constraint.holds(context))
    }

    /// Whether its grantee may make a grant of these operations and this constraint by it: the operations are among its
    /// own, and the constraint is as strict as its own. No memory is taken.
    pub fn has_child(&self, operations: &GrantOps, constraint: &Constraint) -> bool
        ensures told { IsTrue result ↔ IsChildOf self.now operations.now constraint.now }
        ensures test { result ≡ is_child_of self.now operations.now constraint.now }
    {
        operations.is_subset(&self.operations) && self.constraint.is_as_strict(constraint)
    }

    /// Whether it permits CreateGrant on a key to a caller.
    fn permits_making(&self, key: &KeyId, caller: &Principal) -> bool
        ensures { result ≡ permits key.now caller.now CreateGrant [] self.now }
    {
        self.key == *key
            && self.has_grantee(caller)
            && self.operations.contains(GrantOp::CreateGrant)
    }

    /// Whether a caller may make a grant of these operations and this constraint on a key by it.
    pub(crate) fn is_parent(
        &self,
        key: &KeyId,
        caller: &Principal,
        operations: &GrantOps,
        constraint: &Constraint,
    ) -> bool
        ensures { result ≡ is_parent key.now caller.now operations.now constraint.now self.now }
    {
        self.permits_making(key, caller) && self.has_child(operations, constraint)
    }

    /// Whether it is of this key and has this name, grantee, retiring principal, set of operations and constraint.
    pub(crate) fn is_same(
        &self,
        key: &KeyId,
        name: &Text,
        grantee: &Principal,
        retiring: &Option<Principal>,
        operations: &GrantOps,
        constraint: &Constraint,
    ) -> bool
        ensures { result ≡ is_same key.now name.now grantee.now retiring.now operations.now constraint.now self.now }
    {
        self.key == *key
            && self.has_name(name)
            && self.has_grantee(grantee)
            && same_retiring(&self.retiring, retiring)
            && same_operations(&self.operations, operations)
            && self.constraint.equal(constraint)
    }

    /// A copy that equals its source.
    pub fn copy(&self) -> Result<GrantRow, NoMemory>
        ensures { IfOk result (λ row. row ≡ self.now) }
    {
        Ok(GrantRow {
            grant: self.grant,
            born: self.born,
            made: self.made,
            key: self.key,
            grantee: self.grantee.copy()?,
            retiring: copy_of_principal(&self.retiring)?,
            operations: self.operations,
            constraint: self.constraint.copy()?,
            name: copy_of_name(&self.name)?,
        })
    }

    /// Whether this is its id. No memory is taken.
    pub fn has_id(&self, grant: &GrantId) -> bool
        ensures { result ≡ has_id grant.now self.now }
    {
        self.grant == *grant
    }

    /// Whether this is its grantee.
    fn has_grantee(&self, principal: &Principal) -> bool
        ensures { result ≡ same_principal self.now.grantee principal.now }
    {
        same_principal(&self.grantee, principal)
    }

    /// Whether this is its name.
    fn has_name(&self, name: &Text) -> bool
        ensures { result ≡ has_name name.now self.now }
    {
        match &self.name {
            Some(own) => own == name,
            None => false,
        }
    }

    /// Whether this is its retiring principal.
    pub fn has_retiring(&self, principal: &Principal) -> bool
        ensures { result ≡ has_retiring principal.now self.now }
    {
        match &self.retiring {
            Some(retiring) => same_principal(retiring, principal),
            None => false,
        }
    }
}

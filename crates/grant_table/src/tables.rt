//! The grants of an account.

ghost use Rattle.std.specs.Prelude.{◌≡◌, [], Some, None, filter, length, IfOk, IfSome};
ghost use Rattle.std.specs.Option.{option_map, unwrap_or};
ghost use Rattle.kms_names.specs.declared.principals.Principal.{Principal as PrincipalValue};
ghost use Rattle.persist_map.specs.Groups.{group_of, group_with, group_without};
ghost use Rattle.grant_table.specs.Tables.{is_of_grantee, rows_of};

use crate::constraints::Constraint;
use crate::counted::value_in;
use crate::grantees::Grantees;
use crate::principals::copy_of_principal;
use crate::rows::GrantRow;
use enc_context::Context;
use kms_names::{GrantId, GrantOp, GrantOps, KeyId, NoMemory, Principal, Text};
use persist_map::{PFrom, PGroups, PMap, Shared};
use std::alloc::Global;
use std::marker::Model;

/// The grants of an account. Contracts see it as the list of its rows in order of making. A changed table is a new one,
/// which shares what stays with the old one; the old one stays as it was.
pub struct GrantTable {
    alloc: Global,
    // By the places of their making.
    rows: PMap<u64, Shared<GrantRow>>,
    by_id: PMap<GrantId, Shared<GrantRow>>,
    by_key: PGroups<KeyId, Shared<GrantRow>>,
    by_grantee: Grantees,
    // Those that have a retiring principal.
    by_retiring: PGroups<Principal, Shared<GrantRow>>,
}

// Each crate that lets a table go calls this one drop, and doesn't take it apart itself.
impl Drop for GrantTable {
    fn drop(self) {
        let GrantTable {
            alloc: _,
            rows: _,
            by_id: _,
            by_key: _,
            by_grantee: _,
            by_retiring: _,
        } = self;
    }
}

impl Model for GrantTable {
    ghost use Rattle.std.specs.Prelude.{List};
    ghost use Rattle.grant_table.specs.declared.rows.GrantRow.{GrantRow};

    ghost Value = { List GrantRow };

    ghost use Rattle.grant_table.specs.Tables.{AreTable, rows_of};

    ghost view = { λ table. rows_of table.rows };

    ghost invariant = { λ table. AreTable ⟦<Principal as Ord>⟧.cmp table.rows table.by_id table.by_key table.by_grantee table.by_retiring };
}

// The groups of retiring principals with a row, where it has one.
fn retiring_with(
    groups: &PGroups<Principal, Shared<GrantRow>>,
    row: Shared<GrantRow>,
) -> Result<PGroups<Principal, Shared<GrantRow>>, NoMemory>
    ensures none { row.retiring ≡ None → IfOk result (λ changed. changed ≡ groups.now) }
    ensures some { (retiring : PrincipalValue) → row.retiring ≡ Some retiring → IfOk result (λ changed. (other : PrincipalValue) → group_of ⟦<Principal as Ord>⟧.cmp changed other ≡ group_with ⟦<Principal as Ord>⟧.cmp groups.now retiring row.born row other) }
{
    let Some(retiring) = copy_of_principal(&row.value().retiring)? else {
        return groups.share();
    };
    let born = row.value().born;
    groups.insert(retiring, born, row)
}

// The groups of retiring principals without a row.
fn retiring_without(
    groups: &PGroups<Principal, Shared<GrantRow>>,
    row: &GrantRow,
) -> Result<PGroups<Principal, Shared<GrantRow>>, NoMemory>
    ensures none { row.now.retiring ≡ None → IfOk result (λ changed. changed ≡ groups.now) }
    ensures some { (retiring : PrincipalValue) → row.now.retiring ≡ Some retiring → IfOk result (λ changed. (other : PrincipalValue) → group_of ⟦<Principal as Ord>⟧.cmp changed other ≡ group_without ⟦<Principal as Ord>⟧.cmp groups.now retiring row.now.born other) }
{
    let Some(retiring) = copy_of_principal(&row.retiring)? else {
        return groups.share();
    };
    groups.remove(retiring, row.born)
}

impl GrantTable {
    ghost use Rattle.std.specs.Prelude.{◌≡◌, [], ◌∷◌, ◌++◌, length, filter, All, Some, None, IfOk, IfSome, IfNone};
    ghost use Rattle.std.specs.Option.{option_map};
    ghost use Rattle.grant_table.specs.Grants.{grant_with, grant_permitting, grant_retirable, grant_of_key, parent_of, same_as, number_of_key, Permits, without, without_keys, MayAdd, IsThere, AreGrants};

    /// No grants; no memory is taken. The table and those that are made of it keep the allocator.
    pub fn new(alloc: Global) -> GrantTable
        ensures { result ≡ [] }
    {
        GrantTable {
            alloc,
            rows: PMap::new(alloc),
            by_id: PMap::new(alloc),
            by_key: PGroups::new(alloc),
            by_grantee: Grantees::new(alloc),
            by_retiring: PGroups::new(alloc),
        }
    }

    /// How many grants there are. No two have one id, and each was made before those behind it. No memory is taken.
    pub fn len(&self) -> usize
        ensures len { result ≡ length self.now }
        ensures grants { AreGrants self.now }
    {
        self.rows.len()
    }

    /// The grant of an id. No memory is taken.
    pub fn get(&self, grant: &GrantId) -> Option<&GrantRow>
        ensures { option_map (λ row. row.now) result ≡ grant_with self.now grant.now }
    {
        Some(value_in(&self.by_id, grant)?.value())
    }

    // The grants of a key that have a grantee, by place; None where the key has no grants.
    fn of_grantee(
        &self,
        key: &KeyId,
        grantee: &Principal,
    ) -> Option<PFrom<'_, u64, Shared<GrantRow>>>
        ensures { rows_of (unwrap_or result []) ≡ filter (is_of_grantee key.now grantee.now) self.now }
    {
        self.by_grantee.group(key, grantee)
    }

    /// The first grant, in order of making, that permits an operation on a key to a caller under an encryption context;
    /// of CreateGrant whatever grant is to be made. None where no grant permits it. No memory is taken.
    pub fn permitting(
        &self,
        key: &KeyId,
        caller: &Principal,
        op: GrantOp,
        context: &Context,
    ) -> Option<&GrantRow>
        ensures first { option_map (λ row. row.now) result ≡ grant_permitting self.now key.now caller.now op context.now }
        ensures permits { IfSome result (λ row. Permits row.now key.now caller.now op context.now) }
        ensures none { IfNone result (All (λ row. ¬ (Permits row key.now caller.now op context.now)) self.now) }
    {
        let mut grants = self.of_grantee(key, caller)?;
        let (_, row) = grants.find(|(_, row)| row.value().permits(key, caller, op, context))?;
        Some(row.value())
    }

    /// The first grant of a key, in order of making, by which a caller may make a grant of these operations and this
    /// constraint: the caller is its grantee, CreateGrant is among its operations, and such a grant is a child of it
    /// (`GrantRow::has_child`). No memory is taken.
    pub fn parent_of(
        &self,
        key: &KeyId,
        caller: &Principal,
        operations: &GrantOps,
        constraint: &Constraint,
    ) -> Option<&GrantRow>
        ensures { option_map (λ row. row.now) result ≡ parent_of self.now key.now caller.now operations.now constraint.now }
    {
        let mut grants = self.of_grantee(key, caller)?;
        let (_, row) = grants.find(|(_, row)| row
            .value()
            .is_parent(key, caller, operations, constraint))?;
        Some(row.value())
    }

    /// The first grant of a key, in order of making, that has this name, grantee, retiring principal, set of operations
    /// and constraint. No memory is taken.
    pub fn same_as(
        &self,
        key: &KeyId,
        name: &Text,
        grantee: &Principal,
        retiring: &Option<Principal>,
        operations: &GrantOps,
        constraint: &Constraint,
    ) -> Option<&GrantRow>
        ensures { option_map (λ row. row.now) result ≡ same_as self.now key.now name.now grantee.now retiring.now operations.now constraint.now }
    {
        let mut grants = self.of_grantee(key, grantee)?;
        let (_, row) = grants.find(|(_, row)| {
            row.value()
                .is_same(key, name, grantee, retiring, operations, constraint)
        })?;
        Some(row.value())
    }

    /// How many grants a key has. No memory is taken.
    pub fn number_of_key(&self, key: &KeyId) -> usize
        ensures { result ≡ number_of_key self.now key.now }
    {
        self.by_key.group_len(key)
    }

    /// The first grant of a retiring principal, in order of making, that was made behind a place, or the first of all
    /// of its grants. No memory is taken.
    pub fn retirable(&self, retiring: &Principal, after: Option<u64>) -> Option<&GrantRow>
        ensures { option_map (λ row. row.now) result ≡ grant_retirable self.now retiring.now after }
    {
        let (_, row) = self.by_retiring.group_behind(retiring, after).next()?;
        Some(row.value())
    }

    /// The first grant of a key, in order of making, that was made behind a place, or the first of all of its grants.
    /// No memory is taken.
    pub fn of_key(&self, key: &KeyId, after: Option<u64>) -> Option<&GrantRow>
        ensures { option_map (λ row. row.now) result ≡ grant_of_key self.now key.now after }
    {
        let (_, row) = self.by_key.group_behind(key, after).next()?;
        Some(row.value())
    }

    // The first grant of a key.
    fn first_of_key(&self, key: &KeyId) -> Option<&GrantRow>
        ensures first { option_map (λ row. row.now) result ≡ grant_of_key self.now key.now None }
        ensures own { IfSome result (λ row. grant_with self.now row.now.grant ≡ Some row.now) }
        ensures grants { AreGrants self.now }
    {
        let (_, row) = self.by_key.group(key).next()?;
        Some(row.value())
    }

    /// The table with one more grant behind the others. Its id isn't there, and the others were made before it.
    pub fn add(&self, row: GrantRow) -> Result<GrantTable, NoMemory>
        requires { MayAdd self.now row }
        ensures { IfOk result (λ table. table ≡ self.now ++ row ∷ []) }
    {
        let born = row.born;
        let grant = row.grant;
        let key = row.key;
        let row = Shared::new(self.alloc, row)?;
        Ok(GrantTable {
            alloc: self.alloc,
            by_id: self.by_id.insert(grant, row.share()?)?,
            by_key: self.by_key.insert(key, born, row.share()?)?,
            by_grantee: self.by_grantee.insert(self.alloc, row.share()?)?,
            by_retiring: retiring_with(&self.by_retiring, row.share()?)?,
            rows: self.rows.insert(born, row)?,
        })
    }

    // The table without one of its rows.
    fn without_row(&self, row: &GrantRow) -> Result<GrantTable, NoMemory>
        requires { grant_with self.now row.now.grant ≡ Some row.now }
        ensures { IfOk result (λ table. table ≡ without self.now row.now.grant) }
    {
        let by_key = self.by_key.remove(row.key, row.born)?;
        let is_last = by_key.group_len(&row.key) == 0;
        Ok(GrantTable {
            alloc: self.alloc,
            rows: self.rows.remove(&row.born)?,
            by_id: self.by_id.remove(&row.grant)?,
            by_key,
            by_grantee: self.by_grantee.remove(row, is_last)?,
            by_retiring: retiring_without(&self.by_retiring, row)?,
        })
    }

    /// The table without the grant of an id, which is there.
    pub fn drop_one(&self, grant: &GrantId) -> Result<GrantTable, NoMemory>
        requires { IsThere self.now grant.now }
        ensures { IfOk result (λ table. table ≡ without self.now grant.now) }
    {
        self.without_row(self.get(grant).unwrap())
    }

    // The table without the grants of a key.
    fn without_key(&self, key: &KeyId) -> Result<GrantTable, NoMemory>
        ensures { IfOk result (λ table. table ≡ without_keys self.now (key.now ∷ [])) }
    {
        let mut table = self.share()?;
        while let Some(row) = table.first_of_key(key) {
            table = table.without_row(row)?;
        }
        Ok(table)
    }

    /// The table without the grants of some keys. Its time grows with the number of their grants.
    pub fn without_keys(&self, keys: &[KeyId]) -> Result<GrantTable, NoMemory>
        ensures { IfOk result (λ table. table ≡ without_keys self.now keys.now) }
    {
        let mut table = self.share()?;
        for key in keys {
            table = table.without_key(key)?;
        }
        Ok(table)
    }

    /// The same table.
    pub fn share(&self) -> Result<GrantTable, NoMemory>
        ensures { IfOk result (λ table. table ≡ self.now) }
    {
        Ok(GrantTable {
            alloc: self.alloc,
            rows: self.rows.share()?,
            by_id: self.by_id.share()?,
            by_key: self.by_key.share()?,
            by_grantee: self.by_grantee.share()?,
            by_retiring: self.by_retiring.share()?,
        })
    }
}

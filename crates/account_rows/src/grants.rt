//! Grants that versions of the account share.

ghost use Rattle.std.specs.Prelude.{◌≡◌, ◌++◌, ◌∷◌, [], IfOk, All};
ghost use Rattle.grant_table.specs.Grants.{without, without_keys, MayAdd};
ghost use Rattle.account_rows.specs.GrantChanges.{new_grant, grants_after};
ghost use Rattle.account_rows.specs.History.{IsGrantOf, IsMadeHere};
ghost use Rattle.account_rows.specs.Keys.{AreInOrder};

use crate::entries::{Entry, What};
use crate::keys::HeldKeys;
use grant_table::{Constraint, GrantRow, GrantTable, copy_of_name, copy_of_principal};
use kms_names::{GrantId, GrantOps, KeyId, NoMemory, Principal, Text};
use std::alloc::Global;
use std::marker::Model;
use std::sync::Arc;

/// Grants that are shared by the versions of the account that have the same. Contracts see the grants.
#[derive(Drop)]
pub struct HeldGrants {
    table: Arc<GrantTable>,
}

impl Model for HeldGrants {
    ghost use Rattle.std.specs.Prelude.{List};
    ghost use Rattle.std.specs.Arc.{arc_value};
    ghost use Rattle.grant_table.specs.declared.rows.GrantRow.{GrantRow};

    ghost Value = { List GrantRow };

    ghost view = { λ held. arc_value held.table };
}

// A grant as it is made.
fn new_grant(
    place: u64,
    time: u64,
    grant: &GrantId,
    key: &KeyId,
    grantee: &Principal,
    retiring: &Option<Principal>,
    operations: &GrantOps,
    constraint: &Constraint,
    name: &Option<Text>,
) -> Result<GrantRow, NoMemory>
    ensures { IfOk result (λ row. row ≡ new_grant place time grant.now key.now grantee.now retiring.now operations.now constraint.now name.now) }
{
    Ok(GrantRow {
        grant: *grant,
        born: place,
        made: time,
        key: *key,
        grantee: grantee.copy()?,
        retiring: copy_of_principal(retiring)?,
        operations: *operations,
        constraint: constraint.copy()?,
        name: copy_of_name(name)?,
    })
}

impl HeldGrants {
    /// No grants.
    pub fn new(alloc: Global) -> Result<HeldGrants, NoMemory>
        ensures { IfOk result (λ held. held ≡ []) }
    {
        HeldGrants::of(alloc, GrantTable::new(alloc))
    }

    // These grants, to be shared.
    fn of(alloc: Global, table: GrantTable) -> Result<HeldGrants, NoMemory>
        ensures { IfOk result (λ held. held ≡ table) }
    {
        match Arc::new(alloc, table) {
            Ok(table) => Ok(HeldGrants { table }),
            Err(_) => Err(NoMemory),
        }
    }

    // The same once more.
    pub(crate) fn share(&self) -> Result<HeldGrants, NoMemory>
        ensures { IfOk result (λ held. held ≡ self.now) }
    {
        match Arc::try_clone(&self.table) {
            Ok(table) => Ok(HeldGrants { table }),
            Err(_) => Err(NoMemory),
        }
    }

    /// The grants.
    pub fn table(&self) -> &GrantTable
        ensures { result.now ≡ self.now }
    {
        &self.table
    }

    // The grants with one more.
    fn with_grant(&self, alloc: Global, row: GrantRow) -> Result<HeldGrants, NoMemory>
        requires { MayAdd self.now row }
        ensures { IfOk result (λ held. held ≡ self.now ++ row ∷ []) }
    {
        HeldGrants::of(alloc, self.table().add(row)?)
    }

    // The grants without that of an id, if it is there.
    fn without_grant(&self, alloc: Global, grant: &GrantId) -> Result<HeldGrants, NoMemory>
        ensures { IfOk result (λ held. held ≡ without self.now grant.now) }
    {
        let table = self.table();
        match table.get(grant) {
            Some(_) => HeldGrants::of(alloc, table.drop_one(grant)?),
            None => self.share(),
        }
    }

    // The grants without those of some keys.
    fn without_keys(&self, alloc: Global, keys: &[KeyId]) -> Result<HeldGrants, NoMemory>
        ensures { IfOk result (λ held. held ≡ without_keys self.now keys.now) }
    {
        if keys.is_empty() {
            return self.share();
        }
        HeldGrants::of(alloc, self.table().without_keys(keys)?)
    }
}

/// The grants after an entry at this place. Where the entry leaves them as they are, they are shared.
pub fn grants_after(
    alloc: Global,
    grants: &HeldGrants,
    keys: &HeldKeys,
    place: u64,
    entry: &Entry,
) -> Result<HeldGrants, NoMemory>
    requires grants { All (IsGrantOf place) grants.now }
    requires made { IsMadeHere place entry.now.what }
    requires order { AreInOrder keys.now }
    ensures { IfOk result (λ held. held ≡ grants_after place entry.now.time entry.now.what keys.now grants.now) }
{
    match &entry.what {
        What::GrantAdd {
            grant,
            key,
            grantee,
            retiring,
            operations,
            constraint,
            name,
        } => {
            let time = entry.time;
            let row = new_grant(
                place, time, grant, key, grantee, retiring, operations, constraint, name,
            )?;
            grants.with_grant(alloc, row)
        }
        What::GrantDrop { grant } => grants.without_grant(alloc, grant),
        What::House => {
            let gone = keys.gone(alloc, entry.time)?;
            grants.without_keys(alloc, &gone)
        }
        _ => grants.share(),
    }
}

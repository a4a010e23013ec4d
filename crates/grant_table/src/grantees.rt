//! Grants by their keys and grantees.

ghost use Rattle.std.specs.Prelude.{◌≡◌, [], ℕ, List, true, false, IfOk, if◌then◌else◌};
ghost use Rattle.std.specs.Option.{unwrap_or};
ghost use Rattle.std.specs.Str.{bytes_eq};
ghost use Rattle.kms_names.specs.declared.principals.Principal.{Principal as PrincipalValue};
ghost use Rattle.persist_map.specs.Groups.{group_of, group_with};
ghost use Rattle.grant_table.specs.Tables.{groups_at, grantee_group, grantee_group_with, grantee_group_without};

use crate::counted::value_in;
use crate::rows::GrantRow;
use kms_names::{KeyId, NoMemory, Principal};
use persist_map::{PFrom, PGroups, PMap, Shared};
use std::alloc::Global;
use std::marker::Model;

// The grants of each key, by grantee and place: a map of maps, so that nothing need be copied to be sought.
#[derive(Drop)]
pub(crate) struct Grantees {
    keys: PMap<KeyId, PGroups<Principal, Shared<GrantRow>>>,
}

impl Model for Grantees {
    ghost use Rattle.grant_table.specs.Tables.{Keys};

    ghost Value = { Keys };

    ghost view = { λ grantees. grantees.keys };
}

impl Grantees {
    // No grants; no memory is taken.
    pub(crate) fn new(alloc: Global) -> Grantees
        ensures { result ≡ [] }
    {
        Grantees {
            keys: PMap::new(alloc),
        }
    }

    // The grants of a key that have a grantee, by place; None where the key has no grants. No memory is taken.
    pub(crate) fn group(
        &self,
        key: &KeyId,
        grantee: &Principal,
    ) -> Option<PFrom<'_, u64, Shared<GrantRow>>>
        ensures { unwrap_or result [] ≡ grantee_group ⟦<Principal as Ord>⟧.cmp self.now key.now grantee.now }
    {
        Some(value_in(&self.keys, key)?.group(grantee))
    }

    // The groups of a row's key with the row.
    fn groups_with(
        &self,
        alloc: Global,
        row: Shared<GrantRow>,
    ) -> Result<PGroups<Principal, Shared<GrantRow>>, NoMemory>
        ensures { IfOk result (λ groups. (grantee : PrincipalValue) → group_of ⟦<Principal as Ord>⟧.cmp groups grantee ≡ group_with ⟦<Principal as Ord>⟧.cmp (groups_at self.now row.key) row.grantee row.born row grantee) }
    {
        let key = row.value().key;
        let born = row.value().born;
        let grantee = row.value().grantee.copy()?;
        match value_in(&self.keys, &key) {
            Some(groups) => groups.insert(grantee, born, row),
            None => PGroups::new(alloc).insert(grantee, born, row),
        }
    }

    // The grants with one more.
    pub(crate) fn insert(&self, alloc: Global, row: Shared<GrantRow>) -> Result<Grantees, NoMemory>
        ensures { IfOk result (λ grantees. (key : List ℕ) (grantee : PrincipalValue) → grantee_group ⟦<Principal as Ord>⟧.cmp grantees key grantee ≡ grantee_group_with ⟦<Principal as Ord>⟧.cmp self.now row key grantee) }
    {
        let key = row.value().key;
        let groups = self.groups_with(alloc, row)?;
        Ok(Grantees {
            keys: self.keys.insert(key, groups)?,
        })
    }

    // The grants without one of them, where its key keeps others.
    fn without_row(&self, row: &GrantRow) -> Result<Grantees, NoMemory>
        ensures { IfOk result (λ grantees. (key : List ℕ) (grantee : PrincipalValue) → grantee_group ⟦<Principal as Ord>⟧.cmp grantees key grantee ≡ grantee_group_without ⟦<Principal as Ord>⟧.cmp self.now row.now key grantee) }
    {
        let Some(groups) = value_in(&self.keys, &row.key) else {
            return self.share();
        };
        let groups = groups.remove(row.grantee.copy()?, row.born)?;
        Ok(Grantees {
            keys: self.keys.insert(row.key, groups)?,
        })
    }

    // The grants of all other keys.
    fn without_key(&self, key: &KeyId) -> Result<Grantees, NoMemory>
        ensures { IfOk result (λ grantees. (other : List ℕ) → groups_at grantees other ≡ (if bytes_eq key.now other then [] else groups_at self.now other)) }
    {
        Ok(Grantees {
            keys: self.keys.remove(key)?,
        })
    }

    // The grants without one of them. Where it is the last of its key, nothing is kept of that key.
    pub(crate) fn remove(&self, row: &GrantRow, is_last: bool) -> Result<Grantees, NoMemory>
        ensures one { is_last ≡ false → IfOk result (λ grantees. (key : List ℕ) (grantee : PrincipalValue) → grantee_group ⟦<Principal as Ord>⟧.cmp grantees key grantee ≡ grantee_group_without ⟦<Principal as Ord>⟧.cmp self.now row.now key grantee) }
        ensures last { is_last ≡ true → IfOk result (λ grantees. (other : List ℕ) → groups_at grantees other ≡ (if bytes_eq row.now.key other then [] else groups_at self.now other)) }
    {
        if is_last {
            self.without_key(&row.key)
        } else {
            self.without_row(row)
        }
    }

    // An equal value, which shares all with this one.
    pub(crate) fn share(&self) -> Result<Grantees, NoMemory>
        ensures { IfOk result (λ grantees. grantees ≡ self.now) }
    {
        Ok(Grantees {
            keys: self.keys.share()?,
        })
    }
}

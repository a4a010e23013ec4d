// The lists that are shown in parts.
ghost use Rattle.std.specs.Prelude.{◌≡◌, ◌&&◌, ◌+◌, IfOk, option_map, slice_get};
ghost use Rattle.account_lists.specs.Lists.{shown_alias, shown_constraint, shown_grant, has_sought_id, has_sought_grantee};

use crate::lists::Sought;
use crate::pages::Listing;
use account_rows::{Lent, is_gone};
use account_steps::{LentGrant, View};
use alias_map::AliasRow;
use grant_table::{Constraint, GrantRow, copy_of_name, copy_of_principal, same_principal};
use key_states::{KeyRow, Version};
use kms_json::{GrantConstraint, ListedAlias, ListedGrant, Rotation};
use kms_names::{KeyId, NoMemory, Principal};
use std::alloc::Global;
use std::marker::Model;

/// The keys that aren't gone.
#[derive(Drop)]
pub struct KeysListed<'a> {
    view: &'a View<'a>,
}

impl<'a> KeysListed<'a> {
    ghost use Rattle.std.specs.Prelude.{◌≡◌};

    /// Those of a view.
    pub fn new(view: &'a View<'a>) -> KeysListed<'a>
        ensures { result.view.now ≡ view.now }
    {
        KeysListed { view }
    }
}

impl<'a> Listing for KeysListed<'a> {
    ghost use Rattle.std.specs.Prelude.{not};
    ghost use Rattle.account_rows.specs.Changes.{is_gone};

    type Row = Lent<'a>;

    type Item = KeyId;

    ghost rows = { λ l. l.view.now.keys };

    ghost born = { λ l row. row.born };

    ghost listed = { λ l row. not (is_gone l.view.now.moment row) };

    ghost shown = { λ l row. row.key };

    fn in_order(&self) {
        let _ = self.view.number_of_keys();
    }

    fn behind(&self, after: Option<u64>) -> Option<Lent<'a>> {
        self.view.key_after(after)
    }

    fn born(&self, row: &Lent<'a>) -> u64 {
        row.row().born
    }

    fn lists(&self, row: &Lent<'a>) -> bool {
        !is_gone(row.row(), self.view.moment())
    }

    fn show(&self, _alloc: Global, row: Lent<'a>) -> Result<KeyId, NoMemory> {
        Ok(row.row().key)
    }
}

/// An alias that is lent. Contracts see its row.
#[derive(Drop)]
pub struct LentAlias<'a> {
    row: &'a AliasRow,
}

impl<'a> Model for LentAlias<'a> {
    ghost use Rattle.alias_map.specs.declared.rows.AliasRow.{AliasRow as AliasValue};

    ghost Value = { AliasValue };

    ghost view = { λ lent. lent.row.now };
}

// An alias as replies show it.
fn shown_alias(row: &AliasRow) -> Result<ListedAlias, NoMemory>
    ensures { IfOk result (λ shown. shown ≡ shown_alias row.now) }
{
    Ok(ListedAlias {
        name: row.name.copy()?,
        key: row.key,
        created: row.made,
        updated: row.updated,
    })
}

/// The aliases of keys that aren't gone.
#[derive(Drop)]
pub struct AliasesListed<'a> {
    view: &'a View<'a>,
}

impl<'a> AliasesListed<'a> {
    ghost use Rattle.std.specs.Prelude.{◌≡◌};

    /// Those of a view.
    pub fn new(view: &'a View<'a>) -> AliasesListed<'a>
        ensures { result.view.now ≡ view.now }
    {
        AliasesListed { view }
    }
}

impl<'a> Listing for AliasesListed<'a> {
    ghost use Rattle.std.specs.Prelude.{None};
    ghost use Rattle.account_lists.specs.Lists.{is_listed_alias, shown_alias};

    type Row = LentAlias<'a>;

    type Item = ListedAlias;

    ghost rows = { λ l. l.view.now.aliases };

    ghost born = { λ l row. row.born };

    ghost listed = { λ l row. is_listed_alias l.view.now None row };

    ghost shown = { λ l row. shown_alias row };

    fn in_order(&self) {
        let _ = self.view.aliases().len();
    }

    fn behind(&self, after: Option<u64>) -> Option<LentAlias<'a>> {
        let row = self.view.aliases().of_all(after)?;
        Some(LentAlias { row })
    }

    fn born(&self, row: &LentAlias<'a>) -> u64 {
        row.row.born
    }

    fn lists(&self, row: &LentAlias<'a>) -> bool {
        self.view.key(&row.row.key).is_some()
    }

    fn show(&self, _alloc: Global, row: LentAlias<'a>) -> Result<ListedAlias, NoMemory> {
        shown_alias(row.row)
    }
}

/// The aliases of a key.
#[derive(Drop)]
pub struct AliasesOfKey<'a> {
    view: &'a View<'a>,
    key: &'a KeyId,
}

impl<'a> AliasesOfKey<'a> {
    ghost use Rattle.std.specs.Prelude.{◌≡◌};

    /// Those of a view.
    pub fn new(view: &'a View<'a>, key: &'a KeyId) -> AliasesOfKey<'a>
        ensures view { result.view.now ≡ view.now }
        ensures key { result.key.now ≡ key.now }
    {
        AliasesOfKey { view, key }
    }
}

impl<'a> Listing for AliasesOfKey<'a> {
    ghost use Rattle.std.specs.Prelude.{filter, true};
    ghost use Rattle.alias_map.specs.Aliases.{names_key};
    ghost use Rattle.account_lists.specs.Lists.{shown_alias};

    type Row = LentAlias<'a>;

    type Item = ListedAlias;

    ghost rows = { λ l. filter (names_key l.key.now) l.view.now.aliases };

    ghost born = { λ l row. row.born };

    ghost listed = { λ l row. true };

    ghost shown = { λ l row. shown_alias row };

    fn in_order(&self) {
        let _ = self.view.aliases().len();
    }

    fn behind(&self, after: Option<u64>) -> Option<LentAlias<'a>> {
        let row = self.view.aliases().of_key(self.key, after)?;
        Some(LentAlias { row })
    }

    fn born(&self, row: &LentAlias<'a>) -> u64 {
        row.row.born
    }

    fn lists(&self, _row: &LentAlias<'a>) -> bool {
        true
    }

    fn show(&self, _alloc: Global, row: LentAlias<'a>) -> Result<ListedAlias, NoMemory> {
        shown_alias(row.row)
    }
}

// A constraint as replies show it.
fn shown_constraint(constraint: &Constraint) -> Result<GrantConstraint, NoMemory>
    ensures { IfOk result (λ shown. shown ≡ shown_constraint constraint.now) }
{
    Ok(match constraint {
        Constraint::Free => GrantConstraint::Free,
        Constraint::Equals(context) => GrantConstraint::Equals(context.copy()?),
        Constraint::Subset(context) => GrantConstraint::Subset(context.copy()?),
    })
}

// A grant as replies show it.
fn shown_grant(grant: &GrantRow) -> Result<ListedGrant, NoMemory>
    ensures { IfOk result (λ shown. shown ≡ shown_grant grant.now) }
{
    Ok(ListedGrant {
        grant: grant.grant,
        key: grant.key,
        created: grant.made,
        grantee: grant.grantee.copy()?,
        retiring: copy_of_principal(&grant.retiring)?,
        operations: grant.operations,
        constraint: shown_constraint(&grant.constraint)?,
        name: copy_of_name(&grant.name)?,
    })
}

/// The live grants that a principal may retire.
#[derive(Drop)]
pub struct RetirableGrants<'a> {
    view: &'a View<'a>,
    retiring: &'a Principal,
}

impl<'a> RetirableGrants<'a> {
    ghost use Rattle.std.specs.Prelude.{◌≡◌};

    /// Those of a view.
    pub fn new(view: &'a View<'a>, retiring: &'a Principal) -> RetirableGrants<'a>
        ensures view { result.view.now ≡ view.now }
        ensures retiring { result.retiring.now ≡ retiring.now }
    {
        RetirableGrants { view, retiring }
    }
}

impl<'a> Listing for RetirableGrants<'a> {
    ghost use Rattle.std.specs.Prelude.{filter};
    ghost use Rattle.grant_table.specs.Grants.{has_retiring};
    ghost use Rattle.account_steps.specs.View.{is_live};
    ghost use Rattle.account_lists.specs.Lists.{shown_grant};

    type Row = LentGrant<'a>;

    type Item = ListedGrant;

    ghost rows = { λ l. filter (has_retiring l.retiring.now) l.view.now.grants };

    ghost born = { λ l row. row.born };

    ghost listed = { λ l row. is_live l.view.now row };

    ghost shown = { λ l row. shown_grant row };

    fn in_order(&self) {
        let _ = self.view.grants().len();
    }

    fn behind(&self, after: Option<u64>) -> Option<LentGrant<'a>> {
        self.view.retirable_grant(self.retiring, after)
    }

    fn born(&self, row: &LentGrant<'a>) -> u64 {
        row.row().born
    }

    fn lists(&self, row: &LentGrant<'a>) -> bool {
        self.view.is_live(row.row())
    }

    fn show(&self, _alloc: Global, row: LentGrant<'a>) -> Result<ListedGrant, NoMemory> {
        shown_grant(row.row())
    }
}

/// The grants of a key, of which some are sought.
#[derive(Drop)]
pub struct GrantsOfKey<'a> {
    view: &'a View<'a>,
    key: &'a KeyId,
    sought: &'a Sought,
}

impl<'a> GrantsOfKey<'a> {
    ghost use Rattle.std.specs.Prelude.{◌≡◌};

    /// Those of a view.
    pub fn new(view: &'a View<'a>, key: &'a KeyId, sought: &'a Sought) -> GrantsOfKey<'a>
        ensures view { result.view.now ≡ view.now }
        ensures key { result.key.now ≡ key.now }
        ensures sought { result.sought.now ≡ sought.now }
    {
        GrantsOfKey { view, key, sought }
    }
}

impl<'a> Listing for GrantsOfKey<'a> {
    ghost use Rattle.std.specs.Prelude.{◌&&◌, filter};
    ghost use Rattle.grant_table.specs.Grants.{is_of_key};
    ghost use Rattle.account_lists.specs.Lists.{has_sought_id, has_sought_grantee, shown_grant};

    type Row = LentGrant<'a>;

    type Item = ListedGrant;

    ghost rows = { λ l. filter (is_of_key l.key.now) l.view.now.grants };

    ghost born = { λ l row. row.born };

    ghost listed = { λ l row. has_sought_id l.sought.now.grant row && has_sought_grantee l.sought.now.grantee row };

    ghost shown = { λ l row. shown_grant row };

    fn in_order(&self) {
        let _ = self.view.grants().len();
    }

    fn behind(&self, after: Option<u64>) -> Option<LentGrant<'a>> {
        self.view.grant_of_key(self.key, after)
    }

    fn born(&self, row: &LentGrant<'a>) -> u64 {
        row.row().born
    }

    fn lists(&self, row: &LentGrant<'a>) -> bool {
        has_sought(self.sought, row.row())
    }

    fn show(&self, _alloc: Global, row: LentGrant<'a>) -> Result<ListedGrant, NoMemory> {
        shown_grant(row.row())
    }
}

// Whether a grant is sought.
fn has_sought(sought: &Sought, grant: &GrantRow) -> bool
    ensures { result ≡ (has_sought_id sought.now.grant grant.now && has_sought_grantee sought.now.grantee grant.now) }
{
    let is_sought = match &sought.grant {
        Some(id) => grant.has_id(id),
        None => true,
    };
    is_sought
        && match &sought.grantee {
            Some(grantee) => same_principal(&grant.grantee, grantee),
            None => true,
        }
}

/// A version of a key with its number, counted from 1.
#[derive(Clone, Copy)]
pub struct Numbered {
    /// The number.
    pub number: u64,
    /// The version.
    pub version: Version,
}

// The version at a place, counted from 0, with its number.
fn version_at(row: &KeyRow, place: u64) -> Option<Numbered>
    ensures { result ≡ option_map (λ version. record { number = place + 1; version = version }) (slice_get row.now.versions place) }
{
    let version = *row.versions.as_slice().get(place as usize)?;
    Some(Numbered {
        number: place + 1,
        version,
    })
}

/// The rotations of a key: all versions but the first, with their numbers.
#[derive(Drop)]
pub struct RotationsOf<'a> {
    row: &'a KeyRow,
}

impl<'a> RotationsOf<'a> {
    ghost use Rattle.std.specs.Prelude.{◌≡◌};

    /// Those of a key.
    pub fn new(row: &'a KeyRow) -> RotationsOf<'a>
        ensures { result.row.now ≡ row.now }
    {
        RotationsOf { row }
    }
}

impl<'a> Listing for RotationsOf<'a> {
    ghost use Rattle.std.specs.Prelude.{true};
    ghost use Rattle.account_lists.specs.Lists.{rotations_of, shown_rotation};

    type Row = Numbered;

    type Item = Rotation;

    ghost rows = { λ l. rotations_of l.row.now };

    ghost born = { λ l row. row.number };

    ghost listed = { λ l row. true };

    ghost shown = { λ l row. shown_rotation row };

    fn in_order(&self) {}

    fn behind(&self, after: Option<u64>) -> Option<Numbered> {
        version_at(self.row, after.unwrap_or(1).max(1))
    }

    fn born(&self, row: &Numbered) -> u64 {
        row.number
    }

    fn lists(&self, _row: &Numbered) -> bool {
        true
    }

    fn show(&self, _alloc: Global, row: Numbered) -> Result<Rotation, NoMemory> {
        Ok(Rotation {
            date: row.version.time,
            on_demand: row.version.on_demand,
        })
    }
}

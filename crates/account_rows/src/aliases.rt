//! Aliases that versions of the account share.

ghost use Rattle.std.specs.Prelude.{◌≡◌, [], IfOk};
ghost use Rattle.alias_map.specs.Aliases.{row_named, without, without_keys, AreBefore};
ghost use Rattle.account_rows.specs.AliasChanges.{put_row, with_alias, aliases_after};
ghost use Rattle.account_rows.specs.Keys.{AreInOrder};

use crate::entries::{Entry, What};
use crate::keys::HeldKeys;
use alias_map::{AliasMap, AliasRow};
use kms_names::{AliasName, KeyId, NoMemory};
use std::alloc::Global;
use std::marker::Model;
use std::sync::Arc;

/// Aliases that are shared by the versions of the account that have the same. Contracts see the aliases.
#[derive(Drop)]
pub struct HeldAliases {
    map: Arc<AliasMap>,
}

impl Model for HeldAliases {
    ghost use Rattle.std.specs.Prelude.{List};
    ghost use Rattle.std.specs.Arc.{arc_value};
    ghost use Rattle.alias_map.specs.declared.rows.AliasRow.{AliasRow};

    ghost Value = { List AliasRow };

    ghost view = { λ held. arc_value held.map };
}

// The row of an alias that is put among these.
fn put_row(
    aliases: &AliasMap,
    place: u64,
    time: u64,
    name: &AliasName,
    key: &KeyId,
) -> Result<AliasRow, NoMemory>
    ensures { IfOk result (λ row. row ≡ put_row place time name.now key.now (row_named aliases.now name.now)) }
{
    let (born, made) = match aliases.resolve(name) {
        Some(row) => (row.born, row.made),
        None => (place, time),
    };
    Ok(AliasRow {
        name: name.copy()?,
        born,
        made,
        updated: time,
        key: *key,
    })
}

impl HeldAliases {
    /// No aliases.
    pub fn new(alloc: Global) -> Result<HeldAliases, NoMemory>
        ensures { IfOk result (λ held. held ≡ []) }
    {
        HeldAliases::of(alloc, AliasMap::new(alloc))
    }

    // These aliases, to be shared.
    fn of(alloc: Global, map: AliasMap) -> Result<HeldAliases, NoMemory>
        ensures { IfOk result (λ held. held ≡ map) }
    {
        match Arc::new(alloc, map) {
            Ok(map) => Ok(HeldAliases { map }),
            Err(_) => Err(NoMemory),
        }
    }

    // The same once more.
    pub(crate) fn share(&self) -> Result<HeldAliases, NoMemory>
        ensures { IfOk result (λ held. held ≡ self.now) }
    {
        match Arc::try_clone(&self.map) {
            Ok(map) => Ok(HeldAliases { map }),
            Err(_) => Err(NoMemory),
        }
    }

    /// The aliases.
    pub fn map(&self) -> &AliasMap
        ensures { result.now ≡ self.now }
    {
        &self.map
    }

    // The aliases with one that is put at this place and time.
    fn with_alias(
        &self,
        alloc: Global,
        place: u64,
        time: u64,
        name: &AliasName,
        key: &KeyId,
    ) -> Result<HeldAliases, NoMemory>
        requires { AreBefore self.now place }
        ensures { IfOk result (λ held. held ≡ with_alias place time name.now key.now self.now) }
    {
        let map = self.map();
        let row = put_row(map, place, time, name, key)?;
        HeldAliases::of(alloc, map.put(row)?)
    }

    // The aliases without that of a name, if it is there.
    fn without_alias(&self, alloc: Global, name: &AliasName) -> Result<HeldAliases, NoMemory>
        ensures { IfOk result (λ held. held ≡ without self.now name.now) }
    {
        let map = self.map();
        match map.resolve(name) {
            Some(_) => HeldAliases::of(alloc, map.drop_one(name)?),
            None => self.share(),
        }
    }

    // The aliases without those of some keys.
    fn without_keys(&self, alloc: Global, keys: &[KeyId]) -> Result<HeldAliases, NoMemory>
        ensures { IfOk result (λ held. held ≡ without_keys self.now keys.now) }
    {
        if keys.is_empty() {
            return self.share();
        }
        HeldAliases::of(alloc, self.map().without_keys(keys)?)
    }
}

/// The aliases after an entry at this place. Where the entry leaves them as they are, they are shared.
pub fn aliases_after(
    alloc: Global,
    aliases: &HeldAliases,
    keys: &HeldKeys,
    place: u64,
    entry: &Entry,
) -> Result<HeldAliases, NoMemory>
    requires before { AreBefore aliases.now place }
    requires order { AreInOrder keys.now }
    ensures { IfOk result (λ held. held ≡ aliases_after place entry.now.time entry.now.what keys.now aliases.now) }
{
    match &entry.what {
        What::AliasPut { name, key } => aliases.with_alias(alloc, place, entry.time, name, key),
        What::AliasDrop { name } => aliases.without_alias(alloc, name),
        What::House => {
            let gone = keys.gone(alloc, entry.time)?;
            aliases.without_keys(alloc, &gone)
        }
        _ => aliases.share(),
    }
}

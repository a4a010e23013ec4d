//! The aliases of an account.

ghost use Rattle.std.specs.Prelude.{◌≡◌, ◌<◌, [], length, filter, MatchOption, IfOk};
ghost use Rattle.std.specs.Option.{option_map};
ghost use Rattle.std.specs.Cmp.Lexicographic.{slice_cmp};
ghost use Rattle.std.specs.Ordering.{nat_cmp};
ghost use Rattle.persist_map.specs.Pairs.{value_at, with_pair};
ghost use Rattle.alias_map.specs.Aliases.{names_key, row_named, row_after, row_of_key, with_row, without, without_keys, MayPut, IsThere, AreAliases};
ghost use Rattle.alias_map.specs.Kept.{of_others};

use crate::iterators::RowsOfKey;
use crate::rows::AliasRow;
use kms_names::{AliasName, KeyId, NoMemory, Steps};
use persist_map::{PGroups, PMap, Shared};
use std::alloc::Global;
use std::marker::{Brand, Model};
use std::sync::ledger::{Blank, Ledger};

/// The aliases of an account. Contracts see it as the list of its rows in order of making. A changed map is a new one,
/// which shares what stays with the old one; the old one stays as it was.
#[derive(Drop)]
pub struct AliasMap {
    alloc: Global,
    rows: PMap<u64, Shared<AliasRow>>,
    by_name: PMap<AliasName, Shared<AliasRow>>,
    by_key: PGroups<KeyId, Shared<AliasRow>>,
}

impl Model for AliasMap {
    ghost use Rattle.std.specs.Prelude.{List};
    ghost use Rattle.alias_map.specs.declared.rows.AliasRow.{AliasRow};

    ghost Value = { List AliasRow };

    ghost use Rattle.alias_map.specs.Kept.{rows_in, AreKept};

    ghost view = { λ m. rows_in m.rows };

    ghost invariant = { λ m. AreKept m.rows m.by_name m.by_key };
}

// The row of a name, whose comparisons are counted from 0.
fn row_from<'a, L: Ledger>(
    by_name: &'a PMap<AliasName, Shared<AliasRow>>,
    name: &AliasName,
    blank: Blank,
) -> Option<&'a Shared<AliasRow>>
    requires name { blank.name ≡ L.name }
    requires parts { blank.parts ≡ L.parts }
    requires some { 0 < blank.parts }
    ensures { option_map (λ row. row.now) result ≡ value_at (slice_cmp nat_cmp) by_name.now name.now }
{
    let (book, share) = blank.open::<L>();
    by_name.get(name, &mut Steps::new(book, share))
}

// The row of a name.
fn row_in<'a>(
    by_name: &'a PMap<AliasName, Shared<AliasRow>>,
    name: &AliasName,
) -> Option<&'a Shared<AliasRow>>
    ensures { option_map (λ row. row.now) result ≡ value_at (slice_cmp nat_cmp) by_name.now name.now }
{
    row_from::<Brand>(by_name, name, Blank::new(1))
}

// The rows by their names, with one in place of the one of its name, or one more.
fn with_name(
    by_name: &PMap<AliasName, Shared<AliasRow>>,
    row: Shared<AliasRow>,
) -> Result<PMap<AliasName, Shared<AliasRow>>, NoMemory>
    ensures { IfOk result (λ names. names ≡ with_pair (slice_cmp nat_cmp) by_name.now row.name row) }
{
    let name = row.value().name.copy()?;
    by_name.insert(name, row)
}

impl AliasMap {
    /// No aliases; no memory is taken. The map and those that are made of it keep the allocator.
    pub fn new(alloc: Global) -> AliasMap
        ensures { result ≡ [] }
    {
        AliasMap {
            alloc,
            rows: PMap::new(alloc),
            by_name: PMap::new(alloc),
            by_key: PGroups::new(alloc),
        }
    }

    /// How many aliases there are. No two have one name, and each was made before those behind it. No memory is taken.
    pub fn len(&self) -> usize
        ensures len { result ≡ length self.now }
        ensures aliases { AreAliases self.now }
    {
        self.rows.len()
    }

    /// The alias of a name. No memory is taken.
    pub fn resolve(&self, name: &AliasName) -> Option<&AliasRow>
        ensures { option_map (λ row. row.now) result ≡ row_named self.now name.now }
    {
        let row = row_in(&self.by_name, name)?;
        Some(row.value())
    }

    /// The aliases of a key, in order of making. No memory is taken.
    pub fn rows_of_key(&self, key: &KeyId) -> RowsOfKey<'_>
        ensures { result ≡ filter (names_key key.now) self.now }
    {
        RowsOfKey {
            rows: self.by_key.group(key),
        }
    }

    /// The first alias of a key, in order of making, that was made behind a place, or the first of all of its aliases.
    /// No memory is taken.
    pub fn of_key(&self, key: &KeyId, after: Option<u64>) -> Option<&AliasRow>
        ensures { option_map (λ row. row.now) result ≡ row_of_key self.now key.now after }
    {
        let (_, row) = self.by_key.group_behind(key, after).next()?;
        Some(row.value())
    }

    /// The first alias, in order of making, that was made behind a place, or the first of all. No memory is taken.
    pub fn of_all(&self, after: Option<u64>) -> Option<&AliasRow>
        ensures { option_map (λ row. row.now) result ≡ row_after self.now after }
    {
        let (_, row) = self.rows.behind(after).next()?;
        Some(row.value())
    }

    /// The map with a row: in the place of the alias of its name, whose birth and making it has, or, where none has the
    /// name, behind all aliases, which were made before it.
    pub fn put(&self, row: AliasRow) -> Result<AliasMap, NoMemory>
        requires { MayPut self.now row }
        ensures { IfOk result (λ map. map ≡ with_row self.now row) }
    {
        let by_key = match row_in(&self.by_name, &row.name) {
            Some(old) => self.by_key.remove(old.value().key, old.value().born)?,
            None => self.by_key.share()?,
        };
        let key = row.key;
        let born = row.born;
        let row = Shared::new(self.alloc, row)?;
        Ok(AliasMap {
            alloc: self.alloc,
            rows: self.rows.insert(born, row.share()?)?,
            by_name: with_name(&self.by_name, row.share()?)?,
            by_key: by_key.insert(key, born, row)?,
        })
    }

    /// The map without the alias of a name, which is there.
    pub fn drop_one(&self, name: &AliasName) -> Result<AliasMap, NoMemory>
        requires { IsThere self.now name.now }
        ensures { IfOk result (λ map. map ≡ without self.now name.now) }
    {
        let Some(row) = row_in(&self.by_name, name) else {
            return self.share();
        };
        let row = row.value();
        Ok(AliasMap {
            alloc: self.alloc,
            rows: self.rows.remove(&row.born)?,
            by_name: self.by_name.remove(name)?,
            by_key: self.by_key.remove(row.key, row.born)?,
        })
    }

    // The map without the first alias of a key, or None where the key has none.
    fn without_first(&self, key: &KeyId) -> Result<Option<AliasMap>, NoMemory>
        ensures { IfOk result (λ next. MatchOption next (of_others key.now self.now ≡ self.now) (λ map. (length map < length self.now) × (of_others key.now map ≡ of_others key.now self.now))) }
    {
        let Some((_, row)) = self.by_key.group(key).next() else {
            return Ok(None);
        };
        let map = self.drop_one(&row.value().name)?;
        Ok(Some(map))
    }

    // The map without the aliases of a key.
    fn without_key(&self, key: &KeyId) -> Result<AliasMap, NoMemory>
        ensures { IfOk result (λ map. map ≡ of_others key.now self.now) }
    {
        let mut map = self.share()?;
        while let Some(next) = map.without_first(key)? {
            map = next;
        }
        Ok(map)
    }

    /// The map without the aliases of some keys. Its time grows with the number of the keys and that of their aliases.
    pub fn without_keys(&self, keys: &[KeyId]) -> Result<AliasMap, NoMemory>
        ensures { IfOk result (λ map. map ≡ without_keys self.now keys.now) }
    {
        let mut map = self.share()?;
        for key in keys {
            map = map.without_key(key)?;
        }
        Ok(map)
    }

    /// The same map.
    pub fn share(&self) -> Result<AliasMap, NoMemory>
        ensures { IfOk result (λ map. map ≡ self.now) }
    {
        Ok(AliasMap {
            alloc: self.alloc,
            rows: self.rows.share()?,
            by_name: self.by_name.share()?,
            by_key: self.by_key.share()?,
        })
    }
}

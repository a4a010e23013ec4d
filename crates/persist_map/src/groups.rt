//! Values in groups.

ghost use Rattle.std.specs.Prelude.{◌≡◌, ◌<◌, [], length, IfOk};
ghost use Rattle.std.specs.Option.{option_map};
ghost use Rattle.std.specs.Ordering.{nat_cmp};
ghost use Rattle.persist_map.specs.Pairs.{Ascends, value_at};
ghost use Rattle.persist_map.specs.Groups.{group_of, group_with, group_without, pairs_behind};

use crate::iterators::PFrom;
use crate::maps::PMap;
use kms_names::{NoMemory, Steps};
use std::alloc::Global;
use std::marker::{Brand, Model};
use std::sync::ledger::{Blank, Ledger};

/// Values in groups: each has the key of its group and a place in it. Contracts see it as the list of its groups, each a
/// key and the pairs of a place and a value, and read it by `group_of`. No group is empty: one whose last value is taken
/// out is gone. What is changed is a new one, which shares what stays with the old one; the old one stays as it was.
#[derive(Drop)]
pub struct PGroups<K: Ord, V> {
    groups: PMap<K, PMap<u64, V>>,
}

impl<K: Ord, V> Model for PGroups<K, V> {
    ghost use Rattle.std.specs.Prelude.{List, ℕ};
    ghost use Rattle.persist_map.specs.Groups.{HaveSome};

    ghost Value = { List (K × List (ℕ × V)) };

    ghost view = { λ g. g.groups };

    ghost invariant = { λ g. HaveSome g.groups };
}

// The group of a key, whose comparisons are counted from 0.
fn group_from<'a, K: Ord + Drop, V: Drop, L: Ledger>(
    groups: &'a PMap<K, PMap<u64, V>>,
    key: &K,
    blank: Blank,
) -> Option<&'a PMap<u64, V>>
    requires name { blank.name ≡ L.name }
    requires parts { blank.parts ≡ L.parts }
    requires some { 0 < blank.parts }
    ensures { option_map (λ group. group.now) result ≡ value_at K.cmp groups.now key.now }
{
    let (book, share) = blank.open::<L>();
    groups.get(key, &mut Steps::new(book, share))
}

// The group of a key.
fn group_in<'a, K: Ord + Drop, V: Drop>(
    groups: &'a PMap<K, PMap<u64, V>>,
    key: &K,
) -> Option<&'a PMap<u64, V>>
    ensures { option_map (λ group. group.now) result ≡ value_at K.cmp groups.now key.now }
{
    group_from::<K, V, Brand>(groups, key, Blank::new(1))
}

impl<K: Ord + Drop, V: Drop> PGroups<K, V> {
    /// No groups. What is made of it keeps the allocator. No memory is taken.
    pub fn new(alloc: Global) -> PGroups<K, V>
        ensures { result ≡ [] }
    {
        PGroups {
            groups: PMap::new(alloc),
        }
    }

    /// The values of a key, with their places, in ascending order of the places. No memory is taken.
    pub fn group(&self, key: &K) -> PFrom<'_, u64, V>
        ensures pairs { result ≡ group_of K.cmp self.now key.now }
        ensures ascends { Ascends nat_cmp result }
    {
        let Some(group) = group_in(&self.groups, key) else {
            return PFrom::none();
        };
        group.iter()
    }

    /// The values of a key that were placed behind a place, or all. No memory is taken.
    pub fn group_behind(&self, key: &K, after: Option<u64>) -> PFrom<'_, u64, V>
        ensures pairs { result ≡ pairs_behind (group_of K.cmp self.now key.now) after }
        ensures ascends { Ascends nat_cmp result }
    {
        let Some(group) = group_in(&self.groups, key) else {
            return PFrom::none();
        };
        group.behind(after)
    }

    /// How many values a key has. No memory is taken.
    pub fn group_len(&self, key: &K) -> usize
        ensures { result ≡ length (group_of K.cmp self.now key.now) }
    {
        match group_in(&self.groups, key) {
            Some(group) => group.len(),
            None => 0,
        }
    }

    /// The groups with a value of a key, in place of the one at its place where there is one.
    pub fn insert(&self, key: K, place: u64, value: V) -> Result<PGroups<K, V>, NoMemory>
        ensures { IfOk result (λ groups. (other : K) → group_of K.cmp groups other ≡ group_with K.cmp self.now key place value other) }
    {
        let group = match group_in(&self.groups, &key) {
            Some(group) => group.insert(place, value)?,
            None => PMap::new(self.groups.allocator()).insert(place, value)?,
        };
        Ok(PGroups {
            groups: self.groups.insert(key, group)?,
        })
    }

    /// The groups without the value of a key at a place, or equal groups where there is none. Where the key keeps other
    /// values, their group keeps the given key.
    pub fn remove(&self, key: K, place: u64) -> Result<PGroups<K, V>, NoMemory>
        ensures { IfOk result (λ groups. (other : K) → group_of K.cmp groups other ≡ group_without K.cmp self.now key place other) }
    {
        let Some(group) = group_in(&self.groups, &key) else {
            return self.share();
        };
        let group = group.remove(&place)?;
        let groups = if group.is_empty() {
            self.groups.remove(&key)?
        } else {
            self.groups.insert(key, group)?
        };
        Ok(PGroups { groups })
    }

    /// Equal groups, which share all with these.
    pub fn share(&self) -> Result<PGroups<K, V>, NoMemory>
        ensures { IfOk result (λ groups. groups ≡ self.now) }
    {
        Ok(PGroups {
            groups: self.groups.share()?,
        })
    }
}

//! Maps whose versions share what they have in common.

ghost use Rattle.std.specs.Prelude.{◌≡◌, ◌<◌};

use crate::cases::Case;
use kms_names::{NoMemory, Steps};
use persist_map::{PFrom, PMap};
use std::alloc::Global;
use std::marker::Brand;
use std::sync::ledger::{Blank, Ledger};

/// What maps of numbers answer.
pub fn maps(case: &mut Case<'_>) {
    match case.word() {
        "made" => made(case),
        "changed" => changed(case),
        "behind" => behind(case),
        "nested" => nested(case),
        _ => case.lose(),
    }
}

/// How many keys there are, and in which order they come.
#[derive(Clone, Copy)]
pub struct Order {
    /// How many there are.
    pub count: u64,
    /// How far each is from the one before it.
    pub step: u64,
}

/// The order of the next two columns.
pub fn read_order(case: &mut Case<'_>) -> Order {
    let count = case.number();
    let step = case.number();
    Order { count, step }
}

impl Order {
    /// The key at a place: an odd number.
    pub fn key(self, place: u64) -> u64 {
        match place.wrapping_mul(self.step).checked_rem(self.count) {
            Some(rest) => rest.wrapping_mul(2).wrapping_add(1),
            None => 0,
        }
    }
}

/// The value of a key.
pub fn value_of(key: u64) -> u64 {
    key.wrapping_mul(3).wrapping_add(7)
}

/// The map of an order's keys.
fn map_of(alloc: Global, order: Order) -> Result<PMap<u64, u64>, NoMemory> {
    let mut map = PMap::new(alloc);
    for place in 0..order.count {
        let key = order.key(place);
        map = map.insert(key, value_of(key))?;
    }
    Ok(map)
}

/// The map without so many keys of an order.
fn map_without(made: PMap<u64, u64>, order: Order, count: u64) -> Result<PMap<u64, u64>, NoMemory> {
    let mut map = made;
    for place in 0..count {
        map = map.remove(&order.key(place))?;
    }
    Ok(map)
}

/// How many pairs there are, and a sum over all of them.
#[derive(Clone, Copy)]
pub struct Digest {
    count: u64,
    sum: u64,
}

impl Digest {
    /// The digest of no pairs.
    pub fn new() -> Digest {
        Digest { count: 0, sum: 0 }
    }

    /// The digest with a pair more.
    pub fn with_pair(self, key: u64, value: u64) -> Digest {
        let sum = self.sum.wrapping_mul(31).wrapping_add(key);
        Digest {
            count: self.count.wrapping_add(1),
            sum: sum.wrapping_mul(31).wrapping_add(value),
        }
    }
}

/// The digest of these pairs, behind another.
fn with_pairs(digest: Digest, pairs: PFrom<'_, u64, u64>) -> Digest {
    let mut digest = digest;
    for (key, value) in pairs {
        digest = digest.with_pair(*key, *value);
    }
    digest
}

/// The digest of these pairs.
fn digest_of(pairs: PFrom<'_, u64, u64>) -> Digest {
    with_pairs(Digest::new(), pairs)
}

/// Writes a digest, with a mark before it.
pub fn put_digest(case: &mut Case<'_>, mark: &str, digest: Digest) {
    let count = digest.count.to_string(case.alloc);
    let count = case.kept_or(count, String::new(case.alloc));
    case.put_after(mark, count.as_str());
    case.put_number(digest.sum);
}

fn counted_from<'a, V: Drop, L: Ledger>(
    map: &'a PMap<u64, V>,
    key: &u64,
    blank: Blank,
) -> Option<&'a V>
    requires name { blank.name ≡ L.name }
    requires parts { blank.parts ≡ L.parts }
    requires some { 0 < blank.parts }
{
    let (book, share) = blank.open::<L>();
    map.get(key, &mut Steps::new(book, share))
}

/// The value of a key, with its comparisons counted.
pub fn counted<'a, V: Drop>(map: &'a PMap<u64, V>, key: &u64) -> Option<&'a V> {
    counted_from::<V, Brand>(map, key, Blank::new(1))
}

/// What a map answers of a key: the pairs from it on, and its value.
fn put_key(case: &mut Case<'_>, map: &PMap<u64, u64>, key: u64) {
    put_digest(case, "; ", digest_of(map.from(&key)));
    match counted(map, &key) {
        Some(value) => case.put_number(*value),
        None => case.put("-"),
    }
}

/// A map is made, and keys are taken out of it.
fn made(case: &mut Case<'_>) {
    let order = read_order(case);
    let removed = case.number();
    let step = case.number();
    let keys = case.word();
    let alloc = case.alloc;
    let made = case.kept_or(map_of(alloc, order), PMap::new(alloc));
    let others = map_without(
        made,
        Order {
            count: order.count,
            step,
        },
        removed,
    );
    let map = case.kept_or(others, PMap::new(alloc));
    case.put_number(map.len() as u64);
    case.put_truth(map.is_empty());
    put_digest(case, " ", digest_of(map.iter()));
    for key in keys.split(", ") {
        let key = case.number_of(key);
        put_key(case, &map, key);
    }
}

/// A map is made, and others are made of it. It stays as it was.
fn changed(case: &mut Case<'_>) {
    let order = read_order(case);
    let key = case.number();
    let value = case.number();
    let alloc = case.alloc;
    let map = case.kept_or(map_of(alloc, order), PMap::new(alloc));
    let with = case.kept_or(map.insert(key, value), PMap::new(alloc));
    let without = case.kept_or(map.remove(&key), PMap::new(alloc));
    let shared = case.kept_or(map.share(), PMap::new(alloc));
    put_digest(case, " ", digest_of(map.iter()));
    put_digest(case, "; ", digest_of(with.iter()));
    put_digest(case, "; ", digest_of(without.iter()));
    put_digest(case, "; ", digest_of(shared.iter()));
    case.put_number(with.len() as u64);
    case.put_number(without.len() as u64);
}

/// A map is made, and what stands behind keys in it is gone through.
fn behind(case: &mut Case<'_>) {
    let order = read_order(case);
    let keys = case.word();
    let alloc = case.alloc;
    let map = case.kept_or(map_of(alloc, order), PMap::new(alloc));
    put_digest(case, "; ", digest_of(map.behind(None)));
    for key in keys.split(", ") {
        let key = case.number_of(key);
        put_digest(case, "; ", digest_of(map.above(&key)));
        put_digest(case, " ", digest_of(map.behind(Some(key))));
    }
}

/// A map of maps with a key in the inner one of its group.
fn grown(
    alloc: Global,
    map: &PMap<u64, PMap<u64, u64>>,
    group: u64,
    key: u64,
) -> Result<PMap<u64, PMap<u64, u64>>, NoMemory> {
    let inner = match counted(map, &group) {
        Some(inner) => inner.insert(key, value_of(key))?,
        None => PMap::new(alloc).insert(key, value_of(key))?,
    };
    map.insert(group, inner)
}

/// The keys of an order, in maps by their rests.
fn maps_of(
    alloc: Global,
    order: Order,
    groups: u64,
) -> Result<PMap<u64, PMap<u64, u64>>, NoMemory> {
    let mut map = PMap::new(alloc);
    for place in 0..order.count {
        let key = order.key(place);
        let group = key.checked_rem(groups).unwrap_or(0);
        map = grown(alloc, &map, group, key)?;
    }
    Ok(map)
}

/// Maps in a map.
fn nested(case: &mut Case<'_>) {
    let order = read_order(case);
    let groups = case.number();
    let alloc = case.alloc;
    let map = case.kept_or(maps_of(alloc, order, groups), PMap::new(alloc));
    let mut all = Digest::new();
    for (_group, inner) in map.iter() {
        all = with_pairs(all, inner.iter());
    }
    case.put_number(map.len() as u64);
    put_digest(case, " ", all);
}

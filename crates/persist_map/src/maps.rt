//! Maps.

ghost use Rattle.std.specs.Prelude.{◌≡◌, ◌+◌, ◌*◌, ◌<◌, ◌≤◌, ◌==◌, [], ◌∷◌, ◌++◌, map, length, take, drop, All, IfOk, if◌then◌else◌};
ghost use Rattle.std.specs.declared.cmp.Ordering.TheVariants.{Less};
ghost use Rattle.std.specs.Option.{option_map};
ghost use Rattle.std.specs.Arc.{arc_value};
ghost use Rattle.std.specs.Ordering.{nat_cmp};
ghost use Rattle.persist_map.specs.Digits.{binary_digits};
ghost use Rattle.persist_map.specs.Pairs.{Ascends, value_at, with_pair, without_key, pairs_from, pairs_above};
ghost use Rattle.persist_map.specs.Groups.{pairs_behind};
ghost use Rattle.persist_map.specs.Parts.{joined, HaveSizes};

use crate::iterators::PFrom;
use crate::parts::{PART_MAX, PART_MOST_AT_FIRST, Part};
use crate::places::{place_in, place_of};
use crate::sharing::{add_shared, shared};
use kms_names::{NoMemory, Steps};
use std::alloc::Global;
use std::marker::Model;
use std::sync::Arc;
use std::sync::ledger::Ledger;

/// An ordered map. Contracts see it as the list of its pairs, each a key and its value, in ascending order of the
/// keys. A changed map is a new one, which shares what stays with the old one; the old one stays as it was.
#[derive(Drop)]
pub struct PMap<K: Ord, V> {
    parts: Vec<Arc<Part<K, V>>>,
    len: usize,
}

impl<K: Ord, V> Model for PMap<K, V> {
    ghost use Rattle.std.specs.Prelude.{List, ◌≡◌, length, map};
    ghost use Rattle.std.specs.Arc.{arc_value};

    ghost Value = { List (K × V) };

    ghost use Rattle.persist_map.specs.Parts.{joined, IsTree};

    ghost view = { λ m. joined (map arc_value m.parts.items) };

    ghost invariant = { λ m. IsTree K.cmp (map arc_value m.parts.items) × (m.len ≡ length (joined (map arc_value m.parts.items))) };
}

/// A part of these pairs.
fn part_of<K: Drop, V: Drop>(
    alloc: Global,
    pairs: Vec<Arc<(K, V)>>,
) -> Result<Arc<Part<K, V>>, NoMemory>
    ensures { IfOk result (λ part. arc_value part ≡ map arc_value pairs.items) }
{
    Ok(Arc::new(alloc, Part { pairs })?)
}

/// Two parts, of the halves of these pairs.
fn halves_of<K: Drop, V: Drop>(
    alloc: Global,
    mut pairs: Vec<Arc<(K, V)>>,
) -> Result<Vec<Arc<Part<K, V>>>, NoMemory>
    requires some { 1 < length pairs.items }
    requires few { length pairs.items ≤ PART_MAX + 1 }
    ensures pairs { IfOk result (λ parts. joined (map arc_value parts.items) ≡ map arc_value pairs.items) }
    ensures sizes { IfOk result (λ parts. HaveSizes (map arc_value parts.items)) }
{
    let half = pairs.len() / 2;
    let later = pairs.split_off(half)?;
    let first = part_of(alloc, pairs)?;
    let second = part_of(alloc, later)?;
    let mut parts = Vec::with_capacity(alloc, 2)?;
    parts.push(first)?;
    parts.push(second)?;
    Ok(parts)
}

/// The pairs that a part may have before it is split: about as many as there are parts, so that an insert copies about as
/// many pointers to pairs as to parts.
fn most_pairs(parts: usize) -> usize
    ensures some { 0 < result }
    ensures most { result ≤ PART_MAX }
{
    parts.clamp(PART_MOST_AT_FIRST, PART_MAX)
}

/// The parts of these pairs: none where there are no pairs, and two halves where they are more than one part may have.
fn parts_of<K: Drop, V: Drop>(
    alloc: Global,
    pairs: Vec<Arc<(K, V)>>,
    most: usize,
) -> Result<Vec<Arc<Part<K, V>>>, NoMemory>
    requires some { 0 < most }
    requires most { most ≤ PART_MAX }
    requires few { length pairs.items ≤ PART_MAX + 1 }
    ensures pairs { IfOk result (λ parts. joined (map arc_value parts.items) ≡ map arc_value pairs.items) }
    ensures sizes { IfOk result (λ parts. HaveSizes (map arc_value parts.items)) }
{
    if pairs.is_empty() {
        return Ok(Vec::new(alloc));
    }
    if pairs.len() > most {
        return halves_of(alloc, pairs);
    }
    let part = part_of(alloc, pairs)?;
    let mut parts = Vec::with_capacity(alloc, 1)?;
    parts.push(part)?;
    Ok(parts)
}

/// A part of one pair.
fn part_of_one<K: Drop, V: Drop>(
    alloc: Global,
    key: K,
    value: V,
) -> Result<Arc<Part<K, V>>, NoMemory>
    ensures { IfOk result (λ part. arc_value part ≡ (key, value) ∷ []) }
{
    let mut pairs = Vec::with_capacity(alloc, 1)?;
    let pair = Arc::new(alloc, (key, value))?;
    pairs.push(pair)?;
    part_of(alloc, pairs)
}

/// The place behind one whose pair is left out, or the place itself.
fn place_behind(place: usize, left_out: bool) -> usize
    requires { place ≤ PART_MAX }
    ensures { result ≡ (if left_out then place + 1 else place) }
{
    if left_out { place + 1 } else { place }
}

/// The parts with others in place of one.
fn with_parts<K: Drop, V: Drop>(
    alloc: Global,
    parts: &[Arc<Part<K, V>>],
    place: usize,
    changed: &[Arc<Part<K, V>>],
) -> Result<Vec<Arc<Part<K, V>>>, NoMemory>
    requires { place < length parts.now }
    ensures { IfOk result (λ all. map arc_value all.items ≡ take place (map arc_value parts.now) ++ map arc_value changed.now ++ drop (place + 1) (map arc_value parts.now)) }
{
    let mut all = shared(
        alloc,
        &parts[..place],
        parts.len().saturating_add(changed.len()),
    )?;
    add_shared(&mut all, changed)?;
    add_shared(&mut all, &parts[place + 1..])?;
    Ok(all)
}

impl<K: Ord + Drop, V: Drop> PMap<K, V> {
    /// The map with no pairs. The map and those that are made of it keep the allocator. No memory is taken.
    pub fn new(alloc: Global) -> PMap<K, V>
        ensures { result ≡ [] }
    {
        PMap {
            parts: Vec::new(alloc),
            len: 0,
        }
    }

    // The allocator of the map and of those that are made of it.
    pub(crate) fn allocator(&self) -> Global {
        *self.parts.allocator()
    }

    /// How many pairs there are. They are in ascending order of their keys. No memory is taken.
    pub fn len(&self) -> usize
        ensures len { result ≡ length self.now }
        ensures ascends { Ascends K.cmp self.now }
    {
        self.len
    }

    /// Whether there are no pairs. No memory is taken.
    pub fn is_empty(&self) -> bool
        ensures { result ≡ (length self.now == 0) }
    {
        self.len == 0
    }

    /// The value of a key. It takes at most `2 * d + 1` steps, where d is how many binary digits the number of pairs
    /// has; a step is one comparison of two keys. No memory is taken.
    pub fn get<L: Ledger>(&self, key: &K, steps: &mut Steps<L>) -> Option<&V>
        ensures value { option_map (λ value. value.now) result ≡ value_at K.cmp self.now key.now }
        ensures cost { steps.new ≤ steps.old + (2 * binary_digits (length self.now) + 1) }
    {
        let parts = self.parts.as_slice();
        let place = place_of(parts, key, steps)?;
        steps.tick();
        parts[place.part].value_at(place.pair, key)
    }

    /// How many pairs there are with one more, which may replace one.
    fn len_with(&self, replaces: bool) -> Result<usize, NoMemory>
        ensures { IfOk result (λ len. len ≡ (if replaces then length self.now else length self.now + 1)) }
    {
        if replaces {
            return Ok(self.len);
        }
        self.len.checked_add(1).ok_or(NoMemory)
    }

    /// The map with a pair behind all others, in a new part.
    fn appended(&self, key: K, value: V) -> Result<PMap<K, V>, NoMemory>
        requires { All (λ pair. K.cmp pair.0 key ≡ Less) self.now }
        ensures { IfOk result (λ m. m ≡ self.now ++ (key, value) ∷ []) }
    {
        let alloc = *self.parts.allocator();
        let len = self.len_with(false)?;
        let part = part_of_one(alloc, key, value)?;
        let mut parts = shared(
            alloc,
            self.parts.as_slice(),
            self.parts.len().saturating_add(1),
        )?;
        parts.push(part)?;
        Ok(PMap { parts, len })
    }

    /// The map with a pair, in place of the one of its key where there is one.
    pub fn insert(&self, key: K, value: V) -> Result<PMap<K, V>, NoMemory>
        ensures { IfOk result (λ m. m ≡ with_pair K.cmp self.now key value) }
    {
        let alloc = *self.parts.allocator();
        let parts = self.parts.as_slice();
        let Some(place) = place_in(parts, &key) else {
            return self.appended(key, value);
        };
        let part: &Part<K, V> = &parts[place.part];
        let most = most_pairs(parts.len());
        if place.part + 1 == parts.len() && part.is_full_before(place.pair, most) {
            return self.appended(key, value);
        }
        let replaces = part.has_key_at(place.pair, &key);
        let len = self.len_with(replaces)?;
        let next = place_behind(place.pair, replaces);
        let pair = Arc::new(alloc, (key, value))?;
        let pairs = part.with_pair(place.pair, pair, next)?;
        let changed = parts_of(alloc, pairs, most)?;
        let parts = with_parts(alloc, parts, place.part, changed.as_slice())?;
        Ok(PMap { parts, len })
    }

    /// The map without the pair of a key, or an equal map where the key isn't there.
    pub fn remove(&self, key: &K) -> Result<PMap<K, V>, NoMemory>
        ensures { IfOk result (λ m. m ≡ without_key K.cmp self.now key.now) }
    {
        let alloc = *self.parts.allocator();
        let parts = self.parts.as_slice();
        let Some(place) = place_in(parts, key) else {
            return self.share();
        };
        let part: &Part<K, V> = &parts[place.part];
        if !part.has_key_at(place.pair, key) {
            return self.share();
        }
        let pairs = part.without_pair(place.pair)?;
        let changed = parts_of(alloc, pairs, PART_MAX)?;
        let parts = with_parts(alloc, parts, place.part, changed.as_slice())?;
        let len = self.len - 1;
        Ok(PMap { parts, len })
    }

    /// An equal map, which shares all with this one.
    pub fn share(&self) -> Result<PMap<K, V>, NoMemory>
        ensures { IfOk result (λ m. m ≡ self.now) }
    {
        let alloc = *self.parts.allocator();
        let parts = shared(alloc, self.parts.as_slice(), self.parts.len())?;
        Ok(PMap {
            parts,
            len: self.len,
        })
    }

    /// The pairs whose keys aren't below a key, in ascending order of their keys. No memory is taken.
    pub fn from(&self, key: &K) -> PFrom<'_, K, V>
        ensures pairs { result ≡ pairs_from K.cmp self.now key.now }
        ensures ascends { Ascends K.cmp result }
    {
        let parts = self.parts.as_slice();
        match place_in(parts, key) {
            Some(place) => PFrom {
                pairs: parts[place.part].pairs_from(place.pair),
                parts: &parts[place.part + 1..],
            },
            None => PFrom { pairs: &[], parts },
        }
    }

    /// The pairs whose keys are above a key, in ascending order of their keys. No memory is taken.
    pub fn above(&self, key: &K) -> PFrom<'_, K, V>
        ensures pairs { result ≡ pairs_above K.cmp self.now key.now }
        ensures ascends { Ascends K.cmp result }
    {
        let parts = self.parts.as_slice();
        let Some(place) = place_in(parts, key) else {
            return PFrom::none();
        };
        let part: &Part<K, V> = &parts[place.part];
        let next = place_behind(place.pair, part.has_key_at(place.pair, key));
        PFrom {
            pairs: part.pairs_from(next),
            parts: &parts[place.part + 1..],
        }
    }

    /// All pairs, in ascending order of their keys. No memory is taken.
    pub fn iter(&self) -> PFrom<'_, K, V>
        ensures pairs { result ≡ self.now }
        ensures ascends { Ascends K.cmp result }
    {
        PFrom {
            pairs: &[],
            parts: self.parts.as_slice(),
        }
    }
}

impl<V: Drop> PMap<u64, V> {
    /// The pairs that were placed behind a place, or all, where the keys are places. No memory is taken.
    pub fn behind(&self, after: Option<u64>) -> PFrom<'_, u64, V>
        ensures pairs { result ≡ pairs_behind self.now after }
        ensures ascends { Ascends nat_cmp result }
    {
        let Some(place) = after else {
            return self.iter();
        };
        self.above(&place)
    }
}

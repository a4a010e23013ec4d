//! The parts of a map.

ghost use Rattle.std.specs.Prelude.{◌≡◌, ◌+◌, ◌<◌, ◌≤◌, ◌++◌, ◌∷◌, map, length, take, drop, IfOk};
ghost use Rattle.std.specs.Bool.{OnTrue};
ghost use Rattle.std.specs.Option.{option_map};
ghost use Rattle.std.specs.Arc.{arc_value};
ghost use Rattle.persist_map.specs.Digits.{binary_digits};
ghost use Rattle.persist_map.specs.Pairs.{Ascends, is_below};
ghost use Rattle.persist_map.specs.Parts.{IsCut, begins_above, begins_with, first_value};

use crate::sharing::{add_shared, shared};
use kms_names::{NoMemory, Steps};
use std::marker::Model;
use std::sync::Arc;
use std::sync::ledger::Ledger;

/// The most pairs of a part.
pub(crate) const PART_MAX: usize = 1024;

/// The most pairs of a part while there are few parts.
pub(crate) const PART_MOST_AT_FIRST: usize = 64;

/// A part of a map. Contracts see it as its pairs.
#[derive(Drop)]
pub(crate) struct Part<K, V> {
    pub(crate) pairs: Vec<Arc<(K, V)>>,
}

impl<K, V> Model for Part<K, V> {
    ghost use Rattle.std.specs.Prelude.{List, map};
    ghost use Rattle.std.specs.Arc.{arc_value};

    ghost Value = { List (K × V) };

    ghost view = { λ part. map arc_value part.pairs.items };
}

/// How many pairs have their keys below the key: they come first. The places are halved, so that each comparison
/// leaves one binary digit less of their number.
fn count_below<K: Ord, V, L: Ledger>(pairs: &[Arc<(K, V)>], key: &K, steps: &mut Steps<L>) -> usize
    requires { Ascends K.cmp (map arc_value pairs.now) }
    ensures place { IsCut (is_below K.cmp key.now) (map arc_value pairs.now) result }
    ensures cost { steps.new ≤ steps.old + binary_digits (length pairs.now) }
{
    let mut low = 0;
    let mut high = pairs.len();
    while low < high {
        let middle = low + (high - low) / 2;
        steps.tick();
        if pairs[middle].0.cmp(key).is_lt() {
            low = middle + 1;
        } else {
            high = middle;
        }
    }
    low
}

impl<K: Ord, V> Part<K, V> {
    /// How many pairs have their keys below the key: they come first.
    pub(crate) fn count_below<L: Ledger>(&self, key: &K, steps: &mut Steps<L>) -> usize
        requires { Ascends K.cmp self.now }
        ensures place { IsCut (is_below K.cmp key.now) self.now result }
        ensures cost { steps.new ≤ steps.old + binary_digits (length self.now) }
    {
        count_below(self.pairs.as_slice(), key, steps)
    }

    /// Whether the first key is above the key.
    pub(crate) fn begins_above(&self, key: &K) -> bool
        ensures { result ≡ begins_above K.cmp key.now self.now }
    {
        match self.pairs.first() {
            Some(pair) => pair.0.cmp(key).is_gt(),
            None => false,
        }
    }

    /// Whether the pair at a place has the key.
    pub(crate) fn has_key_at(&self, place: usize, key: &K) -> bool
        ensures { result ≡ begins_with K.cmp key.now (drop place self.now) }
    {
        match self.pairs.get(place) {
            Some(pair) => pair.0.cmp(key).is_eq(),
            None => false,
        }
    }

    /// The value of the pair at a place, where it has the key. It takes at most one comparison.
    pub(crate) fn value_at(&self, place: usize, key: &K) -> Option<&V>
        ensures { option_map (λ value. value.now) result ≡ first_value K.cmp key.now (drop place self.now) }
    {
        let pair = self.pairs.get(place)?;
        if pair.0.cmp(key).is_eq() {
            Some(&pair.1)
        } else {
            None
        }
    }
}

impl<K: Drop, V: Drop> Part<K, V> {
    /// Whether there are so many pairs, none of them at the place or behind it.
    pub(crate) fn is_full_before(&self, place: usize, most: usize) -> bool
        ensures { OnTrue result (length self.now ≤ place) }
    {
        let len = self.pairs.len();
        len >= most && place >= len
    }

    /// The pairs from a place on.
    pub(crate) fn pairs_from(&self, place: usize) -> &[Arc<(K, V)>]
        requires { place ≤ length self.now }
        ensures { map arc_value result.now ≡ drop place self.now }
    {
        &self.pairs.as_slice()[place..]
    }

    /// The pairs up to a place, one, and those from another place on.
    pub(crate) fn with_pair(
        &self,
        place: usize,
        pair: Arc<(K, V)>,
        next: usize,
    ) -> Result<Vec<Arc<(K, V)>>, NoMemory>
        requires place { place ≤ length self.now }
        requires next { next ≤ length self.now }
        ensures { IfOk result (λ pairs. map arc_value pairs.items ≡ take place self.now ++ arc_value pair ∷ drop next self.now) }
    {
        let alloc = *self.pairs.allocator();
        let pairs = self.pairs.as_slice();
        let mut changed = shared(alloc, &pairs[..place], pairs.len().saturating_add(1))?;
        changed.push(pair)?;
        add_shared(&mut changed, &pairs[next..])?;
        Ok(changed)
    }

    /// The pairs but the one at a place.
    pub(crate) fn without_pair(&self, place: usize) -> Result<Vec<Arc<(K, V)>>, NoMemory>
        requires { place < length self.now }
        ensures { IfOk result (λ pairs. map arc_value pairs.items ≡ take place self.now ++ drop (place + 1) self.now) }
    {
        let alloc = *self.pairs.allocator();
        let pairs = self.pairs.as_slice();
        let mut changed = shared(alloc, &pairs[..place], pairs.len())?;
        add_shared(&mut changed, &pairs[place + 1..])?;
        Ok(changed)
    }
}

//! The places of keys in a map.

ghost use Rattle.std.specs.Prelude.{◌≡◌, ◌+◌, ◌*◌, ◌<◌, ◌≤◌, ◌++◌, [], map, length, not, IfSome, IfNone};
ghost use Rattle.std.specs.Arc.{arc_value};
ghost use Rattle.persist_map.specs.Digits.{binary_digits};
ghost use Rattle.persist_map.specs.Parts.{IsCut, IsTree, IsPlace, begins_above, joined};

use crate::parts::Part;
use kms_names::Steps;
use std::marker::Brand;
use std::sync::Arc;
use std::sync::ledger::{Blank, Ledger};

/// The place of a key: the first of those pairs whose keys aren't below it, or the end of the part.
#[derive(Clone, Copy)]
pub(crate) struct Place {
    /// The place of the part among the parts.
    pub(crate) part: usize,
    /// The place of the pair in the part.
    pub(crate) pair: usize,
}

/// How many parts don't begin above the key: they come first.
fn count_parts<K: Ord, V, L: Ledger>(
    parts: &[Arc<Part<K, V>>],
    key: &K,
    steps: &mut Steps<L>,
) -> usize
    requires { IsTree K.cmp (map arc_value parts.now) }
    ensures place { IsCut (λ part. not (begins_above K.cmp key.now part)) (map arc_value parts.now) result }
    ensures cost { steps.new ≤ steps.old + binary_digits (length parts.now) }
{
    let mut low = 0;
    let mut high = parts.len();
    while low < high {
        let middle = low + (high - low) / 2;
        steps.tick();
        if parts[middle].begins_above(key) {
            high = middle;
        } else {
            low = middle + 1;
        }
    }
    low
}

/// The place of a key, or none where there are no parts.
pub(crate) fn place_of<K: Ord, V, L: Ledger>(
    parts: &[Arc<Part<K, V>>],
    key: &K,
    steps: &mut Steps<L>,
) -> Option<Place>
    requires { IsTree K.cmp (map arc_value parts.now) }
    ensures place { IfSome result (IsPlace K.cmp key.now (map arc_value parts.now)) }
    ensures none { IfNone result (parts.now ≡ []) }
    ensures cost { steps.new ≤ steps.old + 2 * binary_digits (length (joined (map arc_value parts.now))) }
{
    if parts.is_empty() {
        return None;
    }
    let part = count_parts(parts, key, steps).saturating_sub(1);
    let pair = parts[part].count_below(key, steps);
    Some(Place { part, pair })
}

fn place_from<K: Ord, V, L: Ledger>(
    parts: &[Arc<Part<K, V>>],
    key: &K,
    blank: Blank,
) -> Option<Place>
    requires tree { IsTree K.cmp (map arc_value parts.now) }
    requires name { blank.name ≡ L.name }
    requires parts { blank.parts ≡ L.parts }
    requires some { 0 < blank.parts }
    ensures place { IfSome result (IsPlace K.cmp key.now (map arc_value parts.now)) }
    ensures none { IfNone result (parts.now ≡ []) }
{
    let (book, share) = blank.open::<L>();
    place_of(parts, key, &mut Steps::new(book, share))
}

/// As `place_of`, with no count.
pub(crate) fn place_in<K: Ord, V>(parts: &[Arc<Part<K, V>>], key: &K) -> Option<Place>
    requires { IsTree K.cmp (map arc_value parts.now) }
    ensures place { IfSome result (IsPlace K.cmp key.now (map arc_value parts.now)) }
    ensures none { IfNone result (parts.now ≡ []) }
{
    place_from::<K, V, Brand>(parts, key, Blank::new(1))
}
